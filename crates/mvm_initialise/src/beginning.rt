ghost use Rattle.std.specs.Prelude.{◌≡◌, Ok, Some, All, IsOk, OnErr, OnOk};
ghost use Rattle.mvm_base.specs.Answers.{AnswersUnless, GivesUnless};
ghost use Rattle.mvm_initialise.specs.Constants.{constant_texts, IsShort, MayBeSet};
ghost use Rattle.mvm_isolate.specs.Faults.{looked_up};
ghost use Rattle.mvm_isolate.specs.Initialise.{begins, constants_set, in_state, linked_first, links_and_begins};
ghost use Rattle.mvm_isolate.specs.Numbered.{class_at, look_of, name_at, named, IsClass};
ghost use Rattle.mvm_isolate.specs.Sound.{Grows};
ghost use Rattle.mvm_isolate.specs.declared.stop.Stop.TheVariants as stop;
ghost use Rattle.mvm_mirror.specs.States.{begun};
ghost use Rattle.mvm_mirror.specs.declared.state.InitState.TheVariants.{InProgress, NotBegun};

use crate::constants::{constants_fit, set_constants};
use mvm_base::{OutOfMemory, Steps};
use mvm_isolate::{Isolate, Stop};
use mvm_mirror::{Begin, InitState};
use mvm_native::Thrown;
use mvm_set::Class;
use mvm_table::Table;
use std::sync::ledger::Ledger;

/// A thread begins to initialise a class that nobody began, of which the constants can be set: they have their values from then on.
fn begin_class(
    isolate: &mut Isolate,
    thread: u32,
    mirror: u32,
    class: &Class,
) -> Result<(), OutOfMemory>
    requires there { IsClass isolate.old mirror }
    requires class { class_at isolate.old mirror ≡ Some class.now }
    requires state { (named isolate.old).classes.states (name_at isolate.old mirror) ≡ NotBegun }
    requires fits { MayBeSet class.now.file (named isolate.old).heap }
    requires short { All IsShort (constant_texts class.now.file.pool class.now.file.fields) }
    ensures does { OnOk result (constants_set (name_at isolate.old mirror) class.now.file class.now.file.fields (in_state (name_at isolate.old mirror) (InProgress thread) (named isolate.old)) ≡ Ok (named isolate.new)) }
    ensures err { OnErr result (named isolate.new ≡ named isolate.old) }
    ensures links { isolate.new.env.links ≡ isolate.old.env.links }
    ensures grows { Grows isolate.old isolate.new }
{
    let Ok(count) = u32::try_from(class.file().parts().fields.len()) else {
        return Err(OutOfMemory);
    };
    match isolate.reserve_texts(count) {
        Ok(()) => {
            isolate.begin(mirror, thread);
            set_constants(isolate, mirror, class);
            Ok(())
        }
        Err(refused) => Err(refused),
    }
}

/// The same, where the constants may not be set, or the frame may not fit.
fn run_class(
    isolate: &mut Isolate,
    room: bool,
    thread: u32,
    mirror: u32,
    class: &Class,
) -> Result<Begin, Stop>
    requires there { IsClass isolate.old mirror }
    requires class { class_at isolate.old mirror ≡ Some class.now }
    requires found { looked_up ((look_of isolate.old).class (name_at isolate.old mirror)) ≡ Ok class.now }
    requires state { (named isolate.old).classes.states (name_at isolate.old mirror) ≡ NotBegun }
    ensures does { GivesUnless stop.OutOfMemory result (begins (look_of isolate.old) room thread (name_at isolate.old mirror) (named isolate.old)) (named isolate.new) }
    ensures err { OnErr result (named isolate.new ≡ named isolate.old) }
    ensures links { isolate.new.env.links ≡ isolate.old.env.links }
    ensures grows { Grows isolate.old isolate.new }
{
    match constants_fit(isolate, class.file().parts()) {
        Ok(()) => {
            if !room {
                return Err(Stop::Throw(Thrown::StackOverflowError));
            }
            match begin_class(isolate, thread, mirror, class) {
                Ok(()) => Ok(Begin::Run),
                Err(_) => Err(Stop::OutOfMemory),
            }
        }
        Err(stop) => Err(stop),
    }
}

/// The same by the number of the class alone.
fn run(isolate: &mut Isolate, room: bool, thread: u32, mirror: u32) -> Result<Begin, Stop>
    requires there { IsClass isolate.old mirror }
    requires state { (named isolate.old).classes.states (name_at isolate.old mirror) ≡ NotBegun }
    ensures does { GivesUnless stop.OutOfMemory result (begins (look_of isolate.old) room thread (name_at isolate.old mirror) (named isolate.old)) (named isolate.new) }
    ensures err { OnErr result (named isolate.new ≡ named isolate.old) }
    ensures links { isolate.new.env.links ≡ isolate.old.env.links }
    ensures grows { Grows isolate.old isolate.new }
{
    match isolate.class(mirror).share() {
        Ok(class) => run_class(isolate, room, thread, mirror, class.get()),
        Err(_) => Err(Stop::OutOfMemory),
    }
}

/// What a thread does that wants a class in this state initialised (JVM Specification 5.5, steps 2 to 6).
fn begun(thread: u32, state: InitState) -> Begin
    ensures { result ≡ begun thread state }
{
    match state {
        InitState::NotBegun => Begin::Run,
        InitState::InProgress(other) => {
            if other == thread {
                Begin::Done
            } else {
                Begin::Wait
            }
        }
        InitState::Initialised => Begin::Done,
        InitState::Erroneous => Begin::Erroneous,
    }
}

/// What a thread does that wants the class of a number initialised (JVM Specification 5.5, steps 1 to 6): it goes on, waits, throws, or begins to
/// initialise it; then the class has the values of its constants. `room` says whether one frame more fits.
///
/// # Errors
///
/// It throws `OutOfMemoryError` where words of the heap are missing for the texts of the constants, and then `StackOverflowError` where
/// there is no room.
pub fn begins(isolate: &mut Isolate, room: bool, thread: u32, mirror: u32) -> Result<Begin, Stop>
    requires { IsClass isolate.old mirror }
    ensures does { GivesUnless stop.OutOfMemory result (begins (look_of isolate.old) room thread (name_at isolate.old mirror) (named isolate.old)) (named isolate.new) }
    ensures err { OnErr result (named isolate.new ≡ named isolate.old) }
    ensures links { isolate.new.env.links ≡ isolate.old.env.links }
    ensures grows { Grows isolate.old isolate.new }
{
    let _class = isolate.class(mirror);
    match begun(thread, isolate.state(mirror)) {
        Begin::Run => run(isolate, room, thread, mirror),
        Begin::Done => Ok(Begin::Done),
        Begin::Wait => Ok(Begin::Wait),
        Begin::Erroneous => Ok(Begin::Erroneous),
    }
}

/// Links a class that nobody began to initialise.
fn link<L: Ledger>(
    isolate: &Isolate,
    table: &Table,
    thread: u32,
    mirror: u32,
    steps: &mut Steps<L>,
) -> Result<(), Stop>
    requires files { table.now.files ≡ isolate.now.files }
    requires there { IsClass isolate.now mirror }
    ensures { AnswersUnless stop.OutOfMemory result (linked_first (look_of isolate.now) (name_at isolate.now mirror) (begun thread ((named isolate.now).classes.states (name_at isolate.now mirror)))) }
{
    match begun(thread, isolate.state(mirror)) {
        Begin::Run => isolate.linked(table, mirror, steps),
        Begin::Done => Ok(()),
        Begin::Wait => Ok(()),
        Begin::Erroneous => Ok(()),
    }
}

/// The same where the class may not have been linked: it is linked before a thread begins to initialise it.
///
/// # Errors
///
/// What is thrown for the first fault of its code, and then those of [`begins`].
pub fn links_and_begins<L: Ledger>(
    isolate: &mut Isolate,
    table: &Table,
    room: bool,
    thread: u32,
    mirror: u32,
    steps: &mut Steps<L>,
) -> Result<Begin, Stop>
    requires files { table.now.files ≡ isolate.old.files }
    requires there { IsClass isolate.old mirror }
    ensures does { GivesUnless stop.OutOfMemory result (links_and_begins (look_of isolate.old) room thread (name_at isolate.old mirror) (named isolate.old)) (named isolate.new) }
    ensures err { OnErr result (named isolate.new ≡ named isolate.old) }
    ensures links { isolate.new.env.links ≡ isolate.old.env.links }
    ensures grows { Grows isolate.old isolate.new }
{
    match link(isolate, table, thread, mirror, steps) {
        Ok(()) => begins(isolate, room, thread, mirror),
        Err(stop) => Err(stop),
    }
}
