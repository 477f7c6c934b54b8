ghost use Rattle.std.specs.Prelude.{◌≡◌, ◌<◌, ◌≤◌, ◌+◌, ◌^◌, length, true, None, All, IfOk, IfSome, IsOk, OnErr, Ok, Some};
ghost use Rattle.mvm_base.specs.Answers.{GivesUnless};
ghost use Rattle.mvm_initialise.specs.Arguments.{arguments_made, arguments_words, main_arguments, main_in, main_known, main_locked, AreThere, STRINGS};
ghost use Rattle.mvm_initialise.specs.Words.{has_words};
ghost use Rattle.mvm_heap.specs.Sorts.{words_needed};
ghost use Rattle.mvm_heap.specs.declared.kind.ObjectKind.TheVariants.{Object};
ghost use Rattle.mvm_initialise.specs.Constants.{IsShort};
ghost use Rattle.mvm_isolate.specs.Monitors.{with_monitor};
ghost use Rattle.mvm_isolate.specs.Numbered.{name_at, named, shape_at, IsArray, IsClass};
ghost use Rattle.mvm_isolate.specs.Sound.{Grows};
ghost use Rattle.mvm_isolate.specs.declared.stop.Stop.TheVariants as stop;

use crate::locks::monitor_entered;
use crate::texts::{arguments_fit, copied, lock_fits, make_arguments, texts_class};
use mvm_base::Name;
use mvm_heap::Monitor;
use mvm_isolate::{Isolate, Stop};
use mvm_native::Thrown;

/// What a synchronized main is called with.
#[derive(Clone, Copy, Debug, PartialEq, Eq)]
pub struct MainCall {
    /// The class object, of which the thread entered the monitor.
    pub lock: u32,
    /// The array of its arguments.
    pub arguments: u32,
}

/// What became of a thread that calls a synchronized main.
#[derive(Clone, Copy, Debug, PartialEq, Eq)]
pub enum MainLock {
    /// It entered the monitor, and the arguments are made.
    Entered(MainCall),
    /// Another thread owns the monitor of this object, the class object.
    Waits(u32),
}

/// The array of these arguments of main, where one frame more has to fit.
#[tactic(auto, unfolding(crate::specs::Arguments::main_arguments))]
fn arguments_of(isolate: &mut Isolate, room: bool, texts: &[Name], count: u32) -> Result<u32, Stop>
    requires { count ≡ length texts.now }
    ensures does { GivesUnless stop.OutOfMemory result (main_arguments texts.now room (named isolate.old)) (named isolate.new) }
    ensures there { IfOk result (λ array. array < length (named isolate.new).heap.objects) }
    ensures err { OnErr result (named isolate.new ≡ named isolate.old) }
    ensures links { isolate.new.env.links ≡ isolate.old.env.links }
    ensures grows { Grows isolate.old isolate.new }
{
    match arguments_fit(isolate, texts, count) {
        Ok(()) => {
            if !room {
                return Err(Stop::Throw(Thrown::StackOverflowError));
            }
            match texts_class(isolate) {
                Ok(row) => Ok(make_arguments(isolate, row, count, texts)),
                Err(_) => Err(Stop::OutOfMemory),
            }
        }
        Err(stop) => Err(stop),
    }
}

/// The array of the arguments that the launch has for main (JVM Specification 5.2). `room` says whether the frame of main fits, or that it has none.
///
/// # Errors
///
/// It throws `OutOfMemoryError` where words of the heap are missing for the array and its texts together, and then `StackOverflowError` where there
/// is no room.
pub fn main_arguments(isolate: &mut Isolate, room: bool) -> Result<u32, Stop>
    ensures does { GivesUnless stop.OutOfMemory result (main_arguments isolate.old.env.launch.args room (named isolate.old)) (named isolate.new) }
    ensures there { IfOk result (λ array. array < length (named isolate.new).heap.objects) }
    ensures err { OnErr result (named isolate.new ≡ named isolate.old) }
    ensures links { isolate.new.env.links ≡ isolate.old.env.links }
    ensures grows { Grows isolate.old isolate.new }
{
    let texts = match copied(isolate.alloc(), isolate.launch().args.as_slice()) {
        Ok(texts) => texts,
        Err(_) => return Err(Stop::OutOfMemory),
    };
    let Ok(count) = u32::try_from(texts.len()) else {
        return Err(Stop::OutOfMemory);
    };
    arguments_of(isolate, room, texts.as_slice(), count)
}

/// Enters a monitor, and makes the array of these arguments, of which the words are there.
fn entered_with(
    isolate: &mut Isolate,
    row: u32,
    object: u32,
    monitor: Monitor,
    texts: &[Name],
    count: u32,
) -> MainCall
    requires row { IsArray isolate.old row }
    requires shape { shape_at isolate.old row ≡ STRINGS }
    requires there { object < length (named isolate.old).heap.objects }
    requires owner { IfSome monitor.owner (λ thread. thread < 64) }
    requires entries { monitor.count ≤ 2 ^ 32 }
    requires count { count ≡ length texts.now }
    requires short { All IsShort texts.now }
    requires fits { IsOk (arguments_made texts.now (with_monitor object monitor (named isolate.old))) }
    ensures does { arguments_made texts.now (with_monitor object monitor (named isolate.old)) ≡ Ok (result.arguments, named isolate.new) }
    ensures lock { result.lock ≡ object }
    ensures there { result.arguments < length (named isolate.new).heap.objects }
    ensures lock_there { object < length (named isolate.new).heap.objects }
    ensures links { isolate.new.env.links ≡ isolate.old.env.links }
    ensures grows { Grows isolate.old isolate.new }
{
    isolate.set_monitor(object, monitor);
    let arguments = make_arguments(isolate, row, count, texts);
    MainCall {
        lock: object,
        arguments,
    }
}

/// The lock and the arguments of a call of a synchronized main, by the class object of its class, of which the thread may enter the monitor.
fn main_entered(
    isolate: &mut Isolate,
    room: bool,
    object: u32,
    monitor: Monitor,
    texts: &[Name],
    count: u32,
) -> Result<MainLock, Stop>
    requires there { object < length (named isolate.old).heap.objects }
    requires owner { IfSome monitor.owner (λ thread. thread < 64) }
    requires entries { monitor.count ≤ 2 ^ 32 }
    requires count { count ≡ length texts.now }
    ensures does { GivesUnless stop.OutOfMemory result (main_in texts.now room object (named isolate.old) (Some monitor)) (named isolate.new) }
    ensures there { IfOk result (λ lock. AreThere (named isolate.new) lock) }
    ensures err { OnErr result (named isolate.new ≡ named isolate.old) }
    ensures links { isolate.new.env.links ≡ isolate.old.env.links }
    ensures grows { Grows isolate.old isolate.new }
{
    match arguments_fit(isolate, texts, count) {
        Ok(()) => {
            if !room {
                return Err(Stop::Throw(Thrown::StackOverflowError));
            }
            match texts_class(isolate) {
                Ok(row) => Ok(MainLock::Entered(entered_with(
                    isolate, row, object, monitor, texts, count,
                ))),
                Err(_) => Err(Stop::OutOfMemory),
            }
        }
        Err(stop) => Err(stop),
    }
}

/// The same, where another thread may own the monitor.
#[tactic(auto, unfolding(crate::specs::Arguments::main_known))]
fn main_known(
    isolate: &mut Isolate,
    room: bool,
    thread: u32,
    object: u32,
    texts: &[Name],
    count: u32,
) -> Result<MainLock, Stop>
    requires thread { thread < 64 }
    requires count { count ≡ length texts.now }
    ensures does { GivesUnless stop.OutOfMemory result (main_known texts.now room thread object (named isolate.old)) (named isolate.new) }
    ensures there { IfOk result (λ lock. AreThere (named isolate.new) lock) }
    ensures err { OnErr result (named isolate.new ≡ named isolate.old) }
    ensures links { isolate.new.env.links ≡ isolate.old.env.links }
    ensures grows { Grows isolate.old isolate.new }
{
    match monitor_entered(isolate, thread, object) {
        Ok(Some(monitor)) => main_entered(isolate, room, object, monitor, texts, count),
        Ok(None) => Ok(MainLock::Waits(object)),
        Err(stop) => Err(stop),
    }
}

/// The same, where the class has no class object yet.
fn main_new(
    isolate: &mut Isolate,
    room: bool,
    thread: u32,
    mirror: u32,
    texts: &[Name],
    count: u32,
) -> Result<MainLock, Stop>
    requires there { IsClass isolate.old mirror }
    requires none { (named isolate.old).classes.objects (name_at isolate.old mirror) ≡ None }
    requires monitors { length (named isolate.old).heap.monitors ≡ length (named isolate.old).heap.objects }
    requires thread { thread < 64 }
    requires count { count ≡ length texts.now }
    ensures does { GivesUnless stop.OutOfMemory result (main_locked texts.now room thread (name_at isolate.old mirror) (named isolate.old)) (named isolate.new) }
    ensures there { IfOk result (λ lock. AreThere (named isolate.new) lock) }
    ensures err { OnErr result (named isolate.new ≡ named isolate.old) }
    ensures links { isolate.new.env.links ≡ isolate.old.env.links }
    ensures grows { Grows isolate.old isolate.new }
{
    match lock_fits(isolate, texts, count) {
        Ok(()) => {
            if !room {
                return Err(Stop::Throw(Thrown::StackOverflowError));
            }
            main_made(isolate, thread, mirror, texts, count)
        }
        Err(stop) => Err(stop),
    }
}

/// The lock of a class that has no class object yet, of which the words are there.
fn main_made(
    isolate: &mut Isolate,
    thread: u32,
    mirror: u32,
    texts: &[Name],
    count: u32,
) -> Result<MainLock, Stop>
    requires there { IsClass isolate.old mirror }
    requires none { (named isolate.old).classes.objects (name_at isolate.old mirror) ≡ None }
    requires monitors { length (named isolate.old).heap.monitors ≡ length (named isolate.old).heap.objects }
    requires thread { thread < 64 }
    requires count { count ≡ length texts.now }
    requires short { All IsShort texts.now }
    requires fits { Ok tt ≡ has_words (words_needed Object 0 + arguments_words texts.now) (named isolate.old) }
    ensures does { GivesUnless stop.OutOfMemory result (main_locked texts.now true thread (name_at isolate.old mirror) (named isolate.old)) (named isolate.new) }
    ensures there { IfOk result (λ lock. AreThere (named isolate.new) lock) }
    ensures err { OnErr result (named isolate.new ≡ named isolate.old) }
    ensures links { isolate.new.env.links ≡ isolate.old.env.links }
    ensures grows { Grows isolate.old isolate.new }
{
    let _class = isolate.class(mirror);
    let row = match texts_class(isolate) {
        Ok(row) => row,
        Err(_) => return Err(Stop::OutOfMemory),
    };
    match isolate.class_object(mirror) {
        Ok(object) => {
            let monitor = Monitor {
                owner: Some(thread),
                count: 1,
            };
            Ok(MainLock::Entered(entered_with(isolate, row, object, monitor, texts, count)))
        }
        Err(stop) => Err(stop),
    }
}

/// The lock of a call of a synchronized main, and these arguments.
fn locked_with(
    isolate: &mut Isolate,
    room: bool,
    thread: u32,
    mirror: u32,
    texts: &[Name],
    count: u32,
) -> Result<MainLock, Stop>
    requires there { IsClass isolate.old mirror }
    requires thread { thread < 64 }
    requires count { count ≡ length texts.now }
    ensures does { GivesUnless stop.OutOfMemory result (main_locked texts.now room thread (name_at isolate.old mirror) (named isolate.old)) (named isolate.new) }
    ensures there { IfOk result (λ lock. AreThere (named isolate.new) lock) }
    ensures err { OnErr result (named isolate.new ≡ named isolate.old) }
    ensures links { isolate.new.env.links ≡ isolate.old.env.links }
    ensures grows { Grows isolate.old isolate.new }
{
    // Each object has a monitor.
    let _count = isolate.count();
    match isolate.has_class_object(mirror) {
        Some(object) => main_known(isolate, room, thread, object, texts, count),
        None => main_new(isolate, room, thread, mirror, texts, count),
    }
}

/// The same for a synchronized main of the class of a number, with its lock: the class object, made where it was never wanted before, of which the
/// thread, one of 64, enters the monitor before the arguments are made.
///
/// # Errors
///
/// It throws `OutOfMemoryError` where words of the heap are missing for all of this together, and then `StackOverflowError` where there is no room,
/// unless the thread has to wait.
pub fn locked_main(
    isolate: &mut Isolate,
    room: bool,
    thread: u32,
    mirror: u32,
) -> Result<MainLock, Stop>
    requires there { IsClass isolate.old mirror }
    requires thread { thread < 64 }
    ensures does { GivesUnless stop.OutOfMemory result (main_locked isolate.old.env.launch.args room thread (name_at isolate.old mirror) (named isolate.old)) (named isolate.new) }
    ensures there { IfOk result (λ lock. AreThere (named isolate.new) lock) }
    ensures err { OnErr result (named isolate.new ≡ named isolate.old) }
    ensures links { isolate.new.env.links ≡ isolate.old.env.links }
    ensures grows { Grows isolate.old isolate.new }
{
    let texts = match copied(isolate.alloc(), isolate.launch().args.as_slice()) {
        Ok(texts) => texts,
        Err(_) => return Err(Stop::OutOfMemory),
    };
    let Ok(count) = u32::try_from(texts.len()) else {
        return Err(Stop::OutOfMemory);
    };
    locked_with(isolate, room, thread, mirror, texts.as_slice(), count)
}
