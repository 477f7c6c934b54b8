//! The frames in which classes are initialised (JVM Specification 5.5, steps 7 to 10).

ghost use Rattle.std.specs.Prelude.{◌≡◌, ◌≢◌, ◌∷◌, ◌++◌, ℕ, List, codes, None, Some, Ok, IsSome, IfOk, IfSome, OnErr, Result};
ghost use Rattle.std.specs.Option.{option_copied};
ghost use Rattle.mvm_frame.specs.Parts.{StackParts};
ghost use Rattle.mvm_current.specs.Frames.{method, LAST};
ghost use Rattle.mvm_current.specs.Keys.{runs_of, AreKeys, IsKey, IsStackOf};
ghost use Rattle.mvm_isolate.specs.Faults.{looked_up};
ghost use Rattle.mvm_isolate.specs.Initialise.{finished};
ghost use Rattle.mvm_isolate.specs.Members.{method_in};
ghost use Rattle.mvm_isolate.specs.Numbered.{look_of, name_at, named, IsClass};
ghost use Rattle.mvm_isolate.specs.Sound.{Grows};
ghost use Rattle.mvm_isolate.specs.Supers.{supers_of, with_code_in};
ghost use Rattle.mvm_isolate.specs.declared.stop.Stop.{Stop as StopOf};
ghost use Rattle.mvm_layout.specs.declared.parts.Member.{Member as MemberOf};
ghost use Rattle.mvm_member.specs.Members.{method_declared};
ghost use Rattle.mvm_object.specs.Beginning.{Begins, IsBegun};
ghost use Rattle.mvm_object.specs.Coming.{point_of, IsFor, IsState};
ghost use Rattle.mvm_object.specs.Going.{Context, Point, Went};
ghost use Rattle.mvm_set.specs.Names.{superclass, with_name};
ghost use Rattle.mvm_set.specs.declared.own.OwnWalk.{OwnWalk};
ghost use Rattle.mvm_starting.specs.Supers.{super_begun, GoesFirst};
ghost use Rattle.mvm_starting.specs.Left.{left_named, LeavesState};
ghost use Rattle.mvm_starting.specs.Initialising.{initialise, initialised, initialiser_called, initialiser_framed, initialiser_of, supers_first};

use mvm_base::{Name, Steps};
use mvm_classfile::{Code, Member};
use mvm_current::{NO_METHOD, enter_method, frames_law, key_of, leave, room, set_last_stage};
use mvm_frame::{FrameKey, Stack};
use mvm_initialise::begins;
use mvm_invoke::without_code;
use mvm_isolate::{Isolate, Stop};
use mvm_layout::flags::is_static;
use mvm_layout::pool::class_name;
use mvm_member::method_declared;
use mvm_native::Thrown;
use mvm_object::{Once, ThreadState, begun_by};
use mvm_set::{Class, Own, Shared, is_interface, own_name};
use mvm_table::Table;
use std::sync::ledger::Ledger;

/// The stage of an initialisation in which `<clinit>` was called.
const LAST: u32 = 2;

/// A super, whose class has this number, begins where nobody has begun it.
fn super_begun(
    isolate: &mut Isolate,
    stack: &mut Stack,
    thread: u32,
    mirror: u32,
) -> Result<Once, Stop>
    requires frame { IsSome stack.old.rest.below.key }
    requires keys { AreKeys isolate.old stack.old }
    requires limits { IsStackOf isolate.old.env.launch.limits stack.old }
    requires class { IsClass isolate.old mirror }
    ensures does { (c : Context) (go : Point → Result Went StopOf) → IsFor c isolate.old thread → Begins result (super_begun c (name_at isolate.old mirror) (point_of isolate.old stack.old) go) go isolate.new stack.new c.object }
    ensures begun { IfOk result (λ once. IsBegun (name_at isolate.old mirror) isolate.new stack.old stack.new once) }
    ensures frame { IsSome stack.new.rest.below.key }
    // Where it goes on nothing has changed by names.
    ensures same { (number : ℕ) → result ≡ Ok (Once.Goes number) → named isolate.new ≡ named isolate.old }
    ensures grows { Grows isolate.old isolate.new }
    ensures links { isolate.new.env.links ≡ isolate.old.env.links }
    ensures keys { AreKeys isolate.new stack.new }
    ensures limits { IsStackOf isolate.new.env.launch.limits stack.new }
    ensures err { OnErr result (named isolate.new ≡ named isolate.old) }
    ensures stack { OnErr result (stack.new ≡ stack.old) }
{
    let has_room = room(stack, 0, 0);
    match begins(isolate, has_room, thread, mirror) {
        Ok(way) => begun_by(isolate, stack, mirror, way),
        Err(stop) => Err(stop),
    }
}

/// The super of a name is initialised, before those of the names behind it. `None` is that the attempt goes on.
fn super_first<L: Ledger>(
    isolate: &mut Isolate,
    table: &Table,
    stack: &mut Stack,
    thread: u32,
    name: &Name,
    steps: &mut Steps<L>,
) -> Result<Option<ThreadState>, Stop>
    requires files { table.now.files ≡ isolate.old.files }
    requires frame { IsSome stack.old.rest.below.key }
    requires keys { AreKeys isolate.old stack.old }
    requires limits { IsStackOf isolate.old.env.launch.limits stack.old }
    ensures does { (c : Context) (names : List (List ℕ)) (go : Point → Result Went StopOf) → IsFor c isolate.old thread → GoesFirst result (supers_first c (name.now ∷ names) go (point_of isolate.old stack.old)) (supers_first c names go) isolate.new stack.new c.object }
    ensures grows { Grows isolate.old isolate.new }
    ensures links { isolate.new.env.links ≡ isolate.old.env.links }
    ensures keys { AreKeys isolate.new stack.new }
    ensures limits { IsStackOf isolate.new.env.launch.limits stack.new }
    ensures state { IfOk result (λ first. IfSome first (λ state. IsState isolate.new state)) }
    // Where it goes on nothing has changed by names.
    ensures same { result ≡ Ok None → named isolate.new ≡ named isolate.old }
    ensures stays { result ≡ Ok None → stack.new ≡ stack.old }
    ensures err { OnErr result (named isolate.new ≡ named isolate.old) }
    ensures stack { OnErr result (stack.new ≡ stack.old) }
{
    match isolate.load(table, name, steps) {
        Ok(mirror) => match super_begun(isolate, stack, thread, mirror) {
            Ok(Once::Goes(_)) => Ok(None),
            Ok(Once::Ends(state)) => Ok(Some(state)),
            Err(stop) => Err(stop),
        },
        Err(stop) => Err(stop),
    }
}

/// The same, where there may be no name.
fn named_first<L: Ledger>(
    isolate: &mut Isolate,
    table: &Table,
    stack: &mut Stack,
    thread: u32,
    name: Option<&Name>,
    steps: &mut Steps<L>,
) -> Result<Option<ThreadState>, Stop>
    requires files { table.now.files ≡ isolate.old.files }
    requires frame { IsSome stack.old.rest.below.key }
    requires keys { AreKeys isolate.old stack.old }
    requires limits { IsStackOf isolate.old.env.launch.limits stack.old }
    ensures does { (c : Context) (names : List (List ℕ)) (go : Point → Result Went StopOf) → IsFor c isolate.old thread → GoesFirst result (supers_first c (with_name (option_copied name.entry) names) go (point_of isolate.old stack.old)) (supers_first c names go) isolate.new stack.new c.object }
    ensures grows { Grows isolate.old isolate.new }
    ensures links { isolate.new.env.links ≡ isolate.old.env.links }
    ensures keys { AreKeys isolate.new stack.new }
    ensures limits { IsStackOf isolate.new.env.launch.limits stack.new }
    ensures state { IfOk result (λ first. IfSome first (λ state. IsState isolate.new state)) }
    // Where it goes on nothing has changed by names.
    ensures same { result ≡ Ok None → named isolate.new ≡ named isolate.old }
    ensures stays { result ≡ Ok None → stack.new ≡ stack.old }
    ensures err { OnErr result (named isolate.new ≡ named isolate.old) }
    ensures stack { OnErr result (stack.new ≡ stack.old) }
{
    match name {
        Some(name) => super_first(isolate, table, stack, thread, name, steps),
        None => Ok(None),
    }
}

/// The superclass is initialised, if there is one.
fn superclass_first<L: Ledger>(
    isolate: &mut Isolate,
    table: &Table,
    stack: &mut Stack,
    thread: u32,
    class: &Class,
    steps: &mut Steps<L>,
) -> Result<Option<ThreadState>, Stop>
    requires files { table.now.files ≡ isolate.old.files }
    requires frame { IsSome stack.old.rest.below.key }
    requires keys { AreKeys isolate.old stack.old }
    requires limits { IsStackOf isolate.old.env.launch.limits stack.old }
    ensures does { (c : Context) (names : List (List ℕ)) (go : Point → Result Went StopOf) → IsFor c isolate.old thread → GoesFirst result (supers_first c (superclass class.now.file ++ names) go (point_of isolate.old stack.old)) (supers_first c names go) isolate.new stack.new c.object }
    ensures grows { Grows isolate.old isolate.new }
    ensures links { isolate.new.env.links ≡ isolate.old.env.links }
    ensures keys { AreKeys isolate.new stack.new }
    ensures limits { IsStackOf isolate.new.env.launch.limits stack.new }
    ensures state { IfOk result (λ first. IfSome first (λ state. IsState isolate.new state)) }
    // Where it goes on nothing has changed by names.
    ensures same { result ≡ Ok None → named isolate.new ≡ named isolate.old }
    ensures stays { result ≡ Ok None → stack.new ≡ stack.old }
    ensures err { OnErr result (named isolate.new ≡ named isolate.old) }
    ensures stack { OnErr result (stack.new ≡ stack.old) }
{
    let parts = class.file().parts();
    let name = class_name(&parts.pool, parts.super_class);
    named_first(isolate, table, stack, thread, name, steps)
}

/// A superinterface is initialised, before those behind it, if it declares a method that is neither abstract nor static.
fn superinterface_first<L: Ledger>(
    isolate: &mut Isolate,
    table: &Table,
    stack: &mut Stack,
    thread: u32,
    own: &Own,
    steps: &mut Steps<L>,
) -> Result<Option<ThreadState>, Stop>
    requires files { table.now.files ≡ isolate.old.files }
    requires frame { IsSome stack.old.rest.below.key }
    requires keys { AreKeys isolate.old stack.old }
    requires limits { IsStackOf isolate.old.env.launch.limits stack.old }
    ensures does { (c : Context) (owns : List OwnWalk) (go : Point → Result Went StopOf) → IsFor c isolate.old thread → GoesFirst result (supers_first c (with_code_in (own.now ∷ owns)) go (point_of isolate.old stack.old)) (supers_first c (with_code_in owns) go) isolate.new stack.new c.object }
    ensures grows { Grows isolate.old isolate.new }
    ensures links { isolate.new.env.links ≡ isolate.old.env.links }
    ensures keys { AreKeys isolate.new stack.new }
    ensures limits { IsStackOf isolate.new.env.launch.limits stack.new }
    ensures state { IfOk result (λ first. IfSome first (λ state. IsState isolate.new state)) }
    // Where it goes on nothing has changed by names.
    ensures same { result ≡ Ok None → named isolate.new ≡ named isolate.old }
    ensures stays { result ≡ Ok None → stack.new ≡ stack.old }
    ensures err { OnErr result (named isolate.new ≡ named isolate.old) }
    ensures stack { OnErr result (stack.new ≡ stack.old) }
{
    if own.declares_concrete_instance_method() {
        named_first(isolate, table, stack, thread, own_name(own.file()), steps)
    } else {
        Ok(None)
    }
}

/// Such superinterfaces are initialised, in their order.
fn superinterfaces_first<L: Ledger>(
    isolate: &mut Isolate,
    table: &Table,
    stack: &mut Stack,
    thread: u32,
    owns: &[Shared<Own>],
    steps: &mut Steps<L>,
) -> Result<Option<ThreadState>, Stop>
    requires files { table.now.files ≡ isolate.old.files }
    requires frame { IsSome stack.old.rest.below.key }
    requires keys { AreKeys isolate.old stack.old }
    requires limits { IsStackOf isolate.old.env.launch.limits stack.old }
    ensures does { (c : Context) (go : Point → Result Went StopOf) → IsFor c isolate.old thread → GoesFirst result (supers_first c (with_code_in owns.now) go (point_of isolate.old stack.old)) go isolate.new stack.new c.object }
    ensures grows { Grows isolate.old isolate.new }
    ensures links { isolate.new.env.links ≡ isolate.old.env.links }
    ensures keys { AreKeys isolate.new stack.new }
    ensures limits { IsStackOf isolate.new.env.launch.limits stack.new }
    ensures state { IfOk result (λ first. IfSome first (λ state. IsState isolate.new state)) }
    // Where it goes on nothing has changed by names.
    ensures same { result ≡ Ok None → named isolate.new ≡ named isolate.old }
    ensures stays { result ≡ Ok None → stack.new ≡ stack.old }
    ensures err { OnErr result (named isolate.new ≡ named isolate.old) }
    ensures stack { OnErr result (stack.new ≡ stack.old) }
{
    for i in 0..owns.len() {
        let own = owns[i].get();
        match superinterface_first(isolate, table, stack, thread, own, steps) {
            Ok(None) => {}
            Ok(Some(state)) => return Ok(Some(state)),
            Err(stop) => return Err(stop),
        }
    }
    Ok(None)
}

/// The supers of a class are initialised, in their order.
#[tactic(auto, unfolding(mvm_isolate::specs::Supers::supers_of))]
fn supers_first<L: Ledger>(
    isolate: &mut Isolate,
    table: &Table,
    stack: &mut Stack,
    thread: u32,
    class: &Class,
    steps: &mut Steps<L>,
) -> Result<Option<ThreadState>, Stop>
    requires files { table.now.files ≡ isolate.old.files }
    requires frame { IsSome stack.old.rest.below.key }
    requires keys { AreKeys isolate.old stack.old }
    requires limits { IsStackOf isolate.old.env.launch.limits stack.old }
    ensures does { (c : Context) (go : Point → Result Went StopOf) → IsFor c isolate.old thread → GoesFirst result (supers_first c (supers_of class.now) go (point_of isolate.old stack.old)) go isolate.new stack.new c.object }
    ensures grows { Grows isolate.old isolate.new }
    ensures links { isolate.new.env.links ≡ isolate.old.env.links }
    ensures keys { AreKeys isolate.new stack.new }
    ensures limits { IsStackOf isolate.new.env.launch.limits stack.new }
    ensures state { IfOk result (λ first. IfSome first (λ state. IsState isolate.new state)) }
    // Where it goes on nothing has changed by names.
    ensures same { result ≡ Ok None → named isolate.new ≡ named isolate.old }
    ensures stays { result ≡ Ok None → stack.new ≡ stack.old }
    ensures err { OnErr result (named isolate.new ≡ named isolate.old) }
    ensures stack { OnErr result (stack.new ≡ stack.old) }
{
    if is_interface(class.file()) {
        return Ok(None);
    }
    match superclass_first(isolate, table, stack, thread, class, steps) {
        Ok(None) => {
            superinterfaces_first(
                isolate,
                table,
                stack,
                thread,
                class.superinterfaces(),
                steps,
            )
        }
        Ok(Some(state)) => Ok(Some(state)),
        Err(stop) => Err(stop),
    }
}

/// The class of a number is initialised.
#[tactic(auto, using(mvm_invoke::proofs::Telling::limits_grow))]
fn finished(isolate: &mut Isolate, mirror: u32)
    requires class { IsClass isolate.old mirror }
    ensures named { named isolate.new ≡ finished (name_at isolate.old mirror) (named isolate.old) }
    ensures grows { Grows isolate.old isolate.new }
    ensures links { isolate.new.env.links ≡ isolate.old.env.links }
    ensures limits { (stack : StackParts) → IsStackOf isolate.old.env.launch.limits stack → IsStackOf isolate.new.env.launch.limits stack }
{
    isolate.finish(mirror);
}

/// The class of a number is initialised, and its frame is left.
fn initialised(isolate: &mut Isolate, stack: &mut Stack, mirror: u32) -> ThreadState
    requires frame { IsSome stack.old.rest.below.key }
    requires keys { AreKeys isolate.old stack.old }
    requires limits { IsStackOf isolate.old.env.launch.limits stack.old }
    requires class { IsClass isolate.old mirror }
    ensures does { (c : Context) → left_named isolate.new stack.new c.object result ≡ initialised c (name_at isolate.old mirror) (point_of isolate.old stack.old) }
    ensures grows { Grows isolate.old isolate.new }
    ensures links { isolate.new.env.links ≡ isolate.old.env.links }
    ensures keys { AreKeys isolate.new stack.new }
    ensures limits { IsStackOf isolate.new.env.launch.limits stack.new }
    ensures state { IsState isolate.new result }
{
    frames_law();
    finished(isolate, mirror);
    leave(stack);
    ThreadState::Ready
}

/// The frame of a key, which runs this code, stands on the current one, in which a class is initialised, and which goes on with its last stage.
fn code_entered(
    isolate: &Isolate,
    stack: &mut Stack,
    key: FrameKey,
    code: &Code,
) -> Result<ThreadState, Stop>
    requires frame { IsSome stack.old.rest.below.key }
    requires keys { AreKeys isolate.now stack.old }
    requires limits { IsStackOf isolate.now.env.launch.limits stack.old }
    requires stage { stack.old.rest.pc ≢ 0 }
    requires key { IsKey isolate.now key }
    requires method { key.method ≢ NO_METHOD }
    ensures does { (c : Context) (class : List ℕ) (m : MemberOf) → c.launch.limits ≡ isolate.now.env.launch.limits → key.lock ≡ None → runs_of isolate.now key 0 ≡ method class (codes "<clinit>") (codes "()V") → LeavesState result (initialiser_framed c class m (Some code.now) (point_of isolate.now stack.old)) isolate.now stack.new c.object }
    ensures keys { AreKeys isolate.now stack.new }
    ensures limits { IsStackOf isolate.now.env.launch.limits stack.new }
    ensures state { IfOk result (λ state. IsState isolate.now state) }
    ensures stack { OnErr result (stack.new ≡ stack.old) }
{
    if !room(stack, code.max_locals, code.max_stack) {
        return Err(Stop::Throw(Thrown::StackOverflowError));
    }
    set_last_stage(stack);
    match enter_method(stack, key, code.max_locals, code.max_stack, 0) {
        Ok(()) => Ok(ThreadState::Ready),
        Err(_) => unreachable!(),
    }
}

/// The frame of the `<clinit>` of the class of a number stands on the current one.
fn initialiser_framed(
    isolate: &Isolate,
    stack: &mut Stack,
    mirror: u32,
    name: &Name,
    desc: &Name,
    member: &Member,
) -> Result<ThreadState, Stop>
    requires frame { IsSome stack.old.rest.below.key }
    requires keys { AreKeys isolate.now stack.old }
    requires limits { IsStackOf isolate.now.env.launch.limits stack.old }
    requires stage { stack.old.rest.pc ≢ 0 }
    requires class { IsClass isolate.now mirror }
    requires name { name.now ≡ codes "<clinit>" }
    requires desc { desc.now ≡ codes "()V" }
    requires declared { method_in (look_of isolate.now) (name_at isolate.now mirror) name.now desc.now ≡ Ok member.now }
    ensures does { (c : Context) → c.launch.limits ≡ isolate.now.env.launch.limits → LeavesState result (initialiser_framed c (name_at isolate.now mirror) member.now member.now.code (point_of isolate.now stack.old)) isolate.now stack.new c.object }
    ensures keys { AreKeys isolate.now stack.new }
    ensures limits { IsStackOf isolate.now.env.launch.limits stack.new }
    ensures state { IfOk result (λ state. IsState isolate.now state) }
    ensures stack { OnErr result (stack.new ≡ stack.old) }
{
    match &member.code {
        Some(code) => match key_of(isolate, mirror, name, desc, None) {
            Some(key) => code_entered(isolate, stack, key, code),
            None => unreachable!(),
        },
        None => Err(Stop::Throw(without_code(member))),
    }
}

/// This method is called, if there is one and it is static; else the class of the number is initialised.
fn initialiser_called(
    isolate: &mut Isolate,
    stack: &mut Stack,
    mirror: u32,
    name: &Name,
    desc: &Name,
    member: Option<&Member>,
) -> Result<ThreadState, Stop>
    requires frame { IsSome stack.old.rest.below.key }
    requires keys { AreKeys isolate.old stack.old }
    requires limits { IsStackOf isolate.old.env.launch.limits stack.old }
    requires stage { stack.old.rest.pc ≢ 0 }
    requires class { IsClass isolate.old mirror }
    requires name { name.now ≡ codes "<clinit>" }
    requires desc { desc.now ≡ codes "()V" }
    requires declared { IfSome member (λ member. method_in (look_of isolate.old) (name_at isolate.old mirror) name.now desc.now ≡ Ok member.now) }
    ensures does { (c : Context) → c.launch.limits ≡ isolate.old.env.launch.limits → LeavesState result (initialiser_called c (name_at isolate.old mirror) (option_copied member.entry) (point_of isolate.old stack.old)) isolate.new stack.new c.object }
    ensures grows { Grows isolate.old isolate.new }
    ensures links { isolate.new.env.links ≡ isolate.old.env.links }
    ensures keys { AreKeys isolate.new stack.new }
    ensures limits { IsStackOf isolate.new.env.launch.limits stack.new }
    ensures state { IfOk result (λ state. IsState isolate.new state) }
    ensures err { OnErr result (named isolate.new ≡ named isolate.old) }
    ensures stack { OnErr result (stack.new ≡ stack.old) }
{
    match member {
        Some(member) => {
            if is_static(member.flags) {
                initialiser_framed(isolate, stack, mirror, name, desc, member)
            } else {
                Ok(initialised(isolate, stack, mirror))
            }
        }
        None => Ok(initialised(isolate, stack, mirror)),
    }
}

/// `<clinit>` is called, where the class of a number has it; else the class is initialised.
#[tactic(auto, unfolding(mvm_member::specs::Members::method_declared, mvm_isolate::specs::Members::method_in))]
fn class_called(
    isolate: &mut Isolate,
    stack: &mut Stack,
    mirror: u32,
    class: &Class,
) -> Result<ThreadState, Stop>
    requires frame { IsSome stack.old.rest.below.key }
    requires keys { AreKeys isolate.old stack.old }
    requires limits { IsStackOf isolate.old.env.launch.limits stack.old }
    requires stage { stack.old.rest.pc ≢ 0 }
    requires class { IsClass isolate.old mirror }
    requires found { looked_up ((look_of isolate.old).class (name_at isolate.old mirror)) ≡ Ok class.now }
    ensures does { (c : Context) → c.launch.limits ≡ isolate.old.env.launch.limits → LeavesState result (initialiser_called c (name_at isolate.old mirror) (initialiser_of class.now.file) (point_of isolate.old stack.old)) isolate.new stack.new c.object }
    ensures grows { Grows isolate.old isolate.new }
    ensures links { isolate.new.env.links ≡ isolate.old.env.links }
    ensures keys { AreKeys isolate.new stack.new }
    ensures limits { IsStackOf isolate.new.env.launch.limits stack.new }
    ensures state { IfOk result (λ state. IsState isolate.new state) }
    ensures err { OnErr result (named isolate.new ≡ named isolate.old) }
    ensures stack { OnErr result (stack.new ≡ stack.old) }
{
    let name = Name::from_ascii(isolate.alloc(), "<clinit>")?;
    let desc = Name::from_ascii(isolate.alloc(), "()V")?;
    let member = method_declared(class, &name, &desc);
    initialiser_called(isolate, stack, mirror, &name, &desc, member)
}

/// The supers of the class of a number are initialised, then its `<clinit>` is called.
fn class_initialised<L: Ledger>(
    isolate: &mut Isolate,
    table: &Table,
    stack: &mut Stack,
    thread: u32,
    mirror: u32,
    class: &Class,
    steps: &mut Steps<L>,
) -> Result<ThreadState, Stop>
    requires files { table.now.files ≡ isolate.old.files }
    requires frame { IsSome stack.old.rest.below.key }
    requires keys { AreKeys isolate.old stack.old }
    requires limits { IsStackOf isolate.old.env.launch.limits stack.old }
    requires stage { stack.old.rest.pc ≢ 0 }
    requires class { IsClass isolate.old mirror }
    requires found { looked_up ((look_of isolate.old).class (name_at isolate.old mirror)) ≡ Ok class.now }
    ensures does { (c : Context) → IsFor c isolate.old thread → LeavesState result (supers_first c (supers_of class.now) (initialiser_called c (name_at isolate.old mirror) (initialiser_of class.now.file)) (point_of isolate.old stack.old)) isolate.new stack.new c.object }
    ensures grows { Grows isolate.old isolate.new }
    ensures links { isolate.new.env.links ≡ isolate.old.env.links }
    ensures keys { AreKeys isolate.new stack.new }
    ensures limits { IsStackOf isolate.new.env.launch.limits stack.new }
    ensures state { IfOk result (λ state. IsState isolate.new state) }
    ensures err { OnErr result (named isolate.new ≡ named isolate.old) }
    ensures stack { OnErr result (stack.new ≡ stack.old) }
{
    match supers_first(isolate, table, stack, thread, class, steps) {
        Ok(None) => class_called(isolate, stack, mirror, class),
        Ok(Some(state)) => Ok(state),
        Err(stop) => Err(stop),
    }
}

/// An attempt of a thread whose current frame initialises the class of this number, which is past the start of a thread.
///
/// # Errors
///
/// What is thrown where a super cannot begin, a `NoClassDefFoundError` where the initialisation of one failed, what is thrown for a `<clinit>` without
/// code, a `StackOverflowError`.
#[tactic(auto, unfolding(crate::specs::Initialising::initialise))]
pub fn initialise<L: Ledger>(
    isolate: &mut Isolate,
    table: &Table,
    stack: &mut Stack,
    thread: u32,
    mirror: u32,
    steps: &mut Steps<L>,
) -> Result<ThreadState, Stop>
    requires files { table.now.files ≡ isolate.old.files }
    requires frame { IsSome stack.old.rest.below.key }
    requires stage { stack.old.rest.pc ≢ 0 }
    requires class { IsClass isolate.old mirror }
    requires keys { AreKeys isolate.old stack.old }
    requires limits { IsStackOf isolate.old.env.launch.limits stack.old }
    ensures does { (c : Context) → IsFor c isolate.old thread → LeavesState result (initialise c (name_at isolate.old mirror) (point_of isolate.old stack.old)) isolate.new stack.new c.object }
    ensures grows { Grows isolate.old isolate.new }
    ensures links { isolate.new.env.links ≡ isolate.old.env.links }
    ensures keys { AreKeys isolate.new stack.new }
    ensures limits { IsStackOf isolate.new.env.launch.limits stack.new }
    ensures state { IfOk result (λ state. IsState isolate.new state) }
    ensures err { OnErr result (named isolate.new ≡ named isolate.old) }
    ensures stack { OnErr result (stack.new ≡ stack.old) }
{
    if stack.pc() == LAST {
        return Ok(initialised(isolate, stack, mirror));
    }
    match isolate.class(mirror).share() {
        Ok(class) => {
            let class = class.get();
            class_initialised(isolate, table, stack, thread, mirror, class, steps)
        }
        Err(_) => Err(Stop::OutOfMemory),
    }
}
