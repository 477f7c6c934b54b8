//! Static fields (JVM Specification 6.5: getstatic, putstatic).

ghost use Rattle.std.specs.Prelude.{◌≡◌, ◌≢◌, Ok, Err, IfErr, IfOk, IsSome, OnErr};
ghost use Rattle.mvm_base.specs.Answers.{Gives};
ghost use Rattle.mvm_base.specs.declared.value.Kind.TheVariants.{Ref};
ghost use Rattle.mvm_isolate.specs.Members.{is_declared};
ghost use Rattle.mvm_isolate.specs.Numbered.{look_of, name_at, named, IsClass};
ghost use Rattle.mvm_isolate.specs.Sound.{Grows};
ghost use Rattle.mvm_isolate.specs.declared.stop.Stop.{Stop as StopOf};
ghost use Rattle.mvm_isolate.specs.declared.stop.Stop.TheVariants.{OutOfMemory};
ghost use Rattle.mvm_current.specs.Keys.{top_named, AreKeys, IsStackOf, RunsMethod};
ghost use Rattle.mvm_current.specs.Values.{kind_of, may_push};
ghost use Rattle.mvm_object.specs.Coming.{point_of, Comes, GoesOn, IsFor, IsState};
ghost use Rattle.mvm_object.specs.Entries.{once_initialised};
ghost use Rattle.mvm_object.specs.Fields.{get_static, is_null, is_out, new_stream, put_static, static_popped, static_pushed, static_value};
ghost use Rattle.mvm_object.specs.Going.{Context};
ghost use Rattle.mvm_object.specs.Slots.{HasSlot, IsSlotOf};

use crate::going::{kind_by, pushing};
use crate::initialised::{Once, once_initialised};
use crate::state::ThreadState;
use mvm_base::{Kind, Steps, Word};
use mvm_current::{field_entry, may_push, may_store, pop, set_place};
use mvm_frame::Stack;
use mvm_isolate::{Isolate, Stop};
use mvm_layout::pool::same_text;
use mvm_member::{MemberName, field_named, static_place};
use mvm_mirror::slot_law;
use mvm_native::Thrown;
use mvm_table::Table;
use std::sync::ledger::Ledger;

/// The slot of the static field that the class of a number declares.
///
/// # Errors
///
/// A `VerifyError` where it declares none.
#[tactic(auto, unfolding(mvm_isolate::specs::Members::is_declared))]
fn slot_at(isolate: &Isolate, member: &MemberName<'_>, mirror: u32) -> Result<u32, Stop>
    requires class { IsClass isolate.now mirror }
    requires name { name_at isolate.now mirror ≡ member.now.class }
    ensures does { HasSlot result (is_declared (look_of isolate.now) member.now) }
    ensures slot { IfOk result (λ slot. IsSlotOf isolate.now mirror member.now slot) }
    ensures memory { IfErr result (λ stop. stop ≢ Stop.OutOfMemory) }
{
    slot_law();
    match static_place(isolate.class(mirror).get(), member.name(), member.desc()) {
        Some(slot) => Ok(slot),
        None => Err(Stop::Throw(Thrown::VerifyError)),
    }
}

/// Why a field is declared that has a slot.
#[tactic(auto, unfolding(mvm_isolate::specs::Members::is_declared))]
fn declared(isolate: &Isolate, member: &MemberName<'_>, mirror: u32, _slot: u32)
    requires class { IsClass isolate.now mirror }
    requires name { name_at isolate.now mirror ≡ member.now.class }
    requires slot { IsSlotOf isolate.now mirror member.now _slot }
    ensures is { is_declared (look_of isolate.now) member.now ≡ Ok tt }
{
    let _class = isolate.class(mirror);
}

/// Whether a field is `System.out`.
#[tactic(auto, unfolding(crate::specs::Fields::is_out))]
fn is_out(member: &MemberName<'_>) -> bool
    ensures { result ≡ is_out member.now }
{
    same_text(member.class().units(), b"java/lang/System")
        && same_text(member.name().units(), b"out")
}

fn is_null(word: Word) -> bool
    ensures { result ≡ is_null word }
{
    matches!(word, Word::Null)
}

/// A new stream, which from then on is the field's value. It takes no memory of the machine's own.
#[tactic(auto, unfolding(crate::specs::Fields::new_stream), using(mvm_isolate::proofs::Keeping::grows_then))]
fn new_stream(
    isolate: &mut Isolate,
    member: &MemberName<'_>,
    mirror: u32,
    slot: u32,
) -> Result<Word, Stop>
    requires class { IsClass isolate.old mirror }
    requires name { name_at isolate.old mirror ≡ member.now.class }
    requires slot { IsSlotOf isolate.old mirror member.now slot }
    ensures does { Gives result (new_stream member.now (named isolate.old)) (named isolate.new) }
    ensures err { OnErr result (named isolate.new ≡ named isolate.old) }
    ensures kind { IfOk result (λ word. kind_of word ≡ Ref) }
    ensures links { isolate.new.env.links ≡ isolate.old.env.links }
    ensures grows { Grows isolate.old isolate.new }
{
    let object = isolate.new_object(isolate.stream_class(), 0)?;
    isolate.set_static(mirror, slot, member.desc(), Word::Ref(object));
    Ok(Word::Ref(object))
}

/// The value of a static field. That of `System.out` is made where it is wanted for the first time, and fits on the operands.
#[tactic(auto, unfolding(crate::specs::Fields::static_value), using(mvm_isolate::proofs::Keeping::grows_same))]
fn static_value(
    isolate: &mut Isolate,
    stack: &Stack,
    member: &MemberName<'_>,
    mirror: u32,
    slot: u32,
) -> Result<Word, Stop>
    requires class { IsClass isolate.old mirror }
    requires name { name_at isolate.old mirror ≡ member.now.class }
    requires slot { IsSlotOf isolate.old mirror member.now slot }
    ensures does { Gives result (static_value (top_named isolate.old stack.now) member.now (named isolate.old)) (named isolate.new) }
    ensures err { OnErr result (named isolate.new ≡ named isolate.old) }
    // Where the value does not fit on the operands nothing has changed by names.
    ensures kept { IfOk result (λ word. (stop : StopOf) → may_push (kind_of word) (top_named isolate.old stack.now) ≡ Err stop → named isolate.new ≡ named isolate.old) }
    ensures links { isolate.new.env.links ≡ isolate.old.env.links }
    ensures grows { Grows isolate.old isolate.new }
{
    let value = isolate.get_static(mirror, slot);
    if is_out(member) && is_null(value) {
        may_push(stack, Kind::Ref)?;
        new_stream(isolate, member, mirror, slot)
    } else {
        Ok(value)
    }
}

/// The value of the static field of a slot, which the class of a number declares, is pushed.
///
/// # Errors
///
/// A `VerifyError` where it does not fit on the operands.
#[tactic(auto, unfolding(crate::specs::Fields::static_pushed), using(mvm_current::proofs::Growth::top_grows, mvm_current::proofs::Growth::callers_grow))]
pub fn static_pushed_at(
    isolate: &mut Isolate,
    stack: &mut Stack,
    member: &MemberName<'_>,
    mirror: u32,
    slot: u32,
    next: u32,
) -> Result<(), Stop>
    requires frame { IsSome stack.old.rest.below.key }
    requires method { RunsMethod stack.old }
    requires keys { AreKeys isolate.old stack.old }
    requires class { IsClass isolate.old mirror }
    requires name { name_at isolate.old mirror ≡ member.now.class }
    requires slot { IsSlotOf isolate.old mirror member.now slot }
    ensures does { (c : Context) → c.look ≡ look_of isolate.old → GoesOn result (static_pushed c next member.now (point_of isolate.old stack.old)) isolate.new stack.new c.object }
    ensures below { stack.new.rest.below ≡ stack.old.rest.below }
    ensures stack { OnErr result (stack.new ≡ stack.old) }
    ensures err { OnErr result (named isolate.new ≡ named isolate.old) }
    ensures links { isolate.new.env.links ≡ isolate.old.env.links }
    ensures grows { Grows isolate.old isolate.new }
{
    declared(isolate, member, mirror, slot);
    let value = static_value(isolate, stack, member, mirror, slot)?;
    pushing(stack, value, next)
}

/// The value of a static field that the class of a number declares is pushed.
#[tactic(auto, unfolding(crate::specs::Fields::static_pushed), using(mvm_current::proofs::Growth::top_grows, mvm_current::proofs::Growth::callers_grow))]
fn static_pushed(
    isolate: &mut Isolate,
    stack: &mut Stack,
    member: &MemberName<'_>,
    mirror: u32,
    next: u32,
) -> Result<(), Stop>
    requires frame { IsSome stack.old.rest.below.key }
    requires method { RunsMethod stack.old }
    requires keys { AreKeys isolate.old stack.old }
    requires class { IsClass isolate.old mirror }
    requires name { name_at isolate.old mirror ≡ member.now.class }
    ensures does { (c : Context) → c.look ≡ look_of isolate.old → GoesOn result (static_pushed c next member.now (point_of isolate.old stack.old)) isolate.new stack.new c.object }
    ensures below { stack.new.rest.below ≡ stack.old.rest.below }
    ensures stack { OnErr result (stack.new ≡ stack.old) }
    ensures err { OnErr result (named isolate.new ≡ named isolate.old) }
    ensures links { isolate.new.env.links ≡ isolate.old.env.links }
    ensures grows { Grows isolate.old isolate.new }
{
    let slot = slot_at(isolate, member, mirror)?;
    static_pushed_at(isolate, stack, member, mirror, slot, next)
}

/// The value that is popped is that of the static field of a slot, which the class of a number declares. It takes no memory.
///
/// # Errors
///
/// A `VerifyError` where no value of its kind is on top of the operands.
#[tactic(auto, unfolding(crate::specs::Fields::static_popped, mvm_current::specs::Keys::callers_named), using(mvm_current::proofs::Growth::top_grows, mvm_current::proofs::Growth::callers_grow, mvm_isolate::proofs::Keeping::grows_same))]
pub fn static_popped_at(
    isolate: &mut Isolate,
    stack: &mut Stack,
    member: &MemberName<'_>,
    mirror: u32,
    slot: u32,
    next: u32,
) -> Result<(), Stop>
    requires frame { IsSome stack.old.rest.below.key }
    requires method { RunsMethod stack.old }
    requires keys { AreKeys isolate.old stack.old }
    requires class { IsClass isolate.old mirror }
    requires name { name_at isolate.old mirror ≡ member.now.class }
    requires slot { IsSlotOf isolate.old mirror member.now slot }
    ensures does { (c : Context) → c.look ≡ look_of isolate.old → GoesOn result (static_popped c next member.now (point_of isolate.old stack.old)) isolate.new stack.new c.object }
    ensures below { stack.new.rest.below ≡ stack.old.rest.below }
    ensures rest { OnErr result (stack.new.rest ≡ stack.old.rest) }
    ensures depth { OnErr result (stack.new.operands.depth ≡ stack.old.operands.depth) }
    // Where memory ran out the stack is as before.
    ensures memory { result ≡ Err OutOfMemory → stack.new ≡ stack.old }
    ensures err { OnErr result (named isolate.new ≡ named isolate.old) }
    ensures links { isolate.new.env.links ≡ isolate.old.env.links }
    ensures grows { Grows isolate.old isolate.new }
{
    declared(isolate, member, mirror, slot);
    let value = pop(stack, kind_by(member.desc()))?;
    isolate.set_static(mirror, slot, member.desc(), value);
    set_place(stack, next);
    Ok(())
}

/// The value that is popped is that of a static field that the class of a number declares. It takes no memory.
#[tactic(auto, unfolding(crate::specs::Fields::static_popped, mvm_current::specs::Keys::callers_named), using(mvm_current::proofs::Growth::top_grows, mvm_current::proofs::Growth::callers_grow, mvm_isolate::proofs::Keeping::grows_same))]
fn static_popped(
    isolate: &mut Isolate,
    stack: &mut Stack,
    member: &MemberName<'_>,
    mirror: u32,
    next: u32,
) -> Result<(), Stop>
    requires frame { IsSome stack.old.rest.below.key }
    requires method { RunsMethod stack.old }
    requires keys { AreKeys isolate.old stack.old }
    requires class { IsClass isolate.old mirror }
    requires name { name_at isolate.old mirror ≡ member.now.class }
    ensures does { (c : Context) → c.look ≡ look_of isolate.old → GoesOn result (static_popped c next member.now (point_of isolate.old stack.old)) isolate.new stack.new c.object }
    ensures below { stack.new.rest.below ≡ stack.old.rest.below }
    ensures rest { OnErr result (stack.new.rest ≡ stack.old.rest) }
    ensures depth { OnErr result (stack.new.operands.depth ≡ stack.old.operands.depth) }
    // Where memory ran out the stack is as before.
    ensures memory { result ≡ Err OutOfMemory → stack.new ≡ stack.old }
    ensures err { OnErr result (named isolate.new ≡ named isolate.old) }
    ensures links { isolate.new.env.links ≡ isolate.old.env.links }
    ensures grows { Grows isolate.old isolate.new }
{
    let slot = slot_at(isolate, member, mirror)?;
    static_popped_at(isolate, stack, member, mirror, slot, next)
}

/// `getstatic` of a field.
#[tactic(auto, using(mvm_current::proofs::Growth::keys_grow, mvm_isolate::proofs::Keeping::grows_then))]
fn get_named<L: Ledger>(
    isolate: &mut Isolate,
    table: &Table,
    stack: &mut Stack,
    thread: u32,
    member: &MemberName<'_>,
    next: u32,
    steps: &mut Steps<L>,
) -> Result<ThreadState, Stop>
    requires files { table.now.files ≡ isolate.old.files }
    requires frame { IsSome stack.old.rest.below.key }
    requires method { RunsMethod stack.old }
    requires keys { AreKeys isolate.old stack.old }
    requires limits { IsStackOf isolate.old.env.launch.limits stack.old }
    ensures does { (c : Context) → IsFor c isolate.old thread → Comes result (once_initialised c member.now.class (point_of isolate.old stack.old) (static_pushed c next member.now)) isolate.new stack.new c.object }
    ensures state { IfOk result (IsState isolate.new) }
    ensures frame { IsSome stack.new.rest.below.key }
    ensures keys { AreKeys isolate.new stack.new }
    ensures limits { IsStackOf isolate.new.env.launch.limits stack.new }
    ensures stack { OnErr result (stack.new ≡ stack.old) }
    ensures err { OnErr result (named isolate.new ≡ named isolate.old) }
    ensures links { isolate.new.env.links ≡ isolate.old.env.links }
    ensures grows { Grows isolate.old isolate.new }
{
    match once_initialised(isolate, table, stack, thread, member.class(), steps)? {
        Once::Goes(mirror) => {
            static_pushed(isolate, stack, member, mirror, next)?;
            Ok(ThreadState::Ready)
        }
        Once::Ends(state) => Ok(state),
    }
}

/// `getstatic`.
///
/// # Errors
///
/// What is thrown for the first fault of the resolution, an `IncompatibleClassChangeError` where the field is not static, what is thrown for the first
/// fault of loading, linking or initialising its class, or a `VerifyError` for what linked code has not.
#[tactic(auto, unfolding(crate::specs::Fields::get_static))]
pub fn get_static<L: Ledger>(
    isolate: &mut Isolate,
    table: &Table,
    stack: &mut Stack,
    thread: u32,
    index: u16,
    next: u32,
    steps: &mut Steps<L>,
) -> Result<ThreadState, Stop>
    requires files { table.now.files ≡ isolate.old.files }
    requires frame { IsSome stack.old.rest.below.key }
    requires method { RunsMethod stack.old }
    requires keys { AreKeys isolate.old stack.old }
    requires limits { IsStackOf isolate.old.env.launch.limits stack.old }
    ensures does { (c : Context) → IsFor c isolate.old thread → Comes result (get_static c index next (point_of isolate.old stack.old)) isolate.new stack.new c.object }
    ensures state { IfOk result (IsState isolate.new) }
    ensures frame { IsSome stack.new.rest.below.key }
    ensures keys { AreKeys isolate.new stack.new }
    ensures limits { IsStackOf isolate.new.env.launch.limits stack.new }
    ensures stack { OnErr result (stack.new ≡ stack.old) }
    ensures err { OnErr result (named isolate.new ≡ named isolate.old) }
    ensures links { isolate.new.env.links ≡ isolate.old.env.links }
    ensures grows { Grows isolate.old isolate.new }
{
    let field = field_entry(isolate, table, true, stack, index, steps)?;
    match field_named(&field) {
        Some(member) => get_named(isolate, table, stack, thread, &member, next, steps),
        None => unreachable!(),
    }
}

/// `putstatic` of a field.
#[tactic(auto, using(mvm_current::proofs::Growth::keys_grow, mvm_isolate::proofs::Keeping::grows_then))]
fn put_named<L: Ledger>(
    isolate: &mut Isolate,
    table: &Table,
    stack: &mut Stack,
    thread: u32,
    member: &MemberName<'_>,
    next: u32,
    steps: &mut Steps<L>,
) -> Result<ThreadState, Stop>
    requires files { table.now.files ≡ isolate.old.files }
    requires frame { IsSome stack.old.rest.below.key }
    requires method { RunsMethod stack.old }
    requires keys { AreKeys isolate.old stack.old }
    requires limits { IsStackOf isolate.old.env.launch.limits stack.old }
    ensures does { (c : Context) → IsFor c isolate.old thread → Comes result (once_initialised c member.now.class (point_of isolate.old stack.old) (static_popped c next member.now)) isolate.new stack.new c.object }
    ensures state { IfOk result (IsState isolate.new) }
    ensures frame { IsSome stack.new.rest.below.key }
    ensures keys { AreKeys isolate.new stack.new }
    ensures limits { IsStackOf isolate.new.env.launch.limits stack.new }
    ensures rest { OnErr result (stack.new.rest ≡ stack.old.rest) }
    ensures depth { OnErr result (stack.new.operands.depth ≡ stack.old.operands.depth) }
    // Where memory ran out the stack is as before.
    ensures memory { result ≡ Err OutOfMemory → stack.new ≡ stack.old }
    ensures err { OnErr result (named isolate.new ≡ named isolate.old) }
    ensures links { isolate.new.env.links ≡ isolate.old.env.links }
    ensures grows { Grows isolate.old isolate.new }
{
    match once_initialised(isolate, table, stack, thread, member.class(), steps)? {
        Once::Goes(mirror) => {
            static_popped(isolate, stack, member, mirror, next)?;
            Ok(ThreadState::Ready)
        }
        Once::Ends(state) => Ok(state),
    }
}

/// `putstatic`.
///
/// # Errors
///
/// Those of [`get_static`], and an `IllegalAccessError` where the field is final and its class's `<clinit>` does not run.
#[tactic(auto, unfolding(crate::specs::Fields::put_static))]
pub fn put_static<L: Ledger>(
    isolate: &mut Isolate,
    table: &Table,
    stack: &mut Stack,
    thread: u32,
    index: u16,
    next: u32,
    steps: &mut Steps<L>,
) -> Result<ThreadState, Stop>
    requires files { table.now.files ≡ isolate.old.files }
    requires frame { IsSome stack.old.rest.below.key }
    requires method { RunsMethod stack.old }
    requires keys { AreKeys isolate.old stack.old }
    requires limits { IsStackOf isolate.old.env.launch.limits stack.old }
    ensures does { (c : Context) → IsFor c isolate.old thread → Comes result (put_static c index next (point_of isolate.old stack.old)) isolate.new stack.new c.object }
    ensures state { IfOk result (IsState isolate.new) }
    ensures frame { IsSome stack.new.rest.below.key }
    ensures keys { AreKeys isolate.new stack.new }
    ensures limits { IsStackOf isolate.new.env.launch.limits stack.new }
    ensures rest { OnErr result (stack.new.rest ≡ stack.old.rest) }
    ensures depth { OnErr result (stack.new.operands.depth ≡ stack.old.operands.depth) }
    // Where memory ran out the stack is as before.
    ensures memory { result ≡ Err OutOfMemory → stack.new ≡ stack.old }
    ensures err { OnErr result (named isolate.new ≡ named isolate.old) }
    ensures links { isolate.new.env.links ≡ isolate.old.env.links }
    ensures grows { Grows isolate.old isolate.new }
{
    let field = field_entry(isolate, table, true, stack, index, steps)?;
    match field_named(&field) {
        Some(member) => {
            may_store(isolate, stack, "<clinit>", &member)?;
            put_named(isolate, table, stack, thread, &member, next, steps)
        }
        None => unreachable!(),
    }
}
