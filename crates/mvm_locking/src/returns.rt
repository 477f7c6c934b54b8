//! Returns (JVM Specification 6.5: ireturn, lreturn, areturn, return).

ghost use Rattle.std.specs.Prelude.{◌≡◌, ◌≢◌, ◌<◌, IfErr, IfOk, IfSome, IsSome, OnErr, OnOk, Err, Ok};
ghost use Rattle.std.specs.Option.{option_copied, option_map};
ghost use Rattle.mvm_base.specs.Answers.{AnswersUnless, Does};
ghost use Rattle.mvm_frame.specs.Calls.{room_of};
ghost use Rattle.mvm_isolate.specs.Numbered.{look_of, named, Numbered};
ghost use Rattle.mvm_isolate.specs.Sound.{Grows};
ghost use Rattle.mvm_isolate.specs.declared.stop.Stop.TheVariants.{OutOfMemory};
ghost use Rattle.mvm_current.specs.Keys.{callers_named, frames_named, lock_by, top_named, AreKeys, IsStackOf, RunsMethod};
ghost use Rattle.mvm_current.specs.Values.{kind_of};
ghost use Rattle.mvm_object.specs.Coming.{point_of};
ghost use Rattle.mvm_object.specs.Going.{Context};
ghost use Rattle.mvm_locking.specs.Monitors.{unlocked};
ghost use Rattle.mvm_locking.specs.Returned.{AwaitsMethod, HasRoom, LeavesFrames};
ghost use Rattle.mvm_locking.specs.Returns.{desc_at, is_kind, kind_of_result, popped_result, return_place, return_value, returned_from, returned_to, IsRunWith};

use crate::caller::{may_return_to, next_below, returned};
use crate::monitors::unlocked;
use mvm_base::{Kind, Name, Word};
use mvm_current::{kind_of_shape, pop, shape_of};
use mvm_frame::Stack;
use mvm_isolate::{Isolate, Stop};
use mvm_layout::pool::text;
use mvm_native::Thrown;
use mvm_set::Class;

/// The descriptor of the method of a place of a class.
fn desc_at(class: &Class, place: u16) -> Option<&Name>
    ensures { option_copied result ≡ desc_at place class.now }
{
    let parts = class.file().parts();
    match parts.methods.get(usize::from(place)) {
        Some(method) => text(&parts.pool, method.desc),
        None => None,
    }
}

/// The descriptor of the method that the current frame runs.
fn current_desc<'a>(isolate: &'a Isolate, stack: &Stack) -> &'a Name
    requires frame { IsSome stack.now.rest.below.key }
    requires method { RunsMethod stack.now }
    requires keys { AreKeys isolate.now stack.now }
    ensures { IsRunWith result.now (top_named isolate.now stack.now).runs }
{
    match stack.top() {
        Some(key) => match desc_at(isolate.class(key.mirror).get(), key.method) {
            Some(desc) => desc,
            None => unreachable!(),
        },
        None => unreachable!(),
    }
}

/// The kind of the result of the method that the current frame runs, if it has one.
fn kind_of_result(isolate: &Isolate, stack: &Stack) -> Result<Option<Kind>, Stop>
    requires frame { IsSome stack.now.rest.below.key }
    requires method { RunsMethod stack.now }
    requires keys { AreKeys isolate.now stack.now }
    ensures { AnswersUnless Stop.OutOfMemory result (kind_of_result (top_named isolate.now stack.now).runs) }
{
    match shape_of(isolate.alloc(), current_desc(isolate, stack)) {
        Ok(shape) => match &shape.result {
            Some(result) => Ok(Some(kind_of_shape(result))),
            None => Ok(None),
        },
        Err(stop) => Err(stop),
    }
}

/// Whether a result is of the kind that is wanted, or both are none.
fn is_kind(wanted: Option<Kind>, given: Option<Kind>) -> bool
    ensures { result ≡ is_kind wanted given }
{
    match wanted {
        Some(Kind::Int) => matches!(given, Some(Kind::Int)),
        Some(Kind::Long) => matches!(given, Some(Kind::Long)),
        Some(Kind::Ref) => matches!(given, Some(Kind::Ref)),
        None => given.is_none(),
    }
}

/// The place where the caller goes on, if it runs a method, of a return of a value of a kind, or of none.
///
/// # Errors
///
/// A `VerifyError` where that is no result of the method, or does not fit on the operands of the caller, or where no instruction stands at the
/// caller's call.
#[tactic(auto, unfolding(crate::specs::Returns::return_place))]
fn return_place(isolate: &Isolate, stack: &Stack, kind: Option<Kind>) -> Result<Option<u32>, Stop>
    requires frame { IsSome stack.now.rest.below.key }
    requires method { RunsMethod stack.now }
    requires keys { AreKeys isolate.now stack.now }
    ensures does { AnswersUnless Stop.OutOfMemory result (return_place (look_of isolate.now) kind (top_named isolate.now stack.now) (callers_named isolate.now stack.now)) }
    ensures room { OnOk result (HasRoom kind (room_of stack.now.rest.below.callers)) }
    ensures method { IfOk result (λ next. IfSome next (λ place. AwaitsMethod stack.now.rest.below.callers)) }
{
    match kind_of_result(isolate, stack) {
        Ok(result) => {
            if !is_kind(kind, result) {
                return Err(Stop::Throw(Thrown::VerifyError));
            }
            match may_return_to(stack, kind) {
                Ok(()) => next_below(isolate, stack),
                Err(stop) => Err(stop),
            }
        }
        Err(stop) => Err(stop),
    }
}

/// The value that is returned, which is popped, if there is one.
///
/// # Errors
///
/// A `VerifyError` where none of its kind is on top.
fn popped_result(stack: &mut Stack, kind: Option<Kind>) -> Result<Option<Word>, Stop>
    requires { IsSome stack.old.rest.below.key }
    ensures does { (n : Numbered) → result ≡ popped_result kind (top_named n stack.old) }
    ensures depth { stack.new.operands.depth ≡ stack.old.operands.depth }
    ensures rest { stack.new.rest ≡ stack.old.rest }
    ensures err { OnErr result (stack.new ≡ stack.old) }
    ensures memory { IfErr result (λ stop. stop ≢ Stop.OutOfMemory) }
{
    match kind {
        Some(kind) => match pop(stack, kind) {
            Ok(word) => Ok(Some(word)),
            Err(stop) => Err(stop),
        },
        None => Ok(None),
    }
}

/// The object whose monitor the call of the current frame entered.
fn current_lock(stack: &Stack) -> Option<u32>
    requires { IsSome stack.now.rest.below.key }
    ensures { result ≡ lock_by stack.now.rest.below.key }
{
    match stack.top() {
        Some(key) => key.lock,
        None => unreachable!(),
    }
}

/// The current frame is left with a value, which fits on the operands of the caller, or with none; its monitor is exited.
///
/// # Errors
///
/// An `IllegalMonitorStateException` where the thread, one of 64, does not own the monitor.
fn left_with(
    isolate: &mut Isolate,
    stack: &mut Stack,
    thread: u32,
    value: Option<Word>,
    next: Option<u32>,
) -> Result<(), Stop>
    requires frame { IsSome stack.old.rest.below.key }
    requires keys { AreKeys isolate.old stack.old }
    requires limits { IsStackOf isolate.old.env.launch.limits stack.old }
    requires thread { thread < 64 }
    requires room { HasRoom (option_map kind_of value) (room_of stack.old.rest.below.callers) }
    requires method { IfSome next (λ place. AwaitsMethod stack.old.rest.below.callers) }
    ensures unlocks { Does result (unlocked thread (lock_by stack.old.rest.below.key) (named isolate.old)) (named isolate.new) }
    ensures returns { OnOk result (returned_to value next (callers_named isolate.old stack.old) ≡ Ok (frames_named isolate.new stack.new)) }
    ensures keys { AreKeys isolate.new stack.new }
    ensures limits { IsStackOf isolate.new.env.launch.limits stack.new }
    ensures err { OnErr result (named isolate.new ≡ named isolate.old) }
    ensures stack { OnErr result (stack.new ≡ stack.old) }
    ensures memory { IfErr result (λ stop. stop ≢ Stop.OutOfMemory) }
    ensures links { isolate.new.env.links ≡ isolate.old.env.links }
    ensures grows { Grows isolate.old isolate.new }
{
    match unlocked(isolate, thread, current_lock(stack)) {
        Ok(()) => {
            returned(stack, value, next);
            Ok(())
        }
        Err(stop) => Err(stop),
    }
}

/// A return of a value of a kind, or of none, which fits on the operands of the caller.
///
/// # Errors
///
/// A `VerifyError` where no value of the kind is on top, or an `IllegalMonitorStateException`.
fn returned_from(
    isolate: &mut Isolate,
    stack: &mut Stack,
    thread: u32,
    kind: Option<Kind>,
    next: Option<u32>,
) -> Result<(), Stop>
    requires frame { IsSome stack.old.rest.below.key }
    requires keys { AreKeys isolate.old stack.old }
    requires limits { IsStackOf isolate.old.env.launch.limits stack.old }
    requires thread { thread < 64 }
    requires room { HasRoom kind (room_of stack.old.rest.below.callers) }
    requires method { IfSome next (λ place. AwaitsMethod stack.old.rest.below.callers) }
    ensures does { (c : Context) → c.thread ≡ thread → LeavesFrames result (returned_from c kind next (point_of isolate.old stack.old)) isolate.new stack.new c.object }
    ensures keys { AreKeys isolate.new stack.new }
    ensures limits { IsStackOf isolate.new.env.launch.limits stack.new }
    ensures err { OnErr result (named isolate.new ≡ named isolate.old) }
    ensures rest { OnErr result (stack.new.rest ≡ stack.old.rest) }
    ensures depth { OnErr result (stack.new.operands.depth ≡ stack.old.operands.depth) }
    ensures memory { IfErr result (λ stop. stop ≢ Stop.OutOfMemory) }
    ensures links { isolate.new.env.links ≡ isolate.old.env.links }
    ensures grows { Grows isolate.old isolate.new }
{
    match popped_result(stack, kind) {
        Ok(value) => left_with(isolate, stack, thread, value, next),
        Err(stop) => Err(stop),
    }
}

/// A return of a value of a kind, or of none, by a thread, one of 64. What is no value of the method's result, does not fit on the operands of
/// the caller, or leaves a monitor that the thread does not own, is found before anything is done.
///
/// # Errors
///
/// A `VerifyError` for what linked code has not, or an `IllegalMonitorStateException`.
#[tactic(auto, unfolding(crate::specs::Returns::return_value))]
pub fn return_value(
    isolate: &mut Isolate,
    stack: &mut Stack,
    thread: u32,
    kind: Option<Kind>,
) -> Result<(), Stop>
    requires frame { IsSome stack.old.rest.below.key }
    requires method { RunsMethod stack.old }
    requires keys { AreKeys isolate.old stack.old }
    requires limits { IsStackOf isolate.old.env.launch.limits stack.old }
    requires thread { thread < 64 }
    ensures does { (c : Context) → c.look ≡ look_of isolate.old → c.thread ≡ thread → LeavesFrames result (return_value c kind (point_of isolate.old stack.old)) isolate.new stack.new c.object }
    ensures keys { AreKeys isolate.new stack.new }
    ensures limits { IsStackOf isolate.new.env.launch.limits stack.new }
    ensures err { OnErr result (named isolate.new ≡ named isolate.old) }
    ensures rest { OnErr result (stack.new.rest ≡ stack.old.rest) }
    ensures depth { OnErr result (stack.new.operands.depth ≡ stack.old.operands.depth) }
    // Where memory ran out the stack is as before.
    ensures memory { result ≡ Err OutOfMemory → stack.new ≡ stack.old }
    ensures links { isolate.new.env.links ≡ isolate.old.env.links }
    ensures grows { Grows isolate.old isolate.new }
{
    match return_place(isolate, stack, kind) {
        Ok(next) => returned_from(isolate, stack, thread, kind, next),
        Err(stop) => Err(stop),
    }
}
