//! Instructions without operands in the code that reach beyond their frame (JVM Specification 6.5).

ghost use Rattle.std.specs.Prelude.{◌≡◌, ◌<◌, Err, IfOk, IsSome, OnErr};
ghost use Rattle.mvm_current.specs.Keys.{AreKeys, IsStackOf, RunsMethod};
ghost use Rattle.mvm_invoke.specs.Leaving.{IsAfter, IsTold, Leaves, MayBegin};
ghost use Rattle.mvm_isolate.specs.Numbered.{named};
ghost use Rattle.mvm_isolate.specs.Sound.{Grows};
ghost use Rattle.mvm_isolate.specs.declared.stop.Stop.TheVariants.{OutOfMemory};
ghost use Rattle.mvm_object.specs.Coming.{point_of};
ghost use Rattle.mvm_locking.specs.Returns.{return_value};
ghost use Rattle.mvm_object.specs.Going.{Context};
ghost use Rattle.mvm_thread.specs.Instructions.{plain};

use crate::action::Action;
use crate::arrays::array_access;
use crate::left::does;
use mvm_base::{Kind, Steps};
use mvm_frame::Stack;
use mvm_invoke::{Left, Told};
use mvm_isolate::{Isolate, Stop};
use mvm_locking::{monitor_enter, monitor_exit, return_value};
use mvm_native::Thrown;
use mvm_object::{ThreadState, throw_object};
use mvm_table::Table;
use std::sync::ledger::Ledger;

/// The current method returns, with a value of this kind or none.
///
/// # Errors
///
/// A `VerifyError`, and an `IllegalMonitorStateException` where the thread does not own the monitor of the method.
#[tactic(auto)]
fn returned(
    isolate: &mut Isolate,
    stack: &mut Stack,
    told: Told,
    kind: Option<Kind>,
) -> Result<Left, Stop>
    requires frame { IsSome stack.old.rest.below.key }
    requires method { RunsMethod stack.old }
    requires keys { AreKeys isolate.old stack.old }
    requires limits { IsStackOf isolate.old.env.launch.limits stack.old }
    requires thread { told.thread < 64 }
    ensures does { (c : Context) → IsTold c isolate.old told → Leaves result (return_value c kind (point_of isolate.old stack.old)) isolate.new stack.new }
    ensures grows { Grows isolate.old isolate.new }
    ensures links { isolate.new.env.links ≡ isolate.old.env.links }
    ensures keys { AreKeys isolate.new stack.new }
    ensures limits { IsStackOf isolate.new.env.launch.limits stack.new }
    ensures after { IfOk result (λ left. IsAfter isolate.new left.after) }
    ensures begins { IfOk result (λ left. MayBegin told.threads isolate.new.env.launch.limits.threads left.after) }
    ensures err { OnErr result (named isolate.new ≡ named isolate.old) }
    ensures rest { OnErr result (stack.new.rest ≡ stack.old.rest) }
    ensures depth { OnErr result (stack.new.operands.depth ≡ stack.old.operands.depth) }
    // Where memory ran out the stack is as before.
    ensures memory { result ≡ Err OutOfMemory → stack.new ≡ stack.old }
{
    return_value(isolate, stack, told.thread, kind)?;
    Ok(does(told, ThreadState::Ready))
}

/// An instruction without operands in the code.
///
/// # Errors
///
/// What the instruction throws, and a `VerifyError` where there is no such instruction.
#[tactic(auto, unfolding(crate::specs::Instructions::plain), using(mvm_invoke::proofs::Telling::limits_below, mvm_invoke::proofs::Telling::limits_grow, mvm_isolate::proofs::Keeping::grows_same))]
pub(crate) fn plain<L: Ledger>(
    isolate: &mut Isolate,
    table: &Table,
    stack: &mut Stack,
    told: Told,
    action: Action,
    next: u32,
    steps: &mut Steps<L>,
) -> Result<Left, Stop>
    requires files { table.now.files ≡ isolate.old.files }
    requires frame { IsSome stack.old.rest.below.key }
    requires method { RunsMethod stack.old }
    requires keys { AreKeys isolate.old stack.old }
    requires limits { IsStackOf isolate.old.env.launch.limits stack.old }
    requires thread { told.thread < 64 }
    ensures does { (c : Context) → IsTold c isolate.old told → Leaves result (plain c action next (point_of isolate.old stack.old)) isolate.new stack.new }
    ensures grows { Grows isolate.old isolate.new }
    ensures links { isolate.new.env.links ≡ isolate.old.env.links }
    ensures keys { AreKeys isolate.new stack.new }
    ensures limits { IsStackOf isolate.new.env.launch.limits stack.new }
    ensures after { IfOk result (λ left. IsAfter isolate.new left.after) }
    ensures begins { IfOk result (λ left. MayBegin told.threads isolate.new.env.launch.limits.threads left.after) }
    ensures err { OnErr result (named isolate.new ≡ named isolate.old) }
    ensures rest { OnErr result (stack.new.rest ≡ stack.old.rest) }
    ensures depth { OnErr result (stack.new.operands.depth ≡ stack.old.operands.depth) }
    // Where memory ran out the stack is as before.
    ensures memory { result ≡ Err OutOfMemory → stack.new ≡ stack.old }
{
    let thread = told.thread;
    match action {
        Action::LoadItem(_) | Action::StoreItem(_) | Action::ArrayLength => {
            array_access(isolate, table, stack, action, next, steps)?;
            Ok(does(told, ThreadState::Ready))
        }
        Action::Throw => Err(throw_object(isolate, stack)),
        Action::EnterMonitor => {
            let state = monitor_enter(isolate, stack, thread, next)?;
            Ok(does(told, state))
        }
        Action::ExitMonitor => {
            monitor_exit(isolate, stack, thread, next)?;
            Ok(does(told, ThreadState::Ready))
        }
        Action::Return(kind) => returned(isolate, stack, told, Some(kind)),
        Action::ReturnNothing => returned(isolate, stack, told, None),
        _ => Err(Stop::Throw(Thrown::VerifyError)),
    }
}
