//! One instruction (JVM Specification 2.11, 6.5).

ghost use Rattle.std.specs.Prelude.{◌≡◌, ◌<◌, Err, IfOk, IsSome, OnErr, OnSome};
ghost use Rattle.mvm_current.specs.Keys.{AreKeys, IsStackOf, RunsMethod};
ghost use Rattle.mvm_invoke.specs.Leaving.{IsAfter, IsTold, Leaves, MayBegin};
ghost use Rattle.mvm_isolate.specs.Numbered.{look_of, named};
ghost use Rattle.mvm_isolate.specs.Sound.{Grows};
ghost use Rattle.mvm_isolate.specs.declared.stop.Stop.TheVariants.{OutOfMemory};
ghost use Rattle.mvm_object.specs.Coming.{point_of};
ghost use Rattle.mvm_object.specs.Going.{Context};
ghost use Rattle.mvm_thread.specs.Groups.{GoesFurther};
ghost use Rattle.mvm_thread.specs.Instructions.{instruction};

use crate::further::further;
use crate::left::does;
use mvm_base::Steps;
use mvm_current::{code_of, frames_law};
use mvm_frame::Stack;
use mvm_invoke::{Left, Told};
use mvm_isolate::{Isolate, Stop};
use mvm_local::{BeyondAt, Fault, run_local};
use mvm_native::Thrown;
use mvm_object::ThreadState;
use mvm_table::Table;
use std::sync::ledger::Ledger;

/// The instruction at the pc of the current frame, as far as it touches this frame alone.
///
/// # Errors
///
/// A `VerifyError`, and an `ArithmeticException` where an integer is divided by 0.
#[tactic(auto, unfolding(crate::specs::Instructions::instruction, mvm_current::specs::Keys::callers_named))]
fn in_frame(isolate: &Isolate, stack: &mut Stack) -> Result<Option<BeyondAt>, Stop>
    requires frame { IsSome stack.old.rest.below.key }
    requires method { RunsMethod stack.old }
    requires keys { AreKeys isolate.now stack.old }
    ensures does { (c : Context) → c.look ≡ look_of isolate.now → GoesFurther c result (instruction c (point_of isolate.now stack.old)) isolate.now stack.new }
    ensures below { stack.new.rest.below ≡ stack.old.rest.below }
    ensures beyond { IfOk result (λ further. OnSome further (stack.new ≡ stack.old)) }
    ensures rest { OnErr result (stack.new.rest ≡ stack.old.rest) }
    ensures depth { OnErr result (stack.new.operands.depth ≡ stack.old.operands.depth) }
    // Where memory ran out the stack is as before.
    ensures memory { result ≡ Err OutOfMemory → stack.new ≡ stack.old }
{
    let code = code_of(isolate, stack)?;
    frames_law();
    match run_local(stack, code.bytes.as_slice()) {
        Ok(further) => Ok(further),
        Err(Fault::Verify) => Err(Stop::Throw(Thrown::VerifyError)),
        Err(Fault::Arithmetic) => Err(Stop::Throw(Thrown::ArithmeticException)),
    }
}

/// The instruction at the pc of the current frame.
///
/// # Errors
///
/// What the instruction throws.
#[tactic(auto, using(mvm_invoke::proofs::Telling::limits_below, mvm_invoke::proofs::Telling::limits_grow, mvm_isolate::proofs::Keeping::grows_same))]
pub(crate) fn instruction<L: Ledger>(
    isolate: &mut Isolate,
    table: &Table,
    stack: &mut Stack,
    told: Told,
    steps: &mut Steps<L>,
) -> Result<Left, Stop>
    requires files { table.now.files ≡ isolate.old.files }
    requires frame { IsSome stack.old.rest.below.key }
    requires method { RunsMethod stack.old }
    requires keys { AreKeys isolate.old stack.old }
    requires limits { IsStackOf isolate.old.env.launch.limits stack.old }
    requires thread { told.thread < 64 }
    ensures does { (c : Context) → IsTold c isolate.old told → Leaves result (instruction c (point_of isolate.old stack.old)) isolate.new stack.new }
    ensures grows { Grows isolate.old isolate.new }
    ensures links { isolate.new.env.links ≡ isolate.old.env.links }
    ensures keys { AreKeys isolate.new stack.new }
    ensures limits { IsStackOf isolate.new.env.launch.limits stack.new }
    ensures after { IfOk result (λ left. IsAfter isolate.new left.after) }
    ensures begins { IfOk result (λ left. MayBegin told.threads isolate.new.env.launch.limits.threads left.after) }
    ensures err { OnErr result (named isolate.new ≡ named isolate.old) }
    ensures rest { OnErr result (stack.new.rest ≡ stack.old.rest) }
    ensures depth { OnErr result (stack.new.operands.depth ≡ stack.old.operands.depth) }
    // Where memory ran out the stack is as before.
    ensures memory { result ≡ Err OutOfMemory → stack.new ≡ stack.old }
{
    match in_frame(isolate, stack) {
        Ok(Some(at)) => further(isolate, table, stack, told, at.insn, at.next, steps),
        Ok(None) => Ok(does(told, ThreadState::Ready)),
        Err(stop) => Err(stop),
    }
}
