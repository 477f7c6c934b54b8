//! Instructions that reach beyond their frame (JVM Specification 6.5).

ghost use Rattle.std.specs.Prelude.{◌≡◌, ◌<◌, Err, IfOk, IsSome, OnErr};
ghost use Rattle.mvm_current.specs.Keys.{AreKeys, IsStackOf, RunsMethod};
ghost use Rattle.mvm_invoke.specs.Leaving.{IsAfter, IsTold, Leaves, MayBegin};
ghost use Rattle.mvm_isolate.specs.Numbered.{named};
ghost use Rattle.mvm_isolate.specs.Sound.{Grows};
ghost use Rattle.mvm_isolate.specs.declared.stop.Stop.TheVariants.{OutOfMemory};
ghost use Rattle.mvm_object.specs.Coming.{point_of};
ghost use Rattle.mvm_object.specs.Going.{Context};
ghost use Rattle.mvm_thread.specs.Instructions.{further};

use crate::action_rows::action_of;
use crate::entries::on_entry;
use crate::left::does;
use crate::plain::plain;
use mvm_base::Steps;
use mvm_frame::Stack;
use mvm_invoke::{Left, Told, invoke_interface};
use mvm_isolate::{Isolate, Stop};
use mvm_local::Beyond;
use mvm_object::{ThreadState, make_arrays, make_numbers};
use mvm_table::Table;
use std::sync::ledger::Ledger;

/// An instruction that reaches beyond its frame.
///
/// # Errors
///
/// What the instruction throws.
#[tactic(auto, unfolding(crate::specs::Instructions::further), using(mvm_invoke::proofs::Telling::limits_below, mvm_invoke::proofs::Telling::limits_grow, mvm_isolate::proofs::Keeping::grows_same))]
pub(crate) fn further<L: Ledger>(
    isolate: &mut Isolate,
    table: &Table,
    stack: &mut Stack,
    told: Told,
    insn: Beyond,
    next: u32,
    steps: &mut Steps<L>,
) -> Result<Left, Stop>
    requires files { table.now.files ≡ isolate.old.files }
    requires frame { IsSome stack.old.rest.below.key }
    requires method { RunsMethod stack.old }
    requires keys { AreKeys isolate.old stack.old }
    requires limits { IsStackOf isolate.old.env.launch.limits stack.old }
    requires thread { told.thread < 64 }
    ensures does { (c : Context) → IsTold c isolate.old told → Leaves result (further c insn next (point_of isolate.old stack.old)) isolate.new stack.new }
    ensures grows { Grows isolate.old isolate.new }
    ensures links { isolate.new.env.links ≡ isolate.old.env.links }
    ensures keys { AreKeys isolate.new stack.new }
    ensures limits { IsStackOf isolate.new.env.launch.limits stack.new }
    ensures after { IfOk result (λ left. IsAfter isolate.new left.after) }
    ensures begins { IfOk result (λ left. MayBegin told.threads isolate.new.env.launch.limits.threads left.after) }
    ensures err { OnErr result (named isolate.new ≡ named isolate.old) }
    ensures rest { OnErr result (stack.new.rest ≡ stack.old.rest) }
    ensures depth { OnErr result (stack.new.operands.depth ≡ stack.old.operands.depth) }
    // Where memory ran out the stack is as before.
    ensures memory { result ≡ Err OutOfMemory → stack.new ≡ stack.old }
{
    match insn {
        Beyond::Plain { op } => { plain(isolate, table, stack, told, action_of(op), next, steps) }
        Beyond::Pool { op, index } => {
            let action = action_of(op);
            on_entry(isolate, table, stack, told, action, index, next, steps)
        }
        Beyond::Interface { index } => {
            invoke_interface(isolate, table, stack, told, index, next, steps)
        }
        Beyond::NewArray { kind } => {
            make_numbers(isolate, stack, kind, next)?;
            Ok(does(told, ThreadState::Ready))
        }
        Beyond::Multi { index, dims } => {
            make_arrays(isolate, table, stack, index, dims, next, steps)?;
            Ok(does(told, ThreadState::Ready))
        }
    }
}
