//! Instructions that name an entry of the constant pool (JVM Specification 6.5).

ghost use Rattle.std.specs.Prelude.{◌≡◌, ◌<◌, Err, IfOk, IsSome, OnErr};
ghost use Rattle.mvm_current.specs.Keys.{AreKeys, IsStackOf, RunsMethod};
ghost use Rattle.mvm_invoke.specs.Leaving.{IsAfter, IsTold, Leaves, MayBegin};
ghost use Rattle.mvm_isolate.specs.Numbered.{look_of, named};
ghost use Rattle.mvm_isolate.specs.Sound.{Grows};
ghost use Rattle.mvm_isolate.specs.declared.stop.Stop.TheVariants.{OutOfMemory};
ghost use Rattle.mvm_object.specs.Coming.{point_of, Comes, GoesOn, IsFor, IsState};
ghost use Rattle.mvm_object.specs.Going.{Context};
ghost use Rattle.mvm_thread.specs.Groups.{IsGoing, IsInitialising};
ghost use Rattle.mvm_thread.specs.Instructions.{on_entry};

use crate::action::Action;
use crate::left::does;
use mvm_base::Steps;
use mvm_frame::Stack;
use mvm_invoke::{Left, Told, invoke_special, invoke_static, invoke_virtual};
use mvm_isolate::{Isolate, Stop};
use mvm_native::Thrown;
use mvm_object::{
    ThreadState, check_cast, get_field, get_static, instance_of, load_constant, make_object,
    make_references, put_field, put_static,
};
use mvm_table::Table;
use std::sync::ledger::Ledger;

/// One with which the thread always goes on.
#[tactic(auto, unfolding(crate::specs::Instructions::on_entry), using(mvm_isolate::proofs::Keeping::grows_same))]
fn going<L: Ledger>(
    isolate: &mut Isolate,
    table: &Table,
    stack: &mut Stack,
    action: Action,
    index: u16,
    next: u32,
    steps: &mut Steps<L>,
) -> Result<(), Stop>
    requires files { table.now.files ≡ isolate.old.files }
    requires frame { IsSome stack.old.rest.below.key }
    requires method { RunsMethod stack.old }
    requires keys { AreKeys isolate.old stack.old }
    requires group { IsGoing action }
    ensures does { (c : Context) → c.look ≡ look_of isolate.old → GoesOn result (on_entry c action index next (point_of isolate.old stack.old)) isolate.new stack.new c.object }
    ensures below { stack.new.rest.below ≡ stack.old.rest.below }
    ensures err { OnErr result (named isolate.new ≡ named isolate.old) }
    ensures rest { OnErr result (stack.new.rest ≡ stack.old.rest) }
    ensures depth { OnErr result (stack.new.operands.depth ≡ stack.old.operands.depth) }
    // Where memory ran out the stack is as before.
    ensures memory { result ≡ Err OutOfMemory → stack.new ≡ stack.old }
    ensures grows { Grows isolate.old isolate.new }
    ensures links { isolate.new.env.links ≡ isolate.old.env.links }
{
    match action {
        Action::Constant => load_constant(isolate, table, stack, index, next, steps),
        Action::GetField => get_field(isolate, table, stack, index, next, steps),
        Action::PutField => put_field(isolate, table, stack, index, next, steps),
        Action::NewReferences => make_references(isolate, table, stack, index, next, steps),
        Action::CheckCast => check_cast(isolate, table, stack, index, next, steps),
        Action::InstanceOf => instance_of(isolate, table, stack, index, next, steps),
        _ => unreachable!(),
    }
}

/// One that a class has to be initialised for, which the thread may wait for.
#[tactic(auto, unfolding(crate::specs::Instructions::on_entry))]
fn initialising<L: Ledger>(
    isolate: &mut Isolate,
    table: &Table,
    stack: &mut Stack,
    thread: u32,
    action: Action,
    index: u16,
    next: u32,
    steps: &mut Steps<L>,
) -> Result<ThreadState, Stop>
    requires files { table.now.files ≡ isolate.old.files }
    requires frame { IsSome stack.old.rest.below.key }
    requires method { RunsMethod stack.old }
    requires keys { AreKeys isolate.old stack.old }
    requires limits { IsStackOf isolate.old.env.launch.limits stack.old }
    requires group { IsInitialising action }
    ensures does { (c : Context) → IsFor c isolate.old thread → Comes result (on_entry c action index next (point_of isolate.old stack.old)) isolate.new stack.new c.object }
    ensures state { IfOk result (IsState isolate.new) }
    ensures frame { IsSome stack.new.rest.below.key }
    ensures keys { AreKeys isolate.new stack.new }
    ensures limits { IsStackOf isolate.new.env.launch.limits stack.new }
    ensures err { OnErr result (named isolate.new ≡ named isolate.old) }
    ensures rest { OnErr result (stack.new.rest ≡ stack.old.rest) }
    ensures depth { OnErr result (stack.new.operands.depth ≡ stack.old.operands.depth) }
    // Where memory ran out the stack is as before.
    ensures memory { result ≡ Err OutOfMemory → stack.new ≡ stack.old }
    ensures grows { Grows isolate.old isolate.new }
    ensures links { isolate.new.env.links ≡ isolate.old.env.links }
{
    match action {
        Action::GetStatic => get_static(isolate, table, stack, thread, index, next, steps),
        Action::PutStatic => put_static(isolate, table, stack, thread, index, next, steps),
        Action::New => make_object(isolate, table, stack, thread, index, next, steps),
        _ => unreachable!(),
    }
}

/// An instruction that names an entry of the constant pool.
///
/// # Errors
///
/// What the instruction throws, and a `VerifyError` where there is no such instruction.
#[tactic(auto, unfolding(crate::specs::Instructions::on_entry), using(mvm_invoke::proofs::Telling::limits_below, mvm_invoke::proofs::Telling::limits_grow, mvm_isolate::proofs::Keeping::grows_same))]
pub(crate) fn on_entry<L: Ledger>(
    isolate: &mut Isolate,
    table: &Table,
    stack: &mut Stack,
    told: Told,
    action: Action,
    index: u16,
    next: u32,
    steps: &mut Steps<L>,
) -> Result<Left, Stop>
    requires files { table.now.files ≡ isolate.old.files }
    requires frame { IsSome stack.old.rest.below.key }
    requires method { RunsMethod stack.old }
    requires keys { AreKeys isolate.old stack.old }
    requires limits { IsStackOf isolate.old.env.launch.limits stack.old }
    requires thread { told.thread < 64 }
    ensures does { (c : Context) → IsTold c isolate.old told → Leaves result (on_entry c action index next (point_of isolate.old stack.old)) isolate.new stack.new }
    ensures grows { Grows isolate.old isolate.new }
    ensures links { isolate.new.env.links ≡ isolate.old.env.links }
    ensures keys { AreKeys isolate.new stack.new }
    ensures limits { IsStackOf isolate.new.env.launch.limits stack.new }
    ensures after { IfOk result (λ left. IsAfter isolate.new left.after) }
    ensures begins { IfOk result (λ left. MayBegin told.threads isolate.new.env.launch.limits.threads left.after) }
    ensures err { OnErr result (named isolate.new ≡ named isolate.old) }
    ensures rest { OnErr result (stack.new.rest ≡ stack.old.rest) }
    ensures depth { OnErr result (stack.new.operands.depth ≡ stack.old.operands.depth) }
    // Where memory ran out the stack is as before.
    ensures memory { result ≡ Err OutOfMemory → stack.new ≡ stack.old }
{
    match action {
        Action::Constant
        | Action::GetField
        | Action::PutField
        | Action::NewReferences
        | Action::CheckCast
        | Action::InstanceOf => {
            going(isolate, table, stack, action, index, next, steps)?;
            Ok(does(told, ThreadState::Ready))
        }
        Action::GetStatic | Action::PutStatic | Action::New => {
            let thread = told.thread;
            let state = initialising(isolate, table, stack, thread, action, index, next, steps)?;
            Ok(does(told, state))
        }
        Action::InvokeVirtual => invoke_virtual(isolate, table, stack, told, index, next, steps),
        Action::InvokeSpecial => invoke_special(isolate, table, stack, told, index, next, steps),
        Action::InvokeStatic => invoke_static(isolate, table, stack, told, index, next, steps),
        _ => Err(Stop::Throw(Thrown::VerifyError)),
    }
}
