//! What a thread attempts, by what it waits for and by what its current frame is for (JVM Specification 2.5, 2.11, 5.5).

ghost use Rattle.std.specs.Prelude.{◌≡◌, ◌≢◌, ◌<◌, ◌≤◌, ◌^◌, Err, IfOk, IsSome, OnErr};
ghost use Rattle.mvm_current.specs.Code.{next_of};
ghost use Rattle.mvm_object.specs.declared.state.ThreadState.TheVariants.{Ready};
ghost use Rattle.mvm_current.specs.Keys.{top_named, AreKeys, IsStackOf, RunsMethod};
ghost use Rattle.mvm_invoke.specs.Leaving.{IsAfter, IsTold, Leaves, MayBegin};
ghost use Rattle.mvm_invoke.specs.declared.left.After.TheVariants.{Does};
ghost use Rattle.mvm_isolate.specs.Numbered.{name_at, look_of, named, IsClass};
ghost use Rattle.mvm_isolate.specs.Sound.{Grows};
ghost use Rattle.mvm_isolate.specs.declared.stop.Stop.TheVariants.{OutOfMemory};
ghost use Rattle.mvm_object.specs.Coming.{doing_named, point_of, IsState};
ghost use Rattle.mvm_object.specs.Going.{Context};
ghost use Rattle.mvm_locking.specs.Monitors.{monitor_taken};
ghost use Rattle.mvm_object.specs.Going.{in_isolate};
ghost use Rattle.mvm_starting.specs.Initialising.{initialise};
ghost use Rattle.mvm_starting.specs.Starting.{start};
ghost use Rattle.mvm_thread.specs.Attempt.{attempted, behind_call, for_frame};

use crate::instruction::instruction;
use crate::left::does;
use mvm_base::Steps;
use mvm_current::{Running, current_run, frames_law, next_of, set_place};
use mvm_frame::Stack;
use mvm_invoke::{Left, Told};
use mvm_isolate::{Isolate, Stop};
use mvm_locking::monitor_taken;
use mvm_native::Thrown;
use mvm_object::ThreadState;
use mvm_starting::{initialise, start};
use mvm_table::Table;
use std::sync::ledger::Ledger;

/// An attempt of a thread that starts.
#[tactic(auto, using(mvm_invoke::proofs::Telling::told_for))]
fn started<L: Ledger>(
    isolate: &mut Isolate,
    table: &Table,
    stack: &mut Stack,
    told: Told,
    steps: &mut Steps<L>,
) -> Result<Left, Stop>
    requires files { table.now.files ≡ isolate.old.files }
    requires frame { IsSome stack.old.rest.below.key }
    requires keys { AreKeys isolate.old stack.old }
    requires limits { IsStackOf isolate.old.env.launch.limits stack.old }
    requires thread { told.thread < 64 }
    ensures does { (c : Context) → IsTold c isolate.old told → Leaves result (start c (point_of isolate.old stack.old)) isolate.new stack.new }
    ensures grows { Grows isolate.old isolate.new }
    ensures links { isolate.new.env.links ≡ isolate.old.env.links }
    ensures keys { AreKeys isolate.new stack.new }
    ensures limits { IsStackOf isolate.new.env.launch.limits stack.new }
    ensures after { IfOk result (λ left. IsAfter isolate.new left.after) }
    ensures begins { IfOk result (λ left. MayBegin told.threads isolate.new.env.launch.limits.threads left.after) }
    ensures err { OnErr result (named isolate.new ≡ named isolate.old) }
    ensures rest { OnErr result (stack.new.rest ≡ stack.old.rest) }
    ensures depth { OnErr result (stack.new.operands.depth ≡ stack.old.operands.depth) }
    // Where memory ran out the stack is as before.
    ensures memory { result ≡ Err OutOfMemory → stack.new ≡ stack.old }
{
    match start(isolate, table, stack, told.thread, told.object, steps) {
        Ok(state) => Ok(does(told, state)),
        Err(stop) => Err(stop),
    }
}

/// An attempt of a thread whose current frame initialises the class of this number.
#[tactic(auto, using(mvm_invoke::proofs::Telling::told_for))]
fn initialised<L: Ledger>(
    isolate: &mut Isolate,
    table: &Table,
    stack: &mut Stack,
    told: Told,
    mirror: u32,
    steps: &mut Steps<L>,
) -> Result<Left, Stop>
    requires files { table.now.files ≡ isolate.old.files }
    requires frame { IsSome stack.old.rest.below.key }
    requires stage { stack.old.rest.pc ≢ 0 }
    requires class { IsClass isolate.old mirror }
    requires keys { AreKeys isolate.old stack.old }
    requires limits { IsStackOf isolate.old.env.launch.limits stack.old }
    requires thread { told.thread < 64 }
    ensures does { (c : Context) → IsTold c isolate.old told → Leaves result (initialise c (name_at isolate.old mirror) (point_of isolate.old stack.old)) isolate.new stack.new }
    ensures grows { Grows isolate.old isolate.new }
    ensures links { isolate.new.env.links ≡ isolate.old.env.links }
    ensures keys { AreKeys isolate.new stack.new }
    ensures limits { IsStackOf isolate.new.env.launch.limits stack.new }
    ensures after { IfOk result (λ left. IsAfter isolate.new left.after) }
    ensures begins { IfOk result (λ left. MayBegin told.threads isolate.new.env.launch.limits.threads left.after) }
    ensures err { OnErr result (named isolate.new ≡ named isolate.old) }
    ensures rest { OnErr result (stack.new.rest ≡ stack.old.rest) }
    ensures depth { OnErr result (stack.new.operands.depth ≡ stack.old.operands.depth) }
    // Where memory ran out the stack is as before.
    ensures memory { result ≡ Err OutOfMemory → stack.new ≡ stack.old }
{
    match initialise(isolate, table, stack, told.thread, mirror, steps) {
        Ok(state) => Ok(does(told, state)),
        Err(stop) => Err(stop),
    }
}

/// An attempt of a thread by what its current frame is for.
fn for_frame<L: Ledger>(
    isolate: &mut Isolate,
    table: &Table,
    stack: &mut Stack,
    told: Told,
    steps: &mut Steps<L>,
) -> Result<Left, Stop>
    requires files { table.now.files ≡ isolate.old.files }
    requires frame { IsSome stack.old.rest.below.key }
    requires keys { AreKeys isolate.old stack.old }
    requires limits { IsStackOf isolate.old.env.launch.limits stack.old }
    requires thread { told.thread < 64 }
    ensures does { (c : Context) → IsTold c isolate.old told → Leaves result (for_frame c (top_named isolate.old stack.old).runs (point_of isolate.old stack.old)) isolate.new stack.new }
    ensures grows { Grows isolate.old isolate.new }
    ensures links { isolate.new.env.links ≡ isolate.old.env.links }
    ensures keys { AreKeys isolate.new stack.new }
    ensures limits { IsStackOf isolate.new.env.launch.limits stack.new }
    ensures after { IfOk result (λ left. IsAfter isolate.new left.after) }
    ensures begins { IfOk result (λ left. MayBegin told.threads isolate.new.env.launch.limits.threads left.after) }
    ensures err { OnErr result (named isolate.new ≡ named isolate.old) }
    ensures rest { OnErr result (stack.new.rest ≡ stack.old.rest) }
    ensures depth { OnErr result (stack.new.operands.depth ≡ stack.old.operands.depth) }
    // Where memory ran out the stack is as before.
    ensures memory { result ≡ Err OutOfMemory → stack.new ≡ stack.old }
{
    match current_run(stack) {
        Running::Method => instruction(isolate, table, stack, told, steps),
        Running::Start => started(isolate, table, stack, told, steps),
        Running::Initialiser(mirror) => initialised(isolate, table, stack, told, mirror, steps),
    }
}

/// The place behind the call at the pc of the current frame.
///
/// # Errors
///
/// A `VerifyError` where it runs no method, or no instruction stands there.
#[tactic(auto, unfolding(mvm_current::specs::Code::next_of, mvm_current::specs::Code::code_of, mvm_current::specs::Code::method_of))]
fn behind(isolate: &Isolate, stack: &Stack) -> Result<u32, Stop>
    requires frame { IsSome stack.now.rest.below.key }
    requires keys { AreKeys isolate.now stack.now }
    ensures is { result ≡ next_of (look_of isolate.now) (top_named isolate.now stack.now) }
    ensures method { IfOk result (λ next. RunsMethod stack.now) }
{
    match current_run(stack) {
        Running::Method => next_of(isolate, stack),
        Running::Start | Running::Initialiser(_) => Err(Stop::Throw(Thrown::VerifyError)),
    }
}

/// What the thread waited for at a call has come about, and it goes on behind the call.
#[tactic(auto, using(crate::proofs::Waiting::behind_stops, mvm_isolate::proofs::Keeping::grows_same, mvm_invoke::proofs::Telling::keys_below))]
fn behind_call(isolate: &Isolate, stack: &mut Stack, told: Told) -> Result<Left, Stop>
    requires frame { IsSome stack.old.rest.below.key }
    requires keys { AreKeys isolate.now stack.old }
    requires limits { IsStackOf isolate.now.env.launch.limits stack.old }
    ensures does { (c : Context) → IsTold c isolate.now told → Leaves result (behind_call c (point_of isolate.now stack.old)) isolate.now stack.new }
    ensures keys { AreKeys isolate.now stack.new }
    ensures limits { IsStackOf isolate.now.env.launch.limits stack.new }
    ensures after { IfOk result (λ left. left.after ≡ Does Ready) }
    ensures stack { OnErr result (stack.new ≡ stack.old) }
{
    let next = behind(isolate, stack)?;
    set_place(stack, next);
    Ok(does(told, ThreadState::Ready))
}

/// The thread takes the monitor of an object again, as often as it had entered it, and goes on behind the call that waited.
#[tactic(auto, using(crate::proofs::Waiting::behind_stops, mvm_invoke::proofs::Telling::keys_below))]
fn taken_again(
    isolate: &mut Isolate,
    stack: &mut Stack,
    told: Told,
    object: u32,
    times: u64,
) -> Result<Left, Stop>
    requires frame { IsSome stack.old.rest.below.key }
    requires keys { AreKeys isolate.old stack.old }
    requires limits { IsStackOf isolate.old.env.launch.limits stack.old }
    requires thread { told.thread < 64 }
    requires few { times ≤ 2 ^ 32 }
    ensures does { (c : Context) → IsTold c isolate.old told → Leaves result (behind_call c (in_isolate (monitor_taken c.thread object times (named isolate.old)) (point_of isolate.old stack.old))) isolate.new stack.new }
    ensures grows { Grows isolate.old isolate.new }
    ensures links { isolate.new.env.links ≡ isolate.old.env.links }
    ensures keys { AreKeys isolate.new stack.new }
    ensures limits { IsStackOf isolate.new.env.launch.limits stack.new }
    ensures after { IfOk result (λ left. IsAfter isolate.new left.after) }
    ensures begins { IfOk result (λ left. MayBegin told.threads isolate.new.env.launch.limits.threads left.after) }
    ensures err { OnErr result (named isolate.new ≡ named isolate.old) }
    ensures stack { OnErr result (stack.new ≡ stack.old) }
{
    let place = behind(isolate, stack)?;
    monitor_taken(isolate, told.thread, object, times);
    frames_law();
    set_place(stack, place);
    Ok(does(told, ThreadState::Ready))
}

/// An attempt of a thread that does this. One that waited for a monitor or for a class makes its attempt anew; one that waited on an object takes the
/// monitor again (Java Language Specification, SE 8, 17.2.1).
#[tactic(auto, unfolding(crate::specs::Attempt::attempted), using(crate::proofs::Waiting::stays_left, mvm_isolate::proofs::Keeping::grows_same))]
pub(crate) fn attempted<L: Ledger>(
    isolate: &mut Isolate,
    table: &Table,
    stack: &mut Stack,
    told: Told,
    state: ThreadState,
    steps: &mut Steps<L>,
) -> Result<Left, Stop>
    requires files { table.now.files ≡ isolate.old.files }
    requires frame { IsSome stack.old.rest.below.key }
    requires state { IsState isolate.old state }
    requires keys { AreKeys isolate.old stack.old }
    requires limits { IsStackOf isolate.old.env.launch.limits stack.old }
    requires thread { told.thread < 64 }
    ensures does { (c : Context) → IsTold c isolate.old told → Leaves result (attempted c (doing_named isolate.old state) (point_of isolate.old stack.old)) isolate.new stack.new }
    ensures grows { Grows isolate.old isolate.new }
    ensures links { isolate.new.env.links ≡ isolate.old.env.links }
    ensures keys { AreKeys isolate.new stack.new }
    ensures limits { IsStackOf isolate.new.env.launch.limits stack.new }
    ensures after { IfOk result (λ left. IsAfter isolate.new left.after) }
    ensures begins { IfOk result (λ left. MayBegin told.threads isolate.new.env.launch.limits.threads left.after) }
    ensures err { OnErr result (named isolate.new ≡ named isolate.old) }
    ensures rest { OnErr result (stack.new.rest ≡ stack.old.rest) }
    ensures depth { OnErr result (stack.new.operands.depth ≡ stack.old.operands.depth) }
    // Where memory ran out the stack is as before.
    ensures memory { result ≡ Err OutOfMemory → stack.new ≡ stack.old }
{
    match state {
        ThreadState::Ready | ThreadState::Initing(_) | ThreadState::Entering(_, 0) => {
            for_frame(isolate, table, stack, told, steps)
        }
        ThreadState::Entering(object, times) => taken_again(isolate, stack, told, object, times),
        ThreadState::Joining(_) => behind_call(isolate, stack, told),
        ThreadState::Waiting(_, _)
        | ThreadState::Sending(_)
        | ThreadState::Receiving(_)
        | ThreadState::Asking
        | ThreadState::Ended => Ok(does(told, state)),
    }
}
