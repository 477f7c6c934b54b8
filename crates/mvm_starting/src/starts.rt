//! How a thread starts (JVM Specification 5.2; Java SE 8 API, java.lang.Thread).

ghost use Rattle.std.specs.Prelude.{◌≡◌, ◌<◌, IsSome, IfOk, OnErr};
ghost use Rattle.mvm_current.specs.Keys.{AreKeys, IsStackOf};
ghost use Rattle.mvm_isolate.specs.Numbered.{named};
ghost use Rattle.mvm_isolate.specs.Sound.{Grows};
ghost use Rattle.mvm_object.specs.Coming.{point_of, IsFor, IsState};
ghost use Rattle.mvm_object.specs.Going.{Context};
ghost use Rattle.mvm_starting.specs.Left.{LeavesState};
ghost use Rattle.mvm_starting.specs.Starting.{start};

use crate::mains::start_main;
use crate::runs::run_called;
use mvm_base::Steps;
use mvm_frame::Stack;
use mvm_isolate::{Isolate, Stop};
use mvm_native::Thrown;
use mvm_object::ThreadState;
use mvm_table::Table;
use std::sync::ledger::Ledger;

/// The first attempt of a thread, whose object is this: its one frame is that of a start. What may fail comes before anything changes.
///
/// # Errors
///
/// What is thrown where the main class can't be loaded, linked or initialised, or no run is selected; a `NoSuchMethodError` where there is no public
/// static main; what is thrown for a method without code; an `OutOfMemoryError`, a `StackOverflowError`; a `VerifyError` for what linked code has not.
#[tactic(auto, unfolding(crate::specs::Starting::start, crate::specs::Starting::start_run))]
pub fn start<L: Ledger>(
    isolate: &mut Isolate,
    table: &Table,
    stack: &mut Stack,
    thread: u32,
    object: Option<u32>,
    steps: &mut Steps<L>,
) -> Result<ThreadState, Stop>
    requires files { table.now.files ≡ isolate.old.files }
    requires frame { IsSome stack.old.rest.below.key }
    requires keys { AreKeys isolate.old stack.old }
    requires limits { IsStackOf isolate.old.env.launch.limits stack.old }
    requires thread { thread < 64 }
    ensures does { (c : Context) → IsFor c isolate.old thread → c.object ≡ object → LeavesState result (start c (point_of isolate.old stack.old)) isolate.new stack.new object }
    ensures grows { Grows isolate.old isolate.new }
    ensures links { isolate.new.env.links ≡ isolate.old.env.links }
    ensures keys { AreKeys isolate.new stack.new }
    ensures limits { IsStackOf isolate.new.env.launch.limits stack.new }
    ensures state { IfOk result (λ state. IsState isolate.new state) }
    ensures err { OnErr result (named isolate.new ≡ named isolate.old) }
    ensures stack { OnErr result (stack.new ≡ stack.old) }
{
    if thread == 0 {
        return start_main(isolate, table, stack, thread, steps);
    }
    match object {
        Some(object) => run_called(isolate, table, stack, thread, object, steps),
        None => Err(Stop::Throw(Thrown::VerifyError)),
    }
}
