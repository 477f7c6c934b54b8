//! Isolates that have done nothing yet.

ghost use Rattle.std.specs.Prelude.{◌≡◌, ◌≤◌, ◌<◌, ◌+◌, ◌^◌, [], true, length, replicate, All, IfOk, OnOk};
ghost use Rattle.mvm_history.specs.Limits.{allowed};
ghost use Rattle.mvm_isolate.specs.Numbered.{named};
ghost use Rattle.mvm_isolate.specs.Sound.{Grows};
ghost use Rattle.mvm_current.specs.declared.limits.TheConstants.{MOST_FRAME_WORDS};
ghost use Rattle.mvm_native.specs.declared.out.Thrown.TheVariants.{OutOfMemoryError, StackOverflowError};
ghost use Rattle.mvm_object.specs.declared.state.ThreadState.TheVariants.{Ended};
ghost use Rattle.mvm_thread.specs.State.{opened};
ghost use Rattle.mvm_interp.specs.Names.{names};
ghost use Rattle.mvm_interp.specs.Opening.{unused, with_set_aside, IsUnused};

use crate::row::ThreadRow;
use crate::starting::begin_row;
use crate::task_state::TaskState;
use mvm_base::{Line, List, OutOfMemory, Steps};
use mvm_current::MOST_FRAME_WORDS;
use mvm_frame::Stack;
use mvm_heap::Heap;
use mvm_history::Launch;
use mvm_isolate::Isolate;
use mvm_monitor::WaitList;
use mvm_native::{Env, LinkUse, Thrown};
use mvm_object::ThreadState;
use mvm_region::{Region, RegionPool};
use mvm_table::Table;
use std::alloc::Global;
use std::sync::ledger::Ledger;

/// A row that no thread has, with room for so many frames.
fn unused_row(alloc: Global, frames: u32) -> Result<ThreadRow, OutOfMemory>
    ensures { IfOk result (IsUnused frames) }
{
    Ok(ThreadRow {
        state: ThreadState::Ended,
        stack: Stack::new(alloc, frames, MOST_FRAME_WORDS)?,
        object: None,
    })
}

/// So many rows that no thread has.
fn unused_rows(alloc: Global, threads: u32, frames: u32) -> Result<Vec<ThreadRow>, OutOfMemory>
    ensures length { IfOk result (λ rows. length rows.items ≡ threads) }
    ensures unused { IfOk result (λ rows. All (IsUnused frames) rows.items) }
{
    let mut rows = Vec::new(alloc);
    for _ in 0..threads {
        rows.push(unused_row(alloc, frames)?)?;
    }
    Ok(rows)
}

/// The region for the heap of an isolate: beside the words of its limit it has those of the two objects that are set aside.
#[tactic(auto, using(crate::proofs::Opened::ranges))]
fn new_region(alloc: Global, launch: &Launch) -> Result<Region, OutOfMemory>
    requires allowed { allowed launch.now.limits ≡ true }
    ensures whole { IfOk result (λ region. region.carved ≡ 0) }
    ensures words { IfOk result (λ region. length region.words ≡ launch.now.limits.heap + 8) }
{
    let mut pool = RegionPool::new(alloc, 0)?;
    let region = pool.take(launch.limits.heap as u32 + 8)?;
    Ok(region)
}

/// What an isolate is made of, before anything of it is used.
fn new_env(alloc: Global, launch: Launch, region: Region) -> Result<Env, OutOfMemory>
    requires whole { region.carved ≡ 0 }
    requires small { length region.words < 2 ^ 27 }
    requires few { launch.limits.threads ≤ 64 }
    ensures heap { IfOk result (λ env. env.heap.state ≡ record { objects = []; monitors = []; texts = []; size = length region.words }) }
    ensures output { IfOk result (λ env. env.output ≡ []) }
    ensures waits { IfOk result (λ env. env.waits ≡ record { threads = launch.limits.threads; waiters = [] }) }
    ensures launch { IfOk result (λ env. env.launch ≡ launch) }
    ensures links { IfOk result (λ env. env.links ≡ replicate (length launch.links) unused) }
{
    let heap = Heap::new(alloc, region)?;
    let waits = WaitList::new(alloc, launch.limits.threads as u32)?;
    let free = LinkUse {
        closed: false,
        sender: None,
        receiver: None,
    };
    let links = List::from_vec(vec![in alloc; free; launch.links.len()]?);
    Ok(Env {
        alloc,
        heap,
        output: Line::new(alloc),
        waits,
        launch,
        thread: 0,
        links,
    })
}

/// An error is set aside, without message and cause.
#[tactic(auto, using(crate::proofs::Opened::set_aside_is))]
fn set_aside(isolate: &mut Isolate, thrown: Thrown) -> Result<(), OutOfMemory>
    ensures named { OnOk result (named isolate.new ≡ with_set_aside thrown (named isolate.old)) }
    ensures links { isolate.new.env.links ≡ isolate.old.env.links }
    ensures grows { Grows isolate.old isolate.new }
{
    let class = isolate.thrown_class(thrown);
    match isolate.new_object(class, 2) {
        Ok(_) => Ok(()),
        Err(_) => Err(OutOfMemory),
    }
}

/// The objects for want of words and for want of frames are set aside.
fn set_both_aside(isolate: &mut Isolate) -> Result<(), OutOfMemory>
    ensures named { OnOk result (named isolate.new ≡ with_set_aside StackOverflowError (with_set_aside OutOfMemoryError (named isolate.old))) }
    ensures links { isolate.new.env.links ≡ isolate.old.env.links }
    ensures grows { Grows isolate.old isolate.new }
{
    set_aside(isolate, Thrown::OutOfMemoryError)?;
    set_aside(isolate, Thrown::StackOverflowError)?;
    Ok(())
}

/// An isolate that was launched so and has done nothing, with a heap of its own.
///
/// # Errors
///
/// `OutOfMemory` alone.
pub fn open_task<L: Ledger>(
    alloc: Global,
    launch: Launch,
    table: &Table,
    steps: &mut Steps<L>,
) -> Result<TaskState, OutOfMemory>
    requires allowed { allowed launch.limits ≡ true }
    requires set { launch.set < length table.now.files }
    ensures names { IfOk result (λ task. names task ≡ opened launch) }
    ensures files { IfOk result (λ task. task.isolate.files ≡ table.now.files) }
{
    let region = new_region(alloc, &launch)?;
    open_task_in(alloc, launch, region, table, steps)
}

/// An isolate that was launched so and has done nothing: its one thread is at its start. All its stacks are taken here, and its heap
/// is made of the region.
///
/// # Errors
///
/// `OutOfMemory` alone.
pub fn open_task_in<L: Ledger>(
    alloc: Global,
    launch: Launch,
    region: Region,
    table: &Table,
    steps: &mut Steps<L>,
) -> Result<TaskState, OutOfMemory>
    requires allowed { allowed launch.limits ≡ true }
    requires set { launch.set < length table.now.files }
    requires whole { region.carved ≡ 0 }
    requires words { length region.words ≡ launch.limits.heap + 8 }
    ensures names { IfOk result (λ task. names task ≡ opened launch) }
    ensures files { IfOk result (λ task. task.isolate.files ≡ table.now.files) }
{
    let threads = launch.limits.threads as u32;
    let frames = launch.limits.frames as u32;
    let mut rows = unused_rows(alloc, threads, frames)?;
    let env = new_env(alloc, launch, region)?;
    let mut isolate = Isolate::new(env, table, steps)?;
    set_both_aside(&mut isolate)?;
    begin_row(&isolate, &mut rows[0], None);
    Ok(TaskState {
        isolate,
        rows,
        count: 1,
        ended: 0,
        last: None,
        steps: 0,
        message_bytes: 0,
        uncaught: List::new(alloc),
        unread: None,
        act: None,
        end: None,
    })
}
