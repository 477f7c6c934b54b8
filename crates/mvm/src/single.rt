//! A class file run alone, by one isolate.

ghost use Rattle.std.specs.Prelude.{◌≡◌, ◌<◌, ◌≤◌, ◌^◌, [], ◌∷◌, length, IfOk, OnOk};
ghost use Rattle.mvm_interp.specs.Names.{names};
ghost use Rattle.mvm.specs.Running.{alone, end_or_stalled, files_of, goes_on, IsBlockOf, RunsOf, RunsOn, RunsTo};

use crate::outcome::Block;
use mvm_base::{List, Name, OutOfMemory, Steps};
use mvm_history::{End, Launch, Limits};
use mvm_interp::{TaskState, open_task};
use mvm_set::{ClassSet, SetRow};
use mvm_table::{SourceRow, Table};
use std::alloc::Global;
use std::marker::Brand;
use std::sync::ledger::{Blank, Ledger};

/// How many attempts a turn of the isolate has; nothing depends on it where there is one.
const QUANTUM: u32 = 10_000;

/// The source of the class file.
fn sources_of(alloc: Global, bytes: &[u8]) -> Result<List<SourceRow>, OutOfMemory>
    ensures { IfOk result (λ sources. sources ≡ record { bytes = bytes.now } ∷ []) }
{
    let mut sources = List::new(alloc);
    sources.push(SourceRow {
        bytes: List::from_slice(alloc, bytes)?,
    })?;
    Ok(sources)
}

/// The set that has the class file alone.
fn sets_of(alloc: Global, name: &Name) -> Result<List<ClassSet>, OutOfMemory>
    ensures { IfOk result (λ sets. sets ≡ (record { name = name.now; source = 0 } ∷ []) ∷ []) }
{
    let mut rows = List::new(alloc);
    rows.push(SetRow {
        name: name.copy()?,
        source: 0,
    })?;
    let mut sets = List::new(alloc);
    sets.push(ClassSet::new(alloc, rows)?)?;
    Ok(sets)
}

/// The table of the class file, beside the built-in classes.
fn table_of(alloc: Global, name: &Name, bytes: &[u8]) -> Result<Table, OutOfMemory>
    requires { length bytes.now < 2 ^ 32 }
    ensures { IfOk result (λ table. table.files ≡ files_of name.now bytes.now) }
{
    let sources = sources_of(alloc, bytes)?;
    let sets = sets_of(alloc, name)?;
    Table::new(alloc, sources, sets)
}

/// What the isolate is made from.
fn launch_of(alloc: Global, name: &Name) -> Result<Launch, OutOfMemory>
    ensures { IfOk result (λ launch. launch ≡ alone name.now) }
{
    Ok(Launch {
        number: 0,
        count: 1,
        set: 0,
        main: name.copy()?,
        args: List::new(alloc),
        start: true,
        limits: Limits::defaults(),
        quantum: QUANTUM,
        links: List::new(alloc),
    })
}

/// Whether an isolate has not ended, and its first thread can make an attempt.
#[tactic(auto, unfolding(crate::specs::Running::goes_on))]
fn goes_on(task: &TaskState) -> bool
    ensures { result ≡ goes_on (names task.now) }
{
    task.end().is_none() && task.can_step(0)
}

/// Makes attempts of the first thread as long as there are any.
fn run_on<L: Ledger>(
    task: &mut TaskState,
    table: &Table,
    steps: &mut Steps<L>,
) -> Result<(), OutOfMemory>
    requires files { table.now.files ≡ task.old.isolate.files }
    requires within { (names task.old).steps ≤ (names task.old).launch.limits.steps }
    ensures { OnOk result (RunsOn table.now.files (names task.old) (names task.new)) }
{
    'attempts: while goes_on(task) {
        task.step(0, table, steps)?;
    }
    Ok(())
}

fn end_or_stalled(end: Option<End>) -> End
    ensures { result ≡ end_or_stalled end }
{
    match end {
        Some(end) => end,
        None => End::Stalled,
    }
}

/// What is left of an isolate.
fn block_of(name: Name, task: TaskState) -> Result<Block, OutOfMemory>
    ensures { IfOk result (IsBlockOf name (names task)) }
{
    let end = end_or_stalled(task.end());
    let finished = task.finished()?;
    Ok(Block {
        main: name,
        output: finished.output,
        uncaught: finished.uncaught,
        end,
    })
}

/// The run of the class file of a table, at steps of a ledger that nobody reads.
#[tactic(auto, using(crate::proofs::Attempts::opened_within))]
fn run_counted<L: Ledger>(
    alloc: Global,
    table: &Table,
    name: Name,
    blank: Blank,
) -> Result<Block, OutOfMemory>
    requires name { blank.name ≡ L.name }
    requires parts { blank.parts ≡ L.parts }
    requires share { 0 < L.parts }
    requires set { 0 < length table.now.files }
    ensures { IfOk result (λ block. RunsOf table.now.files name block) }
{
    let mut steps = Steps::<L>::new(blank);
    let launch = launch_of(alloc, &name)?;
    let mut task = open_task(alloc, launch, table, &mut steps)?;
    run_on(&mut task, table, &mut steps)?;
    block_of(name, task)
}

/// Runs a class file of this name alone to its end, and gives what is left.
pub(crate) fn run(alloc: Global, name: &Name, bytes: &[u8]) -> Result<Block, OutOfMemory>
    requires { length bytes.now < 2 ^ 32 }
    ensures { IfOk result (RunsTo name.now bytes.now) }
{
    let table = table_of(alloc, name, bytes)?;
    run_counted::<Brand>(alloc, &table, name.copy()?, Blank::new(1))
}
