// Programs of several classes, run by attempts of their threads in turn, under limits of their own.
ghost use Rattle.std.specs.Prelude.{◌≡◌, ◌∷◌, [], ◌<◌, ◌^◌, length, true, All, IfOk, IfSome};
ghost use Rattle.mvm_history.specs.Limits.{allowed};
ghost use Rattle.mvm_interp.specs.Names.{names};
ghost use Rattle.mvm_table.specs.Contents.{AreShort};
ghost use Rattle.mvm_thread.specs.State.{can_step};

use crate::outcome::{Block, Outcome};
use crate::report::report;
use mvm_asm::assemble;
use mvm_base::{Line, List, Name, Steps};
use mvm_classfile::write_class;
use mvm_history::{End, Launch, Limits};
use mvm_interp::{TaskState, open_task};
use mvm_set::{ClassSet, SetRow};
use mvm_table::{SourceRow, Table};
use std::alloc::{AllocError, Global};
use std::marker::Brand;
use std::sync::ledger::{Blank, Ledger};
use std::test::Fail;

// How many attempts a program of a row may make.
const MOST_ATTEMPTS: u32 = 2_000_000;

// How many bytes a text of a row may have.
const MOST_BYTES: usize = 1_000_000;

// What is run: classes by their names, each as a text, the name of the main class, what `main` is given, and the limits.
#[derive(Drop)]
pub(crate) struct Program<'a> {
    pub classes: &'a [(&'a str, &'a str)],
    pub main: &'a str,
    pub args: &'a [&'a str],
    pub limits: Limits,
}

// What a run leaves: the report of the isolate, and how many attempts it made.
#[derive(Drop)]
pub(crate) struct Left {
    pub report: Line,
    pub steps: u64,
}

// The class file that a text says.
fn source_of(alloc: Global, text: &str) -> Result<SourceRow, Fail>
    ensures { IfOk result (λ source. length source.bytes < 2 ^ 32) }
{
    if text.len() > MOST_BYTES {
        return Err(Fail::from(AllocError));
    }
    let class = assemble(alloc, text.as_bytes())?;
    let bytes = write_class(alloc, &class)?;
    if bytes.len() > MOST_BYTES {
        return Err(Fail::from(AllocError));
    }
    Ok(SourceRow { bytes })
}

// The class files that texts say.
fn sources_of(alloc: Global, classes: &[(&str, &str)]) -> Result<List<SourceRow>, Fail>
    ensures { IfOk result (λ sources. AreShort sources) }
{
    let mut sources = List::new(alloc);
    for (_, text) in classes {
        sources.push(source_of(alloc, text)?)?;
    }
    Ok(sources)
}

// The set of the classes, by their names.
fn set_of(alloc: Global, classes: &[(&str, &str)]) -> Result<ClassSet, Fail> {
    let mut rows = List::new(alloc);
    let mut source = 0;
    for (name, _) in classes {
        rows.push(SetRow {
            name: Name::from_ascii(alloc, name)?,
            source,
        })?;
        source = source.saturating_add(1);
    }
    Ok(ClassSet::new(alloc, rows)?)
}

// The table of one set that has the classes, beside the built-in classes.
fn table_of(alloc: Global, classes: &[(&str, &str)]) -> Result<Table, Fail>
    ensures { IfOk result (λ table. 0 < length table.files) }
{
    let sources = sources_of(alloc, classes)?;
    let mut sets = List::new(alloc);
    sets.push(set_of(alloc, classes)?)?;
    Ok(Table::new(alloc, sources, sets)?)
}

// Texts as names.
fn names_of(alloc: Global, texts: &[&str]) -> Result<List<Name>, Fail> {
    let mut names = List::new(alloc);
    for text in texts {
        names.push(Name::from_ascii(alloc, text)?)?;
    }
    Ok(names)
}

// What the isolate of a program is made from.
fn launch_of(alloc: Global, program: &Program<'_>) -> Result<Launch, Fail>
    ensures allowed { IfOk result (λ launch. allowed launch.limits ≡ true) }
    ensures set { IfOk result (λ launch. launch.set ≡ 0) }
{
    if !program.limits.are_allowed() {
        return Err(Fail::from(AllocError));
    }
    Ok(Launch {
        number: 0,
        count: 1,
        set: 0,
        main: Name::from_ascii(alloc, program.main)?,
        args: names_of(alloc, program.args)?,
        start: true,
        limits: program.limits,
        quantum: 1,
        links: List::new(alloc),
    })
}

// The thread whose turn it is behind this one: the next in the circle that can make an attempt.
fn next_thread(task: &TaskState, last: u32) -> Option<u32>
    ensures { IfSome result (λ thread. can_step (names task.now) thread ≡ true) }
{
    let mut thread = last;
    for _ in 0..task.threads() {
        let next = thread.saturating_add(1);
        thread = if next < task.threads() { next } else { 0 };
        if task.can_step(thread) {
            return Some(thread);
        }
    }
    None
}

// One attempt of the thread whose turn it is behind this one, and which it was. There is none where the isolate has ended, where no
// thread can make one, or where one wants something of the world outside.
fn attempt<L: Ledger>(
    task: &mut TaskState,
    table: &Table,
    last: u32,
    steps: &mut Steps<L>,
) -> Result<Option<u32>, Fail>
    requires files { table.now.files ≡ task.old.isolate.files }
    ensures files { task.new.isolate.files ≡ task.old.isolate.files }
{
    if task.end().is_some() || task.act().is_some() {
        return Ok(None);
    }
    let next = next_thread(task, last);
    if let Some(thread) = next {
        task.step(thread, table, steps)?;
    }
    Ok(next)
}

// Makes attempts of all threads in turn as long as there are any.
fn run_on<L: Ledger>(task: &mut TaskState, table: &Table, steps: &mut Steps<L>) -> Result<(), Fail>
    requires files { table.now.files ≡ task.old.isolate.files }
{
    let mut last = 0;
    for _ in 0..MOST_ATTEMPTS {
        match attempt(task, table, last, steps)? {
            Some(thread) => last = thread,
            None => return Ok(()),
        }
    }
    Ok(())
}

// What is left of an isolate.
fn left_of(alloc: Global, main: &str, task: TaskState) -> Result<Left, Fail> {
    let steps = task.steps();
    let end = match task.end() {
        Some(end) => end,
        None => End::Stalled,
    };
    let finished = task.finished()?;
    let mut isolates = List::new(alloc);
    isolates.push(Block {
        main: Name::from_ascii(alloc, main)?,
        output: finished.output,
        uncaught: finished.uncaught,
        end,
    })?;
    let report = report(alloc, &Outcome { isolates }, false)?;
    Ok(Left { report, steps })
}

// The run of a program over its table, at steps of a ledger that nobody reads.
fn run_counted<L: Ledger>(
    alloc: Global,
    program: &Program<'_>,
    table: &Table,
    blank: Blank,
) -> Result<Left, Fail>
    requires name { blank.name ≡ L.name }
    requires parts { blank.parts ≡ L.parts }
    requires share { 0 < L.parts }
    requires set { 0 < length table.now.files }
{
    let mut steps = Steps::<L>::new(blank);
    let launch = launch_of(alloc, program)?;
    let mut task = open_task(alloc, launch, table, &mut steps)?;
    run_on(&mut task, table, &mut steps)?;
    left_of(alloc, program.main, task)
}

// Runs a program to its end, and gives what is left.
pub(crate) fn run(alloc: Global, program: &Program<'_>) -> Result<Left, Fail> {
    let table = table_of(alloc, program.classes)?;
    run_counted::<Brand>(alloc, program, &table, Blank::new(1))
}
