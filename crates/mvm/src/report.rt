ghost use Rattle.std.specs.Prelude.{◌≡◌, ◌++◌, length, codes, decimal, OnOk, IfOk};
ghost use Rattle.std.specs.Fmt.{signed_decimal};
ghost use Rattle.std.specs.List.{flat_map};
ghost use Rattle.mvm.specs.Texts.{line, shown};
ghost use Rattle.mvm.specs.Report.{end_text, limit_name, message_text, uncaught_text, closed, block_text, block_texts, report_text};

use crate::outcome::{Block, Outcome, run_status};
use crate::texts::{push_number, push_signed, push_units};
use mvm_base::{Line, Name, OutOfMemory};
use mvm_history::{End, LimitKind};
use mvm_interp::Uncaught;
use std::alloc::{AllocError, Global};

/// The report of a run: the lines of each isolate, and a line with the status.
///
/// The third parameter asks for lines of static fields. No class that is read at this stage has a static field, so
/// the report is the same with it and without it.
#[tactic(auto, unfolding(crate::specs::Report::report_text))]
pub fn report(alloc: Global, outcome: &Outcome, _statics: bool) -> Result<Line, OutOfMemory>
    ensures { IfOk result (λ text. text ≡ report_text outcome.now) }
{
    let mut text = Line::new(alloc);
    push_blocks(&mut text, outcome.isolates.as_slice())?;
    push_done(&mut text, run_status(outcome))?;
    Ok(text)
}

// Adds the last line, with the status of the run.
fn push_done(text: &mut Line, status: u8) -> Result<(), AllocError>
    ensures ok { OnOk result (text.new ≡ text.old ++ line (codes "done " ++ decimal status)) }
{
    text.push_str("done ")?;
    push_number(text, u64::from(status))?;
    text.push_str("\n")
}

// Adds the lines of isolates, in order of their numbers.
fn push_blocks(text: &mut Line, blocks: &[Block]) -> Result<(), AllocError>
    ensures ok { OnOk result (text.new ≡ text.old ++ block_texts 0 blocks.now) }
{
    for i in 0..blocks.len() {
        push_block(text, i, &blocks[i])?;
    }
    Ok(())
}

// Adds the lines of an isolate.
#[tactic(auto, unfolding(crate::specs::Report::block_text))]
fn push_block(text: &mut Line, number: usize, block: &Block) -> Result<(), AllocError>
    ensures ok { OnOk result (text.new ≡ text.old ++ block_text number block.now) }
{
    push_heading(text, number, &block.main)?;
    push_end(text, &block.end)?;
    push_all_uncaught(text, block.uncaught.as_slice())?;
    push_output_length(text, &block.output)?;
    push_output(text, &block.output)
}

// Adds the line that begins the lines of an isolate.
fn push_heading(text: &mut Line, number: usize, main: &Name) -> Result<(), AllocError>
    ensures ok { OnOk result (text.new ≡ text.old ++ line (codes "isolate " ++ decimal number ++ codes " " ++ shown main.now)) }
{
    text.push_str("isolate ")?;
    push_number(text, number as u64)?;
    text.push_str(" ")?;
    push_units(text, main.units())?;
    text.push_str("\n")
}

// Adds the line that tells how an isolate ended.
fn push_end(text: &mut Line, end: &End) -> Result<(), AllocError>
    ensures ok { OnOk result (text.new ≡ text.old ++ line (codes "end " ++ end_text end.now)) }
{
    text.push_str("end ")?;
    push_end_kind(text, end)?;
    text.push_str("\n")
}

fn limit_name(kind: LimitKind) -> &'static str
    ensures { result.now ≡ limit_name kind }
{
    match kind {
        LimitKind::Steps => "steps",
        LimitKind::Threads => "threads",
        LimitKind::Output => "output",
        LimitKind::Log => "log",
        LimitKind::Clock => "clock",
        LimitKind::Messages => "messages",
    }
}

// Adds how an isolate was halted.
fn push_halted(text: &mut Line, by: u32, status: i32) -> Result<(), AllocError>
    ensures ok { OnOk result (text.new ≡ text.old ++ codes "halted by " ++ decimal by ++ codes " status " ++ signed_decimal status) }
{
    text.push_str("halted by ")?;
    push_number(text, u64::from(by))?;
    text.push_str(" status ")?;
    push_signed(text, status)
}

// Adds how an isolate ended.
fn push_end_kind(text: &mut Line, end: &End) -> Result<(), AllocError>
    ensures ok { OnOk result (text.new ≡ text.old ++ end_text end.now) }
{
    match end {
        End::Exit(code) => {
            text.push_str("exit ")?;
            push_signed(text, *code)
        }
        End::Limit(kind) => {
            text.push_str("limit ")?;
            text.push_str(limit_name(*kind))
        }
        End::Halted { by, status } => push_halted(text, *by, *status),
        End::Stalled => text.push_str("stalled"),
        End::NeverStarted => text.push_str("never started"),
    }
}

// Adds the line that tells how many bytes an isolate printed.
fn push_output_length(text: &mut Line, output: &Line) -> Result<(), AllocError>
    ensures ok { OnOk result (text.new ≡ text.old ++ line (codes "output " ++ decimal (length output.now))) }
{
    text.push_str("output ")?;
    push_number(text, output.as_bytes().len() as u64)?;
    text.push_str("\n")
}

// Adds the lines of exceptions that nothing caught.
fn push_all_uncaught(text: &mut Line, all: &[Uncaught]) -> Result<(), AllocError>
    ensures ok { OnOk result (text.new ≡ text.old ++ flat_map uncaught_text all.now) }
{
    for i in 0..all.len() {
        push_uncaught(text, &all[i])?;
    }
    Ok(())
}

// Adds the line of an exception that nothing caught.
fn push_uncaught(text: &mut Line, uncaught: &Uncaught) -> Result<(), AllocError>
    ensures ok { OnOk result (text.new ≡ text.old ++ uncaught_text uncaught.now) }
{
    text.push_str("uncaught ")?;
    push_number(text, u64::from(uncaught.thread))?;
    text.push_str(" ")?;
    push_units(text, uncaught.class.units())?;
    push_message(text, &uncaught.message)?;
    text.push_str("\n")
}

// Adds what follows the class of an exception on its line.
fn push_message(text: &mut Line, message: &Option<Name>) -> Result<(), AllocError>
    ensures ok { OnOk result (text.new ≡ text.old ++ message_text message.now) }
{
    match message {
        Some(message) => {
            text.push_str(": ")?;
            push_units(text, message.units())
        }
        None => Ok(()),
    }
}

// Adds what an isolate printed, and ends its last line if it is not ended.
fn push_output(text: &mut Line, output: &Line) -> Result<(), AllocError>
    ensures ok { OnOk result (text.new ≡ text.old ++ closed output.now) }
{
    text.push_str(output.as_str())?;
    match output.as_bytes().last() {
        None | Some(10) => Ok(()),
        Some(_) => text.push_str("\n"),
    }
}
