//! Lines, written at the end of a text: the blanks before each, and a comment behind it that says what an entry is.

ghost use Rattle.std.specs.Prelude.{◌≡◌, ◌<◌, ◌++◌, ◌∷◌, [], map, replicate, OnOk};
ghost use Rattle.mvm_listing.specs.LaidOut.{depth, plain};
ghost use Rattle.mvm_disassembler.specs.Steps.{comment, whole_line};

use crate::remark::remark;
use mvm_base::{Line, List, OutOfMemory};
use mvm_layout::Item;
use mvm_statement::{Statement, write_line};
use std::alloc::{AllocError, Global};

/// The blanks before a line.
fn blanks(line: &Statement) -> &'static str
    ensures { result.now ≡ replicate (depth line.now) 32 }
{
    match line {
        Statement::Code { .. } | Statement::Label { .. } | Statement::End => "  ",
        Statement::Instruction { .. } | Statement::Byte { .. } | Statement::Catch { .. } => "    ",
        _ => "",
    }
}

/// A unit of a comment, or a question mark for one that can't stand there.
fn plain(unit: u16) -> u8
    ensures value { result ≡ plain unit }
    ensures ascii { result < 128 }
{
    if 32 <= unit && unit <= 126 {
        unit as u8
    } else {
        b'?'
    }
}

/// Adds an ASCII character.
#[tactic(auto, using(std::proofs::lemmas::Str::encode_ascii))]
fn push_ascii(out: &mut Line, code: u8) -> Result<(), AllocError>
    requires { code < 128 }
    ensures { OnOk result (out.new ≡ out.old ++ code ∷ []) }
{
    out.push(char::from(code))
}

/// Adds the units of a comment.
fn push_plain(out: &mut Line, units: &[u16]) -> Result<(), AllocError>
    ensures { OnOk result (out.new ≡ out.old ++ map plain units.now) }
{
    for unit in units {
        push_ascii(out, plain(*unit))?;
    }
    Ok(())
}

/// Adds a comment, if there is something to say.
#[tactic(auto, using(crate::proofs::Written::comment_is))]
fn push_comment(out: &mut Line, units: &[u16]) -> Result<(), AllocError>
    ensures { OnOk result (out.new ≡ out.old ++ comment units.now) }
{
    if units.is_empty() {
        return Ok(());
    }
    out.push_str(" ; ")?;
    push_plain(out, units)
}

/// Adds the line of a statement, with its end.
#[tactic(auto, using(crate::proofs::Written::line_written))]
fn push_shown(
    alloc: Global,
    out: &mut Line,
    pool: &List<Item>,
    line: &Statement,
) -> Result<(), OutOfMemory>
    ensures { OnOk result (out.new ≡ out.old ++ whole_line pool.now line.now) }
{
    out.push_str(blanks(line))?;
    write_line(out, line)?;
    let remark = remark(alloc, pool, line)?;
    push_comment(out, remark.as_slice())?;
    out.push_str("\n")?;
    Ok(())
}

/// Adds the line of a statement, with its end, and lets the statement go.
#[tactic(none)]
pub(crate) fn push_line(
    alloc: Global,
    out: &mut Line,
    pool: &List<Item>,
    line: Statement,
) -> Result<(), OutOfMemory>
    ensures { OnOk result (out.new ≡ out.old ++ whole_line pool.now line) }
{
    push_shown(alloc, out, pool, &line)
}

/// Adds an empty line.
pub(crate) fn push_empty(out: &mut Line) -> Result<(), OutOfMemory>
    ensures { OnOk result (out.new ≡ out.old ++ 10 ∷ []) }
{
    out.push_str("\n")?;
    Ok(())
}
