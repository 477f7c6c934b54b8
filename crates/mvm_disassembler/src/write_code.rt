//! The lines of a code.

ghost use Rattle.std.specs.Prelude.{◌≡◌, ◌<◌, ◌^◌, ◌++◌, length, OnOk};
ghost use Rattle.std.specs.List.{flat_map};
ghost use Rattle.mvm_listing.specs.Disassembly.{mark, class_shown, code_lines, standard};
ghost use Rattle.mvm_disassembler.specs.Steps.{marked_by, lines_text, piece_text, row_text, code_text};

use crate::pieces::pieces;
use crate::places::{all_targets, beginnings, label, piece_line, set_of, shown};
use crate::write_lines::push_line;
use mvm_base::{Line, List, OutOfMemory};
use mvm_layout::{Code, Item, Row};
use mvm_listing::Piece;
use mvm_statement::{Reference, Statement};
use std::alloc::Global;
use std::collections::BTreeSet;

/// Adds the label of a place, if something leads there.
#[tactic(auto, using(crate::proofs::Written::mark_there, crate::proofs::Written::mark_none))]
fn push_mark(
    alloc: Global,
    out: &mut Line,
    pool: &List<Item>,
    targets: &BTreeSet<i128>,
    at: u32,
) -> Result<(), OutOfMemory>
    ensures { OnOk result (out.new ≡ out.old ++ lines_text pool.now (mark (marked_by targets.now) at)) }
{
    let at = i128::from(at);
    if targets.contains(&at) {
        let name = label(alloc, at)?;
        push_line(alloc, out, pool, Statement::Label { name })?;
    }
    Ok(())
}

/// Adds the line of a piece, behind the label of its place.
#[tactic(auto, using(crate::proofs::Written::piece_is))]
fn push_piece(
    alloc: Global,
    out: &mut Line,
    pool: &List<Item>,
    targets: &BTreeSet<i128>,
    begins: &BTreeSet<i128>,
    at: u32,
    piece: Piece,
) -> Result<(), OutOfMemory>
    ensures { OnOk result (out.new ≡ out.old ++ piece_text pool.now targets.now begins.now (at, piece)) }
{
    push_mark(alloc, out, pool, targets, at)?;
    let line = piece_line(alloc, begins, piece)?;
    push_line(alloc, out, pool, line)
}

/// Adds the lines of pieces.
fn push_pieces(
    alloc: Global,
    out: &mut Line,
    pool: &List<Item>,
    targets: &BTreeSet<i128>,
    begins: &BTreeSet<i128>,
    pieces: Vec<(u32, Piece)>,
) -> Result<(), OutOfMemory>
    ensures { OnOk result (out.new ≡ out.old ++ flat_map (piece_text pool.now targets.now begins.now) pieces.items) }
{
    for (at, piece) in pieces {
        push_piece(alloc, out, pool, targets, begins, at, piece)?;
    }
    Ok(())
}

/// A class, if there is one.
pub(crate) fn class_shown(class: u16) -> Option<Reference>
    ensures { result ≡ class_shown class }
{
    if class == 0 {
        return None;
    }
    Some(Reference::Indexed(i128::from(class)))
}

/// Adds the line of a row of the exception table.
#[tactic(auto, unfolding(crate::specs::Steps::row_text))]
fn push_row(
    alloc: Global,
    out: &mut Line,
    pool: &List<Item>,
    begins: &BTreeSet<i128>,
    row: &Row,
) -> Result<(), OutOfMemory>
    ensures { OnOk result (out.new ≡ out.old ++ row_text pool.now begins.now row.now) }
{
    let line = Statement::Catch {
        start: shown(alloc, begins, i128::from(row.start))?,
        end: shown(alloc, begins, i128::from(row.end))?,
        handler: shown(alloc, begins, i128::from(row.handler))?,
        class: class_shown(row.catch_class),
    };
    push_line(alloc, out, pool, line)
}

/// Adds the lines of the exception table.
fn push_rows(
    alloc: Global,
    out: &mut Line,
    pool: &List<Item>,
    begins: &BTreeSet<i128>,
    rows: &[Row],
) -> Result<(), OutOfMemory>
    ensures { OnOk result (out.new ≡ out.old ++ flat_map (row_text pool.now begins.now) rows.now) }
{
    for row in rows {
        push_row(alloc, out, pool, begins, row)?;
    }
    Ok(())
}

/// Adds the lines of a code with these pieces.
fn push_code_lines(
    alloc: Global,
    out: &mut Line,
    pool: &List<Item>,
    targets: &BTreeSet<i128>,
    begins: &BTreeSet<i128>,
    pieces: Vec<(u32, Piece)>,
    code: &Code,
) -> Result<(), OutOfMemory>
    requires { length code.now.bytes < 2 ^ 32 }
    ensures { OnOk result (out.new ≡ out.old ++ code_text pool.now targets.now begins.now pieces.items code.now) }
{
    let head = Statement::Code {
        max_stack: i128::from(code.max_stack),
        max_locals: i128::from(code.max_locals),
    };
    push_line(alloc, out, pool, head)?;
    push_pieces(alloc, out, pool, targets, begins, pieces)?;
    push_mark(alloc, out, pool, targets, code.bytes.len() as u32)?;
    push_rows(alloc, out, pool, begins, code.rows.as_slice())?;
    push_line(alloc, out, pool, Statement::End)
}

/// Adds the lines of a code.
#[tactic(auto, using(crate::proofs::CodeText::code_is))]
pub(crate) fn push_code(
    alloc: Global,
    out: &mut Line,
    pool: &List<Item>,
    code: &Code,
) -> Result<(), OutOfMemory>
    requires { length code.now.bytes < 2 ^ 32 }
    ensures { OnOk result (out.new ≡ out.old ++ lines_text pool.now (code_lines standard code.now)) }
{
    let pieces = pieces(alloc, code.bytes.as_slice())?;
    let leads_to = all_targets(alloc, pieces.as_slice(), code.rows.as_slice())?;
    let targets = set_of(alloc, leads_to.as_slice())?;
    let places = beginnings(alloc, pieces.as_slice(), code.bytes.len() as u32)?;
    let begins = set_of(alloc, places.as_slice())?;
    push_code_lines(alloc, out, pool, &targets, &begins, pieces, code)
}
