//! Whether the places of a code are known, and whether they and the offsets to them fit their fields.

ghost use Rattle.std.specs.Prelude.{◌≡◌, map};
ghost use Rattle.std.specs.List.{list_all};
ghost use Rattle.mvm_listing.specs.declared.piece.Piece.TheVariants.{Own};
ghost use Rattle.mvm_listing.specs.Encoding.{targets_of};
ghost use Rattle.mvm_listing.specs.Blocks.{place_of, is_known, row_places, fits_as, fits_offset, fits_place};

use crate::labels::Labels;
use mvm_insn::operands_of;
use mvm_listing::range::{is_i2, is_i4, is_u2, jumps_far};
use mvm_listing::{Catching, Piece, Placed};
use mvm_statement::{Instruction, KeyRow, Place};

/// Whether all these places are known.
fn knows_all(labels: &Labels, places: &[Place]) -> bool
    ensures { result ≡ list_all (is_known labels.now) places.now }
{
    places.iter().all(|place| labels.knows(place))
}

/// Whether the targets of all rows are known.
fn knows_rows(labels: &Labels, rows: &[KeyRow]) -> bool
    ensures { result ≡ list_all (λ row. is_known labels.now row.target) rows.now }
{
    rows.iter().all(|row| labels.knows(&row.target))
}

/// Whether the targets of an instruction are known.
fn knows_line(labels: &Labels, line: &Instruction) -> bool
    ensures { result ≡ list_all (is_known labels.now) (targets_of (Own line.now)) }
{
    match line {
        Instruction::Jump { target, .. } => labels.knows(target),
        Instruction::Table {
            targets,
            otherwise,
            ..
        } => labels.knows(otherwise) && knows_all(labels, targets.as_slice()),
        Instruction::Lookup {
            rows,
            otherwise,
            ..
        } => labels.knows(otherwise) && knows_rows(labels, rows.as_slice()),
        _ => true,
    }
}

/// Whether the targets of a piece are known.
fn knows_piece(labels: &Labels, piece: &Piece) -> bool
    ensures { result ≡ list_all (is_known labels.now) (targets_of piece.now) }
{
    match piece {
        Piece::Own(line) => knows_line(labels, line),
        Piece::OneByte(_) => true,
    }
}

/// Whether the places of a row are known.
fn knows_row(labels: &Labels, row: &Catching) -> bool
    ensures { result ≡ list_all (is_known labels.now) (row_places row.now) }
{
    labels.knows(&row.start) && labels.knows(&row.end) && labels.knows(&row.handler)
}

/// Whether an offset of an instruction fits its field.
fn line_fits_as(line: &Instruction, offset: i128) -> bool
    ensures { result ≡ fits_as (Own line.now) offset }
{
    match line {
        Instruction::Jump { op, .. } => {
            if jumps_far(operands_of(*op)) {
                is_i4(offset)
            } else {
                is_i2(offset)
            }
        }
        _ => is_i4(offset),
    }
}

/// Whether an offset of a piece fits its field.
fn fits_as(piece: &Piece, offset: i128) -> bool
    ensures { result ≡ fits_as piece.now offset }
{
    match piece {
        Piece::Own(line) => line_fits_as(line, offset),
        Piece::OneByte(_) => is_i4(offset),
    }
}

/// Whether it is near enough from a place to another. One that is not known is.
fn fits_offset(piece: &Piece, at: u64, place: Option<i128>) -> bool
    ensures { result ≡ fits_offset piece.now at place }
{
    match place {
        Some(place) => match place.checked_sub(i128::from(at)) {
            Some(offset) => fits_as(piece, offset),
            None => false,
        },
        None => true,
    }
}

/// Whether it is near enough from a place to a target.
fn reaches(labels: &Labels, piece: &Piece, at: u64, target: &Place) -> bool
    ensures { result ≡ fits_offset piece.now at (place_of labels.now target.now) }
{
    fits_offset(piece, at, labels.place_of(target))
}

/// Whether it is near enough from a place to all these targets.
fn reaches_all(labels: &Labels, piece: &Piece, at: u64, targets: &[Place]) -> bool
    ensures { result ≡ list_all (λ x. fits_offset piece.now at (place_of labels.now x)) targets.now }
{
    targets
        .iter()
        .all(|target| reaches(labels, piece, at, target))
}

/// Whether it is near enough from a place to the targets of all rows.
fn reaches_rows(labels: &Labels, piece: &Piece, at: u64, rows: &[KeyRow]) -> bool
    ensures { result ≡ list_all (λ row. fits_offset piece.now at (place_of labels.now row.target)) rows.now }
{
    rows.iter()
        .all(|row| reaches(labels, piece, at, &row.target))
}

/// Whether the targets of an instruction, where they are known, are near enough to the place of its piece.
fn line_reaches(labels: &Labels, piece: &Piece, at: u64, line: &Instruction) -> bool
    ensures { result ≡ list_all (λ x. fits_offset piece.now at (place_of labels.now x)) (targets_of (Own line.now)) }
{
    match line {
        Instruction::Jump { target, .. } => reaches(labels, piece, at, target),
        Instruction::Table {
            targets,
            otherwise,
            ..
        } => {
            reaches(labels, piece, at, otherwise)
                && reaches_all(labels, piece, at, targets.as_slice())
        }
        Instruction::Lookup {
            rows,
            otherwise,
            ..
        } => {
            reaches(labels, piece, at, otherwise)
                && reaches_rows(labels, piece, at, rows.as_slice())
        }
        _ => true,
    }
}

/// Whether the targets of a piece, where they are known, are near enough.
pub(crate) fn piece_fits(labels: &Labels, placed: &Placed) -> bool
    ensures { result ≡ list_all (λ x. fits_offset placed.now.piece placed.now.at (place_of labels.now x)) (targets_of placed.now.piece) }
{
    match &placed.piece {
        Piece::Own(line) => line_reaches(labels, &placed.piece, placed.at, line),
        Piece::OneByte(_) => true,
    }
}

/// Whether a place of a row fits its field. One that is not known does.
fn fits_place(place: Option<i128>) -> bool
    ensures { result ≡ fits_place place }
{
    match place {
        Some(place) => is_u2(place),
        None => true,
    }
}

/// Whether the places of a row, where they are known, fit their fields.
pub(crate) fn row_fits(labels: &Labels, row: &Catching) -> bool
    ensures { result ≡ list_all (λ x. fits_place (place_of labels.now x)) (row_places row.now) }
{
    fits_place(labels.place_of(&row.start))
        && fits_place(labels.place_of(&row.end))
        && fits_place(labels.place_of(&row.handler))
}

/// Whether the targets of all pieces are known.
pub(crate) fn knows_pieces(labels: &Labels, pieces: &[Placed]) -> bool
    ensures { result ≡ list_all (λ p. list_all (is_known labels.now) (targets_of p.piece)) pieces.now }
{
    pieces
        .iter()
        .all(|placed| knows_piece(labels, &placed.piece))
}

/// Whether the places of all rows of an exception table are known.
pub(crate) fn knows_table(labels: &Labels, rows: &[Catching]) -> bool
    ensures { result ≡ list_all (λ row. list_all (is_known labels.now) (row_places row)) rows.now }
{
    rows.iter().all(|row| knows_row(labels, row))
}
