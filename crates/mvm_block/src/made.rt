//! What a code comes to at its end: the lines on which a place does not fit, or its bytes and its exception table.

ghost use Rattle.std.specs.Prelude.{◌≡◌, ◌++◌, map, IsTrue, IfOk, OnOk};
ghost use Rattle.std.specs.List.{list_all, flat_map};
ghost use Rattle.mvm_listing.specs.Blocks.{piece_unfit, row_unfit, piece_made, row_made};
ghost use Rattle.mvm_block.specs.Ready.{is_ready, is_row_ready};

use crate::encode::push_piece;
use crate::fit::{piece_fits, row_fits};
use crate::labels::Labels;
use mvm_base::List;
use mvm_layout::Row;
use mvm_listing::{Catching, Placed};
use std::alloc::{AllocError, Global};

/// Adds the line of a piece from which a target is too far.
fn push_unfit_piece(out: &mut List<u32>, labels: &Labels, placed: &Placed) -> Result<(), AllocError>
    ensures { OnOk result (out.new ≡ out.old ++ piece_unfit labels.now placed.now) }
{
    if piece_fits(labels, placed) {
        return Ok(());
    }
    out.push(placed.line)
}

/// Adds the line of a row with a place that does not fit.
fn push_unfit_row(out: &mut List<u32>, labels: &Labels, row: &Catching) -> Result<(), AllocError>
    ensures { OnOk result (out.new ≡ out.old ++ row_unfit labels.now row.now) }
{
    if row_fits(labels, row) {
        return Ok(());
    }
    out.push(row.line)
}

/// Adds the lines of the pieces from which a target is too far.
pub(crate) fn push_unfit_pieces(
    out: &mut List<u32>,
    labels: &Labels,
    pieces: &[Placed],
) -> Result<(), AllocError>
    ensures { OnOk result (out.new ≡ out.old ++ flat_map (piece_unfit labels.now) pieces.now) }
{
    for placed in pieces {
        push_unfit_piece(out, labels, placed)?;
    }
    Ok(())
}

/// Adds the lines of the rows with a place that does not fit.
pub(crate) fn push_unfit_rows(
    out: &mut List<u32>,
    labels: &Labels,
    rows: &[Catching],
) -> Result<(), AllocError>
    ensures { OnOk result (out.new ≡ out.old ++ flat_map (row_unfit labels.now) rows.now) }
{
    for row in rows {
        push_unfit_row(out, labels, row)?;
    }
    Ok(())
}

/// The bytes of pieces, one behind the other.
pub(crate) fn bytes_made(
    alloc: Global,
    labels: &Labels,
    pieces: &[Placed],
) -> Result<List<u8>, AllocError>
    requires { IsTrue (list_all (is_ready labels.now) pieces.now) }
    ensures { IfOk result (λ bytes. bytes ≡ flat_map (piece_made labels.now) pieces.now) }
{
    let mut bytes = Vec::new(alloc);
    for placed in pieces {
        push_piece(&mut bytes, labels, placed)?;
    }
    Ok(List::from_vec(bytes))
}

/// A row of the exception table.
fn row_made(labels: &Labels, row: &Catching) -> Row
    requires { IsTrue (is_row_ready labels.now row.now) }
    ensures { result ≡ row_made labels.now row.now }
{
    Row {
        start: labels.place_in(&row.start) as u16,
        end: labels.place_in(&row.end) as u16,
        handler: labels.place_in(&row.handler) as u16,
        catch_class: row.class,
    }
}

/// An exception table.
pub(crate) fn rows_made(
    alloc: Global,
    labels: &Labels,
    rows: &[Catching],
) -> Result<List<Row>, AllocError>
    requires { IsTrue (list_all (is_row_ready labels.now) rows.now) }
    ensures { IfOk result (λ table. table ≡ map (row_made labels.now) rows.now) }
{
    let mut table = List::new(alloc);
    for row in rows {
        table.push(row_made(labels, row))?;
    }
    Ok(table)
}
