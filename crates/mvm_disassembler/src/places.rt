//! Places of a code: those that its pieces and rows lead to, those at which a piece begins, and how each is shown.

ghost use Rattle.std.specs.Prelude.{◌≡◌, ◌++◌, ◌∷◌, [], ◌||◌, ℤ, pos, map, IfOk, OnOk};
ghost use Rattle.std.specs.Ordering.{int_eq};
ghost use Rattle.std.specs.List.{flat_map};
ghost use Rattle.std.specs.Fmt.{signed_decimal};
ghost use Rattle.mvm_listing.specs.Encoding.{targets_of};
ghost use Rattle.mvm_listing.specs.Disassembly.{own_place, row_targets, all_targets, with_row, with_label, with_labels, piece_line};
ghost use Rattle.mvm_disassembler.specs.Steps.{holds, is_among, shown_by};

use itoa::Buffer;
use mvm_base::{Line, List, Name, OutOfMemory};
use mvm_layout::Row;
use mvm_listing::Piece;
use mvm_statement::{Instruction, KeyRow, Place, Statement};
use std::alloc::{AllocError, Global};
use std::collections::BTreeSet;

/// Puts a number into a set.
#[tactic(auto, using(crate::proofs::Sets::added))]
fn add(set: &mut BTreeSet<i128>, number: i128) -> Result<(), OutOfMemory>
    ensures { OnOk result ((n : ℤ) → holds set.new n ≡ (holds set.old n || int_eq number n)) }
{
    set.insert(number)?;
    Ok(())
}

/// The set of these numbers.
pub(crate) fn set_of(alloc: Global, numbers: &[i128]) -> Result<BTreeSet<i128>, OutOfMemory>
    ensures { IfOk result (λ set. (n : ℤ) → holds set n ≡ is_among numbers.now n) }
{
    let mut set = BTreeSet::new(alloc);
    for number in numbers {
        add(&mut set, *number)?;
    }
    Ok(set)
}

/// The number of a place.
fn own_place(target: &Place) -> i128
    ensures { result ≡ own_place target.now }
{
    match target {
        Place::At(number) => *number,
        Place::Label(_) => 0,
    }
}

/// Adds places.
fn push_places(out: &mut List<i128>, targets: &[Place]) -> Result<(), AllocError>
    ensures { OnOk result (out.new ≡ out.old ++ map own_place targets.now) }
{
    for target in targets {
        out.push(own_place(target))?;
    }
    Ok(())
}

/// Adds the places of keys.
fn push_key_places(out: &mut List<i128>, rows: &[KeyRow]) -> Result<(), AllocError>
    ensures { OnOk result (out.new ≡ out.old ++ map own_place (map (λ row. row.target) rows.now)) }
{
    for row in rows {
        out.push(own_place(&row.target))?;
    }
    Ok(())
}

/// Adds the places that a piece leads to.
fn push_targets(out: &mut List<i128>, piece: &Piece) -> Result<(), AllocError>
    ensures { OnOk result (out.new ≡ out.old ++ map own_place (targets_of piece.now)) }
{
    match piece {
        Piece::Own(Instruction::Jump { target, .. }) => out.push(own_place(target)),
        Piece::Own(
            Instruction::Table {
                targets,
                otherwise,
                ..
            },
        ) => {
            out.push(own_place(otherwise))?;
            push_places(out, targets.as_slice())
        }
        Piece::Own(
            Instruction::Lookup {
                rows,
                otherwise,
                ..
            },
        ) => {
            out.push(own_place(otherwise))?;
            push_key_places(out, rows.as_slice())
        }
        _ => Ok(()),
    }
}

/// Adds the places that pieces lead to.
fn push_all_targets(out: &mut List<i128>, pieces: &[(u32, Piece)]) -> Result<(), AllocError>
    ensures { OnOk result (out.new ≡ out.old ++ flat_map (λ p. map own_place (targets_of p.1)) pieces.now) }
{
    for piece in pieces {
        push_targets(out, &piece.1)?;
    }
    Ok(())
}

/// Adds the places of rows of the exception table.
fn push_row_targets(out: &mut List<i128>, rows: &[Row]) -> Result<(), AllocError>
    ensures { OnOk result (out.new ≡ out.old ++ flat_map row_targets rows.now) }
{
    for row in rows {
        out.push(i128::from(row.start))?;
        out.push(i128::from(row.end))?;
        out.push(i128::from(row.handler))?;
    }
    Ok(())
}

/// The places that the pieces and the rows of a code lead to.
pub(crate) fn all_targets(
    alloc: Global,
    pieces: &[(u32, Piece)],
    rows: &[Row],
) -> Result<List<i128>, AllocError>
    ensures { IfOk result (λ targets. targets ≡ all_targets pieces.now rows.now) }
{
    let mut targets = List::new(alloc);
    push_all_targets(&mut targets, pieces)?;
    push_row_targets(&mut targets, rows)?;
    Ok(targets)
}

/// The places at which pieces begin, and the end of the code.
pub(crate) fn beginnings(
    alloc: Global,
    pieces: &[(u32, Piece)],
    end: u32,
) -> Result<List<i128>, AllocError>
    ensures { IfOk result (λ places. places ≡ map pos (map (λ p. p.0) pieces.now ++ end ∷ [])) }
{
    let mut places = List::new(alloc);
    for piece in pieces {
        places.push(i128::from(piece.0))?;
    }
    places.push(i128::from(end))?;
    Ok(places)
}

/// The label of a place.
pub(crate) fn label(alloc: Global, at: i128) -> Result<Name, AllocError>
    ensures { IfOk result (λ name. name ≡ 76 ∷ signed_decimal at) }
{
    let mut digits = Buffer::new();
    let mut text = Line::new(alloc);
    text.push_str("L")?;
    text.push_str(digits.format(at))?;
    Name::from_ascii(alloc, text.as_str())
}

/// A place by its label, if a piece begins there, and by its number if not.
#[tactic(auto, using(crate::proofs::Sets::shown_label, crate::proofs::Sets::shown_number, crate::proofs::Sets::shown_negative))]
pub(crate) fn shown(alloc: Global, begins: &BTreeSet<i128>, at: i128) -> Result<Place, AllocError>
    ensures { IfOk result (λ place. place ≡ shown_by begins.now at) }
{
    if at >= 0 && begins.contains(&at) {
        return Ok(Place::Label(label(alloc, at)?));
    }
    Ok(Place::At(at))
}

/// Places by their labels.
fn with_places(
    alloc: Global,
    begins: &BTreeSet<i128>,
    targets: &[Place],
) -> Result<List<Place>, AllocError>
    ensures { IfOk result (λ places. places ≡ map (with_label (shown_by begins.now)) targets.now) }
{
    let mut places = List::new(alloc);
    for target in targets {
        places.push(shown(alloc, begins, own_place(target))?)?;
    }
    Ok(places)
}

/// Keys, with a place by its label for each.
fn with_rows(
    alloc: Global,
    begins: &BTreeSet<i128>,
    rows: &[KeyRow],
) -> Result<List<KeyRow>, AllocError>
    ensures { IfOk result (λ keys. keys ≡ map (with_row (shown_by begins.now)) rows.now) }
{
    let mut keys = List::new(alloc);
    for row in rows {
        keys.push(KeyRow {
            key: row.key,
            target: shown(alloc, begins, own_place(&row.target))?,
        })?;
    }
    Ok(keys)
}

/// An instruction with its targets by their labels.
fn with_labels(
    alloc: Global,
    begins: &BTreeSet<i128>,
    line: Instruction,
) -> Result<Instruction, AllocError>
    ensures { IfOk result (λ shown. shown ≡ with_labels (shown_by begins.now) line) }
{
    match line {
        Instruction::Jump { op, target } => {
            let target = shown(alloc, begins, own_place(&target))?;
            Ok(Instruction::Jump { op, target })
        }
        Instruction::Table {
            op,
            low,
            targets,
            otherwise,
        } => Ok(Instruction::Table {
            op,
            low,
            targets: with_places(alloc, begins, targets.as_slice())?,
            otherwise: shown(alloc, begins, own_place(&otherwise))?,
        }),
        Instruction::Lookup {
            op,
            rows,
            otherwise,
        } => Ok(Instruction::Lookup {
            op,
            rows: with_rows(alloc, begins, rows.as_slice())?,
            otherwise: shown(alloc, begins, own_place(&otherwise))?,
        }),
        line => Ok(line),
    }
}

/// The line of a piece.
pub(crate) fn piece_line(
    alloc: Global,
    begins: &BTreeSet<i128>,
    piece: Piece,
) -> Result<Statement, AllocError>
    ensures { IfOk result (λ line. line ≡ piece_line (shown_by begins.now) piece) }
{
    match piece {
        Piece::Own(line) => {
            let line = with_labels(alloc, begins, line)?;
            Ok(Statement::Instruction { line })
        }
        Piece::OneByte(byte) => Ok(Statement::Byte {
            value: i128::from(byte),
        }),
    }
}
