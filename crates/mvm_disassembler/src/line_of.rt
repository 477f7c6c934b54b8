//! An instruction as a line, and whether that line is assembled to the instruction's bytes.
#![tactic(auto, unfolding(mvm_listing::specs::Disassembly::line_of))]

ghost use Rattle.std.specs.Prelude.{◌≡◌, ◌-◌, ◌%◌, map, take, drop, bytes_eq, IfOk};
ghost use Rattle.mvm_statement.specs.declared.operand.Place.TheVariants.{At};
ghost use Rattle.mvm_insn.specs.Opcodes.{operands_of};
ghost use Rattle.mvm_listing.specs.Encoding.{padding};
ghost use Rattle.mvm_listing.specs.Disassembly.{pool_line, writes_wide, lowest, key_row, is_table, switch_line, line_of};
ghost use Rattle.mvm_listing.specs.Laws.{is_usual};

use mvm_base::List;
use mvm_insn::opcodes::{
    ANEWARRAY, CHECKCAST, IINC, INSTANCEOF, INVOKEINTERFACE, LDC, LDC_W, LDC2_W, MULTIANEWARRAY,
    NEW, NEWARRAY,
};
use mvm_insn::{Insn, Operands, Switch, operands_of};
use mvm_statement::{Instruction, KeyRow, Loadable, LongConstant, Member, Place, Reference};
use std::alloc::{AllocError, Global};

/// An instruction on an entry of the constant pool.
fn pool_line(op: u8, index: u16) -> Instruction
    ensures { result ≡ pool_line op index }
{
    let index = i128::from(index);
    if op == LDC || op == LDC_W {
        let constant = Loadable::Indexed(index);
        return Instruction::Load { op, constant };
    }
    if op == LDC2_W {
        let constant = LongConstant::Indexed(index);
        return Instruction::LoadLong { op, constant };
    }
    if op == NEW || op == ANEWARRAY || op == CHECKCAST || op == INSTANCEOF {
        let class = Reference::Indexed(index);
        return Instruction::OfClass { op, class };
    }
    let member = Member::Indexed(index);
    Instruction::OfMember { op, member }
}

/// Whether `wide` is written: where the code has it without need.
fn writes_wide(wide: bool, local: u16) -> bool
    ensures { result ≡ writes_wide wide local }
{
    wide && local <= 255
}

/// The lowest key of a switch, or 0 where it has none.
#[tactic(auto, using(crate::proofs::SwitchLines::lowest_is, crate::proofs::SwitchLines::lowest_none))]
fn lowest(rows: &Switch) -> i128
    ensures { result ≡ lowest rows.now.rows }
{
    if rows.rows() == 0 {
        return 0;
    }
    i128::from(rows.row(0).key)
}

/// The targets of a switch.
fn targets(alloc: Global, rows: &Switch) -> Result<List<Place>, AllocError>
    ensures { IfOk result (λ places. places ≡ map (λ row. At row.target) rows.now.rows) }
{
    let mut places = List::new(alloc);
    for i in 0..rows.rows() {
        places.push(Place::At(i128::from(rows.row(i).target)))?;
    }
    Ok(places)
}

/// The keys of a switch, with a target for each.
fn key_rows(alloc: Global, rows: &Switch) -> Result<List<KeyRow>, AllocError>
    ensures { IfOk result (λ keys. keys ≡ map key_row rows.now.rows) }
{
    let mut keys = List::new(alloc);
    for i in 0..rows.rows() {
        let row = rows.row(i);
        keys.push(KeyRow {
            key: i128::from(row.key),
            target: Place::At(i128::from(row.target)),
        })?;
    }
    Ok(keys)
}

/// Whether what stands behind an opcode is a table of targets.
fn is_table(operands: Operands) -> bool
    ensures { result ≡ is_table operands }
{
    matches!(operands, Operands::Table)
}

/// A switch.
fn switch_line(alloc: Global, op: u8, rows: &Switch) -> Result<Instruction, AllocError>
    ensures { IfOk result (λ line. line ≡ switch_line (is_table (operands_of op)) op rows.now) }
{
    let otherwise = Place::At(i128::from(rows.otherwise()));
    if is_table(operands_of(op)) {
        return Ok(Instruction::Table {
            op,
            low: lowest(rows),
            targets: targets(alloc, rows)?,
            otherwise,
        });
    }
    Ok(Instruction::Lookup {
        op,
        rows: key_rows(alloc, rows)?,
        otherwise,
    })
}

/// An instruction as a line, its targets as numbers.
pub(crate) fn line_of(alloc: Global, insn: &Insn) -> Result<Instruction, AllocError>
    ensures { IfOk result (λ line. line ≡ line_of insn.now) }
{
    match insn {
        Insn::Plain { op } => Ok(Instruction::Plain { op: *op }),
        Insn::Number { op, value } => Ok(Instruction::Push {
            op: *op,
            number: i128::from(*value),
        }),
        Insn::Pool { op, index } => Ok(pool_line(*op, *index)),
        Insn::Local { op, local, wide } => Ok(Instruction::Local {
            op: *op,
            local: i128::from(*local),
            wide: writes_wide(*wide, *local),
        }),
        Insn::Inc { local, by, wide } => Ok(Instruction::Increment {
            op: IINC,
            local: i128::from(*local),
            by: i128::from(*by),
            wide: writes_wide(*wide, *local),
        }),
        Insn::Jump { op, target } => Ok(Instruction::Jump {
            op: *op,
            target: Place::At(i128::from(*target)),
        }),
        Insn::Choice { op, rows } => switch_line(alloc, *op, rows),
        Insn::Interface { index, count, .. } => Ok(Instruction::Invocation {
            op: INVOKEINTERFACE,
            member: Member::Indexed(i128::from(*index)),
            count: i128::from(*count),
        }),
        Insn::NewArray { kind } => Ok(Instruction::Items {
            op: NEWARRAY,
            kind: i128::from(*kind),
        }),
        Insn::Multi { index, dims } => Ok(Instruction::Dimensions {
            op: MULTIANEWARRAY,
            class: Reference::Indexed(i128::from(*index)),
            count: i128::from(*dims),
        }),
    }
}

/// Whether the padding of a switch is zero.
#[tactic(auto, using(std::proofs::lemmas::List::take_min, crate::proofs::SwitchLines::zeros, crate::proofs::SwitchLines::drop_first))]
fn is_padded(pc: u32, bytes: &[u8]) -> bool
    ensures { result ≡ bytes_eq (take (3 - pc % 4) (drop 1 bytes.now)) (padding pc) }
{
    let zeros = [0u8; 3];
    let (zeros, _) = zeros.as_slice().split_at(3 - (pc % 4) as usize);
    let (_, behind) = bytes.split_at(bytes.len().min(1));
    let (padding, _) = behind.split_at(zeros.len().min(behind.len()));
    padding == zeros
}

/// Whether the bytes of an instruction are in their usual spelling: the padding of a switch is zero, and so is the last byte of
/// an `invokeinterface`.
pub(crate) fn is_usual(pc: u32, insn: &Insn, bytes: &[u8]) -> bool
    ensures { result ≡ is_usual pc insn.now bytes.now }
{
    match insn {
        Insn::Choice { .. } => is_padded(pc, bytes),
        Insn::Interface { last, .. } => *last == 0,
        _ => true,
    }
}
