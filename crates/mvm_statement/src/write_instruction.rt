//! An instruction, written at the end of a line.
#![tactic(auto)]

ghost use Rattle.std.specs.Prelude.{◌≡◌, ◌++◌, [], OnOk};
ghost use Rattle.std.specs.List.{flat_map};
ghost use Rattle.mvm_statement.specs.Tokens.{behind_blank, spelled_word, spelled_tokens};
ghost use Rattle.mvm_statement.specs.Words.{name_of};
ghost use Rattle.mvm_statement.specs.Instructions.{op_of, is_wide, spelled_op, spelled_table, spelled_lookup, spelled_operands, spelled_instruction};

use crate::instruction::Instruction;
use crate::operand::{KeyRow, Place};
use crate::write_operands::{
    write_default, write_loadable, write_long, write_member, write_number, write_place,
    write_places, write_reference, write_rows,
};
use crate::write_tokens::push_text;
use mvm_base::{Line, List};
use mvm_insn::mnemonic;
use mvm_insn::opcodes::WIDE;
use std::alloc::AllocError;

/// Adds a mnemonic.
fn push_mnemonic(out: &mut Line, op: u8) -> Result<(), AllocError>
    ensures ok { OnOk result (out.new ≡ out.old ++ spelled_word (name_of op)) }
{
    match mnemonic(op) {
        Some(word) => push_text(out, word),
        None => Ok(()),
    }
}

/// Adds a mnemonic, behind `wide` where it is so.
fn push_op(out: &mut Line, wide: bool, op: u8) -> Result<(), AllocError>
    ensures ok { OnOk result (out.new ≡ out.old ++ spelled_tokens (spelled_op wide op [])) }
{
    if wide {
        push_mnemonic(out, WIDE)?;
        out.push_str(" ")?;
    }
    push_mnemonic(out, op)
}

/// The opcode of an instruction.
fn op_of(line: &Instruction) -> u8
    ensures { result ≡ op_of line.now }
{
    match line {
        Instruction::Plain { op }
        | Instruction::Push { op, .. }
        | Instruction::Load { op, .. }
        | Instruction::LoadLong { op, .. }
        | Instruction::OfClass { op, .. }
        | Instruction::OfMember { op, .. }
        | Instruction::Local { op, .. }
        | Instruction::Increment { op, .. }
        | Instruction::Jump { op, .. }
        | Instruction::Table { op, .. }
        | Instruction::Lookup { op, .. }
        | Instruction::Invocation { op, .. }
        | Instruction::Items { op, .. }
        | Instruction::Dimensions { op, .. } => *op,
    }
}

/// Whether an instruction stands behind `wide`.
fn is_wide(line: &Instruction) -> bool
    ensures { result ≡ is_wide line.now }
{
    match line {
        Instruction::Local { wide, .. } | Instruction::Increment { wide, .. } => *wide,
        _ => false,
    }
}

/// Adds the places of the keys from the lowest on, and the place for the others.
#[tactic(auto, using(crate::proofs::Written::tokens_joined))]
fn write_table(
    out: &mut Line,
    low: i128,
    targets: &List<Place>,
    otherwise: &Place,
) -> Result<(), AllocError>
    ensures ok { OnOk result (out.new ≡ out.old ++ flat_map behind_blank (spelled_table low targets.now otherwise.now)) }
{
    write_number(out, low)?;
    write_places(out, targets.as_slice())?;
    write_default(out, otherwise)
}

/// Adds the keys with a place for each, and the place for the others.
#[tactic(auto, using(crate::proofs::Written::tokens_joined))]
fn write_lookup(out: &mut Line, rows: &List<KeyRow>, otherwise: &Place) -> Result<(), AllocError>
    ensures ok { OnOk result (out.new ≡ out.old ++ flat_map behind_blank (spelled_lookup rows.now otherwise.now)) }
{
    write_rows(out, rows.as_slice())?;
    write_default(out, otherwise)
}

/// Adds the operands of an instruction.
fn write_operands(out: &mut Line, line: &Instruction) -> Result<(), AllocError>
    ensures ok { OnOk result (out.new ≡ out.old ++ flat_map behind_blank (spelled_operands line.now)) }
{
    match line {
        Instruction::Plain { .. } => Ok(()),
        Instruction::Push { number, .. } => write_number(out, *number),
        Instruction::Load { constant, .. } => write_loadable(out, constant),
        Instruction::LoadLong { constant, .. } => write_long(out, constant),
        Instruction::OfClass { class, .. } => write_reference(out, class),
        Instruction::OfMember { member, .. } => write_member(out, member),
        Instruction::Local { local, .. } => write_number(out, *local),
        Instruction::Increment { local, by, .. } => {
            write_number(out, *local)?;
            write_number(out, *by)
        }
        Instruction::Jump { target, .. } => write_place(out, target),
        Instruction::Table {
            low,
            targets,
            otherwise,
            ..
        } => write_table(out, *low, targets, otherwise),
        Instruction::Lookup {
            rows,
            otherwise,
            ..
        } => write_lookup(out, rows, otherwise),
        Instruction::Invocation { member, count, .. } => {
            write_member(out, member)?;
            write_number(out, *count)
        }
        Instruction::Items { kind, .. } => write_number(out, *kind),
        Instruction::Dimensions { class, count, .. } => {
            write_reference(out, class)?;
            write_number(out, *count)
        }
    }
}

/// Adds an instruction.
#[tactic(auto, using(crate::proofs::Written::op_joined))]
pub(crate) fn write_instruction(out: &mut Line, line: &Instruction) -> Result<(), AllocError>
    ensures ok { OnOk result (out.new ≡ out.old ++ spelled_tokens (spelled_instruction line.now)) }
{
    push_op(out, is_wide(line), op_of(line))?;
    write_operands(out, line)
}
