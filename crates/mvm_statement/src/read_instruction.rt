//! The operands of an instruction.
#![tactic(auto)]

ghost use Rattle.std.specs.Prelude.{◌≡◌};
ghost use Rattle.mvm_statement.specs.Reading.{Reads};
ghost use Rattle.mvm_statement.specs.Instructions.{instruction_in, table, table_in, wide_in, widened, mnemonic_in};
ghost use Rattle.mvm_statement.specs.Words.{shape_of};

use crate::fault::Unread;
use crate::instruction::Instruction;
use crate::operand::Place;
use crate::read_lines::{first_of, just_one, just_two, nothing, rows, targets};
use crate::read_operands::{loadable, long_constant, member, number, place, reference};
use crate::read_words::{opcode_of, shape_of};
use crate::token::Token;
use crate::words::Shape;
use mvm_base::List;
use std::alloc::Global;

fn plain(op: u8, operands: &[Token]) -> Result<Instruction, Unread>
    ensures { Reads result (instruction_in op Shape.Plain operands.now) }
{
    nothing(operands)?;
    Ok(Instruction::Plain { op })
}

fn push(op: u8, operands: &[Token]) -> Result<Instruction, Unread>
    ensures { Reads result (instruction_in op Shape.Push operands.now) }
{
    let number = number(just_one(operands)?)?;
    Ok(Instruction::Push { op, number })
}

fn load(alloc: Global, op: u8, operands: &[Token]) -> Result<Instruction, Unread>
    ensures { Reads result (instruction_in op Shape.Load operands.now) }
{
    let constant = loadable(alloc, just_one(operands)?)?;
    Ok(Instruction::Load { op, constant })
}

fn load_long(op: u8, operands: &[Token]) -> Result<Instruction, Unread>
    ensures { Reads result (instruction_in op Shape.LoadLong operands.now) }
{
    let constant = long_constant(just_one(operands)?)?;
    Ok(Instruction::LoadLong { op, constant })
}

fn of_class(alloc: Global, op: u8, operands: &[Token]) -> Result<Instruction, Unread>
    ensures { Reads result (instruction_in op Shape.OfClass operands.now) }
{
    let class = reference(alloc, just_one(operands)?)?;
    Ok(Instruction::OfClass { op, class })
}

fn of_member(alloc: Global, op: u8, operands: &[Token]) -> Result<Instruction, Unread>
    ensures { Reads result (instruction_in op Shape.OfMember operands.now) }
{
    let member = member(alloc, just_one(operands)?)?;
    Ok(Instruction::OfMember { op, member })
}

fn local(op: u8, operands: &[Token]) -> Result<Instruction, Unread>
    ensures { Reads result (instruction_in op Shape.Local operands.now) }
{
    let local = number(just_one(operands)?)?;
    Ok(Instruction::Local {
        op,
        local,
        wide: false,
    })
}

fn increment(op: u8, operands: &[Token]) -> Result<Instruction, Unread>
    ensures { Reads result (instruction_in op Shape.Increment operands.now) }
{
    let (local, by) = just_two(operands)?;
    Ok(Instruction::Increment {
        op,
        local: number(local)?,
        by: number(by)?,
        wide: false,
    })
}

fn jump(alloc: Global, op: u8, operands: &[Token]) -> Result<Instruction, Unread>
    ensures { Reads result (instruction_in op Shape.Jump operands.now) }
{
    let target = place(alloc, just_one(operands)?)?;
    Ok(Instruction::Jump { op, target })
}

/// A `tableswitch`, which has a row at least.
fn table(op: u8, low: i128, targets: List<Place>, otherwise: Place) -> Result<Instruction, Unread>
    ensures { Reads result (table op low (targets, otherwise)) }
{
    if targets.is_empty() {
        return Err(Unread::IllFormed);
    }
    Ok(Instruction::Table {
        op,
        low,
        targets,
        otherwise,
    })
}

fn table_operands(alloc: Global, op: u8, operands: &[Token]) -> Result<Instruction, Unread>
    ensures { Reads result (table_in op operands.now) }
{
    let (low, rest) = first_of(operands)?;
    let low = number(low)?;
    let (targets, otherwise) = targets(alloc, rest)?;
    table(op, low, targets, otherwise)
}

fn lookup(alloc: Global, op: u8, operands: &[Token]) -> Result<Instruction, Unread>
    ensures { Reads result (instruction_in op Shape.Lookup operands.now) }
{
    let (rows, otherwise) = rows(alloc, operands)?;
    Ok(Instruction::Lookup {
        op,
        rows,
        otherwise,
    })
}

fn invocation(alloc: Global, op: u8, operands: &[Token]) -> Result<Instruction, Unread>
    ensures { Reads result (instruction_in op Shape.Invocation operands.now) }
{
    let (method, count) = just_two(operands)?;
    Ok(Instruction::Invocation {
        op,
        member: member(alloc, method)?,
        count: number(count)?,
    })
}

fn items(op: u8, operands: &[Token]) -> Result<Instruction, Unread>
    ensures { Reads result (instruction_in op Shape.Items operands.now) }
{
    let kind = number(just_one(operands)?)?;
    Ok(Instruction::Items { op, kind })
}

fn dimensions(alloc: Global, op: u8, operands: &[Token]) -> Result<Instruction, Unread>
    ensures { Reads result (instruction_in op Shape.Dimensions operands.now) }
{
    let (class, count) = just_two(operands)?;
    Ok(Instruction::Dimensions {
        op,
        class: reference(alloc, class)?,
        count: number(count)?,
    })
}

fn wide_local(op: u8, operands: &[Token]) -> Result<Instruction, Unread>
    ensures { Reads result (widened op Shape.Local operands.now) }
{
    let local = number(just_one(operands)?)?;
    Ok(Instruction::Local {
        op,
        local,
        wide: true,
    })
}

fn wide_increment(op: u8, operands: &[Token]) -> Result<Instruction, Unread>
    ensures { Reads result (widened op Shape.Increment operands.now) }
{
    let (local, by) = just_two(operands)?;
    Ok(Instruction::Increment {
        op,
        local: number(local)?,
        by: number(by)?,
        wide: true,
    })
}

fn widened(op: u8, shape: Shape, operands: &[Token]) -> Result<Instruction, Unread>
    ensures { Reads result (widened op shape operands.now) }
{
    match shape {
        Shape::Local => wide_local(op, operands),
        Shape::Increment => wide_increment(op, operands),
        _ => Err(Unread::IllFormed),
    }
}

/// The opcode of a mnemonic.
fn mnemonic(token: &Token) -> Result<u8, Unread>
    ensures { Reads result (mnemonic_in token.now) }
{
    match token {
        Token::Bare(word) => opcode_of(word.as_slice()).ok_or(Unread::IllFormed),
        _ => Err(Unread::IllFormed),
    }
}

/// What stands behind `wide`: a mnemonic and its operands.
fn wide_operands(operands: &[Token]) -> Result<Instruction, Unread>
    ensures { Reads result (wide_in operands.now) }
{
    let (word, rest) = first_of(operands)?;
    let op = mnemonic(word)?;
    widened(op, shape_of(op), rest)
}

/// The instruction of an opcode and its operands.
pub(crate) fn instruction(alloc: Global, op: u8, operands: &[Token]) -> Result<Instruction, Unread>
    ensures { Reads result (instruction_in op (shape_of op) operands.now) }
{
    match shape_of(op) {
        Shape::Plain => plain(op, operands),
        Shape::Push => push(op, operands),
        Shape::Load => load(alloc, op, operands),
        Shape::LoadLong => load_long(op, operands),
        Shape::OfClass => of_class(alloc, op, operands),
        Shape::OfMember => of_member(alloc, op, operands),
        Shape::Local => local(op, operands),
        Shape::Increment => increment(op, operands),
        Shape::Jump => jump(alloc, op, operands),
        Shape::Table => table_operands(alloc, op, operands),
        Shape::Lookup => lookup(alloc, op, operands),
        Shape::Invocation => invocation(alloc, op, operands),
        Shape::Items => items(op, operands),
        Shape::Dimensions => dimensions(alloc, op, operands),
        Shape::Wide => wide_operands(operands),
        Shape::Unknown => Err(Unread::IllFormed),
    }
}
