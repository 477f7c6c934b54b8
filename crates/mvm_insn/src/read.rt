ghost use Rattle.std.specs.Prelude.{◌≡◌, Ok, Err, MatchResult};
ghost use Rattle.std.specs.Int.{w8, w16, w32};
ghost use Rattle.mvm_base.specs.Answers.{Gives};
ghost use Rattle.mvm_insn.specs.Readers.{number, signed, bytes};
ghost use Rattle.mvm_insn.specs.Insns.{byte_number, short_number, byte_pool, short_pool, byte_local, short_local, increment, wide_increment, short_jump, long_jump, invocation, items, dimensions, widened_by, widened};

use crate::fault::InsnFault;
use crate::insn::Insn;
use crate::opcodes;
use mvm_base::Cursor;

pub(crate) fn u1(cursor: &mut Cursor) -> Result<u8, InsnFault>
    ensures { Gives result (number 1 cursor.old) cursor.new }
{
    match cursor.u1() {
        Ok(n) => Ok(n),
        Err(_) => Err(InsnFault::OffEnd),
    }
}

pub(crate) fn u2(cursor: &mut Cursor) -> Result<u16, InsnFault>
    ensures { Gives result (number 2 cursor.old) cursor.new }
{
    match cursor.u2() {
        Ok(n) => Ok(n),
        Err(_) => Err(InsnFault::OffEnd),
    }
}

pub(crate) fn u4(cursor: &mut Cursor) -> Result<u32, InsnFault>
    ensures { Gives result (number 4 cursor.old) cursor.new }
{
    match cursor.u4() {
        Ok(n) => Ok(n),
        Err(_) => Err(InsnFault::OffEnd),
    }
}

fn s1(cursor: &mut Cursor) -> Result<i8, InsnFault>
    ensures { Gives result (signed 1 w8 cursor.old) cursor.new }
{
    let n = u1(cursor)?;
    Ok(n.cast_signed())
}

fn s2(cursor: &mut Cursor) -> Result<i16, InsnFault>
    ensures { Gives result (signed 2 w16 cursor.old) cursor.new }
{
    let n = u2(cursor)?;
    Ok(n.cast_signed())
}

pub(crate) fn s4(cursor: &mut Cursor) -> Result<i32, InsnFault>
    ensures { Gives result (signed 4 w32 cursor.old) cursor.new }
{
    let n = u4(cursor)?;
    Ok(n.cast_signed())
}

#[tactic(auto, unfolding(crate::specs::Insns::byte_number))]
pub(crate) fn byte_number<'a>(op: u8, cursor: &mut Cursor<'a>) -> Result<Insn<'a>, InsnFault>
    ensures { Gives result (byte_number op cursor.old) cursor.new }
{
    let value = i32::from(s1(cursor)?);
    Ok(Insn::Number { op, value })
}

#[tactic(auto, unfolding(crate::specs::Insns::short_number))]
pub(crate) fn short_number<'a>(op: u8, cursor: &mut Cursor<'a>) -> Result<Insn<'a>, InsnFault>
    ensures { Gives result (short_number op cursor.old) cursor.new }
{
    let value = i32::from(s2(cursor)?);
    Ok(Insn::Number { op, value })
}

#[tactic(auto, unfolding(crate::specs::Insns::byte_pool))]
pub(crate) fn byte_pool<'a>(op: u8, cursor: &mut Cursor<'a>) -> Result<Insn<'a>, InsnFault>
    ensures { Gives result (byte_pool op cursor.old) cursor.new }
{
    let index = u16::from(u1(cursor)?);
    Ok(Insn::Pool { op, index })
}

#[tactic(auto, unfolding(crate::specs::Insns::short_pool))]
pub(crate) fn short_pool<'a>(op: u8, cursor: &mut Cursor<'a>) -> Result<Insn<'a>, InsnFault>
    ensures { Gives result (short_pool op cursor.old) cursor.new }
{
    let index = u2(cursor)?;
    Ok(Insn::Pool { op, index })
}

#[tactic(auto, unfolding(crate::specs::Insns::byte_local))]
pub(crate) fn byte_local<'a>(op: u8, cursor: &mut Cursor<'a>) -> Result<Insn<'a>, InsnFault>
    ensures { Gives result (byte_local op cursor.old) cursor.new }
{
    let local = u16::from(u1(cursor)?);
    let wide = false;
    Ok(Insn::Local { op, local, wide })
}

#[tactic(auto, unfolding(crate::specs::Insns::short_local))]
fn short_local<'a>(op: u8, cursor: &mut Cursor<'a>) -> Result<Insn<'a>, InsnFault>
    ensures { Gives result (short_local op cursor.old) cursor.new }
{
    let local = u2(cursor)?;
    let wide = true;
    Ok(Insn::Local { op, local, wide })
}

#[tactic(auto, unfolding(crate::specs::Insns::increment))]
pub(crate) fn increment<'a>(cursor: &mut Cursor<'a>) -> Result<Insn<'a>, InsnFault>
    ensures { Gives result (increment cursor.old) cursor.new }
{
    let local = u16::from(u1(cursor)?);
    let by = i16::from(s1(cursor)?);
    let wide = false;
    Ok(Insn::Inc { local, by, wide })
}

#[tactic(auto, unfolding(crate::specs::Insns::wide_increment))]
fn wide_increment<'a>(cursor: &mut Cursor<'a>) -> Result<Insn<'a>, InsnFault>
    ensures { Gives result (wide_increment cursor.old) cursor.new }
{
    let local = u2(cursor)?;
    let by = s2(cursor)?;
    let wide = true;
    Ok(Insn::Inc { local, by, wide })
}

#[tactic(auto, unfolding(crate::specs::Insns::short_jump))]
pub(crate) fn short_jump<'a>(
    at: u32,
    op: u8,
    cursor: &mut Cursor<'a>,
) -> Result<Insn<'a>, InsnFault>
    ensures { Gives result (short_jump at op cursor.old) cursor.new }
{
    let offset = s2(cursor)?;
    let target = i64::from(at) + i64::from(offset);
    Ok(Insn::Jump { op, target })
}

#[tactic(auto, unfolding(crate::specs::Insns::long_jump))]
pub(crate) fn long_jump<'a>(at: u32, op: u8, cursor: &mut Cursor<'a>) -> Result<Insn<'a>, InsnFault>
    ensures { Gives result (long_jump at op cursor.old) cursor.new }
{
    let offset = s4(cursor)?;
    let target = i64::from(at) + i64::from(offset);
    Ok(Insn::Jump { op, target })
}

#[tactic(auto, unfolding(crate::specs::Insns::invocation))]
pub(crate) fn invocation<'a>(cursor: &mut Cursor<'a>) -> Result<Insn<'a>, InsnFault>
    ensures { Gives result (invocation cursor.old) cursor.new }
{
    let index = u2(cursor)?;
    let count = u1(cursor)?;
    let last = u1(cursor)?;
    Ok(Insn::Interface { index, count, last })
}

#[tactic(auto, unfolding(crate::specs::Insns::items))]
pub(crate) fn items<'a>(cursor: &mut Cursor<'a>) -> Result<Insn<'a>, InsnFault>
    ensures { Gives result (items cursor.old) cursor.new }
{
    let kind = u1(cursor)?;
    Ok(Insn::NewArray { kind })
}

#[tactic(auto, unfolding(crate::specs::Insns::dimensions))]
pub(crate) fn dimensions<'a>(cursor: &mut Cursor<'a>) -> Result<Insn<'a>, InsnFault>
    ensures { Gives result (dimensions cursor.old) cursor.new }
{
    let index = u2(cursor)?;
    let dims = u1(cursor)?;
    Ok(Insn::Multi { index, dims })
}

#[tactic(auto, unfolding(crate::specs::Insns::widened_by))]
fn widened_by<'a>(op: u8, cursor: &mut Cursor<'a>) -> Result<Insn<'a>, InsnFault>
    ensures { Gives result (widened_by op cursor.old) cursor.new }
{
    match op {
        opcodes::ILOAD
        | opcodes::LLOAD
        | opcodes::ALOAD
        | opcodes::ISTORE
        | opcodes::LSTORE
        | opcodes::ASTORE => short_local(op, cursor),
        opcodes::IINC => wide_increment(cursor),
        opcodes::FLOAD | opcodes::DLOAD | opcodes::FSTORE | opcodes::DSTORE | opcodes::RET => Err(
            InsnFault::Unsupported(op),
        ),
        _ => Err(InsnFault::Unknown(op)),
    }
}

#[tactic(auto, unfolding(crate::specs::Insns::widened))]
pub(crate) fn widened<'a>(cursor: &mut Cursor<'a>) -> Result<Insn<'a>, InsnFault>
    ensures { Gives result (widened cursor.old) cursor.new }
{
    let op = u1(cursor)?;
    widened_by(op, cursor)
}
