ghost use Rattle.std.specs.Prelude.{◌≡◌, ◌<◌, ◌^◌, length};
ghost use Rattle.mvm_base.specs.Answers.{Gives};
ghost use Rattle.mvm_insn.specs.Insns.{table, lookup, chosen, operands, read_at, insn};

use crate::fault::InsnFault;
use crate::insn::{At, Insn};
use crate::read::{
    byte_local, byte_number, byte_pool, dimensions, increment, invocation, items, long_jump,
    short_jump, short_number, short_pool, u1, widened,
};
use crate::read_switch::{lookup, table};
use crate::table::{Operands, operands_of};
use mvm_base::Cursor;

fn table_insn<'a>(at: u32, op: u8, cursor: &mut Cursor<'a>) -> Result<Insn<'a>, InsnFault>
    ensures { Gives result (chosen op (table at cursor.old)) cursor.new }
{
    match table(at, cursor) {
        Ok(rows) => Ok(Insn::Choice { op, rows }),
        Err(fault) => Err(fault),
    }
}

fn lookup_insn<'a>(at: u32, op: u8, cursor: &mut Cursor<'a>) -> Result<Insn<'a>, InsnFault>
    ensures { Gives result (chosen op (lookup at cursor.old)) cursor.new }
{
    match lookup(at, cursor) {
        Ok(rows) => Ok(Insn::Choice { op, rows }),
        Err(fault) => Err(fault),
    }
}

#[tactic(auto, unfolding(crate::specs::Insns::operands))]
fn operands<'a>(
    at: u32,
    op: u8,
    shape: Operands,
    cursor: &mut Cursor<'a>,
) -> Result<Insn<'a>, InsnFault>
    ensures { Gives result (operands at op shape cursor.old) cursor.new }
{
    match shape {
        Operands::Alone => Ok(Insn::Plain { op }),
        Operands::ByteNumber => byte_number(op, cursor),
        Operands::ShortNumber => short_number(op, cursor),
        Operands::BytePool => byte_pool(op, cursor),
        Operands::ShortPool => short_pool(op, cursor),
        Operands::ByteLocal => byte_local(op, cursor),
        Operands::Increment => increment(cursor),
        Operands::ShortJump => short_jump(at, op, cursor),
        Operands::LongJump => long_jump(at, op, cursor),
        Operands::Table => table_insn(at, op, cursor),
        Operands::Lookup => lookup_insn(at, op, cursor),
        Operands::Invocation => invocation(cursor),
        Operands::Items => items(cursor),
        Operands::Dimensions => dimensions(cursor),
        Operands::Widened => widened(cursor),
        Operands::Foreign => Err(InsnFault::Unsupported(op)),
        Operands::Absent => Err(InsnFault::Unknown(op)),
    }
}

/// The instruction at the place of the cursor, which is left behind it.
#[tactic(auto, unfolding(crate::specs::Insns::read_at))]
fn read_at<'a>(cursor: &mut Cursor<'a>) -> Result<Insn<'a>, InsnFault>
    ensures { Gives result (read_at cursor.old.at cursor.old) cursor.new }
{
    let at = cursor.place();
    let op = u1(cursor)?;
    operands(at, op, operands_of(op), cursor)
}

/// The instruction whose opcode stands at a place of a method's code, and the place behind it (JVM Specification 6.5). It
/// takes no memory. `Unknown` and `Unsupported` are told by the opcode alone, before `OffEnd`.
#[tactic(auto, unfolding(crate::specs::Insns::insn))]
pub fn insn_at<'a>(code: &'a [u8], pc: u32) -> Result<At<'a>, InsnFault>
    requires { length code.now < 2 ^ 32 }
    ensures { result ≡ insn code.now pc }
{
    let start = code.len().min(pc as usize);
    let (_, rest) = code.split_at(start);
    let mut cursor = Cursor::from_place(rest, pc);
    match read_at(&mut cursor) {
        Ok(insn) => Ok(At {
            insn,
            next: cursor.place(),
        }),
        Err(fault) => Err(fault),
    }
}
