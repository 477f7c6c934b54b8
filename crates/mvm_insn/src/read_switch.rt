ghost use Rattle.std.specs.Prelude.{◌≡◌, ◌<◌, ◌≤◌, ◌+◌, ◌-◌, ◌*◌, ◌%◌, ◌^◌, pos, ◌-ℤ◌, length, Ok, Err, IfOk, MatchResult};
ghost use Rattle.mvm_base.specs.Answers.{Does, Gives};
ghost use Rattle.mvm_insn.specs.Readers.{bytes};
ghost use Rattle.mvm_insn.specs.Insns.{aligned, counted, table_rows, table_parts, table, lookup_rows, lookup_parts, lookup};

use crate::fault::InsnFault;
use crate::read::{s4, u4};
use crate::switch::Switch;
use crate::switch_rows::{Lookup, Table, rises};
use mvm_base::Cursor;

/// The next `n` bytes.
#[tactic(auto, using(crate::proofs::Runs::short))]
fn text<'a>(n: u64, cursor: &mut Cursor<'a>) -> Result<&'a [u8], InsnFault>
    ensures len { IfOk result (λ x. length x.now ≡ n) }
    ensures short { IfOk result (λ x. n < 2 ^ 32) }
    ensures takes { MatchResult result (λ x. bytes n cursor.old ≡ Ok (x.now, cursor.new)) (λ fault. bytes n cursor.old ≡ Err fault) }
{
    if n >= 0x1_0000_0000 {
        // No cursor has so many bytes: its place behind them would be beyond 2^32.
        let _place = cursor.place();
        return Err(InsnFault::OffEnd);
    }
    match cursor.bytes(n as u32) {
        Ok(text) => Ok(text),
        Err(_) => Err(InsnFault::OffEnd),
    }
}

/// Passes over the bytes up to the next place that four divides, behind an opcode at a place.
fn align(at: u32, cursor: &mut Cursor) -> Result<(), InsnFault>
    ensures { Does result (aligned at cursor.old) cursor.new }
{
    match text(u64::from(3 - at % 4), cursor) {
        Ok(_) => Ok(()),
        Err(fault) => Err(fault),
    }
}

/// How many keys stand from the lowest to the highest.
fn counted(low: i32, high: i32) -> Result<u64, InsnFault>
    ensures { result ≡ counted (high -ℤ low) }
{
    let more = i64::from(high) - i64::from(low);
    if more < 0 {
        return Err(InsnFault::Switch);
    }
    Ok(more as u64 + 1)
}

#[tactic(auto, unfolding(crate::specs::Insns::table_rows))]
fn table_rows<'a>(
    at: u32,
    otherwise: i64,
    low: i32,
    high: i32,
    cursor: &mut Cursor<'a>,
) -> Result<Switch<'a>, InsnFault>
    ensures { Gives result (table_rows at otherwise low high cursor.old) cursor.new }
{
    let count = counted(low, high)?;
    let text = text(4 * count, cursor)?;
    Ok(Switch::from_table(otherwise, Table::new(at, low, count as u32, text)))
}

#[tactic(auto, unfolding(crate::specs::Insns::table_parts))]
fn table_parts<'a>(at: u32, cursor: &mut Cursor<'a>) -> Result<Switch<'a>, InsnFault>
    ensures { Gives result (table_parts at cursor.old) cursor.new }
{
    let offset = s4(cursor)?;
    let low = s4(cursor)?;
    let high = s4(cursor)?;
    table_rows(at, i64::from(at) + i64::from(offset), low, high, cursor)
}

#[tactic(auto, unfolding(crate::specs::Insns::table))]
pub(crate) fn table<'a>(at: u32, cursor: &mut Cursor<'a>) -> Result<Switch<'a>, InsnFault>
    ensures { Gives result (table at cursor.old) cursor.new }
{
    align(at, cursor)?;
    table_parts(at, cursor)
}

#[tactic(auto, unfolding(crate::specs::Insns::lookup_rows))]
fn lookup_rows<'a>(
    at: u32,
    otherwise: i64,
    count: u32,
    cursor: &mut Cursor<'a>,
) -> Result<Switch<'a>, InsnFault>
    ensures { Gives result (lookup_rows at otherwise count cursor.old) cursor.new }
{
    if count >= 0x8000_0000 {
        return Err(InsnFault::Switch);
    }
    let text = text(8 * u64::from(count), cursor)?;
    if count == 0 || rises(text, count - 1) {
        return Ok(Switch::from_lookup(otherwise, Lookup::new(at, count, text)));
    }
    Err(InsnFault::Switch)
}

#[tactic(auto, unfolding(crate::specs::Insns::lookup_parts))]
fn lookup_parts<'a>(at: u32, cursor: &mut Cursor<'a>) -> Result<Switch<'a>, InsnFault>
    ensures { Gives result (lookup_parts at cursor.old) cursor.new }
{
    let offset = s4(cursor)?;
    let count = u4(cursor)?;
    lookup_rows(at, i64::from(at) + i64::from(offset), count, cursor)
}

#[tactic(auto, unfolding(crate::specs::Insns::lookup))]
pub(crate) fn lookup<'a>(at: u32, cursor: &mut Cursor<'a>) -> Result<Switch<'a>, InsnFault>
    ensures { Gives result (lookup at cursor.old) cursor.new }
{
    align(at, cursor)?;
    lookup_parts(at, cursor)
}
