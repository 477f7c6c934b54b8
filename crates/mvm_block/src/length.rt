//! How many bytes a piece has, which does not hang on where its targets stand.

ghost use Rattle.std.specs.Prelude.{◌≡◌, ◌+◌, ◌-◌, ◌%◌, ◌<◌, ◌^◌, if◌then◌else◌, IfOk};
ghost use Rattle.mvm_listing.specs.Encoding.{length_of};
ghost use Rattle.mvm_block.specs.Lengths.{line_length};

use mvm_base::OutOfMemory;
use mvm_insn::operands_of;
use mvm_listing::Piece;
use mvm_listing::range::{jumps_far, names_byte, pushes_byte, takes_wide};
use mvm_statement::Instruction;

/// Behind an opcode at a place, up to the next place that four divides.
fn padding(at: u64) -> u128
    ensures { result ≡ 3 - at % 4 }
{
    3 - u128::from(at % 4)
}

/// One of two lengths.
fn either(is_long: bool, long: u128, short: u128) -> u128
    ensures { result ≡ (if is_long then long else short) }
{
    if is_long { long } else { short }
}

/// How many bytes an instruction at a place has.
fn line_length(at: u64, line: &Instruction) -> u128
    ensures exact { result ≡ line_length at line.now }
    ensures small { result < 2 ^ 68 }
{
    match line {
        Instruction::Plain { .. } => 1,
        Instruction::Push { op, .. } => either(pushes_byte(operands_of(*op)), 2, 3),
        Instruction::Load { op, .. } => either(names_byte(operands_of(*op)), 2, 3),
        Instruction::LoadLong { .. } => 3,
        Instruction::OfClass { .. } => 3,
        Instruction::OfMember { .. } => 3,
        Instruction::Local { local, wide, .. } => either(takes_wide(*wide, *local), 4, 2),
        Instruction::Increment { local, wide, .. } => either(takes_wide(*wide, *local), 6, 3),
        Instruction::Jump { op, .. } => either(jumps_far(operands_of(*op)), 5, 3),
        Instruction::Table { targets, .. } => 13 + padding(at) + 4 * targets.len() as u128,
        Instruction::Lookup { rows, .. } => 9 + padding(at) + 8 * rows.len() as u128,
        Instruction::Invocation { .. } => 5,
        Instruction::Items { .. } => 2,
        Instruction::Dimensions { .. } => 4,
    }
}

/// How many bytes a piece at a place has.
#[tactic(auto, using(crate::proofs::Lengths::line_length_is))]
fn length_of(at: u64, piece: &Piece) -> u128
    ensures exact { result ≡ length_of at piece.now }
    ensures small { result < 2 ^ 68 }
{
    match piece {
        Piece::Own(line) => line_length(at, line),
        Piece::OneByte(_) => 1,
    }
}

/// The place behind a piece. A code of 2^64 bytes is in no memory.
pub(crate) fn end_behind(at: u64, piece: &Piece) -> Result<u64, OutOfMemory>
    ensures { IfOk result (λ end. end ≡ at + length_of at piece.now) }
{
    let end = u128::from(at) + length_of(at, piece);
    if end > u128::from(u64::MAX) {
        return Err(OutOfMemory);
    }
    Ok(end as u64)
}
