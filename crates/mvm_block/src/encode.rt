//! The bytes of a piece of a code (JVM Specification 6.5), whose targets are known and near enough.

ghost use Rattle.std.specs.Prelude.{◌≡◌, ◌∷◌, ◌++◌, [], length, if◌then◌else◌, IsTrue, OnOk};
ghost use Rattle.std.specs.List.{list_all, flat_map};
ghost use Rattle.mvm_statement.specs.Numbers.{magnitude};
ghost use Rattle.mvm_statement.specs.declared.instruction.Instruction.TheVariants.{Push, Increment, Jump, Table, Lookup};
ghost use Rattle.mvm_listing.specs.declared.piece.Piece.TheVariants.{Own};
ghost use Rattle.mvm_listing.specs.Range.{is_u1, is_u2, is_i4, pushes_byte, names_byte, fits_reference, fits_member, fits_loadable, fits_long, fits_entry, fits_instruction, takes_wide, highest};
ghost use Rattle.mvm_listing.specs.Encoding.{reference_index, member_index, loadable_index, long_index, u1, u2, i1, i2, i4, on_local, encoded, targets_of};
ghost use Rattle.mvm_listing.specs.Blocks.{place_in, fits_as, piece_made};
ghost use Rattle.mvm_insn.specs.Opcodes.{operands_of};
ghost use Rattle.mvm_block.specs.Ready.{offset_to, is_ready};

use crate::labels::Labels;
use crate::numbers::{push_count, push_i1, push_i2, push_i4, push_padding, push_u1, push_u2};
use mvm_base::List;
use mvm_insn::opcodes::WIDE;
use mvm_insn::operands_of;
use mvm_listing::range::{highest, jumps_far, names_byte, pushes_byte, takes_wide};
use mvm_listing::{Piece, Placed};
use mvm_statement::{Instruction, KeyRow, Loadable, LongConstant, Member, Place, Reference};
use std::alloc::AllocError;

// ---- indices of the constant pool, which names were looked up for

/// The index of a class.
fn reference_index(reference: &Reference) -> i128
    requires { IsTrue (fits_reference reference.now) }
    ensures index { magnitude result ≡ reference_index reference.now }
    ensures fits { IsTrue (is_u2 result) }
{
    match reference {
        Reference::Indexed(index) => *index,
        Reference::Named(_) => 0,
    }
}

/// The index of a field or a method.
fn member_index(member: &Member) -> i128
    requires { IsTrue (fits_member member.now) }
    ensures index { magnitude result ≡ member_index member.now }
    ensures fits { IsTrue (is_u2 result) }
{
    match member {
        Member::Indexed(index) => *index,
        Member::Named { .. } => 0,
    }
}

/// The index of what `ldc` and `ldc_w` push.
fn loadable_index(op: u8, constant: &Loadable) -> i128
    requires { IsTrue (fits_loadable op constant.now) }
    ensures index { magnitude result ≡ loadable_index constant.now }
    ensures fits { IsTrue (fits_entry op result) }
{
    match constant {
        Loadable::Indexed(index) => *index,
        Loadable::Integer(_) => 0,
        Loadable::Text(_) => 0,
        Loadable::Class(_) => 0,
    }
}

/// The index of what `ldc2_w` pushes.
fn long_index(constant: &LongConstant) -> i128
    requires { IsTrue (fits_long constant.now) }
    ensures index { magnitude result ≡ long_index constant.now }
    ensures fits { IsTrue (is_u2 result) }
{
    match constant {
        LongConstant::Indexed(index) => *index,
        LongConstant::Long(_) => 0,
    }
}

// ---- instructions without a target

/// Adds an opcode.
fn push_op(out: &mut Vec<u8>, op: u8) -> Result<(), AllocError>
    ensures { OnOk result (out.new.items ≡ out.old.items ++ op ∷ []) }
{
    out.push(op)?;
    Ok(())
}

/// Adds an opcode and the number that it pushes.
fn push_number(out: &mut Vec<u8>, op: u8, number: i128) -> Result<(), AllocError>
    requires { IsTrue (fits_instruction (Push op number)) }
    ensures { OnOk result (out.new.items ≡ out.old.items ++ op ∷ (if pushes_byte (operands_of op) then i1 number else i2 number)) }
{
    push_op(out, op)?;
    if pushes_byte(operands_of(op)) {
        push_i1(out, number)
    } else {
        push_i2(out, number)
    }
}

/// Adds `ldc` or `ldc_w` and the index of what it pushes.
fn push_load(out: &mut Vec<u8>, op: u8, index: i128) -> Result<(), AllocError>
    requires { IsTrue (fits_entry op index) }
    ensures { OnOk result (out.new.items ≡ out.old.items ++ op ∷ (if names_byte (operands_of op) then u1 (magnitude index) else u2 (magnitude index))) }
{
    push_op(out, op)?;
    if names_byte(operands_of(op)) {
        push_u1(out, index)
    } else {
        push_u2(out, index)
    }
}

/// Adds an opcode and an index of the constant pool.
fn push_indexed(out: &mut Vec<u8>, op: u8, index: i128) -> Result<(), AllocError>
    requires { IsTrue (is_u2 index) }
    ensures { OnOk result (out.new.items ≡ out.old.items ++ op ∷ u2 (magnitude index)) }
{
    push_op(out, op)?;
    push_u2(out, index)
}

/// Adds an opcode and a local variable.
#[tactic(auto, using(crate::proofs::Ranges::narrow))]
fn push_local(out: &mut Vec<u8>, op: u8, local: i128, wide: bool) -> Result<(), AllocError>
    requires { IsTrue (is_u2 local) }
    ensures { OnOk result (out.new.items ≡ out.old.items ++ on_local (takes_wide wide local) op (magnitude local) [] []) }
{
    if takes_wide(wide, local) {
        push_op(out, WIDE)?;
        push_op(out, op)?;
        push_u2(out, local)
    } else {
        push_op(out, op)?;
        push_u1(out, local)
    }
}

/// Adds `iinc`, a local variable and what is added to it.
#[tactic(auto, using(crate::proofs::Ranges::narrow))]
fn push_increment(
    out: &mut Vec<u8>,
    op: u8,
    local: i128,
    by: i128,
    wide: bool,
) -> Result<(), AllocError>
    requires { IsTrue (fits_instruction (Increment op local by wide)) }
    ensures { OnOk result (out.new.items ≡ out.old.items ++ on_local (takes_wide wide local) op (magnitude local) (i1 by) (i2 by)) }
{
    push_local(out, op, local, wide)?;
    if takes_wide(wide, local) {
        push_i2(out, by)
    } else {
        push_i1(out, by)
    }
}

/// Adds `invokeinterface`, the index of its method, its count and a zero.
fn push_invocation(out: &mut Vec<u8>, op: u8, index: i128, count: i128) -> Result<(), AllocError>
    requires index { IsTrue (is_u2 index) }
    requires count { IsTrue (is_u1 count) }
    ensures { OnOk result (out.new.items ≡ out.old.items ++ op ∷ (u2 (magnitude index) ++ (u1 (magnitude count) ++ 0 ∷ []))) }
{
    push_indexed(out, op, index)?;
    push_u1(out, count)?;
    push_op(out, 0)
}

/// Adds `newarray` and the code of a kind.
fn push_items(out: &mut Vec<u8>, op: u8, kind: i128) -> Result<(), AllocError>
    requires { IsTrue (is_u1 kind) }
    ensures { OnOk result (out.new.items ≡ out.old.items ++ op ∷ u1 (magnitude kind)) }
{
    push_op(out, op)?;
    push_u1(out, kind)
}

/// Adds `multianewarray`, the index of its class and its count.
fn push_dimensions(out: &mut Vec<u8>, op: u8, index: i128, count: i128) -> Result<(), AllocError>
    requires index { IsTrue (is_u2 index) }
    requires count { IsTrue (is_u1 count) }
    ensures { OnOk result (out.new.items ≡ out.old.items ++ op ∷ (u2 (magnitude index) ++ u1 (magnitude count))) }
{
    push_indexed(out, op, index)?;
    push_u1(out, count)
}

// ---- instructions with targets

/// How far it is from a place to a target.
#[tactic(auto, using(crate::proofs::Ranges::i4_wide))]
fn offset_to(labels: &Labels, at: u64, target: &Place) -> i128
    requires { IsTrue (is_i4 (offset_to labels.now at target.now)) }
    ensures { result ≡ offset_to labels.now at target.now }
{
    labels.place_in(target) - i128::from(at)
}

/// Adds the four bytes of an offset.
fn push_offset(
    out: &mut Vec<u8>,
    labels: &Labels,
    at: u64,
    target: &Place,
) -> Result<(), AllocError>
    requires { IsTrue (is_i4 (offset_to labels.now at target.now)) }
    ensures { OnOk result (out.new.items ≡ out.old.items ++ i4 (offset_to labels.now at target.now)) }
{
    push_i4(out, offset_to(labels, at, target))
}

/// Adds the offset of each target.
fn push_targets(
    out: &mut Vec<u8>,
    labels: &Labels,
    at: u64,
    targets: &[Place],
) -> Result<(), AllocError>
    requires { IsTrue (list_all (λ x. is_i4 (offset_to labels.now at x)) targets.now) }
    ensures { OnOk result (out.new.items ≡ out.old.items ++ flat_map (λ x. i4 (offset_to labels.now at x)) targets.now) }
{
    for target in targets {
        push_offset(out, labels, at, target)?;
    }
    Ok(())
}

/// Adds the key and the offset of each row.
fn push_key_rows(
    out: &mut Vec<u8>,
    labels: &Labels,
    at: u64,
    rows: &[KeyRow],
) -> Result<(), AllocError>
    requires keys { IsTrue (list_all (λ row. is_i4 row.key) rows.now) }
    requires targets { IsTrue (list_all (λ row. is_i4 (offset_to labels.now at row.target)) rows.now) }
    ensures { OnOk result (out.new.items ≡ out.old.items ++ flat_map (λ row. i4 row.key ++ i4 (offset_to labels.now at row.target)) rows.now) }
{
    for row in rows {
        push_i4(out, row.key)?;
        push_offset(out, labels, at, &row.target)?;
    }
    Ok(())
}

/// Adds a branch.
#[tactic(auto, using(crate::proofs::Ranges::i2_is_i4), unfolding(mvm_listing::specs::Encoding::encoded))]
fn push_jump(
    out: &mut Vec<u8>,
    labels: &Labels,
    at: u64,
    op: u8,
    target: &Place,
) -> Result<(), AllocError>
    requires { IsTrue (fits_as (Own (Jump op target.now)) (offset_to labels.now at target.now)) }
    ensures { OnOk result (out.new.items ≡ out.old.items ++ encoded (place_in labels.now) at (Jump op target.now)) }
{
    push_op(out, op)?;
    if jumps_far(operands_of(op)) {
        push_offset(out, labels, at, target)
    } else {
        push_i2(out, offset_to(labels, at, target))
    }
}

/// Adds the lowest and the highest key of a `tableswitch`.
fn push_bounds(out: &mut Vec<u8>, low: i128, targets: &List<Place>) -> Result<(), AllocError>
    requires low { IsTrue (is_i4 low) }
    requires high { IsTrue (is_i4 (highest low targets.now)) }
    ensures { OnOk result (out.new.items ≡ out.old.items ++ (i4 low ++ i4 (highest low targets.now))) }
{
    push_i4(out, low)?;
    push_i4(out, highest(low, targets))
}

/// Adds a `tableswitch`.
#[tactic(auto, unfolding(mvm_listing::specs::Encoding::encoded))]
fn push_table(
    out: &mut Vec<u8>,
    labels: &Labels,
    at: u64,
    op: u8,
    low: i128,
    targets: &List<Place>,
    otherwise: &Place,
) -> Result<(), AllocError>
    requires numbers { IsTrue (fits_instruction (Table op low targets.now otherwise.now)) }
    requires otherwise { IsTrue (is_i4 (offset_to labels.now at otherwise.now)) }
    requires targets { IsTrue (list_all (λ x. is_i4 (offset_to labels.now at x)) targets.now) }
    ensures { OnOk result (out.new.items ≡ out.old.items ++ encoded (place_in labels.now) at (Table op low targets.now otherwise.now)) }
{
    push_op(out, op)?;
    push_padding(out, at)?;
    push_offset(out, labels, at, otherwise)?;
    push_bounds(out, low, targets)?;
    push_targets(out, labels, at, targets.as_slice())
}

/// Adds a `lookupswitch`.
#[tactic(auto, unfolding(mvm_listing::specs::Encoding::encoded))]
fn push_lookup(
    out: &mut Vec<u8>,
    labels: &Labels,
    at: u64,
    op: u8,
    rows: &[KeyRow],
    otherwise: &Place,
) -> Result<(), AllocError>
    requires keys { IsTrue (list_all (λ row. is_i4 row.key) rows.now) }
    requires otherwise { IsTrue (is_i4 (offset_to labels.now at otherwise.now)) }
    requires targets { IsTrue (list_all (λ row. is_i4 (offset_to labels.now at row.target)) rows.now) }
    ensures { OnOk result (out.new.items ≡ out.old.items ++ encoded (place_in labels.now) at (Lookup op rows.now otherwise.now)) }
{
    push_op(out, op)?;
    push_padding(out, at)?;
    push_offset(out, labels, at, otherwise)?;
    push_count(out, rows.len())?;
    push_key_rows(out, labels, at, rows)
}

// ---- pieces

/// Adds an instruction that stands at a place.
#[tactic(auto, unfolding(mvm_listing::specs::Encoding::encoded))]
fn push_line(
    out: &mut Vec<u8>,
    labels: &Labels,
    at: u64,
    line: &Instruction,
) -> Result<(), AllocError>
    requires numbers { IsTrue (fits_instruction line.now) }
    requires targets { IsTrue (list_all (λ x. fits_as (Own line.now) (offset_to labels.now at x)) (targets_of (Own line.now))) }
    ensures { OnOk result (out.new.items ≡ out.old.items ++ encoded (place_in labels.now) at line.now) }
{
    match line {
        Instruction::Plain { op } => push_op(out, *op),
        Instruction::Push { op, number } => push_number(out, *op, *number),
        Instruction::Load { op, constant } => push_load(out, *op, loadable_index(*op, constant)),
        Instruction::LoadLong { op, constant } => push_indexed(out, *op, long_index(constant)),
        Instruction::OfClass { op, class } => push_indexed(out, *op, reference_index(class)),
        Instruction::OfMember { op, member } => push_indexed(out, *op, member_index(member)),
        Instruction::Local { op, local, wide } => push_local(out, *op, *local, *wide),
        Instruction::Increment {
            op,
            local,
            by,
            wide,
        } => push_increment(out, *op, *local, *by, *wide),
        Instruction::Jump { op, target } => push_jump(out, labels, at, *op, target),
        Instruction::Table {
            op,
            low,
            targets,
            otherwise,
        } => push_table(out, labels, at, *op, *low, targets, otherwise),
        Instruction::Lookup {
            op,
            rows,
            otherwise,
        } => push_lookup(out, labels, at, *op, rows.as_slice(), otherwise),
        Instruction::Invocation { op, member, count } => {
            push_invocation(out, *op, member_index(member), *count)
        }
        Instruction::Items { op, kind } => push_items(out, *op, *kind),
        Instruction::Dimensions { op, class, count } => {
            push_dimensions(out, *op, reference_index(class), *count)
        }
    }
}

/// Adds the bytes of a piece.
pub(crate) fn push_piece(
    out: &mut Vec<u8>,
    labels: &Labels,
    placed: &Placed,
) -> Result<(), AllocError>
    requires { IsTrue (is_ready labels.now placed.now) }
    ensures { OnOk result (out.new.items ≡ out.old.items ++ piece_made labels.now placed.now) }
{
    match &placed.piece {
        Piece::Own(line) => push_line(out, labels, placed.at, line),
        Piece::OneByte(byte) => push_op(out, *byte),
    }
}
