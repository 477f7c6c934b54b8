ghost use Rattle.std.specs.Prelude.{◌≡◌, codes};
ghost use Rattle.std.specs.Option.{option_copied, option_and_then};
ghost use Rattle.std.specs.Str.{bytes_eq};
ghost use Rattle.mvm_layout.specs.Pool.{entry};
ghost use Rattle.mvm_check.specs.Operands.{parameter_slots, method_desc, is_invocable, has_dimensions, names_dimensions, constant_operand, method_operand, class_operand, pool_operand, is_count, interface_operand, is_item_kind, multi_operand, has_operands};

use crate::constants::Constants;
use crate::array_types::{T_BOOLEAN, T_BYTE, T_CHAR, T_LONG};
use crate::letters::{LEFT_BRACKET, LESS_THAN};
use crate::methods::{method_desc, method_name};
use mvm_base::{List, Name};
use mvm_insn::{Insn, opcodes};
use mvm_layout::Item;
use mvm_layout::pool::{
    class_name, is_class, is_field, is_interface_method, is_loadable, is_long, is_method, same_text,
};

fn is_invocable(special: bool, name: Option<&Name>) -> bool
    ensures { result ≡ is_invocable special (option_copied name.entry) }
{
    match name {
        Some(name) => {
            let units = name.units();
            units.is_empty() || units[0] != LESS_THAN || (special && same_text(units, b"<init>"))
        }
        None => false,
    }
}

fn has_dimensions(dims: u8, name: &[u16]) -> bool
    ensures { result ≡ has_dimensions dims name.now }
{
    for i in 0..usize::from(dims) {
        if i >= name.len() {
            return false;
        }
        if name[i] != LEFT_BRACKET {
            return false;
        }
    }
    true
}

fn names_dimensions(dims: u8, name: Option<&Name>) -> bool
    ensures { result ≡ names_dimensions dims (option_copied name.entry) }
{
    match name {
        Some(name) => has_dimensions(dims, name.units()),
        None => false,
    }
}

#[tactic(auto, unfolding(crate::specs::Operands::constant_operand))]
fn constant_operand(pool: &List<Item>, op: u8, index: u16) -> bool
    ensures { result ≡ constant_operand op (entry pool.now index) }
{
    if op == opcodes::LDC2_W {
        is_long(pool, index)
    } else {
        is_loadable(pool, index)
    }
}

#[tactic(auto, unfolding(crate::specs::Operands::method_operand))]
fn method_operand(pool: &List<Item>, op: u8, index: u16) -> bool
    ensures { result ≡ method_operand pool.now op index }
{
    (is_method(pool, index) || (op != opcodes::INVOKEVIRTUAL && is_interface_method(pool, index)))
        && is_invocable(op == opcodes::INVOKESPECIAL, method_name(pool, index))
}

#[tactic(auto, unfolding(crate::specs::Operands::class_operand))]
fn class_operand(pool: &List<Item>, op: u8, index: u16) -> bool
    ensures { result ≡ class_operand pool.now op index }
{
    is_class(pool, index)
        && !(op == opcodes::NEW && names_dimensions(1, class_name(pool, index)))
        && !(op == opcodes::ANEWARRAY && names_dimensions(255, class_name(pool, index)))
}

#[tactic(auto, unfolding(crate::specs::Operands::pool_operand))]
fn pool_operand(pool: &List<Item>, op: u8, index: u16) -> bool
    ensures { result ≡ pool_operand pool.now op index }
{
    match op {
        opcodes::LDC..=opcodes::LDC2_W => constant_operand(pool, op, index),
        opcodes::GETSTATIC..=opcodes::PUTFIELD => is_field(pool, index),
        opcodes::INVOKEVIRTUAL..=opcodes::INVOKESTATIC => method_operand(pool, op, index),
        _ => class_operand(pool, op, index),
    }
}

fn is_count(count: u8, slots: Option<u64>) -> bool
    ensures { result ≡ is_count count slots }
{
    match slots {
        Some(slots) => slots < 255 && u64::from(count) == slots + 1,
        None => false,
    }
}

fn method_slots(constants: &Constants, index: u16) -> Option<u64>
    ensures { result ≡ option_and_then (parameter_slots constants.now) (method_desc constants.now index) }
{
    match method_desc(constants.pool(), index) {
        Some(desc) => constants.parameter_slots(desc),
        None => None,
    }
}

#[tactic(auto, unfolding(crate::specs::Operands::interface_operand))]
fn interface_operand(constants: &Constants, index: u16, count: u8, last: u8) -> bool
    ensures { result ≡ interface_operand constants.now index count last }
{
    let pool = constants.pool();
    is_interface_method(pool, index)
        && is_invocable(false, method_name(pool, index))
        && is_count(count, method_slots(constants, index))
        && last == 0
}

fn is_item_kind(kind: u8) -> bool
    ensures { result ≡ is_item_kind kind }
{
    match kind {
        T_BOOLEAN..=T_CHAR | T_BYTE..=T_LONG => true,
        _ => false,
    }
}

#[tactic(auto, unfolding(crate::specs::Operands::multi_operand))]
fn multi_operand(pool: &List<Item>, index: u16, dims: u8) -> bool
    ensures { result ≡ multi_operand pool.now index dims }
{
    is_class(pool, index) && dims != 0 && names_dimensions(dims, class_name(pool, index))
}

/// Whether what the operands of an instruction name is what its opcode wants.
#[tactic(auto, unfolding(crate::specs::Operands::has_operands))]
pub(crate) fn has_operands(constants: &Constants, insn: &Insn) -> bool
    ensures { result ≡ has_operands constants.now insn.now }
{
    match insn {
        Insn::Pool { op, index } => pool_operand(constants.pool(), *op, *index),
        Insn::Interface { index, count, last } => {
            interface_operand(constants, *index, *count, *last)
        }
        Insn::NewArray { kind } => is_item_kind(*kind),
        Insn::Multi { index, dims } => multi_operand(constants.pool(), *index, *dims),
        _ => true,
    }
}
