ghost use Rattle.std.specs.Prelude.{◌≡◌};
ghost use Rattle.mvm_check.specs.Locals.{locals_of_plain, locals_of_named, locals_of, slots_of_this, parameter_locals};

use mvm_insn::{Insn, opcodes};
use mvm_layout::flags::is_static;

#[tactic(auto, unfolding(crate::specs::Locals::locals_of_plain))]
fn locals_of_plain(op: u8) -> u32
    ensures { result ≡ locals_of_plain op }
{
    match op {
        opcodes::ILOAD_0..=opcodes::ILOAD_3 => u32::from(op - opcodes::ILOAD_0) + 1,
        opcodes::LLOAD_0..=opcodes::LLOAD_3 => u32::from(op - opcodes::LLOAD_0) + 2,
        opcodes::ALOAD_0..=opcodes::ALOAD_3 => u32::from(op - opcodes::ALOAD_0) + 1,
        opcodes::ISTORE_0..=opcodes::ISTORE_3 => u32::from(op - opcodes::ISTORE_0) + 1,
        opcodes::LSTORE_0..=opcodes::LSTORE_3 => u32::from(op - opcodes::LSTORE_0) + 2,
        opcodes::ASTORE_0..=opcodes::ASTORE_3 => u32::from(op - opcodes::ASTORE_0) + 1,
        _ => 0,
    }
}

fn locals_of_named(op: u8, local: u16) -> u32
    ensures { result ≡ locals_of_named op local }
{
    if op == opcodes::LLOAD || op == opcodes::LSTORE {
        u32::from(local) + 2
    } else {
        u32::from(local) + 1
    }
}

/// How many local variables there have to be for an instruction.
#[tactic(auto, unfolding(crate::specs::Locals::locals_of))]
pub(crate) fn locals_of(insn: &Insn) -> u32
    ensures { result ≡ locals_of insn.now }
{
    match insn {
        Insn::Plain { op } => locals_of_plain(*op),
        Insn::Local { op, local, .. } => locals_of_named(*op, *local),
        Insn::Inc { local, .. } => u32::from(*local) + 1,
        _ => 0,
    }
}

fn slots_of_this(flags: u16) -> u128
    ensures { result ≡ slots_of_this flags }
{
    if is_static(flags) { 0 } else { 1 }
}

/// How many local variables take the parameters, of so many slots, `this` counted unless the method is static.
pub(crate) fn parameter_locals(flags: u16, slots: Option<u64>) -> u128
    ensures { result ≡ parameter_locals flags slots }
{
    match slots {
        Some(slots) => u128::from(slots) + slots_of_this(flags),
        None => 0,
    }
}
