ghost use Rattle.std.specs.Prelude.{◌≡◌};
ghost use Rattle.mvm_frame.specs.ShuffleRows.{shuffle_of};

use mvm_insn::opcodes;

/// A move of the operands on top, by the name of its instruction (JVM Specification 6.5).
#[derive(Clone, Copy, Debug, PartialEq, Eq)]
pub enum Shuffle {
    /// `pop`.
    Pop,
    /// `pop2`.
    Pop2,
    /// `dup`.
    Dup,
    /// `dup_x1`.
    DupX1,
    /// `dup_x2`.
    DupX2,
    /// `dup2`.
    Dup2,
    /// `dup2_x1`.
    Dup2X1,
    /// `dup2_x2`.
    Dup2X2,
    /// `swap`.
    Swap,
}

/// The move of an opcode from `pop` to `swap`; `None` for any other.
pub fn shuffle_of(op: u8) -> Option<Shuffle>
    ensures { result ≡ shuffle_of op }
{
    match op {
        opcodes::POP => Some(Shuffle::Pop),
        opcodes::POP2 => Some(Shuffle::Pop2),
        opcodes::DUP => Some(Shuffle::Dup),
        opcodes::DUP_X1 => Some(Shuffle::DupX1),
        opcodes::DUP_X2 => Some(Shuffle::DupX2),
        opcodes::DUP2 => Some(Shuffle::Dup2),
        opcodes::DUP2_X1 => Some(Shuffle::Dup2X1),
        opcodes::DUP2_X2 => Some(Shuffle::Dup2X2),
        opcodes::SWAP => Some(Shuffle::Swap),
        _ => None,
    }
}
