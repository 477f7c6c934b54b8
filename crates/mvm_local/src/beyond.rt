ghost use Rattle.std.specs.Prelude.{◌≡◌, Some};

/// An instruction that reaches beyond its frame: to an object, a class, a method or a caller (JVM Specification 6.5).
#[derive(Clone, Copy, Debug, PartialEq, Eq)]
pub enum Beyond {
    /// The loads and stores of array items, `arraylength`, `athrow`, `monitorenter`, `monitorexit` and the returns.
    Plain { op: u8 },
    /// An instruction on an entry of the constant pool: `ldc`, `ldc_w`, `ldc2_w`, the fields' instructions, the
    /// invocations but `invokeinterface`, `new`, `anewarray`, `checkcast` and `instanceof`.
    Pool { op: u8, index: u16 },
    /// `invokeinterface`, with its entry of the constant pool.
    Interface { index: u16 },
    /// `newarray`, with the kind of its items.
    NewArray { kind: u8 },
    /// `multianewarray`, with its entry of the constant pool and the count of its dimensions.
    Multi { index: u16, dims: u8 },
}

/// Such an instruction, and the place behind it.
#[derive(Clone, Copy, Debug, PartialEq, Eq)]
pub struct BeyondAt {
    pub insn: Beyond,
    /// Where the next instruction's opcode stands, if the code does not end there.
    pub next: u32,
}

/// An instruction that reaches beyond its frame.
#[inline]
pub(crate) fn further(insn: Beyond, next: u32) -> Option<BeyondAt>
    ensures { result ≡ Some (record { insn = insn; next = next }) }
{
    Some(BeyondAt { insn, next })
}
