use crate::switch::Switch;

/// An instruction with its operands (JVM Specification 6.5). A target is a place in the method's code, counted from its
/// first byte; it may lie outside. Where `wide` is true, the opcode is the one behind `wide`.
#[derive(Debug, Drop)]
pub enum Insn<'a> {
    /// An instruction with nothing behind its opcode.
    Plain { op: u8 },
    /// `bipush` and `sipush`, with the number to push.
    Number { op: u8, value: i32 },
    /// An instruction on an entry of the constant pool: `ldc`, `ldc_w`, `ldc2_w`, the fields' instructions, the
    /// invocations but `invokeinterface`, `new`, `anewarray`, `checkcast` and `instanceof`.
    Pool { op: u8, index: u16 },
    /// A load or a store of a local variable.
    Local { op: u8, local: u16, wide: bool },
    /// `iinc`: add to a local variable.
    Inc { local: u16, by: i16, wide: bool },
    /// A branch, also `goto_w`, to a place that is counted from the first byte of the code.
    Jump { op: u8, target: i64 },
    /// `tableswitch` and `lookupswitch`.
    Choice { op: u8, rows: Switch<'a> },
    /// `invokeinterface`, with its count of words and its last byte.
    Interface { index: u16, count: u8, last: u8 },
    /// `newarray`, with the kind of its items.
    NewArray { kind: u8 },
    /// `multianewarray`, with the count of its dimensions.
    Multi { index: u16, dims: u8 },
}

/// An instruction, and the place behind it (JVM Specification 6.5).
#[derive(Debug, Drop)]
pub struct At<'a> {
    pub insn: Insn<'a>,
    /// Where the next instruction's opcode stands, if the code does not end there.
    pub next: u32,
}
