use mvm_base::Kind;

/// How one number is tested against another: `eq`, `ne`, `lt`, `ge`, `gt` and `le` at the end of a branch's mnemonic (JVM
/// Specification 6.5).
#[derive(Clone, Copy, Debug, PartialEq, Eq)]
pub enum Condition {
    /// `eq`.
    Equal,
    /// `ne`.
    NotEqual,
    /// `lt`.
    Less,
    /// `ge`.
    GreaterOrEqual,
    /// `gt`.
    Greater,
    /// `le`.
    LessOrEqual,
}

/// When a branch is taken (JVM Specification 6.5).
#[derive(Clone, Copy, Debug, PartialEq, Eq)]
pub enum Test {
    /// `goto`: always.
    Always,
    /// `ifeq` to `ifle`: an int against 0.
    Zero(Condition),
    /// `if_icmpeq` to `if_icmple`: two ints.
    Ints(Condition),
    /// `if_acmpeq`: two references to one object, or both null.
    Same,
    /// `if_acmpne`: two references that are not so.
    Different,
    /// `ifnull`.
    Null,
    /// `ifnonnull`.
    NonNull,
}

/// What an instruction does to the operands alone (JVM Specification 6.5).
#[derive(Clone, Copy, Debug, PartialEq, Eq)]
pub enum Operation {
    /// `nop`.
    Nothing,
    /// `aconst_null`.
    PushNull,
    /// `iconst_m1` to `iconst_5`.
    PushInt(i8),
    /// `lconst_0`, `lconst_1`.
    PushLong(i8),
    /// `pop` to `swap`: which of them, the opcode tells (`shuffle_of` of `mvm_frame`).
    Shuffle,
    /// `iadd` to `ixor` but `ineg`: an int of two ints, by the opcode (`int_operation` of `mvm_arith`).
    Ints,
    /// `ineg`.
    NegateInt,
    /// `ladd` to `lxor` but `lneg` and the shifts: a long of two longs, by the opcode (`long_arithmetic` of `mvm_arith`).
    Longs,
    /// `lneg`.
    NegateLong,
    /// `lshl`, `lshr`, `lushr`: a long of a long and an int, by the opcode (`long_shift` of `mvm_arith`).
    ShiftLong,
    /// `i2l`, `l2i`, `i2b`, `i2c`, `i2s`: a value of a value of this kind, by the opcode (`conversion` of `mvm_arith`).
    Convert(Kind),
    /// `lcmp`.
    Compare,
}

/// What an instruction does (JVM Specification 6.5).
#[derive(Clone, Copy, Debug, PartialEq, Eq)]
pub enum Action {
    /// It changes the operands alone.
    Operate(Operation),
    /// `bipush`: the number in the byte behind the opcode is pushed.
    PushByte,
    /// `sipush`: the same of two bytes.
    PushShort,
    /// `iload`, `lload`, `aload`: the value in the local variable whose number stands behind the opcode is pushed.
    Load(Kind),
    /// `iload_0` to `aload_3`: the same of this local variable.
    LoadFrom(Kind, u8),
    /// `istore`, `lstore`, `astore`: a value is popped into the local variable whose number stands behind the opcode.
    Store(Kind),
    /// `istore_0` to `astore_3`: the same of this local variable.
    StoreTo(Kind, u8),
    /// `iinc`: a number is added to the int in a local variable.
    Increment,
    /// `ifeq` to `goto`, `ifnull`, `ifnonnull`: a branch, if the test holds.
    Branch(Test),
    /// `goto_w`: a branch.
    LongGoto,
    /// `tableswitch`, `lookupswitch`: a branch by the int on top.
    Switch,
    /// `wide`: what the opcode behind it does.
    Wide,
    /// It reaches beyond its frame; this crate does nothing of it.
    Beyond,
    /// There is no such instruction, or it is not supported.
    Absent,
}
