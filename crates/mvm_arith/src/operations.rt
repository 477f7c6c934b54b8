/// What an instruction computes of two numbers of one width (JVM Specification 6.5).
#[derive(Clone, Copy, Debug, PartialEq, Eq)]
pub enum Arithmetic {
    /// `iadd`, `ladd`.
    Add,
    /// `isub`, `lsub`.
    Subtract,
    /// `imul`, `lmul`.
    Multiply,
    /// `idiv`, `ldiv`: rounded toward zero.
    Divide,
    /// `irem`, `lrem`: what the division leaves.
    Remainder,
    /// `ineg`, `lneg`: of the first number; the second is not looked at.
    Negate,
    /// `iand`, `land`.
    And,
    /// `ior`, `lor`.
    Or,
    /// `ixor`, `lxor`.
    ExclusiveOr,
}

/// How the bits of a number are shifted (JVM Specification 6.5).
#[derive(Clone, Copy, Debug, PartialEq, Eq)]
pub enum Shift {
    /// `ishl`, `lshl`.
    Left,
    /// `ishr`, `lshr`: the sign is copied.
    Right,
    /// `iushr`, `lushr`: zeros come in.
    UnsignedRight,
}

/// What an instruction computes of two ints.
#[derive(Clone, Copy, Debug, PartialEq, Eq)]
pub enum IntOperation {
    /// A number of the two.
    Arithmetic(Arithmetic),
    /// The first shifted; the second is the distance.
    Shift(Shift),
}

/// What an instruction makes of one number (JVM Specification 6.5).
#[derive(Clone, Copy, Debug, PartialEq, Eq)]
pub enum Conversion {
    /// `i2l`.
    IntToLong,
    /// `l2i`: the low 32 bits.
    LongToInt,
    /// `i2b`: the low 8 bits, with sign.
    IntToByte,
    /// `i2c`: the low 16 bits, without sign.
    IntToChar,
    /// `i2s`: the low 16 bits, with sign.
    IntToShort,
}
