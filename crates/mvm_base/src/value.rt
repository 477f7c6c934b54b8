/// What a value on the stack or in a local is: a number of 32 bits, one of 64 bits, or a reference.
#[derive(Clone, Copy, Debug, PartialEq, Eq)]
pub enum Kind {
    /// A number of 32 bits.
    Int,
    /// A number of 64 bits.
    Long,
    /// A reference, or null.
    Ref,
}

/// A value: a number of 32 bits, one of 64 bits, a reference to the object of a number, or the null reference.
#[derive(Clone, Copy, Debug, PartialEq, Eq)]
pub enum Word {
    /// A number of 32 bits. Truth values, bytes, characters and shorts are such numbers too.
    Int(i32),
    /// A number of 64 bits.
    Long(i64),
    /// A reference to the object of this number.
    Ref(u32),
    /// The reference to no object.
    Null,
}
