/// One slot of the operands or of the local variables of a frame (JVM Specification 2.6.1 and 2.6.2). A long takes two: its
/// value, and a half that stands on it among the operands, and behind it among the local variables.
#[derive(Clone, Copy, Debug, PartialEq, Eq)]
pub enum Slot {
    /// Nothing was stored there, or half of a long that is no longer whole.
    Unset,
    /// The second slot of a long.
    Half,
    /// A number of 32 bits.
    Int(i32),
    /// A number of 64 bits, in the first slot of two.
    Long(i64),
    /// A reference to the object of this number.
    Ref(u32),
    /// The null reference.
    Null,
}
