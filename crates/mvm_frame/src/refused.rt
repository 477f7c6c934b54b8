/// Why a call was refused. Where more than one would fit, `NoFrame` comes first, and then the one that stands highest here.
#[derive(Clone, Copy, Debug, PartialEq, Eq)]
pub enum Refused {
    /// The number of frames or of words would be passed.
    Full,
    /// The depth of the frame's operand stack would be passed.
    Overflow,
    /// The operand stack has too few slots.
    Underflow,
    /// A value is of another kind, a long would be cut, or there is no such local variable.
    Kind,
    /// There is no frame.
    NoFrame,
}
