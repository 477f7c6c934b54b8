/// Why no instruction is read at a place of a method's code (JVM Specification 6.5).
#[derive(Clone, Copy, Debug, PartialEq, Eq)]
pub enum InsnFault {
    /// The code ends before the instruction does, or before it begins.
    OffEnd,
    /// There is no instruction of this opcode (JVM Specification 6.5).
    Unknown(u8),
    /// An instruction of this opcode is not supported: one of float or double, `jsr`, `ret`, `jsr_w` or `invokedynamic`.
    Unsupported(u8),
    /// A `tableswitch` whose lowest key is above its highest, or a `lookupswitch` whose count is negative or whose keys do
    /// not rise.
    Switch,
}
