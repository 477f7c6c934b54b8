/// Why an instruction throws (JVM Specification 6.5).
#[derive(Clone, Copy, Debug, PartialEq, Eq)]
pub enum Fault {
    /// VerifyError: there is no instruction at the pc, a value that it needs is missing or of another kind, the operands would
    /// pass their depth, there is no such local variable, or no instruction can stand at the target of a branch.
    Verify,
    /// ArithmeticException: an int or a long is divided by zero.
    Arithmetic,
}
