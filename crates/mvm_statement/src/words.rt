use mvm_base::Name;

/// The words that begin a line which is no instruction.
#[derive(Clone, Copy, Debug, PartialEq, Eq)]
pub(crate) enum Directive {
    Version,
    Entry,
    Class,
    Implements,
    Field,
    Method,
    Code,
    Byte,
    Catch,
    End,
}

/// What the first word of a line tells.
#[derive(Debug, Drop)]
pub(crate) enum Head {
    Directive(Directive),
    Label(Name),
    Instruction(u8),
}

/// What stands behind a mnemonic: the variants of [`crate::Instruction`] and two more.
#[derive(Clone, Copy, Debug, PartialEq, Eq)]
pub(crate) enum Shape {
    Plain,
    Push,
    Load,
    LoadLong,
    OfClass,
    OfMember,
    Local,
    Increment,
    Jump,
    Table,
    Lookup,
    Invocation,
    Items,
    Dimensions,
    /// `wide`: the mnemonic of an instruction on a local variable, and its operands.
    Wide,
    /// There is no such instruction, or it is not supported.
    Unknown,
}
