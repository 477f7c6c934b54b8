use mvm_base::Name;
use mvm_statement::PairKind;

/// What an entry is looked for by, but for texts themselves.
#[derive(Clone, Copy)]
pub(crate) enum Sought<'a> {
    /// A class, by its name.
    Class(&'a Name),
    /// A string constant, by its text.
    Str(&'a Name),
    /// An int.
    Integer(i32),
    /// A long.
    Long(i64),
    /// A name and a descriptor.
    Pair(&'a Name, &'a Name),
    /// A field or a method, by the name of its class, its own name and its descriptor.
    Member(PairKind, &'a Name, &'a Name, &'a Name),
}
