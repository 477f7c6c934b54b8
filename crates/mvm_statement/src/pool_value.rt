use mvm_base::Name;

/// What a `pool` line gives an entry of the constant pool (JVM Specification 4.4): its kind and its values.
#[derive(Debug, Drop)]
pub enum PoolValue {
    /// `utf8 "TEXT"`: a text.
    Text(Name),
    /// `int N`, `float N`, `long N` or `double N`: a number, or the bits of one.
    Number {
        kind: NumberKind,
        number: i128,
    },
    /// `class #n`, `string #n` or `mtype #n`: the index of another entry.
    Index {
        kind: IndexKind,
        index: i128,
    },
    /// `field #n #n`, `method #n #n`, `imethod #n #n` or `nat #n #n`: the indices of two entries.
    Indices {
        kind: PairKind,
        first: i128,
        second: i128,
    },
    /// `handle N #n` or `indy N #n`: a number and the index of another entry.
    NumberAndIndex {
        kind: MixedKind,
        number: i128,
        index: i128,
    },
}

/// The kinds of entry that are a number.
#[derive(Clone, Copy, Debug, PartialEq, Eq)]
pub enum NumberKind {
    /// `int`: a number of 32 bits (4.4.4).
    Integer,
    /// `float`: the 32 bits of a float (4.4.4).
    Float,
    /// `long`: a number of 64 bits (4.4.5).
    Long,
    /// `double`: the 64 bits of a double (4.4.5).
    Double,
}

/// The kinds of entry that lead to one other entry.
#[derive(Clone, Copy, Debug, PartialEq, Eq)]
pub enum IndexKind {
    /// `class`: a class, by its name (4.4.1).
    Class,
    /// `string`: a string constant, by its text (4.4.3).
    Str,
    /// `mtype`: a method type, by its descriptor (4.4.9).
    MethodType,
}

/// The kinds of entry that lead to two other entries.
#[derive(Clone, Copy, Debug, PartialEq, Eq)]
pub enum PairKind {
    /// `field`: a field, by its class and its name and type (4.4.2).
    Fieldref,
    /// `method`: a method of a class, alike (4.4.2).
    Methodref,
    /// `imethod`: a method of an interface, alike (4.4.2).
    InterfaceMethodref,
    /// `nat`: a name and a descriptor (4.4.6).
    NameAndType,
}

/// The kinds of entry that are a number and lead to one other entry.
#[derive(Clone, Copy, Debug, PartialEq, Eq)]
pub enum MixedKind {
    /// `handle`: a method handle, its kind and what it leads to (4.4.8).
    MethodHandle,
    /// `indy`: a call site, its bootstrap method and its name and type (4.4.10).
    InvokeDynamic,
}

/// The kind of an entry.
#[derive(Clone, Copy, Debug, PartialEq, Eq)]
pub(crate) enum EntryKind {
    Text,
    Number(NumberKind),
    Index(IndexKind),
    Indices(PairKind),
    NumberAndIndex(MixedKind),
}
