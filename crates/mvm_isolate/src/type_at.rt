use mvm_heap::ItemKind;

/// A type, by a number of the isolate.
#[derive(Clone, Copy, Debug, PartialEq, Eq)]
pub enum TypeAt {
    /// The class of this number.
    Class(u32),
    /// The array class of this number.
    Array(u32),
    /// The array class of one dimension of these.
    Numbers(ItemKind),
}
