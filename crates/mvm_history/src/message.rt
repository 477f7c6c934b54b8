use mvm_base::{List, Name};

/// The most elements that a message may have: 65,536.
pub const MOST_ELEMENTS: usize = 65_536;

/// What an isolate sends over a link: a copy of an array of numbers, or of a text. It has 0 to [`MOST_ELEMENTS`] elements.
#[derive(Debug, Drop)]
pub enum Message {
    /// The items of an int array; each counts 4 bytes.
    Ints(List<i32>),
    /// The items of a long array; each counts 8 bytes.
    Longs(List<i64>),
    /// The items of a byte array; each counts 1 byte.
    Bytes(List<i8>),
    /// The UTF-16 code units of a text; each counts 2 bytes.
    Text(Name),
}
