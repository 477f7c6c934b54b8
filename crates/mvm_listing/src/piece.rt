use mvm_statement::{Instruction, Place};

/// What a line adds to a code.
#[derive(Debug, Drop)]
pub enum Piece {
    /// An instruction, whose entry of the constant pool is known.
    Own(Instruction),
    /// One byte as it is.
    OneByte(u8),
}

/// A piece of a code at its place.
#[derive(Debug, Drop)]
pub struct Placed {
    /// The number of its line.
    pub line: u32,
    /// How many bytes of the code stand before it.
    pub at: u64,
    /// The piece.
    pub piece: Piece,
}

/// A row of the exception table, whose places are not known yet.
#[derive(Debug, Drop)]
pub struct Catching {
    /// The number of its line.
    pub line: u32,
    /// The place of the first instruction that the row covers.
    pub start: Place,
    /// The place behind the last instruction that it covers.
    pub end: Place,
    /// The place of the handler.
    pub handler: Place,
    /// The index of the class that is caught, or 0 for every class.
    pub class: u16,
}
