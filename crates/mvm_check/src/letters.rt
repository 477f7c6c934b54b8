//! Letters that a name of the constant pool may begin with (JVM Specification 4.2, 4.4.1), as units of UTF-16.

/// `<`: the name of an instance initialization method or of a class initialization method.
pub const LESS_THAN: u16 = 0x3c;

/// `[`: the name of an array class, with one for each dimension.
pub const LEFT_BRACKET: u16 = 0x5b;
