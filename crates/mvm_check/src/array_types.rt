//! The kinds of items of `newarray` by their names (JVM Specification, table 6.5.newarray-A). Those of floats are left out.

pub const T_BOOLEAN: u8 = 4;

pub const T_CHAR: u8 = 5;

pub const T_BYTE: u8 = 8;

pub const T_SHORT: u8 = 9;

pub const T_INT: u8 = 10;

pub const T_LONG: u8 = 11;
