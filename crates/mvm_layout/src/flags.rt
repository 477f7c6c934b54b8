//! Access flags by their names (JVM Specification, tables 4.1-B, 4.5-A and 4.6-A), each a bit of the `flags` of a class, a
//! field or a method. The same bit may have another name elsewhere, as 0x0020, SYNCHRONIZED of a method and SUPER of a class:
//! each constant says where it means what its name says.
ghost use Rattle.std.specs.Prelude.{◌≡◌};
ghost use Rattle.mvm_layout.specs.Flags.{has_flag, is_static, is_interface, has_no_code};

/// Of a class, a field or a method: it is seen from every package (4.1, 4.5, 4.6).
pub const PUBLIC: u16 = 0x0001;

/// Of a field or a method: it is seen from its own class (4.5, 4.6).
pub const PRIVATE: u16 = 0x0002;

/// Of a field or a method: it is seen from its package and from subclasses (4.5, 4.6).
pub const PROTECTED: u16 = 0x0004;

/// Of a field or a method: it is the class's, and not an object's (4.5, 4.6).
pub const STATIC: u16 = 0x0008;

/// Of a class, that has no subclasses; of a field, that is assigned once; of a method, that is not overridden (4.1, 4.5, 4.6).
pub const FINAL: u16 = 0x0010;

/// Of a method: it holds a monitor while it runs (4.6).
pub const SYNCHRONIZED: u16 = 0x0020;

/// Of a method: it is written in another language than Java (4.6).
pub const NATIVE: u16 = 0x0100;

/// Of a class: it is an interface (4.1).
pub const INTERFACE: u16 = 0x0200;

/// Of a class, of which no object is made; of a method, that has no body (4.1, 4.6).
pub const ABSTRACT: u16 = 0x0400;

/// Whether a flag, one of the constants above, is among the flags. Of several flags at once: whether any is.
pub fn has_flag(flag: u16, flags: u16) -> bool
    ensures { result ≡ has_flag flag flags }
{
    flags & flag != 0
}

/// Whether these are the flags of a static member (4.5, 4.6).
pub fn is_static(flags: u16) -> bool
    ensures { result ≡ is_static flags }
{
    has_flag(STATIC, flags)
}

/// Whether these are the flags of an interface (4.1).
pub fn is_interface(flags: u16) -> bool
    ensures { result ≡ is_interface flags }
{
    has_flag(INTERFACE, flags)
}

/// Whether a method of these flags has no code, since it is native or abstract (4.7.3).
pub fn has_no_code(flags: u16) -> bool
    ensures { result ≡ has_no_code flags }
{
    has_flag(NATIVE, flags) || has_flag(ABSTRACT, flags)
}
