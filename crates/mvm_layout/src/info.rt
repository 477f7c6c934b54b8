ghost use Rattle.std.specs.Prelude.{◌≡◌, ◌<◌, ◌^◌, ◌+◌, length};

use crate::parts::{Code, Item};
use mvm_base::{Cursor, List};
use std::marker::Model;

/// An attribute as it stands in a file (JVM Specification 4.7): its content is lent from the bytes, and not looked into.
#[derive(Debug, Drop)]
pub struct AttributeInfo<'a> {
    at: u32,
    name: u16,
    content: &'a [u8],
}

impl<'a> Model for AttributeInfo<'a> {
    ghost use Rattle.std.specs.Prelude.{◌<◌, ◌^◌, ◌+◌, length};
    ghost use Rattle.mvm_layout.specs.Infos.{AttributeParts};

    ghost Value = { AttributeParts };

    ghost view = { λ a. record { at = a.at; name = a.name; content = a.content.now } };

    // It lies within a file of fewer than 2^32 bytes: the index of its name, its length, and its content.
    ghost invariant = { λ a. a.at + 6 + length a.content.now < 2 ^ 32 };
}

impl<'a> AttributeInfo<'a> {
    /// The attribute that begins at this place of its file, with the index of its name.
    pub(crate) fn new(at: u32, name: u16, content: &'a [u8]) -> AttributeInfo<'a>
        requires { at + 6 + length content.now < 2 ^ 32 }
        ensures { result ≡ record { at = at; name = name; content = content.now } }
    {
        AttributeInfo { at, name, content }
    }

    /// The place in the file at which the attribute begins, with the index of its name.
    pub fn at(&self) -> u32
        ensures { result ≡ self.now.at }
    {
        self.at
    }

    /// The index of the name.
    pub fn name(&self) -> u16
        ensures { result ≡ self.now.name }
    {
        self.name
    }

    /// What stands behind the length.
    pub fn content(&self) -> &'a [u8]
        ensures { result.now ≡ self.now.content }
    {
        self.content
    }

    /// A cursor before the content, at its place in the file.
    pub(crate) fn cursor(&self) -> Cursor<'a>
        ensures { result ≡ record { at = self.now.at + 6; rest = self.now.content } }
    {
        Cursor::from_place(self.content, self.at + 6)
    }
}

/// A field or a method as it stands in a file (JVM Specification 4.5, 4.6).
#[derive(Debug, Drop)]
pub struct MemberInfo<'a> {
    /// The place in the file at which it begins, with its flags. The index of its name stands at 2 from there, that of
    /// its descriptor at 4.
    pub at: u32,
    /// The access flags.
    pub flags: u16,
    /// The index of the name.
    pub name: u16,
    /// The index of the descriptor.
    pub desc: u16,
    /// The attributes, in their order.
    pub attributes: List<AttributeInfo<'a>>,
}

/// A class file as it stands (JVM Specification 4.1).
#[derive(Debug, Drop)]
pub struct ClassInfo<'a> {
    /// The minor version.
    pub minor: u16,
    /// The major version.
    pub major: u16,
    /// The constant pool: entry n stands at place n - 1.
    pub pool: List<Item>,
    /// The place in the file at which the access flags stand. The index of the class stands at 2 from there, that of the
    /// superclass at 4, and those of the interfaces from 8 on, at 2 bytes each.
    pub at: u32,
    /// The access flags.
    pub flags: u16,
    /// The index of the class itself.
    pub this_class: u16,
    /// The index of the direct superclass.
    pub super_class: u16,
    /// The indices of the direct superinterfaces.
    pub interfaces: List<u16>,
    /// The fields, in their order.
    pub fields: List<MemberInfo<'a>>,
    /// The methods, in their order.
    pub methods: List<MemberInfo<'a>>,
    /// The attributes of the class, in their order.
    pub attributes: List<AttributeInfo<'a>>,
}

/// The content of a `Code` attribute as it stands in a file (JVM Specification 4.7.3).
#[derive(Debug, Drop)]
pub struct CodeInfo<'a> {
    /// The code.
    pub code: Code,
    /// The attributes of the code, in their order.
    pub attributes: List<AttributeInfo<'a>>,
}
