//! Files: the layout of class files (JVM Specification, chapter 4), read front to back without a look at what it means.
//!
//! To the layers above it promises: [`read_layout`] answers exactly what `laid` of `specs/Layout.antt` says of the bytes,
//! what stands in them with the places where it stands, or their first fault, and what it reads is just what the bytes spell;
//! [`read_code`] the same of the content of a `Code` attribute. A text is what its modified UTF-8 spells. [`layout_law`] says
//! what holds of all bytes: a proper beginning of a class file is truncated, what follows one is trailing, and places ascend.
//! [`pool`] looks up the constant pool by index and [`flags`] names the access flags, with exact answers and without memory.
//! Contents of attributes are lent from the bytes.
#![tactic(auto)]

mod code;
mod entries;
mod fault;
pub mod flags;
mod info;
mod laws;
mod layout;
mod numbers;
mod parts;
pub mod pool;
mod read;

pub use fault::ClassFault;
pub use info::{AttributeInfo, ClassInfo, CodeInfo, MemberInfo};
pub use laws::layout_law;
pub use parts::{Code, Item, Member, Parts, Row};
pub use read::{read_code, read_layout};
