use mvm_base::{Base, FieldShape, List, Name};
use mvm_classfile::ClassFile;
use mvm_layout::pool::{class_name, entry, name_and_type, text};
use mvm_layout::{Item, Member};
use mvm_set::{Class, Found, own_name};
use std::fmt;

/// A name as it is told: ASCII units but controls as they are, each other unit as in `\u00e9`.
#[derive(Clone, Copy)]
pub struct Shown<'a>(pub &'a Name);

impl fmt::Display for Shown<'_> {
    fn fmt<W: fmt::Write>(&self, f: &mut fmt::Formatter<W>) -> fmt::Result {
        for unit in self.0.units() {
            let unit = *unit;
            match u8::try_from(unit) {
                Ok(byte) if byte.is_ascii_graphic() => f.write_char(char::from(byte))?,
                _ => write!(f, "\\u{unit:04x}")?,
            }
        }
        Ok(())
    }
}

/// A name, where there is one.
#[derive(Clone, Copy)]
pub struct AnyName<'a>(pub Option<&'a Name>);

impl fmt::Display for AnyName<'_> {
    fn fmt<W: fmt::Write>(&self, f: &mut fmt::Formatter<W>) -> fmt::Result {
        match self.0 {
            Some(name) => write!(f, "{}", Shown(name)),
            None => f.write_char('?'),
        }
    }
}

/// The name of the class that a file defines.
#[derive(Clone, Copy)]
pub struct ClassName<'a>(pub &'a ClassFile);

impl fmt::Display for ClassName<'_> {
    fn fmt<W: fmt::Write>(&self, f: &mut fmt::Formatter<W>) -> fmt::Result {
        write!(f, "{}", AnyName(own_name(self.0)))
    }
}

/// The name of the class of an array, as in class files (JVM Specification 4.4.1).
#[derive(Clone, Copy)]
pub struct ArrayName<'a>(pub &'a FieldShape);

impl fmt::Display for ArrayName<'_> {
    fn fmt<W: fmt::Write>(&self, f: &mut fmt::Formatter<W>) -> fmt::Result {
        for _ in 0..self.0.dims {
            f.write_char('[')?;
        }
        match &self.0.base {
            Base::Boolean => f.write_char('Z'),
            Base::Byte => f.write_char('B'),
            Base::Char => f.write_char('C'),
            Base::Short => f.write_char('S'),
            Base::Int => f.write_char('I'),
            Base::Long => f.write_char('J'),
            Base::Object(name) => write!(f, "L{};", Shown(name)),
        }
    }
}

/// A name and a descriptor of a constant pool, with a colon between.
#[derive(Clone, Copy)]
pub struct NameAndType<'a> {
    pub pool: &'a List<Item>,
    pub name: u16,
    pub desc: u16,
}

impl fmt::Display for NameAndType<'_> {
    fn fmt<W: fmt::Write>(&self, f: &mut fmt::Formatter<W>) -> fmt::Result {
        let name = AnyName(text(self.pool, self.name));
        let desc = AnyName(text(self.pool, self.desc));
        write!(f, "{name}:{desc}")
    }
}

/// A member of a class by what its reference names: the class, the name and the descriptor (JVM Specification 4.4.2).
#[derive(Clone, Copy)]
pub struct Reference<'a> {
    pub pool: &'a List<Item>,
    pub class: u16,
    pub member: u16,
}

impl fmt::Display for Reference<'_> {
    fn fmt<W: fmt::Write>(&self, f: &mut fmt::Formatter<W>) -> fmt::Result {
        let pool = self.pool;
        let class = AnyName(class_name(pool, self.class));
        match name_and_type(pool, self.member) {
            Some((name, desc)) => write!(f, "{class}.{}", NameAndType { pool, name, desc }),
            None => write!(f, "{class}.?"),
        }
    }
}

/// An entry of a constant pool that may fail to resolve, by its kind and by what it names.
#[derive(Clone, Copy)]
pub struct Entry<'a> {
    pub pool: &'a List<Item>,
    pub index: u16,
}

impl fmt::Display for Entry<'_> {
    fn fmt<W: fmt::Write>(&self, f: &mut fmt::Formatter<W>) -> fmt::Result {
        let pool = self.pool;
        let (kind, class, member) = match entry(pool, self.index) {
            Some(Item::Class(name)) => {
                return write!(f, "class {}", AnyName(text(pool, *name)));
            }
            Some(Item::Fieldref(class, member)) => ("field", *class, *member),
            Some(Item::Methodref(class, member)) => ("method", *class, *member),
            Some(Item::InterfaceMethodref(class, member)) => ("interface", *class, *member),
            _ => return f.write_str("other"),
        };
        let reference = Reference {
            pool,
            class,
            member,
        };
        write!(f, "{kind} {reference}")
    }
}

/// A field or a method that was found: the class that declares it, its name and its descriptor.
#[derive(Clone, Copy)]
pub struct Declared<'a> {
    pub file: &'a ClassFile,
    pub member: &'a Member,
}

impl fmt::Display for Declared<'_> {
    fn fmt<W: fmt::Write>(&self, f: &mut fmt::Formatter<W>) -> fmt::Result {
        let pool = &self.file.parts().pool;
        let Member { name, desc, .. } = *self.member;
        write!(
            f,
            "{}.{}",
            ClassName(self.file),
            NameAndType { pool, name, desc }
        )
    }
}

/// The field of these places in a class.
pub(crate) fn field_of(class: &Class, found: Found) -> Option<Declared<'_>> {
    let file = class.walk().get(found.holder as usize)?.get().file();
    let member = file.parts().fields.get(usize::from(found.index))?;
    Some(Declared { file, member })
}

/// The method of these places in a class.
pub(crate) fn method_of(class: &Class, found: Found) -> Option<Declared<'_>> {
    let file = class.walk().get(found.holder as usize)?.get().file();
    let member = file.parts().methods.get(usize::from(found.index))?;
    Some(Declared { file, member })
}
