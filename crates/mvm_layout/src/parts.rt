use mvm_base::{List, Name};

/// An entry of the constant pool (JVM Specification 4.4). A number of 16 bits is the index of another entry.
#[derive(Debug, Drop, PartialEq)]
pub enum Item {
    /// A text, in units of UTF-16 (4.4.7).
    Utf8(Name),
    /// An int (4.4.4).
    Integer(i32),
    /// The 32 bits of a float (4.4.4).
    Float(u32),
    /// A long, which takes two indices (4.4.5).
    Long(i64),
    /// The 64 bits of a double, which takes two indices (4.4.5).
    Double(u64),
    /// The second index of a long or double. No entry stands there.
    Upper,
    /// A class or interface: its name (4.4.1).
    Class(u16),
    /// A string constant: its text (4.4.3).
    Str(u16),
    /// A field: its class, and its name and type (4.4.2).
    Fieldref(u16, u16),
    /// A method of a class: its class, and its name and type (4.4.2).
    Methodref(u16, u16),
    /// A method of an interface: its interface, and its name and type (4.4.2).
    InterfaceMethodref(u16, u16),
    /// A name and a descriptor (4.4.6).
    NameAndType(u16, u16),
    /// A method handle: its kind, and what it leads to (4.4.8). Neither is looked at.
    MethodHandle(u8, u16),
    /// A method type: its descriptor (4.4.9).
    MethodType(u16),
    /// A call site: its bootstrap method, which is not looked at, and its name and type (4.4.10).
    InvokeDynamic(u16, u16),
}

/// A row of the exception table of a method (JVM Specification 4.7.3).
#[derive(Clone, Copy, Debug, PartialEq, Eq)]
pub struct Row {
    /// The place of the first instruction that the row covers.
    pub start: u16,
    /// The place behind the last instruction that it covers.
    pub end: u16,
    /// The place of the handler.
    pub handler: u16,
    /// The index of the class that is caught, or 0 for every class.
    pub catch_class: u16,
}

/// The code of a method (JVM Specification 4.7.3), without its attributes.
#[derive(Debug, Drop, PartialEq)]
pub struct Code {
    /// How many words the operand stack may hold.
    pub max_stack: u16,
    /// How many local variables there are.
    pub max_locals: u16,
    /// The instructions, as they stand in the file.
    pub bytes: List<u8>,
    /// The exception table, in its order.
    pub rows: List<Row>,
}

/// A field or a method (JVM Specification 4.5, 4.6).
#[derive(Debug, Drop, PartialEq)]
pub struct Member {
    /// The access flags, as they stand in the file.
    pub flags: u16,
    /// The index of the name.
    pub name: u16,
    /// The index of the descriptor.
    pub desc: u16,
    /// The index of the value that a static field has at first, if it has a `ConstantValue` (4.7.2).
    pub constant: Option<u16>,
    /// The code of a method, if it has any.
    pub code: Option<Code>,
}

/// What a class file says, but for the attributes that are passed over (JVM Specification 4.1).
#[derive(Debug, Drop, PartialEq)]
pub struct Parts {
    /// The minor version.
    pub minor: u16,
    /// The major version.
    pub major: u16,
    /// The constant pool: entry n stands at place n - 1.
    pub pool: List<Item>,
    /// The access flags, as they stand in the file.
    pub flags: u16,
    /// The index of the class itself.
    pub this_class: u16,
    /// The index of the direct superclass, or 0 where there is none.
    pub super_class: u16,
    /// The indices of the direct superinterfaces.
    pub interfaces: List<u16>,
    /// The fields, in their order.
    pub fields: List<Member>,
    /// The methods, in their order.
    pub methods: List<Member>,
}
