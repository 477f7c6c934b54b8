use mvm_base::{FieldShape, Name};
use mvm_set::{Class, Found, MethodAt, Shared};

/// A resolved field (JVM Specification 5.4.3.2).
#[derive(Debug, Drop)]
pub struct FieldAt {
    /// The class in which it was resolved.
    pub class: Shared<Class>,
    /// Where it was found there.
    pub found: Found,
    /// Of a static field its place, from 0, among the static fields of the class that declares it; of another its place, from 0, in the list
    /// of the instance fields of that class's superclasses, farthest first, and then of that class.
    pub slot: u32,
}

/// What an entry of the constant pool stands for (JVM Specification 4.4, 5.4.3).
#[derive(Debug, Drop)]
pub enum Resolved {
    /// A class or an interface (5.4.3.1).
    Class(Shared<Class>),
    /// An array class, by its shape (5.4.3.1).
    Array(FieldShape),
    /// A field (5.4.3.2).
    Field(FieldAt),
    /// A method of a class or an interface (5.4.3.3, 5.4.3.4).
    Method(MethodAt),
    /// An int (4.4.4).
    Int(i32),
    /// A long (4.4.5).
    Long(i64),
    /// The units of a string constant (4.4.3).
    Text(Name),
    /// An entry that no instruction of this machine's profile uses.
    Other,
}
