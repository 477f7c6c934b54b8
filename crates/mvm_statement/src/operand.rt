//! What operands name: entries of the constant pool and places in code. A number of a line is kept as `specs/Numbers.antt`
//! says: exactly below 2^64 in magnitude, and as 2^64 or -2^64, too large for every field, from there on.

use mvm_base::Name;

/// An entry of the constant pool: a class, or a text that is a name or a descriptor.
#[derive(Debug, Drop)]
pub enum Reference {
    /// `#n`: by its index.
    Indexed(i128),
    /// By name: the name of the class, or the text itself.
    Named(Name),
}

/// A field or a method in the constant pool.
#[derive(Debug, Drop)]
pub enum Member {
    /// `#n`: by its index.
    Indexed(i128),
    /// `Class.name:desc`: by the name of its class, its own name and its descriptor.
    Named { class: Name, name: Name, desc: Name },
}

/// What `ldc` and `ldc_w` push.
#[derive(Debug, Drop)]
pub enum Loadable {
    /// `#n`: the entry of an index.
    Indexed(i128),
    /// A number: an Integer.
    Integer(i128),
    /// A quoted text: a String.
    Text(Name),
    /// Another word: the class of that name.
    Class(Name),
}

/// What `ldc2_w` pushes.
#[derive(Debug, Drop)]
pub enum LongConstant {
    /// `#n`: the entry of an index.
    Indexed(i128),
    /// A number: a Long.
    Long(i128),
}

/// The value that a field has at first.
#[derive(Debug, Drop)]
pub enum Initial {
    /// `#n`: the entry of an index.
    Indexed(i128),
    /// A number: an Integer or a Long, as the field's descriptor has it.
    Number(i128),
    /// A quoted text: a String.
    Text(Name),
}

/// A place in a method's code.
#[derive(Debug, Drop)]
pub enum Place {
    /// `@N`: how many bytes of code stand before it.
    At(i128),
    /// A label that stands there.
    Label(Name),
}

/// A row of a `lookupswitch`: a key, and where to go for it.
#[derive(Debug, Drop)]
pub struct KeyRow {
    /// The key.
    pub key: i128,
    /// Where to go for it.
    pub target: Place,
}
