use mvm_base::Word;
use mvm_object::PlacedAt;
use mvm_table::FieldAt;

/// A static field that was resolved.
#[derive(Debug, Drop)]
pub struct StaticAt {
    /// The field, of which the names are read.
    pub field: FieldAt,
    /// The number of the class that declares it.
    pub mirror: u32,
    /// Its slot among the static fields of that class.
    pub slot: u32,
}

/// An instance field that was resolved.
#[derive(Debug, Drop)]
pub struct InstanceAt {
    /// The field, of which the names are read.
    pub field: FieldAt,
    /// The number of the class that declares it.
    pub mirror: u32,
    /// Where objects have its value.
    pub placed: PlacedAt,
}

/// A class that may have objects, which was resolved.
#[derive(Clone, Copy, Debug)]
pub struct ObjectsAt {
    /// Its number.
    pub mirror: u32,
    /// How many fields its objects have.
    pub fields: u32,
}

/// A type that was resolved, by what objects of one class are of it.
#[derive(Clone, Copy, Debug)]
pub struct TestAt {
    /// The number of the class.
    pub receiver: u32,
    /// Whether its objects are instances of the type.
    pub is: bool,
}

/// What is asked of an entry of a constant pool: one entry may be asked for several.
#[derive(Clone, Copy, Debug, PartialEq, Eq)]
pub enum Asked {
    /// For a static field.
    Static,
    /// For an instance field.
    Instance,
    /// For a class that may have objects.
    Objects,
    /// For a type of which objects are tested.
    Test,
    /// For an int or a long.
    Number,
}

/// What an entry of a constant pool means.
#[derive(Debug, Drop)]
pub enum Meaning {
    /// A static field.
    Static(StaticAt),
    /// An instance field.
    Instance(InstanceAt),
    /// A class that may have objects.
    Objects(ObjectsAt),
    /// A type of which objects are tested.
    Test(TestAt),
    /// An int or a long.
    Number(Word),
}

impl Meaning {
    /// What was asked.
    pub fn asked(&self) -> Asked {
        match self {
            Meaning::Static(_) => Asked::Static,
            Meaning::Instance(_) => Asked::Instance,
            Meaning::Objects(_) => Asked::Objects,
            Meaning::Test(_) => Asked::Test,
            Meaning::Number(_) => Asked::Number,
        }
    }
}

/// What is kept of the entry of an index of the constant pool of a class.
#[derive(Debug, Drop)]
pub struct Entry {
    /// The number of the class.
    pub home: u32,
    /// The index.
    pub index: u16,
    /// What it means.
    pub meaning: Meaning,
}
