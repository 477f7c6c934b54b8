ghost use Rattle.std.specs.Prelude.{◌≡◌, None, Some, IsSome, OnOk, OnErr, if◌then◌else◌};
ghost use Rattle.mvm_base.specs.declared.descriptor.FieldShape.{FieldShape as ShapeOf};
ghost use Rattle.mvm_set.specs.Set.{look};
ghost use Rattle.mvm_mirror.specs.Shapes.{is_shape};
ghost use Rattle.mvm_mirror.specs.ShapeKeys.{base_key, key_of, number_under};
ghost use Rattle.mvm_mirror.specs.ShapeNumbers.{found, IsSound};

use mvm_base::{Base, FieldShape, Name, OutOfMemory};
use std::alloc::Global;
use std::collections::BTreeMap;

/// The most names of classes that can have numbers: 4,294,967,295.
const MOST_NAMES: u32 = 0xFFFF_FFFF;

/// The base of a shape, with the number of its name where it is a class.
#[derive(Clone, Copy, PartialEq, Eq, PartialOrd, Ord)]
pub(crate) enum BaseKey {
    /// True or false.
    Boolean,
    /// A number of 8 bits.
    Byte,
    /// A UTF-16 code unit.
    Char,
    /// A number of 16 bits.
    Short,
    /// A number of 32 bits.
    Int,
    /// A number of 64 bits.
    Long,
    /// A class, by the number of its name.
    Object(u32),
}

/// What a shape is looked up by, which takes no memory.
#[derive(Clone, Copy, PartialEq, Eq, PartialOrd, Ord)]
pub(crate) struct ShapeKey {
    dims: u8,
    base: BaseKey,
}

/// Shapes with their numbers, in ordered maps.
#[derive(Drop)]
pub(crate) struct ShapeNumbers {
    /// A number for each name of a class.
    names: BTreeMap<Vec<u16>, u32>,
    /// The number that the next name gets.
    next: u32,
    /// The numbers of the shapes.
    numbers: BTreeMap<ShapeKey, u32>,
}

/// The number of the name of a class, if it has one.
fn name_number(names: &BTreeMap<Vec<u16>, u32>, name: &Name) -> Option<u32>
    ensures { result ≡ look names.now (λ key. key.items) name.now }
{
    match names.get(name.units()) {
        Some(number) => Some(*number),
        None => None,
    }
}

/// The key of a base, or `None` where it is a class whose name has no number.
fn base_key(names: &BTreeMap<Vec<u16>, u32>, base: &Base) -> Option<BaseKey>
    ensures { result ≡ base_key (look names.now (λ key. key.items)) base.now }
{
    match base {
        Base::Boolean => Some(BaseKey::Boolean),
        Base::Byte => Some(BaseKey::Byte),
        Base::Char => Some(BaseKey::Char),
        Base::Short => Some(BaseKey::Short),
        Base::Int => Some(BaseKey::Int),
        Base::Long => Some(BaseKey::Long),
        Base::Object(name) => match name_number(names, name) {
            Some(number) => Some(BaseKey::Object(number)),
            None => None,
        },
    }
}

/// The key of a shape, or `None` where its base has none.
fn key_of(names: &BTreeMap<Vec<u16>, u32>, shape: &FieldShape) -> Option<ShapeKey>
    ensures { result ≡ key_of (look names.now (λ key. key.items)) shape.now }
{
    match base_key(names, &shape.base) {
        Some(base) => Some(ShapeKey {
            dims: shape.dims,
            base,
        }),
        None => None,
    }
}

/// The number under a key.
fn number_under(numbers: &BTreeMap<ShapeKey, u32>, key: ShapeKey) -> Option<u32>
    ensures { result ≡ number_under numbers.now key }
{
    numbers.get(&key).copied()
}

impl ShapeNumbers {
    /// No shape has a number.
    pub(crate) fn new(alloc: Global) -> ShapeNumbers
        ensures none { (shape : ShapeOf) → found result shape ≡ None }
        ensures sound { IsSound result }
    {
        ShapeNumbers {
            names: BTreeMap::new(alloc),
            next: 0,
            numbers: BTreeMap::new(alloc),
        }
    }

    /// The number of a shape, if it has one.
    pub(crate) fn get(&self, shape: &FieldShape) -> Option<u32>
        ensures { result ≡ found self.now shape.now }
    {
        match key_of(&self.names, shape) {
            Some(key) => number_under(&self.numbers, key),
            None => None,
        }
    }

    /// Gives the name of a class a number, which has none yet. No shape's number changes.
    fn add_name(&mut self, alloc: Global, name: &Name) -> Result<(), OutOfMemory>
        requires sound { IsSound self.old }
        requires new { look self.old.names (λ key. key.items) name.now ≡ None }
        ensures named { OnOk result (IsSome (look self.new.names (λ key. key.items) name.now)) }
        ensures same { (shape : ShapeOf) → found self.new shape ≡ found self.old shape }
        ensures sound { IsSound self.new }
    {
        if self.next == MOST_NAMES {
            return Err(OutOfMemory);
        }
        let units = Vec::from_slice(alloc, name.units())?;
        self.names.insert(units, self.next)?;
        self.next += 1;
        Ok(())
    }

    /// Sees to it that a base has a key. No shape's number changes.
    fn add_base(&mut self, alloc: Global, base: &Base) -> Result<(), OutOfMemory>
        requires { IsSound self.old }
        ensures named { OnOk result (IsSome (base_key (look self.new.names (λ key. key.items)) base.now)) }
        ensures same { (shape : ShapeOf) → found self.new shape ≡ found self.old shape }
        ensures sound { IsSound self.new }
    {
        match base {
            Base::Object(name) => match name_number(&self.names, name) {
                Some(_) => Ok(()),
                None => self.add_name(alloc, name),
            },
            _ => Ok(()),
        }
    }

    /// Gives a shape a number.
    pub(crate) fn insert(
        &mut self,
        alloc: Global,
        shape: &FieldShape,
        number: u32,
    ) -> Result<(), OutOfMemory>
        requires { IsSound self.old }
        ensures ok { OnOk result ((other : ShapeOf) → found self.new other ≡ (if is_shape shape.now other then Some number else found self.old other)) }
        ensures err { OnErr result ((other : ShapeOf) → found self.new other ≡ found self.old other) }
        ensures sound { IsSound self.new }
    {
        self.add_base(alloc, &shape.base)?;
        match key_of(&self.names, shape) {
            Some(key) => {
                self.numbers.insert(key, number)?;
                Ok(())
            }
            None => unreachable!(),
        }
    }
}
