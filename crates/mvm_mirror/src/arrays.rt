ghost use Rattle.std.specs.Prelude.{◌≡◌, ◌<◌, [], length, slice_get, Some, None, IfOk, OnOk, OnErr};
ghost use Rattle.mvm_base.specs.declared.descriptor.FieldShape.{FieldShape as ShapeOf};
ghost use Rattle.mvm_mirror.specs.Arrays.{changed, number_of, objects_of, shapes_of, with_array, SetsObject};

use crate::shape_numbers::ShapeNumbers;
use crate::shapes::copy_shape;
use mvm_base::{FieldShape, OutOfMemory};
use std::alloc::Global;
use std::marker::Model;

/// The most array classes that can be added: 4,294,967,295.
const MOST_ARRAYS: usize = 0xFFFF_FFFF;

/// What an isolate keeps of an array class (JVM Specification 2.4, 5.3.3).
#[derive(Debug, Drop)]
pub struct ArrayRow {
    /// The class, as the type of its arrays.
    pub shape: FieldShape,
    /// The number of its class object, if it has one.
    pub object: Option<u32>,
}

/// What an isolate keeps of the array classes that it met, by their shapes and by numbers.
#[derive(Drop)]
pub struct Arrays {
    alloc: Global,
    rows: Vec<ArrayRow>,
    numbers: ShapeNumbers,
}

impl Model for Arrays {
    ghost use Rattle.std.specs.Prelude.{List};
    ghost use Rattle.mvm_mirror.specs.KeptArrays.{AreKept};
    ghost use Rattle.mvm_mirror.specs.declared.arrays.ArrayRow.{ArrayRow as RowOf};

    ghost Value = { List RowOf };

    ghost view = { λ a. a.rows.items };

    ghost invariant = { λ a. AreKept a.numbers a.rows.items };
}

/// The row of a number.
fn row_at(rows: &[ArrayRow], number: u32) -> &ArrayRow
    requires { number < length rows.now }
    ensures { slice_get rows.now number ≡ Some result.now }
{
    &rows[number as usize]
}

/// Gives the array class of a number a class object.
fn set_object(rows: &mut Vec<ArrayRow>, number: u32, object: u32)
    requires { number < length rows.old.items }
    ensures { SetsObject number object rows.old.items rows.new.items }
{
    rows[number as usize].object = Some(object);
}

impl Arrays {
    /// No array class was added.
    pub fn new(alloc: Global) -> Arrays
        ensures { result ≡ [] }
    {
        Arrays {
            alloc,
            rows: Vec::new(alloc),
            numbers: ShapeNumbers::new(alloc),
        }
    }

    /// The number of the array class of a shape, or `None` where it was not added.
    pub fn number(&self, shape: &FieldShape) -> Option<u32>
        ensures { result ≡ number_of shape.now self.now }
    {
        self.numbers.get(shape)
    }

    /// How many array classes were added. They are numbered from 0 in the order in which they were first added.
    pub fn count(&self) -> u32
        ensures { result ≡ length self.now }
    {
        self.rows.len() as u32
    }

    /// The shape of the array class of a number.
    pub fn shape(&self, number: u32) -> &FieldShape
        requires { number < length self.now }
        ensures value { slice_get (shapes_of self.now) number ≡ Some result.now }
        // The number is that of its shape.
        ensures numbered { number_of result.now self.now ≡ Some number }
    {
        &row_at(&self.rows, number).shape
    }

    /// Puts an array class behind the others that is not there yet.
    fn put(&mut self, shape: &FieldShape) -> Result<u32, OutOfMemory>
        requires { number_of shape.now self.old ≡ None }
        ensures number { IfOk result (λ number. number_of shape.now self.new ≡ Some number) }
        ensures rows { OnOk result (self.new ≡ with_array shape.now self.old) }
        ensures objects { objects_of self.new ≡ objects_of self.old }
        ensures err { OnErr result (self.new ≡ self.old) }
    {
        let count = self.rows.len();
        if count >= MOST_ARRAYS {
            return Err(OutOfMemory);
        }
        let number = count as u32;
        let row = ArrayRow {
            shape: copy_shape(shape)?,
            object: None,
        };
        self.rows.reserve(1)?;
        self.numbers.insert(self.alloc, shape, number)?;
        match self.rows.push(row) {
            Ok(()) => Ok(number),
            Err(_) => unreachable!(),
        }
    }

    /// The number of the array class of a shape, which is added unless it is there.
    ///
    /// # Errors
    ///
    /// `OutOfMemory`; nothing is added then. So it is where 4,294,967,295 array classes are there already.
    pub fn add(&mut self, shape: &FieldShape) -> Result<u32, OutOfMemory>
        ensures number { IfOk result (λ number. number_of shape.now self.new ≡ Some number) }
        ensures rows { OnOk result (self.new ≡ with_array shape.now self.old) }
        // By shapes all is as before: an array class that was never added has no class object.
        ensures objects { objects_of self.new ≡ objects_of self.old }
        ensures err { OnErr result (self.new ≡ self.old) }
    {
        match self.number(shape) {
            Some(number) => Ok(number),
            None => self.put(shape),
        }
    }

    /// The number of the class object of an array class, if it has one.
    pub fn class_object(&self, number: u32) -> Option<u32>
        requires { number < length self.now }
        ensures { (shape : ShapeOf) → number_of shape self.now ≡ Some number → result ≡ objects_of self.now shape }
    {
        row_at(&self.rows, number).object
    }

    /// Gives an array class this class object.
    pub fn set_class_object(&mut self, number: u32, object: u32)
        requires { number < length self.old }
        ensures objects { (shape : ShapeOf) → number_of shape self.old ≡ Some number → objects_of self.new ≡ changed shape (Some object) (objects_of self.old) }
        ensures shapes { shapes_of self.new ≡ shapes_of self.old }
    {
        set_object(&mut self.rows, number, object);
    }
}
