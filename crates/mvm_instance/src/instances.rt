ghost use Rattle.std.specs.Prelude.{◌≡◌, Ok, Some};
ghost use Rattle.mvm_base.specs.Answers.{AnswersUnless};
ghost use Rattle.mvm_isolate.specs.Instances.{is_instance};
ghost use Rattle.mvm_isolate.specs.Natives.{type_of_shape};
ghost use Rattle.mvm_isolate.specs.Numbered.{look_of, named, type_of, IsType};
ghost use Rattle.mvm_isolate.specs.Receivers.{element_of, is_element, is_item_of};
ghost use Rattle.mvm_isolate.specs.Types.{of_array, of_class, suits};

use crate::arrays::array_suits;
use crate::bases::{is_object, numbers_suit};
use crate::looked::is_sub_at;
use mvm_base::{Base, FieldShape, Name, Steps};
use mvm_isolate::{Isolate, Stop, TypeAt};
use mvm_table::Table;
use std::sync::ledger::Ledger;

/// Whether an object of this type is an instance of the class of a name.
#[tactic(auto, unfolding(mvm_isolate::specs::Numbered::type_of, mvm_isolate::specs::Types::suits))]
fn suits_class(isolate: &Isolate, at: TypeAt, target: &Name) -> bool
    requires { IsType isolate.now at }
    ensures { result ≡ suits (look_of isolate.now) (type_of isolate.now at) (of_class target.now) }
{
    match at {
        TypeAt::Class(mirror) => is_sub_at(isolate, mirror, target),
        TypeAt::Array(_) => is_object(target),
        TypeAt::Numbers(_) => is_object(target),
    }
}

/// Whether an object of this type is an instance of the array type of these dimensions and this base.
#[tactic(auto, unfolding(mvm_isolate::specs::Numbered::type_of, mvm_isolate::specs::Types::suits))]
fn suits_array<L: Ledger>(
    isolate: &Isolate,
    table: &Table,
    at: TypeAt,
    dims: u8,
    base: &Base,
    steps: &mut Steps<L>,
) -> Result<bool, Stop>
    requires files { table.now.files ≡ isolate.now.files }
    requires there { IsType isolate.now at }
    ensures { AnswersUnless Stop.OutOfMemory result (Ok (suits (look_of isolate.now) (type_of isolate.now at) (of_array (record { dims = dims; base = base.now })))) }
{
    match at {
        TypeAt::Array(row) => {
            array_suits(isolate, table, isolate.array_shape(row), dims, base, steps)
        }
        TypeAt::Numbers(kind) => Ok(numbers_suit(kind, dims, base)),
        TypeAt::Class(_) => Ok(false),
    }
}

/// Whether an object is an instance of the class of a name (JVM Specification 6.5, under instanceof); false where there is no such object. It takes
/// no memory.
#[tactic(auto, unfolding(mvm_isolate::specs::Instances::is_instance))]
pub fn is_of_class(isolate: &Isolate, target: &Name, object: u32) -> bool
    ensures { result ≡ is_instance (look_of isolate.now) (of_class target.now) (named isolate.now) object }
{
    match isolate.type_at(object) {
        Some(at) => suits_class(isolate, at, target),
        None => false,
    }
}

/// Whether an object is an instance of the array type of these dimensions and this base (JVM Specification 6.5, under instanceof); false where there
/// is no such object.
///
/// # Errors
///
/// `Stop::OutOfMemory`.
#[tactic(auto, unfolding(mvm_isolate::specs::Instances::is_instance))]
pub fn is_of_array<L: Ledger>(
    isolate: &Isolate,
    table: &Table,
    dims: u8,
    base: &Base,
    object: u32,
    steps: &mut Steps<L>,
) -> Result<bool, Stop>
    requires { table.now.files ≡ isolate.now.files }
    ensures { AnswersUnless Stop.OutOfMemory result (Ok (is_instance (look_of isolate.now) (of_array (record { dims = dims; base = base.now })) (named isolate.now) object)) }
{
    match isolate.type_at(object) {
        Some(at) => suits_array(isolate, table, at, dims, base, steps),
        None => Ok(false),
    }
}

/// Whether an object is an instance of the type of a field or a parameter (JVM Specification 4.3.2; 6.5, under instanceof): of an array type, or where
/// there are no dimensions of a class. False where the type takes no references, or where there is no such object.
///
/// # Errors
///
/// `Stop::OutOfMemory`, where the type is an array type.
pub fn is_of_shape<L: Ledger>(
    isolate: &Isolate,
    table: &Table,
    shape: &FieldShape,
    object: u32,
    steps: &mut Steps<L>,
) -> Result<bool, Stop>
    requires files { table.now.files ≡ isolate.now.files }
    ensures { AnswersUnless Stop.OutOfMemory result (Ok (is_instance (look_of isolate.now) (type_of_shape shape.now) (named isolate.now) object)) }
{
    if shape.dims == 0 {
        match &shape.base {
            Base::Object(name) => Ok(is_of_class(isolate, name, object)),
            _ => is_of_array(isolate, table, shape.dims, &shape.base, object, steps),
        }
    } else {
        is_of_array(isolate, table, shape.dims, &shape.base, object, steps)
    }
}

/// Whether an object is an instance of what the items of an array of this shape are.
fn is_item_of_shape<L: Ledger>(
    isolate: &Isolate,
    table: &Table,
    shape: &FieldShape,
    object: u32,
    steps: &mut Steps<L>,
) -> Result<bool, Stop>
    requires { table.now.files ≡ isolate.now.files }
    ensures { AnswersUnless Stop.OutOfMemory result (Ok (is_item_of (look_of isolate.now) (named isolate.now) (element_of (Some (of_array shape.now))) object)) }
{
    if shape.dims == 1 {
        match &shape.base {
            Base::Object(name) => Ok(is_of_class(isolate, name, object)),
            _ => Ok(false),
        }
    } else {
        let dims = shape.dims.saturating_sub(1);
        is_of_array(isolate, table, dims, &shape.base, object, steps)
    }
}

/// Whether an object is an instance of what the items of an array of this type are.
#[tactic(auto, unfolding(mvm_isolate::specs::Numbered::type_of))]
fn is_item<L: Ledger>(
    isolate: &Isolate,
    table: &Table,
    at: TypeAt,
    object: u32,
    steps: &mut Steps<L>,
) -> Result<bool, Stop>
    requires files { table.now.files ≡ isolate.now.files }
    requires there { IsType isolate.now at }
    ensures { AnswersUnless Stop.OutOfMemory result (Ok (is_item_of (look_of isolate.now) (named isolate.now) (element_of (Some (type_of isolate.now at))) object)) }
{
    match at {
        TypeAt::Array(row) => {
            is_item_of_shape(isolate, table, isolate.array_shape(row), object, steps)
        }
        TypeAt::Numbers(_) => Ok(false),
        TypeAt::Class(_) => Ok(false),
    }
}

/// Whether an object is an instance of what the items of an array are, where these are references (JVM Specification 6.5, under aastore); false where
/// there is no such array or no such object.
///
/// # Errors
///
/// `Stop::OutOfMemory`, where the items are arrays.
#[tactic(auto, unfolding(mvm_isolate::specs::Receivers::is_element))]
pub fn is_element<L: Ledger>(
    isolate: &Isolate,
    table: &Table,
    array: u32,
    object: u32,
    steps: &mut Steps<L>,
) -> Result<bool, Stop>
    requires files { table.now.files ≡ isolate.now.files }
    ensures { AnswersUnless Stop.OutOfMemory result (Ok (is_element (look_of isolate.now) (named isolate.now) array object)) }
{
    match isolate.type_at(array) {
        Some(at) => is_item(isolate, table, at, object, steps),
        None => Ok(false),
    }
}
