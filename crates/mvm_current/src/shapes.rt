//! The parameters of a method by their kinds (JVM Specification 2.11.1, 4.3.3).

ghost use Rattle.std.specs.Prelude.{◌≡◌, ◌<◌, ◌≤◌, ◌^◌, length, Ok, IfOk};
ghost use Rattle.mvm_base.specs.Answers.{AnswersUnless};
ghost use Rattle.mvm_current.specs.Arguments.{kind_of_shape, kinds_of, receiver_kinds, shape_of, widths};

use crate::values::width;
use mvm_base::{Base, DescFault, FieldShape, Kind, List, MethodShape, Name, parse_method};
use mvm_isolate::Stop;
use mvm_native::Thrown;
use std::alloc::Global;

/// How many units a descriptor may have: more are more than memory.
const MOST_UNITS: usize = 4_294_967_295;

/// The parameters and the result of a method's descriptor (JVM Specification 4.3.3).
///
/// # Errors
///
/// A `VerifyError` where it is none.
#[tactic(auto, unfolding(crate::specs::Arguments::shape_of))]
pub fn shape_of(alloc: Global, desc: &Name) -> Result<MethodShape, Stop>
    ensures answer { AnswersUnless Stop.OutOfMemory result (shape_of desc.now) }
    ensures few { IfOk result (λ shape. length shape.params < 2 ^ 32) }
{
    if desc.units().len() > MOST_UNITS {
        return Err(Stop::OutOfMemory);
    }
    match parse_method(alloc, desc) {
        Ok(shape) => Ok(shape),
        Err(DescFault::OutOfMemory) => Err(Stop::OutOfMemory),
        Err(_) => Err(Stop::Throw(Thrown::VerifyError)),
    }
}

/// The kind of a value of a shape (JVM Specification 2.11.1).
#[tactic(auto, unfolding(mvm_isolate::specs::Types::items_of))]
pub fn kind_of_shape(shape: &FieldShape) -> Kind
    ensures { result ≡ kind_of_shape shape.now }
{
    if shape.dims == 0 {
        match shape.base {
            Base::Long => Kind::Long,
            Base::Object(_) => Kind::Ref,
            Base::Boolean | Base::Byte | Base::Char | Base::Short | Base::Int => Kind::Int,
        }
    } else {
        Kind::Ref
    }
}

/// The kind of a receiver, if there is one.
fn receiver_kinds(alloc: Global, is_static: bool) -> Result<List<Kind>, Stop>
    ensures answer { AnswersUnless Stop.OutOfMemory result (Ok (receiver_kinds is_static)) }
{
    let mut kinds = List::new(alloc);
    if !is_static {
        kinds.push(Kind::Ref)?;
    }
    Ok(kinds)
}

/// The kinds of a receiver, if there is one, and of the parameters.
///
/// # Errors
///
/// `OutOfMemory` alone.
pub fn kinds_of(alloc: Global, is_static: bool, shape: &MethodShape) -> Result<List<Kind>, Stop>
    requires { length shape.now.params < 2 ^ 32 }
    ensures answer { AnswersUnless Stop.OutOfMemory result (Ok (kinds_of is_static shape.now)) }
    ensures few { IfOk result (λ kinds. length kinds ≤ 2 ^ 32) }
{
    let mut kinds = receiver_kinds(alloc, is_static)?;
    let params = shape.params.as_slice();
    for i in 0..params.len() {
        kinds.push(kind_of_shape(&params[i]))?;
    }
    Ok(kinds)
}

/// How many slots values of these kinds take (JVM Specification 2.6.2).
pub fn widths(kinds: &[Kind]) -> u64
    requires { length kinds.now ≤ 2 ^ 32 }
    ensures { result ≡ widths kinds.now }
{
    let mut slots: u64 = 0;
    for i in 0..kinds.len() {
        slots += width(kinds[i]) as u64;
    }
    slots
}
