//! Calls of native methods (JVM Specification 2.6.1, 6.5 under invokevirtual).

ghost use Rattle.std.specs.Prelude.{◌≡◌, ◌≤◌, length, drop, map, slice_get, Ok};
ghost use Rattle.mvm_base.specs.Answers.{AnswersUnless};
ghost use Rattle.mvm_isolate.specs.Natives.{all_suit, is_string, is_text_at, type_of_shape, value_suits};
ghost use Rattle.mvm_isolate.specs.Numbered.{look_of, named, Numbered};
ghost use Rattle.mvm_isolate.specs.Types.{of_class};
ghost use Rattle.mvm_current.specs.Frames.{without};
ghost use Rattle.mvm_current.specs.Keys.{top_named};
ghost use Rattle.mvm_current.specs.Values.{width};
ghost use Rattle.mvm_invoke.specs.NativeCalls.{must_suit, parameter_types, result_fits, some_suits};

use crate::passed::Passed;
use mvm_base::{Base, FieldShape, Kind, Name, Steps, Word};
use mvm_current::kind_of_shape;
use mvm_frame::Stack;
use mvm_heap::ObjectKind;
use mvm_instance::{is_of_class, is_of_shape};
use mvm_isolate::{Isolate, Stop};
use mvm_layout::pool::same_text;
use mvm_native::Thrown;
use mvm_table::Table;
use std::sync::ledger::Ledger;

/// How many slots a value of a kind takes (JVM Specification 2.6.2).
fn width(kind: Kind) -> usize
    ensures { result ≡ width kind }
{
    match kind {
        Kind::Long => 2,
        Kind::Int | Kind::Ref => 1,
    }
}

/// Whether the result of a method, if it has one, fits on the operands where the arguments are taken off.
///
/// # Errors
///
/// A `VerifyError` where it does not.
#[tactic(auto, unfolding(mvm_current::specs::Values::may_push), using(crate::proofs::Room::room_without))]
pub(crate) fn result_fits(stack: &Stack, passed: &Passed) -> Result<(), Stop>
    requires { passed.now.slots ≤ length stack.now.operands.slots }
    ensures { (n : Numbered) → result ≡ result_fits passed.now.shape.result (without passed.now.slots (top_named n stack.now)) }
{
    match &passed.shape.result {
        Some(shape) => {
            let wide = width(kind_of_shape(shape));
            if wide.saturating_sub(stack.room()) <= usize::from(passed.slots) {
                Ok(())
            } else {
                Err(Stop::Throw(Thrown::VerifyError))
            }
        }
        None => Ok(()),
    }
}

// ---- arguments

/// Whether a name is that of the class of texts.
fn is_string(name: &Name) -> bool
    ensures { result ≡ is_string (of_class name.now) }
{
    same_text(name.units(), b"java/lang/String")
}

/// Whether a parameter takes texts.
fn takes_string(shape: &FieldShape) -> bool
    ensures { result ≡ is_string (type_of_shape shape.now) }
{
    if shape.dims == 0 {
        match &shape.base {
            Base::Object(name) => is_string(name),
            _ => false,
        }
    } else {
        false
    }
}

/// Whether an object is a text; true where there is none of this number.
#[tactic(auto, using(crate::proofs::Beyond::text_beyond))]
fn is_text_at(isolate: &Isolate, object: u32) -> bool
    ensures { result ≡ is_text_at (named isolate.now) object }
{
    if object >= isolate.count() {
        return true;
    }
    matches!(isolate.kind_of(object), ObjectKind::Text)
}

/// Whether a value suits a parameter.
#[tactic(auto, unfolding(mvm_isolate::specs::Natives::value_suits))]
fn suits_shape<L: Ledger>(
    isolate: &Isolate,
    table: &Table,
    shape: &FieldShape,
    word: Word,
    steps: &mut Steps<L>,
) -> Result<bool, Stop>
    requires { table.now.files ≡ isolate.now.files }
    ensures { AnswersUnless Stop.OutOfMemory result (Ok (value_suits (look_of isolate.now) (named isolate.now) (type_of_shape shape.now) word)) }
{
    match word {
        Word::Ref(object) => match is_of_shape(isolate, table, shape, object, steps) {
            Ok(is) => Ok(is && (!takes_string(shape) || is_text_at(isolate, object))),
            Err(stop) => Err(stop),
        },
        _ => Ok(true),
    }
}

/// Whether a value suits the receiver of a method of a class.
#[tactic(auto, unfolding(mvm_isolate::specs::Natives::value_suits))]
fn suits_class(isolate: &Isolate, class: &Name, word: Word) -> bool
    ensures { result ≡ value_suits (look_of isolate.now) (named isolate.now) (of_class class.now) word }
{
    match word {
        Word::Ref(object) => {
            is_of_class(isolate, class, object)
                && (!is_string(class) || is_text_at(isolate, object))
        }
        _ => true,
    }
}

/// Whether the value of a place suits a parameter; it does not where there is none.
fn suits_at<L: Ledger>(
    isolate: &Isolate,
    table: &Table,
    shape: &FieldShape,
    words: &[Word],
    at: usize,
    steps: &mut Steps<L>,
) -> Result<bool, Stop>
    requires { table.now.files ≡ isolate.now.files }
    ensures { AnswersUnless Stop.OutOfMemory result (Ok (some_suits (look_of isolate.now) (named isolate.now) (type_of_shape shape.now) (slice_get words.now at))) }
{
    match words.get(at) {
        Some(word) => suits_shape(isolate, table, shape, *word, steps),
        None => Ok(false),
    }
}

/// Whether the values from a place on suit the parameters, one by one.
fn all_suit<L: Ledger>(
    isolate: &Isolate,
    table: &Table,
    shapes: &[FieldShape],
    words: &[Word],
    from: usize,
    steps: &mut Steps<L>,
) -> Result<bool, Stop>
    requires files { table.now.files ≡ isolate.now.files }
    requires from { from ≤ 1 }
    ensures { AnswersUnless Stop.OutOfMemory result (Ok (all_suit (look_of isolate.now) (named isolate.now) (map type_of_shape shapes.now) (drop from words.now))) }
{
    for i in 0..shapes.len() {
        if !suits_at(isolate, table, &shapes[i], words, i + from, steps)? {
            return Ok(false);
        }
    }
    Ok(true)
}

/// Whether the arguments of a native method of a class suit its receiver, if there is one, and its parameters.
fn arguments_suit<L: Ledger>(
    isolate: &Isolate,
    table: &Table,
    is_static: bool,
    class: &Name,
    passed: &Passed,
    steps: &mut Steps<L>,
) -> Result<bool, Stop>
    requires { table.now.files ≡ isolate.now.files }
    ensures { AnswersUnless Stop.OutOfMemory result (Ok (all_suit (look_of isolate.now) (named isolate.now) (parameter_types is_static class.now passed.now.shape) passed.now.arguments)) }
{
    let shapes = passed.shape.params.as_slice();
    let words = passed.arguments.as_slice();
    if is_static {
        return all_suit(isolate, table, shapes, words, 0, steps);
    }
    match words.first() {
        Some(word) => {
            if suits_class(isolate, class, *word) {
                all_suit(isolate, table, shapes, words, 1, steps)
            } else {
                Ok(false)
            }
        }
        None => Ok(false),
    }
}

/// The arguments of a native method suit it.
///
/// # Errors
///
/// A `VerifyError` where they do not.
pub(crate) fn must_suit<L: Ledger>(
    isolate: &Isolate,
    table: &Table,
    is_static: bool,
    class: &Name,
    passed: &Passed,
    steps: &mut Steps<L>,
) -> Result<(), Stop>
    requires { table.now.files ≡ isolate.now.files }
    ensures { AnswersUnless Stop.OutOfMemory result (must_suit (all_suit (look_of isolate.now) (named isolate.now) (parameter_types is_static class.now passed.now.shape) passed.now.arguments)) }
{
    match arguments_suit(isolate, table, is_static, class, passed, steps) {
        Ok(true) => Ok(()),
        Ok(false) => Err(Stop::Throw(Thrown::VerifyError)),
        Err(stop) => Err(stop),
    }
}
