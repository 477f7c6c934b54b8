//! What a call passes (JVM Specification 2.6.1).

ghost use Rattle.std.specs.Prelude.{◌≡◌, ◌≤◌, length, IfOk};
ghost use Rattle.mvm_base.specs.Answers.{AnswersUnless};
ghost use Rattle.mvm_invoke.specs.Calls.{passed_by};

use mvm_base::{List, MethodShape, Name, Word};
use mvm_current::{arguments, kinds_of, shape_of, widths};
use mvm_frame::Stack;
use mvm_isolate::Stop;
use std::alloc::Global;

/// What a call passes.
#[derive(Debug, Drop)]
pub struct Passed {
    /// The parameters and the result of the method, by its descriptor.
    pub shape: MethodShape,
    /// A receiver, if there is one, and then the values of the parameters.
    pub arguments: List<Word>,
    /// How many slots of the operands they take.
    pub slots: u16,
}

/// The arguments of a call by a descriptor, on top of the operands. They stay there.
///
/// # Errors
///
/// A `VerifyError` where they are not there, or it is no descriptor.
#[tactic(auto, unfolding(crate::specs::Calls::passed_by))]
pub(crate) fn passed_by(
    alloc: Global,
    stack: &Stack,
    is_static: bool,
    desc: &Name,
) -> Result<Passed, Stop>
    ensures answer { AnswersUnless Stop.OutOfMemory result (passed_by is_static desc.now stack.now.operands.slots) }
    ensures there { IfOk result (λ passed. passed.slots ≤ length stack.now.operands.slots) }
{
    let shape = shape_of(alloc, desc)?;
    let kinds = kinds_of(alloc, is_static, &shape)?;
    let arguments = arguments(alloc, stack, kinds.as_slice())?;
    let slots = widths(kinds.as_slice()) as u16;
    Ok(Passed {
        shape,
        arguments,
        slots,
    })
}
