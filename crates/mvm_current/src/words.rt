//! The arguments of a call, on the operands of the current frame (JVM Specification 2.6.1).

ghost use Rattle.std.specs.Prelude.{◌≡◌, ◌≢◌, ◌≤◌, ◌^◌, length, reverse, take, Some, IfErr, IfOk};
ghost use Rattle.mvm_base.specs.Answers.{AnswersUnless};
ghost use Rattle.mvm_current.specs.Arguments.{a_long, a_ref, an_int, arguments, head_word, receiver_in, widths, words_in};
ghost use Rattle.mvm_current.specs.Values.{not_null, width};

use crate::shapes::widths;
use crate::values::width;
use mvm_base::{Kind, List, Word};
use mvm_frame::{Slot, Stack};
use mvm_isolate::Stop;
use mvm_native::Thrown;
use std::alloc::Global;

/// How many slots the arguments of a call may take (JVM Specification 4.3.3).
const MOST_SLOTS: u64 = 255;

fn int_in(slot: Slot) -> Option<Word>
    ensures { result ≡ an_int (Some slot) }
{
    match slot {
        Slot::Int(value) => Some(Word::Int(value)),
        _ => None,
    }
}

fn ref_in(slot: Slot) -> Option<Word>
    ensures { result ≡ a_ref (Some slot) }
{
    match slot {
        Slot::Ref(object) => Some(Word::Ref(object)),
        Slot::Null => Some(Word::Null),
        _ => None,
    }
}

fn long_in(value: Slot, half: Slot) -> Option<Word>
    ensures { result ≡ a_long (Some value) (Some half) }
{
    match (value, half) {
        (Slot::Long(value), Slot::Half) => Some(Word::Long(value)),
        _ => None,
    }
}

/// The value of a kind that begins the arguments, of which so many slots are left.
fn head_word(stack: &Stack, kind: Kind, left: usize) -> Option<Word>
    requires there { left ≤ length stack.now.operands.slots }
    requires wide { width kind ≤ left }
    ensures { result ≡ head_word kind (reverse (take left stack.now.operands.slots)) }
{
    match kind {
        Kind::Int => int_in(stack.peek(left - 1)),
        Kind::Ref => ref_in(stack.peek(left - 1)),
        Kind::Long => long_in(stack.peek(left - 1), stack.peek(left - 2)),
    }
}

/// The values of these kinds, which take so many slots on top of the operands.
fn words_in(alloc: Global, stack: &Stack, kinds: &[Kind], slots: usize) -> Result<List<Word>, Stop>
    requires there { slots ≤ length stack.now.operands.slots }
    requires widths { widths kinds.now ≡ slots }
    ensures { AnswersUnless Stop.OutOfMemory result (words_in kinds.now (reverse (take slots stack.now.operands.slots))) }
{
    let mut words = List::new(alloc);
    let mut left = slots;
    for i in 0..kinds.len() {
        match head_word(stack, kinds[i], left) {
            Some(word) => words.push(word)?,
            None => return Err(Stop::Throw(Thrown::VerifyError)),
        }
        left -= width(kinds[i]);
    }
    Ok(words)
}

/// The arguments of these kinds on top of the operands, the last of them highest. They stay there.
///
/// # Errors
///
/// A `VerifyError` where they are not there, or take more than 255 slots.
#[tactic(auto, unfolding(crate::specs::Arguments::arguments))]
pub fn arguments(alloc: Global, stack: &Stack, kinds: &[Kind]) -> Result<List<Word>, Stop>
    requires { length kinds.now ≤ 2 ^ 32 }
    ensures answer { AnswersUnless Stop.OutOfMemory result (arguments kinds.now stack.now.operands.slots) }
    ensures there { IfOk result (λ words. widths kinds.now ≤ length stack.now.operands.slots) }
    ensures few { IfOk result (λ words. widths kinds.now ≤ 255) }
{
    let slots = widths(kinds);
    if slots > MOST_SLOTS || slots > stack.depth() as u64 {
        return Err(Stop::Throw(Thrown::VerifyError));
    }
    words_in(alloc, stack, kinds, slots as usize)
}

/// The object that a reference refers to.
///
/// # Errors
///
/// A `NullPointerException` where it is null, a `VerifyError` where it is no reference.
pub fn not_null(word: Word) -> Result<u32, Stop>
    ensures is { result ≡ not_null word }
    ensures memory { IfErr result (λ stop. stop ≢ Stop.OutOfMemory) }
{
    match word {
        Word::Ref(object) => Ok(object),
        Word::Null => Err(Stop::Throw(Thrown::NullPointerException)),
        Word::Int(_) | Word::Long(_) => Err(Stop::Throw(Thrown::VerifyError)),
    }
}

/// The object that the first argument refers to.
///
/// # Errors
///
/// Those of [`not_null`], and a `VerifyError` where there is no argument.
pub fn receiver_in(words: &[Word]) -> Result<u32, Stop>
    ensures { result ≡ receiver_in words.now }
{
    match words.first() {
        Some(word) => not_null(*word),
        None => Err(Stop::Throw(Thrown::VerifyError)),
    }
}
