//! Whether the arguments of a call are there (JVM Specification 2.6.1): it takes no memory.

ghost use Rattle.std.specs.Prelude.{◌≡◌, ◌≤◌, length, reverse, take, is_some, OnOk};
ghost use Rattle.mvm_current.specs.Arguments.{arguments, head_word, widths, words_in};
ghost use Rattle.mvm_current.specs.Values.{done_of, width};

use mvm_base::Kind;
use mvm_frame::{Slot, Stack};
use mvm_isolate::Stop;
use mvm_native::Thrown;

/// How many slots the arguments of a call may take (JVM Specification 4.3.3).
const MOST_SLOTS: u16 = 255;

/// How many slots a value of a kind takes (JVM Specification 2.6.2).
fn width(kind: Kind) -> usize
    ensures { result ≡ width kind }
{
    match kind {
        Kind::Long => 2,
        Kind::Int | Kind::Ref => 1,
    }
}

/// Whether a value of a kind begins the arguments, of which so many slots are left.
#[tactic(auto, using(mvm_current::proofs::Reading::long_is))]
fn begins_with(stack: &Stack, kind: Kind, left: usize) -> bool
    requires there { left ≤ length stack.now.operands.slots }
    requires wide { width kind ≤ left }
    ensures { result ≡ is_some (head_word kind (reverse (take left stack.now.operands.slots))) }
{
    match kind {
        Kind::Int => matches!(stack.peek(left - 1), Slot::Int(_)),
        Kind::Ref => matches!(stack.peek(left - 1), Slot::Ref(_) | Slot::Null),
        Kind::Long => matches!(
            (stack.peek(left - 1), stack.peek(left - 2)),
            (Slot::Long(_), Slot::Half)
        ),
    }
}

/// Whether values of these kinds, which take so many slots, are on top of the operands.
fn words_there(stack: &Stack, kinds: &[Kind], slots: usize) -> Result<(), Stop>
    requires there { slots ≤ length stack.now.operands.slots }
    requires widths { widths kinds.now ≡ slots }
    ensures { result ≡ done_of (words_in kinds.now (reverse (take slots stack.now.operands.slots))) }
{
    let mut left = slots;
    for i in 0..kinds.len() {
        if !begins_with(stack, kinds[i], left) {
            return Err(Stop::Throw(Thrown::VerifyError));
        }
        left -= width(kinds[i]);
    }
    Ok(())
}

/// Whether the arguments of these kinds, which take so many slots, are on top of the operands, the last of them highest.
///
/// # Errors
///
/// A `VerifyError` where they are not there, or take more than 255 slots.
#[tactic(auto, unfolding(mvm_current::specs::Arguments::arguments))]
pub(crate) fn arguments_there(stack: &Stack, kinds: &[Kind], slots: u16) -> Result<(), Stop>
    requires widths { widths kinds.now ≡ slots }
    ensures is { result ≡ done_of (arguments kinds.now stack.now.operands.slots) }
    ensures there { OnOk result (slots ≤ length stack.now.operands.slots) }
{
    if slots > MOST_SLOTS || usize::from(slots) > stack.depth() {
        return Err(Stop::Throw(Thrown::VerifyError));
    }
    words_there(stack, kinds, usize::from(slots))
}
