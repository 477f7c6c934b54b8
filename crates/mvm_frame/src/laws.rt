ghost use Rattle.std.specs.Prelude.{◌≡◌, ◌≤◌, ◌∷◌, ℕ, List, Ok, length};
ghost use Rattle.mvm_frame.specs.Parts.{Frame, StackParts, frames_of, stack_with};
ghost use Rattle.mvm_frame.specs.Calls.{enter, fresh, without, reached};
ghost use Rattle.mvm_frame.specs.Forms.{Follows};

use crate::key::FrameKey;
use crate::shuffle_rows::Shuffle;
use mvm_base::Word;

/// What holds of all stacks: what the calls do to the list of frames, and that the shuffles are those of the JVM Specification
/// (2.6 and 6.5).
pub fn frames_law()
    // The stack made of a list of frames, as `leave` and `Stack::new` leave it, has these frames.
    ensures whole { (frames : List Frame) (most words : ℕ) → frames_of (stack_with frames most words) ≡ frames }
    // A frame that is entered stands on the frames that were there.
    ensures entered { (key : FrameKey) (locals depth args : ℕ) (old new : StackParts) → enter key locals depth args old ≡ Ok new → frames_of new ≡ fresh key locals depth args old.operands.slots ∷ frames_of (without args old) }
    // Then neither the frames nor the words are more than their limits.
    ensures limits { (key : FrameKey) (locals depth args : ℕ) (old new : StackParts) → args ≤ locals → enter key locals depth args old ≡ Ok new → (length (frames_of new) ≤ new.rest.below.most) × (reached (frames_of new) ≤ new.rest.below.words) }
    // A shuffle of slots is what a form of its instruction does to the values in them, and is refused where no form fits.
    ensures forms { (op : Shuffle) (values : List Word) → Follows op values }
{}
