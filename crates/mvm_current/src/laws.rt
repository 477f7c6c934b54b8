//! What holds of frames by names, over the definitions alone.

ghost use Rattle.std.specs.Prelude.{◌≡◌, ◌∷◌, ℕ, Some};
ghost use Rattle.mvm_base.specs.declared.value.Word.{Word as WordOf};
ghost use Rattle.mvm_frame.specs.Parts.{StackParts};
ghost use Rattle.mvm_frame.specs.declared.key.FrameKey.{FrameKey as FrameKeyOf};
ghost use Rattle.mvm_local.specs.Body.{body_of};
ghost use Rattle.mvm_isolate.specs.Numbered.{Numbered};
ghost use Rattle.mvm_isolate.specs.Sound.{Grows};
ghost use Rattle.mvm_current.specs.Frames.{pushed, Frame};
ghost use Rattle.mvm_current.specs.Keys.{callers_named, frames_named, runs_by, top_named, AreKeys, RunsMethod};
ghost use Rattle.mvm_current.specs.Values.{done_of, kind_of, may_push};

/// How the frames of a stack stand for frames by names (JVM Specification 2.6).
pub fn frames_law()
    // With a frame, they are the top one and its callers.
    ensures top { (n : Numbered) (stack : StackParts) (key : FrameKeyOf) → stack.rest.below.key ≡ Some key → frames_named n stack ≡ top_named n stack ∷ callers_named n stack }
    // The method that a frame runs is told by its key alone.
    ensures method { (n : Numbered) (stack : StackParts) (from to : ℕ) → RunsMethod stack → runs_by n stack.rest.below.key from ≡ runs_by n stack.rest.below.key to }
    // So a frame that runs a method is told by what is left of its pc and its values.
    ensures body { (n : Numbered) (old new : StackParts) → new.rest.below ≡ old.rest.below → RunsMethod old → top_named n new ≡ record (top_named n old) { body = body_of new } }
    // Where an isolate only grows, its keys stay keys, and stand for what they stood for.
    ensures keys { (old new : Numbered) (stack : StackParts) → Grows old new → AreKeys old stack → AreKeys new stack }
    ensures frames { (old new : Numbered) (stack : StackParts) → Grows old new → AreKeys old stack → frames_named new stack ≡ frames_named old stack }
    ensures current { (old new : Numbered) (stack : StackParts) → Grows old new → AreKeys old stack → top_named new stack ≡ top_named old stack }
    ensures callers { (old new : Numbered) (stack : StackParts) → Grows old new → AreKeys old stack → callers_named new stack ≡ callers_named old stack }
{}

/// A value may be pushed exactly where it is (JVM Specification 2.6.2).
pub fn push_law()
    ensures { (word : WordOf) (frame : Frame) → done_of (pushed word frame) ≡ may_push (kind_of word) frame }
{}
