//! What holds of every throw, over the definition alone.

ghost use Rattle.std.specs.Prelude.{◌≡◌, ℕ, IsSome};
ghost use Rattle.mvm_current.specs.Keys.{frames_named};
ghost use Rattle.mvm_frame.specs.Parts.{StackParts};
ghost use Rattle.mvm_isolate.specs.Isolate.{Isolate as IsolateOf};
ghost use Rattle.mvm_isolate.specs.Look.{Look};
ghost use Rattle.mvm_isolate.specs.Numbered.{Numbered};
ghost use Rattle.mvm_isolate.specs.declared.stop.Stop.{Stop as StopOf};
ghost use Rattle.mvm_throwing.specs.Throwing.{throw};

/// Of the operands of the current frame only the depth matters to a throw (JVM Specification 2.6.2, 6.5 under athrow): so what an instruction that failed
/// left of them is nothing to it.
pub fn throw_law()
    ensures { (n : Numbered) (old new : StackParts) (look : Look) (thread : ℕ) (why : StopOf) (s : IsolateOf) → IsSome old.rest.below.key → new.rest ≡ old.rest → new.operands.depth ≡ old.operands.depth → throw look thread why s (frames_named n new) ≡ throw look thread why s (frames_named n old) }
{}
