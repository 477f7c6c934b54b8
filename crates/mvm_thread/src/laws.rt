//! What holds of every step, over the definition alone.

ghost use Rattle.std.specs.Prelude.{◌≡◌, ◌≢◌, ◌≤◌, ◌+◌, ℕ, length, slice_get, Some, true};
ghost use Rattle.mvm_isolate.specs.Look.{Look};
ghost use Rattle.mvm_thread.specs.State.{State, Thread, is_outside};
ghost use Rattle.mvm_thread.specs.Step.{step_with};

/// What a step leaves as it was, whatever is looked up.
pub fn step_law()
    // The bytes of the messages that were sent and received,
    ensures bytes { (look : Look) (s : State) (thread : ℕ) → (step_with look s thread).message_bytes ≡ s.message_bytes }
    // the thread of the last turn,
    ensures last { (look : Look) (s : State) (thread : ℕ) → (step_with look s thread).last ≡ s.last }
    // what the isolate was launched with,
    ensures launch { (look : Look) (s : State) (thread : ℕ) → (step_with look s thread).launch ≡ s.launch }
    // and which links are closed on its side.
    ensures closed { (look : Look) (s : State) (thread : ℕ) → (step_with look s thread).closed ≡ s.closed }
    // No thread goes, and at most one comes.
    ensures few { (look : Look) (s : State) (thread : ℕ) → length s.threads ≤ length (step_with look s thread).threads }
    ensures most { (look : Look) (s : State) (thread : ℕ) → length (step_with look s thread).threads ≤ length s.threads + 1 }
    // A thread that waits for the world outside its isolate is as it was after the step of another one.
    ensures others { (look : Look) (s : State) (number other : ℕ) (thread : Thread) → other ≢ number → slice_get s.threads other ≡ Some thread → is_outside thread.doing ≡ true → slice_get (step_with look s number).threads other ≡ Some thread }
{}
