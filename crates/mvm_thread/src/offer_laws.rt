//! What holds of every offer of a message, over the definition alone.

ghost use Rattle.std.specs.Prelude.{◌≡◌, ◌≢◌, ℕ, length, slice_get, Some, None, true};
ghost use Rattle.mvm_history.specs.declared.message.Message.{Message};
ghost use Rattle.mvm_isolate.specs.Look.{Look};
ghost use Rattle.mvm_native.specs.declared.out.Act.TheVariants.{Offer};
ghost use Rattle.mvm_object.specs.Going.{sending};
ghost use Rattle.mvm_thread.specs.State.{State, Thread, can_step, first_from, sends_on};
ghost use Rattle.mvm_thread.specs.Step.{step_with};

/// What holds where a step offers a message on a link, whatever is looked up. A thread that is sending makes no step, so the one that offers is no exception.
pub fn offer_law()
    // The link has no sender;
    ensures offer { (look : Look) (s : State) (number link : ℕ) (message : Message) → can_step s number ≡ true → length s.closed ≡ length s.launch.links → s.act ≡ None → (step_with look s number).act ≡ Some (Offer link message) → first_from 0 (sends_on link) s.threads ≡ None }
    // no thread is sending on it.
    ensures alone { (look : Look) (s : State) (number link other : ℕ) (message : Message) (thread : Thread) → can_step s number ≡ true → length s.closed ≡ length s.launch.links → s.act ≡ None → (step_with look s number).act ≡ Some (Offer link message) → slice_get s.threads other ≡ Some thread → thread.doing ≢ sending link }
{}
