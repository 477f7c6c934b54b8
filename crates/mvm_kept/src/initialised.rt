//! Whether an instruction goes on that wants a class initialised (JVM Specification 5.5).

ghost use Rattle.std.specs.Prelude.{◌≡◌, true};
ghost use Rattle.mvm_isolate.specs.Numbered.{name_at, named, IsClass};
ghost use Rattle.mvm_mirror.specs.States.{begun};

use mvm_isolate::Isolate;
use mvm_mirror::{Begin, InitState};

/// Whether a thread goes on that wants the class of a number initialised.
pub(crate) fn goes(isolate: &Isolate, thread: u32, mirror: u32) -> bool
    requires { IsClass isolate.now mirror }
    ensures { result ≡ true → begun thread ((named isolate.now).classes.states (name_at isolate.now mirror)) ≡ Begin.Done }
{
    match isolate.state(mirror) {
        InitState::NotBegun => false,
        InitState::InProgress(other) => other == thread,
        InitState::Initialised => true,
        InitState::Erroneous => false,
    }
}
