ghost use Rattle.std.specs.Prelude.{◌≡◌};
ghost use Rattle.mvm_mirror.specs.States.{after, begun};

/// How far the initialisation of a class is (JVM Specification 5.5).
#[derive(Clone, Copy, Debug, PartialEq, Eq)]
pub enum InitState {
    /// No thread began it.
    NotBegun,
    /// The thread of this number initialises it.
    InProgress(u32),
    /// It is initialised.
    Initialised,
    /// Its initialisation failed.
    Erroneous,
}

/// What a thread does that wants a class initialised (JVM Specification 5.5).
#[derive(Clone, Copy, Debug, PartialEq, Eq)]
pub enum Begin {
    /// It goes on: the class is initialised, or this very thread initialises it (steps 3 and 4).
    Done,
    /// It waits: another thread initialises the class (step 2).
    Wait,
    /// It throws: the initialisation failed before (step 5).
    Erroneous,
    /// It initialises the class: nobody began that (step 6).
    Run,
}

/// What a thread does that wants a class in this state initialised.
pub(crate) fn begun(thread: u32, state: InitState) -> Begin
    ensures { result ≡ begun thread state }
{
    match state {
        InitState::NotBegun => Begin::Run,
        InitState::InProgress(other) => {
            if other == thread {
                Begin::Done
            } else {
                Begin::Wait
            }
        }
        InitState::Initialised => Begin::Done,
        InitState::Erroneous => Begin::Erroneous,
    }
}

/// The state of a class in this state once a thread wanted it initialised.
pub(crate) fn after(thread: u32, state: InitState) -> InitState
    ensures { result ≡ after thread state }
{
    match state {
        InitState::NotBegun => InitState::InProgress(thread),
        _ => state,
    }
}
