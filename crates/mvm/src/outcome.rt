ghost use Rattle.std.specs.Prelude.{◌≡◌};
ghost use Rattle.std.specs.List.{list_all};
ghost use Rattle.mvm.specs.Status.{is_success, run_status, status_of, refusal_status};

use crate::refusal::Refusal;
use mvm_base::{Line, List, Name};
use mvm_history::End;
use mvm_interp::Uncaught;

/// What is left of an isolate that has ended.
#[derive(Debug, Drop)]
pub struct Block {
    /// The name of the class whose `main` was run.
    pub main: Name,
    /// All that was printed.
    pub output: Line,
    /// The exceptions that nothing caught, in the order in which they came.
    pub uncaught: List<Uncaught>,
    /// How the isolate ended.
    pub end: End,
}

/// What is left of a run: a block for each isolate, in order of their numbers.
#[derive(Debug, Drop)]
pub struct Outcome {
    pub isolates: List<Block>,
}

/// What a call of [`launch`](crate::launch::launch) came to.
#[derive(Debug, Drop)]
pub enum What {
    /// The isolates were run to their ends, and the whole report was written.
    Ran(Outcome),
    /// The output of `asm` or `dump` was made, and all of it was written.
    Made,
    /// The call was refused. But for a write fault, nothing was written.
    Refused(Refusal),
    /// Memory was wanted and was not to be had. Nothing was written.
    OutOfMemory,
}

/// The answer of [`launch`](crate::launch::launch), with the status that the program ends with.
#[derive(Debug, Drop)]
pub struct Ended {
    /// 0 where each isolate ended with exit 0 or the output was made, 1 where some isolate did not; 2 to 6 where there was no
    /// run to the end and no output.
    pub status: u8,
    pub what: What,
}

impl Ended {
    /// The end of a call with this answer.
    pub fn new(what: What) -> Ended
        ensures { result ≡ record { status = status_of what; what = what } }
    {
        Ended {
            status: status_of(&what),
            what,
        }
    }
}

/// The status that a call ends with.
fn status_of(what: &What) -> u8
    ensures { result ≡ status_of what.now }
{
    match what {
        What::Ran(outcome) => run_status(outcome),
        What::Made => 0,
        What::Refused(refusal) => refusal_status(refusal),
        What::OutOfMemory => 6,
    }
}

/// The status of a run: 0 where each isolate ended with exit 0, 1 where some isolate did not.
pub fn run_status(outcome: &Outcome) -> u8
    ensures { result ≡ run_status outcome.now }
{
    if all_succeeded(outcome.isolates.as_slice()) {
        0
    } else {
        1
    }
}

// Whether each of these isolates ended with exit 0.
fn all_succeeded(isolates: &[Block]) -> bool
    ensures { result ≡ list_all (λ block. is_success block.end) isolates.now }
{
    isolates.iter().all(|block| is_success(&block.end))
}

// Whether an isolate ended with exit 0.
fn is_success(end: &End) -> bool
    ensures { result ≡ is_success end.now }
{
    match end {
        End::Exit(code) => *code == 0,
        End::Limit(_) | End::Halted { .. } | End::Stalled | End::NeverStarted => false,
    }
}

// The status of a refusal.
fn refusal_status(refusal: &Refusal) -> u8
    ensures { result ≡ refusal_status refusal.now }
{
    match refusal {
        Refusal::Usage => 2,
        Refusal::ReadFault => 3,
        Refusal::InputTooLong | Refusal::Class(_) | Refusal::Assembly(_) => 4,
        Refusal::WriteFault(_) => 5,
    }
}
