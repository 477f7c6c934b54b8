ghost use Rattle.std.specs.Prelude.{◌≡◌, true};
ghost use Rattle.mvm_history.specs.Limits.{allowed, defaults, is_between};

/// The most steps that can be allowed: 2^32.
pub const MOST_STEPS: u64 = 4_294_967_296;
/// The steps that are allowed where none are named.
pub const DEFAULT_STEPS: u64 = 100_000_000;
/// The most words that a heap can have.
pub const MOST_WORDS: u64 = 4_194_304;
/// The words that a heap has where none are named.
pub const DEFAULT_WORDS: u64 = 65_536;
/// The most frames that a thread can have, and those that it may have where none are named.
pub const FRAMES: u64 = 1_024;
/// The most threads that an isolate can start.
pub const MOST_THREADS: u64 = 64;
/// The threads that it may start where none are named.
pub const DEFAULT_THREADS: u64 = 4;
/// The most bytes that an isolate can print.
pub const MOST_OUTPUT: u64 = 1_048_576;
/// The bytes that it may print where none are named.
pub const DEFAULT_OUTPUT: u64 = 65_536;
/// The most entries that can be allowed.
pub const MOST_LOG: u64 = 1_000_000;
/// The entries that are allowed where none are named.
pub const DEFAULT_LOG: u64 = 15_000;
/// The greatest limit of stamps, 2^62, which is also the one where none is named.
pub const CLOCK: u64 = 4_611_686_018_427_387_904;
/// The most bytes of messages that can be allowed, and those that are where none are named.
pub const MESSAGE_BYTES: u64 = 1_048_576;

/// What an isolate may use.
#[derive(Clone, Copy, Debug, PartialEq, Eq)]
pub struct Limits {
    /// How many attempts its threads may make: 1 to [`MOST_STEPS`].
    pub steps: u64,
    /// How many words of 8 bytes its heap has: 0 to [`MOST_WORDS`].
    pub heap: u64,
    /// How many frames each thread may have: 1 to [`FRAMES`].
    pub frames: u64,
    /// How many threads it may ever start, the first counted: 1 to [`MOST_THREADS`].
    pub threads: u64,
    /// How many bytes it may print: 0 to [`MOST_OUTPUT`].
    pub output: u64,
    /// At how many entries of its history it ends: 1 to [`MOST_LOG`].
    pub log: u64,
    /// At which stamp it ends: 1 to [`CLOCK`].
    pub clock: u64,
    /// At how many bytes of messages, sent and received together, it ends: 1 to [`MESSAGE_BYTES`].
    pub messages: u64,
}

/// Whether a limit is in a range, both ends of which belong to it.
fn is_between(least: u64, most: u64, limit: u64) -> bool
    ensures { result ≡ is_between least most limit }
{
    least <= limit && limit <= most
}

impl Limits {
    /// The limits of an isolate for which none are named.
    pub fn defaults() -> Limits
        ensures value { result ≡ defaults }
        // Each is in its range.
        ensures allowed { allowed result ≡ true }
    {
        Limits {
            steps: DEFAULT_STEPS,
            heap: DEFAULT_WORDS,
            frames: FRAMES,
            threads: DEFAULT_THREADS,
            output: DEFAULT_OUTPUT,
            log: DEFAULT_LOG,
            clock: CLOCK,
            messages: MESSAGE_BYTES,
        }
    }

    /// Whether each limit is in its range.
    pub fn are_allowed(&self) -> bool
        ensures { result ≡ allowed self.now }
    {
        is_between(1, MOST_STEPS, self.steps)
            && is_between(0, MOST_WORDS, self.heap)
            && is_between(1, FRAMES, self.frames)
            && is_between(1, MOST_THREADS, self.threads)
            && is_between(0, MOST_OUTPUT, self.output)
            && is_between(1, MOST_LOG, self.log)
            && is_between(1, CLOCK, self.clock)
            && is_between(1, MESSAGE_BYTES, self.messages)
    }
}
