use crate::limits::Limits;
use mvm_base::{List, Name};

/// The most isolates that there can be.
pub const MOST_ISOLATES: u32 = 256;
/// The most links that there can be.
pub const MOST_LINKS: usize = 1_024;
/// The most attempts that a turn can have.
pub const LARGEST_QUANTUM: u32 = 100_000;

/// A link between two isolates, over which messages go one way.
#[derive(Clone, Copy, Debug, PartialEq, Eq)]
pub struct LinkRow {
    /// The number of the isolate that sends.
    pub from: u32,
    /// The number of the isolate that receives, which is another one.
    pub to: u32,
}

/// What an isolate is made from.
#[derive(Debug, Drop)]
pub struct Launch {
    /// Its number, from 0, below `count`.
    pub number: u32,
    /// How many isolates there are: 1 to [`MOST_ISOLATES`].
    pub count: u32,
    /// The number of the set of its classes, from 0.
    pub set: u32,
    /// The name of its main class.
    pub main: Name,
    /// What `main` is given.
    pub args: List<Name>,
    /// Whether it is started at once, and not by an ask of another isolate.
    pub start: bool,
    /// What it may use.
    pub limits: Limits,
    /// How many attempts a turn of it has at most: 1 to [`LARGEST_QUANTUM`].
    pub quantum: u32,
    /// All links, by their numbers from 0 on: at most [`MOST_LINKS`], those of other isolates too.
    pub links: List<LinkRow>,
}
