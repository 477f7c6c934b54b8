//! Step: calls that make several objects of an isolate, or none: the initialisation of a class up to its frame, the lock of a synchronized
//! static method, what main is called with, and arrays of arrays (JVM Specification 5.5, 2.11.10, 5.2, 6.5).
//!
//! To the layer above it promises: each call does exactly what its definition says by names ([`begins`], [`links_and_begins`], [`locked_class`], [`main_arguments`],
//! [`locked_main`], [`new_arrays`]), and where it is refused, nothing has changed by names. So each looks before it acts: the words of all that it makes are summed first, and where
//! they are missing an `OutOfMemoryError` is thrown; then, where one frame more does not fit, a `StackOverflowError`; then it acts, and nothing
//! fails. The machine's own memory is taken before, too. [`monitor_entered`] says what an entry makes of a monitor, and enters nothing.
#![tactic(auto)]

mod arguments;
mod arrays;
mod beginning;
mod constants;
mod locks;
mod texts;
mod words;

pub use arguments::{MainCall, MainLock, locked_main, main_arguments};
pub use arrays::new_arrays;
pub use beginning::{begins, links_and_begins};
pub use locks::{Lock, locked_class, monitor_entered};
