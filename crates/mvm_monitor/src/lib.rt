//! Step: monitors, and the threads that wait on objects (Java Language Specification, SE 8, 17.1 and 17.2).
//!
//! To the layer above it promises: [`enter`] and [`exit`] do exactly what the specification says of lock and unlock: a thread
//! gets a monitor that nobody owns or that it owns already, and gives back one of its entries. A [`WaitList`] is the list of
//! the threads that wait, the one that waits longest first; [`WaitList::notify`] takes out the first that waits on an object.
//! Only [`WaitList::new`] takes memory.
#![tactic(auto)]

mod answer;
mod lock;
mod waits;

pub use answer::{Enter, NotOwner};
pub use lock::{enter, exit};
pub use mvm_region::Monitor;
pub use waits::{WaitList, Waiter};
