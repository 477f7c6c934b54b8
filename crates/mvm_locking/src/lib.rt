//! Step: monitors and returns (JVM Specification 2.11.8, 2.11.10; Java Language Specification, SE 8, 17.1, 17.2).
//!
//! To the layers above it promises: each call does to an isolate and a thread exactly what its definition says by names. An attempt that
//! enters a monitor goes on, or waits ([`once_entered`]). A return that gives no result of its method, or one that does not fit on the caller, is
//! refused before anything is done, and one whose monitor the thread does not own with nothing changed but the popped value.
#![tactic(auto)]

mod caller;
mod monitors;
mod returns;

pub use monitors::{
    monitor_enter, monitor_exit, monitor_freed, monitor_taken, once_entered, released,
};
pub use returns::return_value;
