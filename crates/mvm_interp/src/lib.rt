//! Step: an isolate with its threads, one step at a time, from its launch to its end (JVM Specification 2.5).
//!
//! To the layer above it promises: what [`TaskState::step`] leaves of a task is by names what the definition of a step gives of it, or the
//! machine's own memory ran out, and then by names nothing has changed. [`open_task`] gives the state of an isolate that has done nothing, and
//! [`TaskState::finished`] what an isolate printed and what nothing caught in it.
#![tactic(auto)]

mod attempted;
mod block;
mod closing;
mod finishing;
mod linking;
mod open;
mod row;
mod rows;
mod starting;
mod step;
mod stepped;
mod task_state;
mod uncaught;
mod unread;

pub use block::Uncaught;
pub use closing::Finished;
pub use open::{open_task, open_task_in};
pub use stepped::Stepped;
pub use task_state::TaskState;
