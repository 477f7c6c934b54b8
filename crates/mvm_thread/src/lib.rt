//! Step: one attempt of one thread, by names, and one step of an isolate.
//!
//! To the layers above it promises: [`attempt`] does to an isolate and a thread exactly what `attempt` of `specs/Attempt.antt` says by names, for every
//! context of the thread, with what it throws, or the machine's own memory ran out and nothing has changed. [`action_of`] is the row of the table of
//! instructions that reach beyond their frame; [`step_law`] is what every step leaves as it was. `specs/` has the definition of a step, group by group.
#![tactic(auto)]

mod action;
mod action_rows;
mod arrays;
mod attempting;
mod entries;
mod further;
mod instruction;
mod laws;
mod left;
mod offer_laws;
mod one_attempt;
mod plain;
mod settling;

pub use action::Action;
pub use action_rows::action_of;
pub use laws::step_law;
pub use offer_laws::offer_law;
pub use one_attempt::attempt;
