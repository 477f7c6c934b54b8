//! Step: the instructions that touch one frame alone (JVM Specification 6.5).
//!
//! To the layers above it promises: [`run_local`] does to the pc, the local variables and the operands of the top frame exactly
//! what `attempt` of `specs/Attempts.antt` says, or tells the instruction that reaches beyond its frame and does nothing, or
//! answers the one [`Fault`] that the definition has. The callers, and the frame's key and depth, are never touched; after a
//! fault the pc and the local variables are as before. What each opcode does is said by its row of one table, [`ACTIONS`], which
//! the definition looks up. No call takes memory.
#![tactic(auto)]

mod action;
mod action_rows;
mod attempt;
mod beyond;
mod branch;
mod bytes;
mod compute;
mod decoded;
mod fault;
mod moves;
mod operate;
mod perform;

pub use action::{Action, Condition, Operation, Test};
pub use action_rows::{ACTIONS, action_of};
pub use attempt::run_local;
pub use beyond::{Beyond, BeyondAt};
pub use fault::Fault;
