//! Step: throwing and unwinding (JVM Specification 2.10, 6.5 under athrow; 5.5, steps 11 and 12).
//!
//! To the layers above it promises: [`throw`] does to an isolate and a thread exactly what `throw` of `specs/Throwing.antt` says by names, and fails only
//! where that does; then nothing has changed. It takes no memory of the machine's own. Whether the words suffice is known before anything is done.
//! [`throw_law`] says that of the operands of the current frame only the depth matters to a throw.
#![tactic(auto)]

mod handlers;
mod laws;
mod throwing;
mod unwinding;

pub use laws::throw_law;
pub use throwing::throw;
