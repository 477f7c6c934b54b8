//! Step: calls of methods and of native methods (JVM Specification 2.6, 2.11.8, 6.5).
//!
//! To the layers above it promises: each of the four instructions that call does to an isolate and a thread exactly what its definition says by names,
//! for every context of the thread, or the machine's own memory ran out. What may fail comes before anything changes: after an error the isolate by names
//! and the stack are as before. A method with code gets a frame on its caller's; a native one is done at once, and [`After`] says what is left to be done.
#![tactic(auto)]

mod answers;
mod caller;
mod calls;
mod frames;
mod heads;
mod left;
mod native;
mod passed;
mod receivers;
mod run;
mod special_calls;
mod static_calls;
mod targets;
mod virtual_calls;

pub use caller::Caller;
pub use calls::called_at;
pub use frames::framed;
pub use heads::{Head, Size, head_in, without_code};
pub use left::{After, Left, Told};
pub use passed::Passed;
pub use receivers::{Received, received_at, virtual_selected};
pub use run::run_selected;
pub use special_calls::{invoke_special, special_method};
pub use static_calls::{call_static, invoke_static};
pub use targets::call_target;
pub use virtual_calls::{interface_selected, invoke_interface, invoke_virtual, not_private};
