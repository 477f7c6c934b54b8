//! Step: calls of methods that were called before (JVM Specification 6.5).
//!
//! To the layers above it promises: each call does exactly what its definition says by names, as mvm_invoke's do. What it has looked at of a call is kept
//! by numbers, with the fact that it is what the definitions give, so that the next attempt looks nothing up and takes no memory.
#![tactic(auto)]

mod arguments;
mod calls;
mod entering;
mod interface_calls;
mod interface_keeping;
mod interface_table;
mod keeping;
mod special_calls;
mod special_keeping;
mod special_table;
mod static_call;
mod static_calls;
mod virtual_call;
mod virtual_calls;
mod virtual_keeping;
mod virtual_table;

pub use calls::Calls;
pub use interface_calls::invoke_interface;
pub use interface_table::InterfaceCalls;
pub use special_calls::invoke_special;
pub use special_table::SpecialCalls;
pub use static_calls::invoke_static;
pub use virtual_calls::invoke_virtual;
pub use virtual_table::VirtualCalls;
