//! Step: what the native methods of the built-in classes do.
//!
//! To the layer above it promises: [`call`] answers what the definition `called` of `specs/Calls.antt` gives for the native method
//! of a number, and leaves of the isolate what that definition leaves; or memory ran out, and all is as before. The definition has
//! a line for each method, in the terms of the Java SE 8 API. A method that wants more words than the heap has left throws
//! OutOfMemoryError, and one that would print more than the limit ends the isolate; both change nothing. What a thread has to do
//! beyond its isolate's objects and output (start, join, wait, wake others, send, ask) is in the answer, [`Out`], and is done by
//! who called. [`native_law`] and [`builder_law`] say what parseInt and StringBuilder do in other words than their definitions.
//!
//! [`fits`] finds out whether a call may be made: whether the arguments are what the method takes them for. [`fits_law`] says that it
//! is true exactly there, and [`unclassed_law`] that a native method looks at no class number, and leaves of each object its sort and
//! its class number.
#![tactic(auto)]

mod arguments;
mod calls;
mod characters;
mod env;
mod integer;
mod isolate;
mod laws;
mod link;
mod needs;
mod object;
mod out;
mod print_stream;
mod string;
mod string_builder;
mod texts;
mod thread;
mod throwable;

pub use arguments::{int_arg, ref_arg, word_arg};
pub use calls::call;
pub use env::{Env, LinkUse};
pub use laws::{builder_law, fits_law, native_law, unclassed_law};
pub use link::{End, Sendable};
pub use needs::fits;
pub use out::{Act, Out, Thrown};
pub use texts::ValueKind;
