//! Step: the current frame of a thread (JVM Specification 2.6), by the names of what it runs.
//!
//! To the layers above it promises: a stack of frames with keys of numbers is a list of frames by names (`frames_named` of `specs/Keys.antt`), the current
//! one ([`frames_law`]) with its values, its method and the constant pool of its class. Each call does to it, or answers of it, exactly what one
//! definition of `specs/` says; every refusal of the stack is a `VerifyError`, but that a frame does not fit, which is a `StackOverflowError`. Where an
//! isolate grows, keys stay keys, and stand for what they stood for. After an error the callers, the pc and the local variables are as before.
#![tactic(auto)]

mod code;
mod entries;
mod frames;
mod key;
mod laws;
mod limits;
mod shapes;
mod values;
mod words;

pub use code::{code_of, key_of, method_of, next_of};
pub use entries::{TypeEntry, entry_at, field_entry, may_store, name_of, type_entry};
pub use frames::{
    Running, current_run, enter_bare, enter_method, leave, room, set_last_stage, set_place,
};
pub use key::NO_METHOD;
pub use laws::{frames_law, push_law};
pub use limits::MOST_FRAME_WORDS;
pub use shapes::{kind_of_shape, kinds_of, shape_of, widths};
pub use values::{may_push, pop, pop_int, push};
pub use words::{arguments, not_null, receiver_in};
