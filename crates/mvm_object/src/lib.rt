//! Step: the instructions on objects (JVM Specification 2.11.5): constants, fields, arrays, new objects, and tests of types.
//!
//! To the layers above it promises: each call does to an isolate and a thread exactly what the definition of its instruction says by names, for every
//! context of the thread ([`once_initialised`] says whether it goes on at all). After an error the isolate by names is as before, and of the stack at most
//! operands of the current frame are gone; where the machine's own memory ran out, not even these. So what may take memory comes before a value is
//! popped, and an object that is made only to be pushed is made only where a reference fits.
#![tactic(auto)]

mod arrays;
mod constants;
mod dimensions;
mod elements;
mod fields;
mod going;
mod initialised;
mod making;
mod objects;
mod state;
mod statics;
mod types;

pub use arrays::{array_length, load_item, store_number};
pub use constants::load_constant;
pub use dimensions::make_arrays;
pub use elements::store_reference;
pub use fields::{PlacedAt, field_popped_at, field_pushed_at, get_field, put_field};
pub use going::pushing;
pub use initialised::{Once, begun_by, once_initialised};
pub use making::{make_numbers, make_references};
pub use objects::{class_of_objects, make_object, object_pushed};
pub use state::ThreadState;
pub use statics::{get_static, put_static, static_popped_at, static_pushed_at};
pub use types::{
    answers, check_cast, instance_of, is_of_entry, passes, throw_object, top_object, top_reference,
};
