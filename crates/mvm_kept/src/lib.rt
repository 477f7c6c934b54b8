//! Step: what an isolate has looked at is kept by numbers, so that no instruction searches by names again (JVM Specification 5.4.3).
#![tactic(auto)]

mod constants;
mod entry;
mod fields;
mod initialised;
mod kept;
mod objects;
mod statics;
mod types;

pub use constants::load_constant;
pub use entry::{Asked, Entry, InstanceAt, Meaning, ObjectsAt, StaticAt, TestAt};
pub use fields::{get_field, put_field};
pub use kept::Kept;
pub use objects::make_object;
pub use statics::{get_static, put_static};
pub use types::{check_cast, instance_of};
