//! Step: the start of a thread, and the frames in which classes are initialised (JVM Specification 5.2, 5.5).
//!
//! To the layer above it promises: the first attempt of a thread ([`start`]), and an attempt in the frame of an initialisation ([`initialise`]), leave
//! exactly what their definitions say by names, for every context of the thread, or the machine's own memory ran out. The first thread calls main, where
//! its class is initialised; another one calls the run of its object. Of a class the supers are initialised first, in their order, then its `<clinit>` is
//! called, and after its return the class is initialised and the frame is left. After an error the isolate by names and the stack are as before.
#![tactic(auto)]

mod firsts;
mod initialising;
mod mains;
mod runs;
mod starts;

pub use initialising::initialise;
pub use starts::start;
