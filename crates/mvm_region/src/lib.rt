//! Memory: words of 64 bits in regions, which are carved from the front, a pool of such regions, and what a monitor is.
//!
//! To the layer above it promises: a [`Region`] is its words and the number of those that were carved. A region that a
//! [`RegionPool`] hands out is all zeros, whatever stood in it before, and none of it is carved. While the pool keeps a
//! region of the length that is asked for, it is not refused. Only [`RegionPool::new`] and [`RegionPool::take`] take memory.
#![tactic(auto)]

mod monitor;
mod pool;
mod region;

pub use monitor::Monitor;
pub use pool::RegionPool;
pub use region::{Region, Span};
