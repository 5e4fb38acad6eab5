//! The parallel forms: what several workers do to the shards of a map, each worker to its own.

mod deal;
pub mod extend;
pub mod map;
pub mod read_only;
pub mod run;
mod shared;
