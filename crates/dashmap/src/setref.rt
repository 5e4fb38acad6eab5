//! References into a set, each of which holds a shard.
pub mod multiple;
pub mod one;
