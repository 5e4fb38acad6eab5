//! Rows of shards that nobody else has: walks over their pairs, work of several workers on them, and copies.
//!
//! For the crates here alone: the maps of `dash_map` hand these on. `workers` knows no shard: it takes steps on a row of parts, each apart from the others.
#![tactic(auto)]

pub mod copies;
pub mod owning;
pub mod parallel;
pub mod view;
pub mod workers;
