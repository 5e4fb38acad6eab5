//! Exact copies of keys and values, and the steps of a sharded hash map and their replies as values, with actions.
//!
//! Each step is of one shard. What it does is decided on copies, before anything changes.
//!
//! For the crates here alone: `take`, by which a run takes a step, `plan` and `change`, by which a history does, and `sweep`, copies and
//! changes of all pairs of a shard.
#![tactic(auto)]

pub mod action;
pub mod change;
pub mod kept;
pub mod known;
pub mod plan;
pub mod step;
pub mod sweep;
pub mod take;
