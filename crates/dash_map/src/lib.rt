//! A hash map cut into shards, each behind its own lock, and the same map of one owner.
#![tactic(auto)]

pub mod alone;
pub mod caller;
mod calls;
mod copies;
pub mod extend;
pub mod iter;
pub mod map;
mod pairs;
pub mod parallel;
pub mod read_only;
pub mod run;
mod shards;
pub mod t;
pub mod waiting;
