//! Recorded steps of a sharded hash map: histories of shards, logs of callers, their merge, and the recorded map.
#![tactic(auto)]

pub mod alone;
mod apply;
pub mod caller;
pub mod gather;
mod joined;
mod matching;
mod merge;
pub mod place;
pub mod record;
mod whole_steps;
