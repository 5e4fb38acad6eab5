//! The tests of `dash_shard`, and of the copies of `dash_steps` and the held shards of `dash_ref`, over their public items alone.
//!
//! They stand in a crate of their own, so that each library is proved once, without them.
//! `values` has keys and values that tests of maps use too.
#![tactic(auto)]

#[cfg(test)]
mod tests;
pub mod values;
