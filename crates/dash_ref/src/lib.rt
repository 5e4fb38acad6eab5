//! References into the shards of a sharded hash map: each is a hold of a shard's lock and a position in the shard that is held.
//!
//! For the crates here alone: `held::holds`, holds as what lends from them sees them, and the constructors of references and entries, which
//! `dash_map` calls.
#![tactic(auto)]

pub mod held;
pub mod mapref;
pub mod try_result;
pub mod util;
