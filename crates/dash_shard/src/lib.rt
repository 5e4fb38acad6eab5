//! One shard of a sharded hash map, the lock that it stands behind, its hashers and its routing.
//!
//! For the crates here alone: `row`, in which maps have their shards; of `lock` the modules `cell`, `hold` and `sleepers`, since a held
//! shard of `dash_ref` or `dash_history` is a hold of a lock; and of `shard` what puts a pair where a search ended (`Place`), or walks by a
//! `Cursor`.
#![tactic(auto)]

pub mod error;
pub mod hash;
pub mod keyed;
pub mod lock;
pub mod part;
pub mod query;
pub mod row;
pub mod shard;
