//! The places of records in the histories of a row of shards.

/// One record of a recorded map, by its place: the index `place` in the history of the shard `shard`. It orders by stamp, then by
/// shard.
#[derive(Clone, Copy, Debug, PartialEq, Eq, PartialOrd, Ord, Drop)]
pub struct At {
    pub stamp: u64,
    pub shard: usize,
    pub place: usize,
    pub caller: u32,
}
