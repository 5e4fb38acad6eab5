//! What the lock of a recorded shard is made for.
ghost use Rattle.dash_history.specs.Words.{FitsRecTag, by};

use super::RecShard;
use dash_shard::lock::Tagged;
use dash_steps::action::KeptAction;
use dash_steps::kept::{Kept, KeptKey};
use std::hash::BuildHasher;
use std::snapshot::Snapshot;

/// What a recorded shard's lock is made for: the shard's number, how many there are, the number of callers, and what its hasher
/// means. The snapshot has no bytes.
#[derive(Drop)]
pub struct RecTag<S> {
    pub number: usize,
    pub amount: usize,
    pub callers: u32,
    pub hasher: Snapshot<S>,
}

impl<K: KeptKey, V: Kept, S: BuildHasher, A: KeptAction<K, V>> Tagged for RecShard<K, V, S, A> {
    type Tag = RecTag<S>;

    ghost fits = { λ tag shard. FitsRecTag (by K.Hash S.BuildHasher S.Hasher.Hasher) tag shard };
}
