//! What a shard's lock knows of it: which shards fit the lock, and what a shard lends for writing.
ghost use Rattle.std.specs.Prelude.{◌≡◌, IsSome};
ghost use Rattle.dash_shard.specs.Words.{FitsTag, by, slot, with_value_in};

use crate::keyed::Keyed;
use crate::lock::{Lendable, Tagged};
use crate::shard::Shard;
use std::hash::{BuildHasher, Hash};
use std::snapshot::Snapshot;

/// What a shard's lock is made for: the shard's number, how many there are, and what its hasher means. The snapshot has no bytes.
#[derive(Drop)]
pub struct ShardTag<S> {
    pub number: usize,
    pub amount: usize,
    pub hasher: Snapshot<S>,
}

impl<S: BuildHasher> ShardTag<S> {
    /// The tag of a lock of this shard.
    pub fn of<K: Eq + Hash, V>(shard: &Shard<K, V, S>) -> ShardTag<S>
        ensures number { result.number ≡ shard.now.number }
        ensures amount { result.amount ≡ shard.now.amount }
        ensures hasher { result.hasher.value ≡ shard.now.hasher }
        ensures fits { FitsTag ⟦<Shard<K, V, S> as Keyed>⟧.by result shard.now }
    {
        ShardTag {
            number: shard.number,
            amount: shard.amount,
            hasher: Snapshot::of(&shard.hasher),
        }
    }
}

impl<K: Eq + Hash, V, S: BuildHasher> Tagged for Shard<K, V, S> {
    type Tag = ShardTag<S>;

    ghost fits = { λ tag shard. FitsTag (by K.Hash S.BuildHasher S.Hasher.Hasher) tag shard };
}

/// The pairs at its taken slots.
impl<K: Eq + Hash, V, S: BuildHasher> Lendable for Shard<K, V, S> {
    type Key = K;

    type Part = V;

    ghost has = { λ shard i. IsSome (slot shard.slots i) };

    ghost pair = { λ shard i. slot shard.slots i };

    ghost with = { with_value_in };

    #[inline]
    fn pair_mut(&mut self, position: usize) -> (&K, &mut V) {
        self.at_mut(position)
    }
}
