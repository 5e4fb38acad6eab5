//! The shards of a map without locks, lent to be read.
ghost use Rattle.std.specs.Prelude.{◌≡◌, ◌<◌, ◌≤◌, IsTrue, length};
ghost use Rattle.std.specs.Option.{option_map};
ghost use Rattle.std.specs.Map.Iter.{deref_pair};
ghost use Rattle.dash_map.specs.Words.{IsAlone, IsHashOf, at_named, by, contents, keys_in, len_in, room_in};

use crate::read_only::ViewIter;
use dash_shard::hash::determine_shard;
use dash_shard::keyed::Keyed;
use dash_shard::query::Query;
use dash_shard::shard::Shard;
use std::hash::{BuildHasher, Hash};
use std::marker::Model;

// What a map of one owner and a view of a map have, lent.
#[derive(Drop)]
pub(crate) struct Shards<'a, K: Eq + Hash, V, S: BuildHasher> {
    hasher: &'a S,
    shards: &'a [Shard<K, V, S>],
}

impl<'a, K: Eq + Hash, V, S: BuildHasher> Model for Shards<'a, K, V, S> {
    ghost use Rattle.dash_map.specs.Alone.{AloneState, IsAlone};
    ghost use Rattle.dash_shard.specs.Hashing.{key_hash};

    ghost Value = { AloneState K V S };

    ghost view = { λ a. record { hasher = a.hasher.now; row = a.shards.now } };

    ghost invariant = { λ a. IsAlone (key_hash K.eq K.hash_input S.BuildHasher S.Hasher.Hasher) (record { hasher = a.hasher.now; row = a.shards.now }) };
}

impl<K: Eq + Hash, V, S: BuildHasher> Keyed for Shards<'_, K, V, S> {
    type Key = K;

    type State = S;

    ghost by = { by K.Hash S.BuildHasher S.Hasher.Hasher };
}

impl<'a, K: Eq + Hash, V, S: BuildHasher> Shards<'a, K, V, S> {
    #[inline]
    pub(crate) fn new(hasher: &'a S, shards: &'a [Shard<K, V, S>]) -> Self
        requires { IsAlone ⟦<Self as Keyed>⟧.by (record { hasher = hasher.now; row = shards.now }) }
        ensures { result ≡ record { hasher = hasher.now; row = shards.now } }
    {
        Shards { hasher, shards }
    }

    // The key's hash, and the number of the shard that it goes to.
    #[inline]
    pub(crate) fn route_of<Q: Query<K>>(&self, key: Q) -> (u64, usize)
        ensures hashed { IsHashOf ⟦<Self as Keyed>⟧.by self.now.hasher (Q.names key) result.0 }
        ensures routed { (k : K) → IsTrue (Q.names key k) → result.1 ≡ (keys_in ⟦<Self as Keyed>⟧.by self.now).route k }
        ensures below { result.1 < length self.now.row }
    {
        let hash = self.hasher.hash_one(key);
        (hash, determine_shard(hash, self.shards.len()))
    }

    // The pair whose key `key` names, by one hash and one search.
    #[inline]
    pub(crate) fn get<Q: Query<K>>(&self, key: Q) -> Option<(&'a K, &'a V)>
        ensures { option_map deref_pair result ≡ at_named (Q.names key) (contents self.now) }
    {
        let (hash, idx) = self.route_of(key);
        self.get_hashed(hash, idx, key)
    }

    // As `get`, by the key's hash and shard.
    #[inline]
    fn get_hashed<Q: Query<K>>(&self, hash: u64, idx: usize, key: Q) -> Option<(&'a K, &'a V)>
        requires hashed { IsHashOf ⟦<Self as Keyed>⟧.by self.now.hasher (Q.names key) hash }
        requires routed { (k : K) → IsTrue (Q.names key k) → idx ≡ (keys_in ⟦<Self as Keyed>⟧.by self.now).route k }
        requires below { idx < length self.now.row }
        ensures { option_map deref_pair result ≡ at_named (Q.names key) (contents self.now) }
    {
        prove!(idx < self.shards.len());
        let shard = &self.shards[idx];
        let position = shard.position_of_hashed(hash, key)?;
        Some(shard.at(position))
    }

    // How many pairs there are, saturating at 2^64 - 1.
    pub(crate) fn len(&self) -> usize
        ensures len { result ≡ len_in self.now }
    {
        let mut len: usize = 0;
        for shard in self.shards {
            len = len.saturating_add(shard.len());
        }
        len
    }

    // How many pairs there may be before some shard takes memory, saturating at 2^64 - 1.
    pub(crate) fn capacity(&self) -> usize
        ensures capacity { result ≡ room_in self.now }
        ensures holds { len_in self.now ≤ result }
    {
        let mut capacity: usize = 0;
        for shard in self.shards {
            prove!(shard.len() <= shard.capacity());
            capacity = capacity.saturating_add(shard.capacity());
        }
        capacity
    }

    // The pairs, by rising shard and in each by rising slot.
    #[inline]
    pub(crate) fn iter(&self) -> ViewIter<'a, K, V, S>
        ensures { result ≡ contents self.now }
    {
        ViewIter::new(self.shards)
    }
}
