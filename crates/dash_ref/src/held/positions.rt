//! A held shard's calls by slot, which change it.
ghost use Rattle.std.specs.Prelude.{◌≡◌, ◌+◌, ◌-◌, ◌^◌, ◌<◌, IsSome, IfSome, IfOk, IfErr, OnErr, Some, None};
ghost use Rattle.std.specs.Map.Iter.{deref_pair};
ghost use Rattle.core.specs.Result.{result_ok};
ghost use Rattle.dash_ref.specs.Words.{Finds, HasKey, Insert, IsNextTaken, IsShard, Old, Pair, Remove, Replaces, Reserves, Routes, SameShard, TakesAt, TakesInPlace, at, by, pairs, shard_len, slot};
ghost use Rattle.dash_shard.specs.inner.Table.{IsPlaceFor, MayTake};

use super::ShardMut;
use dash_shard::error::TryReserveError;
use dash_shard::keyed::Keyed;
use dash_shard::shard::Place;
use std::hash::{BuildHasher, Hash};

impl<K: Eq + Hash, V, S: BuildHasher> ShardMut<'_, K, V, S> {
    /// Puts a pair whose key is new in room that is there, and returns its slot. It takes no memory, and can't be refused.
    #[inline]
    pub fn insert_new(&mut self, key: K, value: V) -> usize
    where
        K: Drop,
        V: Drop,
        requires route { Routes ⟦<Self as Keyed>⟧.by self.old key }
        requires absent { at K.eq (pairs self.old) key ≡ None }
        requires room { shard_len self.old < self.old.capacity }
        ensures inserts { TakesInPlace K.eq self.old self.new (Insert key value) (Old None) }
        ensures slot { slot self.new.slots result ≡ Some (key, value) }
        ensures len { shard_len self.new ≡ shard_len self.old + 1 }
        ensures lawful { IsShard ⟦<Self as Keyed>⟧.by self.new }
    {
        self.hold.change(|shard| shard.insert_new(key, value))
    }

    /// The place that a search found for a new key, or another in room that is made, where there was none.
    ///
    /// Takes memory where the shard is full, and is refused (11) only then.
    #[inline]
    pub(crate) fn make_place(&mut self, hash: u64, place: Place) -> Result<Place, TryReserveError>
        requires { MayTake self.old hash place }
        ensures reserves { Reserves K.eq 1 self.old self.new result }
        ensures place { IfOk result (IsPlaceFor self.new hash) }
        ensures full { OnErr result (shard_len self.old ≡ self.old.capacity) }
        ensures lawful { IsShard ⟦<Self as Keyed>⟧.by self.new }
    {
        self.hold.change(|shard| shard.make_place(hash, place))
    }

    /// As `insert_new`, for a caller who has the key's hash and a place for it.
    #[inline]
    pub(crate) fn insert_new_at(&mut self, place: Place, hash: u64, key: K, value: V)
    where
        K: Drop,
        V: Drop,
        requires hash { hash ≡ ⟦<Self as Keyed>⟧.by.hash self.old.hasher key }
        requires route { Routes ⟦<Self as Keyed>⟧.by self.old key }
        requires absent { at K.eq (pairs self.old) key ≡ None }
        requires room { shard_len self.old < self.old.capacity }
        requires place { IsPlaceFor self.old hash place }
        ensures inserts { TakesInPlace K.eq self.old self.new (Insert key value) (Old None) }
        ensures slot { slot self.new.slots place.slot ≡ Some (key, value) }
        ensures len { shard_len self.new ≡ shard_len self.old + 1 }
        ensures lawful { IsShard ⟦<Self as Keyed>⟧.by self.new }
    {
        self.hold
            .change(|shard| shard.insert_new_at(place, hash, key, value));
    }

    /// Puts a pair in the slot of the one with an equal key, and returns that one: the new key is stored too. It makes no look-up, takes
    /// no memory, and can't be refused.
    #[inline]
    pub fn replace_at(&mut self, position: usize, key: K, value: V) -> (K, V)
    where
        K: Drop,
        V: Drop,
        requires { HasKey K.eq self.old key position }
        ensures replaces { Replaces K.eq self.old self.new position key value result }
        ensures lawful { IsShard ⟦<Self as Keyed>⟧.by self.new }
    {
        self.hold
            .change(|shard| shard.replace_at(position, key, value))
    }

    /// Takes the pair of a taken slot out, and returns it. It makes no look-up, takes no memory, and can't be refused.
    #[inline]
    pub fn remove_at(&mut self, position: usize) -> (K, V)
    where
        K: Drop,
        V: Drop,
        requires { IsSome (slot self.old.slots position) }
        ensures removes { TakesAt K.eq self.old self.new position Remove (Pair (Some result)) }
        ensures pair { slot self.old.slots position ≡ Some result }
        ensures stays { SameShard self.old self.new }
        ensures len { shard_len self.old ≡ shard_len self.new + 1 }
        ensures lawful { IsShard ⟦<Self as Keyed>⟧.by self.new }
    {
        self.hold.change(|shard| shard.remove_at(position))
    }
}
