//! A shard's calls by slot: a look-up's answer for calls that make no other.
ghost use Rattle.std.specs.Prelude.{◌≡◌, ◌+◌, ◌-◌, ◌^◌, ◌<◌, IsSome, Some, None, ℕ, ◌↔◌, IfSome, IsNone, IfOk, IfErr, OnErr};
ghost use Rattle.std.specs.Option.{option_map};
ghost use Rattle.core.specs.Result.{result_ok};
ghost use Rattle.std.specs.Map.Iter.{deref_pair, deref_pair_mut};
ghost use Rattle.std.specs.Borrow.{Lends, sem};
ghost use Rattle.dash_shard.specs.Words.{Finds, FindsNamed, HasKey, hash_of, Insert, Inserts, IsHashOf, IsNextTaken, IsShard, Old, Pair, Remove, Replaces, Reserves, Routes, SameShard, Searches, TakesAt, TakesInPlace, at, groups, pairs, shard_len, slot, with_value_in};
ghost use Rattle.dash_shard.specs.inner.Table.{IsPlaceFor, MayTake};
ghost use Rattle.dash_shard.specs.inner.Cursors.{IsSlotCursor, Advances};

use super::{Cursor, InsertRefused, Place, Search, Shard};
use crate::error::TryReserveError;
use crate::keyed::{Keyed, Lender};
use crate::query::Query;
use std::hash::{BuildHasher, Hash};

impl<K: Eq + Hash, V, S: BuildHasher> Shard<K, V, S> {
    /// The slot of the pair whose key equals `key`, for `at`. It is good while the shard isn't changed.
    #[inline(always)]
    pub fn position_of<Q: Query<K>>(&self, key: Q) -> Option<usize>
        ensures finds { FindsNamed (Q.names key) self.now result }
        ensures lawful { IsShard ⟦<Self as Keyed>⟧.by self.now }
    {
        self.position_of_hashed(self.hash_one(key), key)
    }

    /// As `position_of`, for a caller who has the key's hash.
    #[inline(always)]
    pub fn position_of_hashed<Q: Query<K>>(&self, hash: u64, key: Q) -> Option<usize>
        requires { IsHashOf ⟦<Self as Keyed>⟧.by self.now.hasher (Q.names key) hash }
        ensures finds { FindsNamed (Q.names key) self.now result }
        ensures lawful { IsShard ⟦<Self as Keyed>⟧.by self.now }
    {
        self.table.find(hash, key)
    }

    /// As `position_of_hashed`, or else the place for a pair of this key, where there is room.
    #[inline(always)]
    pub fn find_or_place(&self, hash: u64, key: &K) -> Result<usize, Place>
        requires { hash ≡ ⟦<Self as Keyed>⟧.by.hash self.now.hasher key.now }
        ensures finds { Finds K.eq self.now key.now (result_ok result) }
        ensures place { IfErr result (MayTake self.now hash) }
        ensures lawful { IsShard ⟦<Self as Keyed>⟧.by self.now }
    {
        self.table.find_or_place(hash, key)
    }

    /// How many groups of sixteen slots there are.
    #[inline]
    pub fn groups(&self) -> usize
        ensures { result ≡ groups self.now }
    {
        self.table.groups()
    }

    /// As `position_of`, with how many groups of slots were looked at: those from the key's hash modulo `groups()` on, rising, round. With no
    /// such slot it looks at all of them, or up to one that no pair of the hash's class stands past.
    #[inline]
    pub fn search<Q: Query<K>>(&self, key: Q) -> Search
        ensures searches { Searches ⟦<Self as Keyed>⟧.by (Q.names key) self.now (hash_of S.BuildHasher S.Hasher.Hasher self.now.hasher (Q.hash_input key)) result }
        ensures lawful { IsShard ⟦<Self as Keyed>⟧.by self.now }
    {
        self.table.search(self.hash_one(key), key)
    }

    /// The pair of a taken slot, without a look at any other.
    #[inline(always)]
    pub fn at(&self, position: usize) -> (&K, &V)
        requires { IsSome (slot self.now.slots position) }
        ensures pair { slot self.now.slots position ≡ Some (deref_pair result) }
        ensures lawful { IsShard ⟦<Self as Keyed>⟧.by self.now }
    {
        self.table.at(position)
    }

    /// As `at`, for a value to be written.
    #[inline(always)]
    pub fn at_mut(&mut self, position: usize) -> (&K, &mut V)
        requires { IsSome (slot self.old.slots position) }
        ensures* writes_back { sem 𝓛 (Lends ⟦<Self as Lender>⟧.row V.row self.entry result.1 (with_value_in self.old position)) }
        ensures pair { slot self.old.slots position ≡ Some (deref_pair_mut result) }
        ensures lawful { IsShard ⟦<Self as Keyed>⟧.by self.old }
    {
        self.table.pair_mut(position)
    }

    /// Puts a pair whose key is new in room that is there, and returns its slot. It takes no memory, and can't be refused.
    #[inline]
    pub fn insert_new(&mut self, key: K, value: V) -> usize
    where
        K: Drop,
        V: Drop,
        requires route { Routes ⟦<Self as Keyed>⟧.by self.old key }
        requires absent { at K.eq (pairs self.old) key ≡ None }
        requires room { shard_len self.old < self.old.capacity }
        ensures inserts { TakesInPlace K.eq self.old self.new (Insert key value) (Old None) }
        ensures slot { slot self.new.slots result ≡ Some (key, value) }
        ensures len { shard_len self.new ≡ shard_len self.old + 1 }
        ensures lawful { IsShard ⟦<Self as Keyed>⟧.by self.new }
    {
        let hash = self.hash_one(&key);
        let place = self.table.place_for(hash);
        self.insert_new_at(place, hash, key, value);
        place.slot
    }

    /// The place that a search found for a new key, or another in room that is made, where there was none.
    ///
    /// Takes memory where the shard is full, and is refused (11) only then.
    #[inline]
    pub fn make_place(&mut self, hash: u64, place: Place) -> Result<Place, TryReserveError>
        requires { MayTake self.old hash place }
        ensures reserves { Reserves K.eq 1 self.old self.new result }
        ensures place { IfOk result (IsPlaceFor self.new hash) }
        ensures full { OnErr result (shard_len self.old ≡ self.old.capacity) }
        ensures lawful { IsShard ⟦<Self as Keyed>⟧.by self.new }
    {
        if self.table.len() < self.table.capacity() {
            return Ok(place);
        }
        let Ok(()) = self.table.grow(&self.hasher) else {
            return Err(TryReserveError {});
        };
        Ok(self.table.place_for(hash))
    }

    /// As `insert_new`, for a caller who has the key's hash and a place for it.
    #[inline]
    pub fn insert_new_at(&mut self, place: Place, hash: u64, key: K, value: V)
    where
        K: Drop,
        V: Drop,
        requires hash { hash ≡ ⟦<Self as Keyed>⟧.by.hash self.old.hasher key }
        requires route { Routes ⟦<Self as Keyed>⟧.by self.old key }
        requires absent { at K.eq (pairs self.old) key ≡ None }
        requires room { shard_len self.old < self.old.capacity }
        requires place { IsPlaceFor self.old hash place }
        ensures inserts { TakesInPlace K.eq self.old self.new (Insert key value) (Old None) }
        ensures slot { slot self.new.slots place.slot ≡ Some (key, value) }
        ensures len { shard_len self.new ≡ shard_len self.old + 1 }
        ensures lawful { IsShard ⟦<Self as Keyed>⟧.by self.new }
    {
        self.table.put(place, hash, key, value);
    }

    /// As `Shard::insert_hashed`, for a caller who has what a search found.
    #[inline(always)]
    pub fn insert_found(
        &mut self,
        hash: u64,
        key: K,
        value: V,
        found: Result<usize, Place>,
    ) -> Result<Option<V>, InsertRefused<K, V>>
    where
        K: Drop,
        V: Drop,
        requires found { Finds K.eq self.old key (result_ok found) }
        requires place { IfErr found (MayTake self.old hash) }
        requires hash { hash ≡ ⟦<Self as Keyed>⟧.by.hash self.old.hasher key }
        requires route { Routes ⟦<Self as Keyed>⟧.by self.old key }
        ensures inserts { Inserts K.eq self.old self.new key value result }
        ensures lawful { IsShard ⟦<Self as Keyed>⟧.by self.new }
    {
        match found {
            Ok(slot) => Ok(Some(self.set_at(slot, value))),
            Err(place) => match self.make_place(hash, place) {
                Ok(place) => {
                    self.insert_new_at(place, hash, key, value);
                    Ok(None)
                }
                Err(_) => Err(InsertRefused { key, value }),
            },
        }
    }

    /// Puts a value in the pair of a taken slot, and returns the old one. It makes no look-up, takes no memory, and can't be refused.
    #[inline]
    pub fn set_at(&mut self, position: usize, value: V) -> V
        requires { IsSome (slot self.old.slots position) }
        ensures sets { TakesAt K.eq self.old self.new position (λ key. Insert key value) (Old (Some result)) }
        ensures here { self.new ≡ with_value_in self.old position value }
        ensures value { option_map (λ p. p.1) (slot self.old.slots position) ≡ Some result }
        ensures stays { SameShard self.old self.new }
        ensures len { shard_len self.new ≡ shard_len self.old }
        ensures lawful { IsShard ⟦<Self as Keyed>⟧.by self.new }
    {
        self.table.replace(position, value)
    }

    /// Takes the pair of a taken slot out, and returns it. It makes no look-up, takes no memory, and can't be refused.
    #[inline]
    pub fn remove_at(&mut self, position: usize) -> (K, V)
        requires { IsSome (slot self.old.slots position) }
        ensures removes { TakesAt K.eq self.old self.new position Remove (Pair (Some result)) }
        ensures pair { slot self.old.slots position ≡ Some result }
        ensures stays { SameShard self.old self.new }
        ensures len { shard_len self.old ≡ shard_len self.new + 1 }
        ensures lawful { IsShard ⟦<Self as Keyed>⟧.by self.new }
    {
        let hash = self.hash_one(self.at(position).0);
        self.take_at(position, hash)
    }

    // As `remove_at`, by the hash of the key that stands there.
    #[inline(always)]
    pub(super) fn take_at(&mut self, position: usize, hash: u64) -> (K, V)
        requires taken { IsSome (slot self.old.slots position) }
        requires hash { IfSome (slot self.old.slots position) (λ p. hash ≡ ⟦<Self as Keyed>⟧.by.hash self.old.hasher p.0) }
        ensures removes { TakesAt K.eq self.old self.new position Remove (Pair (Some result)) }
        ensures pair { slot self.old.slots position ≡ Some result }
        ensures stays { SameShard self.old self.new }
        ensures len { shard_len self.old ≡ shard_len self.new + 1 }
        ensures lawful { IsShard ⟦<Self as Keyed>⟧.by self.new }
    {
        self.table.take(position, hash)
    }

    /// Puts a pair in the slot of the one with an equal key, and returns that one: the new key is stored too. It makes no look-up, takes
    /// no memory, and can't be refused.
    #[inline]
    pub fn replace_at(&mut self, position: usize, key: K, value: V) -> (K, V)
        requires { HasKey K.eq self.old key position }
        ensures replaces { Replaces K.eq self.old self.new position key value result }
        ensures lawful { IsShard ⟦<Self as Keyed>⟧.by self.new }
    {
        self.table.exchange(position, key, value)
    }

    /// The lowest taken slot not below `position`, for `at`: a walk over the pairs goes on behind it. There is a number above it.
    #[inline]
    pub fn next_taken(&self, position: usize) -> Option<usize>
        ensures next { IsNextTaken self.now.slots position result }
        ensures below { IfSome result (λ i. i < 2 ^ 64 - 1) }
        ensures lawful { IsShard ⟦<Self as Keyed>⟧.by self.now }
    {
        self.table.next_taken(position)
    }
    /// A cursor before the first slot.
    #[inline]
    pub fn cursor(&self) -> Cursor
        ensures first { result.position ≡ 0 }
        ensures cursor { IsSlotCursor self.now.slots result }
    {
        self.table.cursor()
    }

    /// As `next_taken`, by a cursor, which looks at the tags of four groups at once.
    #[inline(always)]
    pub fn advance(&self, cursor: &mut Cursor) -> Option<usize>
        requires { IsSlotCursor self.now.slots cursor.old }
        ensures advances { Advances self.now.slots cursor.old result cursor.new }
        ensures lawful { IsShard ⟦<Self as Keyed>⟧.by self.now }
    {
        self.table.advance(cursor)
    }
}
