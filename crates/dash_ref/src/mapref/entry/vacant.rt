//! A key that has no pair.
ghost use Rattle.std.specs.Prelude.{◌≡◌, ◌<◌, None, IfOk, IfErr};
ghost use Rattle.dash_ref.specs.Words.{LeftBehind, Puts, PutsCopy, Routes, at, by, pairs, shard_len};
ghost use Rattle.dash_shard.specs.inner.Table.{IsPlaceFor};

use super::{InsertEntryRefused, OccupiedEntry};
use crate::held::ShardMut;
use crate::mapref::one::RefMut;
use dash_shard::hash::FixedState;
use dash_shard::keyed::Keyed;
use dash_shard::shard::Place;
use dash_steps::kept::KeptKey;
use std::hash::{BuildHasher, Hash};
use std::marker::Model;

/// A key, and a hold of its shard for writing, which has no pair with an equal key, and room for one: the original's `VacantEntry`.
pub struct VacantEntry<'a, K: Eq + Hash, V, S: BuildHasher = FixedState> {
    shard: ShardMut<'a, K, V, S>,
    key: K,
    // That of the key.
    hash: u64,
    // Where its pair goes.
    place: Place,
}

impl<'a, K: Eq + Hash, V, S: BuildHasher> Model for VacantEntry<'a, K, V, S> {
    ghost use Rattle.dash_shard.specs.Hashing.{key_hash};
    ghost use Rattle.dash_ref.specs.Entry.{VacantState};
    ghost use Rattle.dash_ref.specs.inner.Entries.{vacant_code, IsVacant};

    ghost Value = { VacantState K V S };

    ghost coded = { vacant_code K.code V.code S.code };

    ghost view = { λ e. record { shard = e.shard; key = e.key } };

    ghost invariant = { λ e. IsVacant (key_hash K.eq K.hash_input S.BuildHasher S.Hasher.Hasher) e.shard e.key e.hash e.place };
}

impl<K: Eq + Hash, V, S: BuildHasher> Keyed for VacantEntry<'_, K, V, S> {
    type Key = K;

    type State = S;

    ghost by = { by K.Hash S.BuildHasher S.Hasher.Hasher };
}

impl<K: Eq + Hash + Drop, V, S: BuildHasher> Drop for VacantEntry<'_, K, V, S> {
    #[inline]
    fn drop(self)
        ensures left { LeftBehind self.entry.shard }
    {
        let Self {
            shard,
            key: _,
            hash: _,
            place: _,
        } = self;
        drop(shard);
    }
}

impl<'a, K: Eq + Hash + Drop, V: Drop, S: BuildHasher> VacantEntry<'a, K, V, S> {
    /// The entry of a key that goes to the held shard, which has no equal one, and room, for a caller who has the key's hash and a place
    /// for it.
    #[inline]
    pub(crate) fn new(
        shard: ShardMut<'a, K, V, S>,
        hash: u64,
        place: Place,
        key: K,
    ) -> VacantEntry<'a, K, V, S>
        requires hash { hash ≡ ⟦<Self as Keyed>⟧.by.hash shard.hasher key }
        requires routes { Routes ⟦<Self as Keyed>⟧.by shard key }
        requires absent { at K.eq (pairs shard) key ≡ None }
        requires room { shard_len shard < shard.capacity }
        requires place { IsPlaceFor shard hash place }
        ensures { result ≡ record { shard = shard.entry; key = key } }
    {
        VacantEntry {
            shard,
            key,
            hash,
            place,
        }
    }

    /// Puts the pair of the key and the value. It can't be refused, since the room is there.
    #[inline]
    pub fn insert(self, value: V) -> RefMut<'a, K, V, S>
        ensures { Puts K.eq self.entry.shard self.entry.key value result }
    {
        let Self {
            mut shard,
            key,
            hash,
            place,
        } = self;
        shard.insert_new_at(place, hash, key, value);
        RefMut::new(shard, place.slot)
    }

    /// Puts the pair of a copy of the key and the value, and returns its entry, which keeps the key that was handed in.
    ///
    /// It takes memory for the copy alone, before anything changes, and is refused (3) only for want of it.
    #[inline]
    pub fn insert_entry(
        self,
        value: V,
    ) -> Result<OccupiedEntry<'a, K, V, S>, InsertEntryRefused<'a, K, V, S>>
    where
        K: KeptKey,
        ensures puts { IfOk result (PutsCopy K.eq K.alike self.entry value) }
        ensures refused { IfErr result (λ r. (r.entry ≡ self.entry) × (r.value ≡ value)) }
    {
        let Ok(copy) = self.key.copy() else {
            return Err(InsertEntryRefused { entry: self, value });
        };
        let Self {
            mut shard,
            key,
            hash,
            place,
        } = self;
        shard.insert_new_at(place, hash, copy, value);
        Ok(OccupiedEntry::new(shard, place.slot, key))
    }

    /// The key that was handed in.
    #[inline]
    pub fn into_key(self) -> K
        ensures key { result ≡ self.entry.key }
        ensures left { LeftBehind self.entry.shard }
    {
        let Self {
            shard: _,
            key,
            hash: _,
            place: _,
        } = self;
        key
    }

    /// The key that was handed in.
    #[inline]
    pub fn key(&self) -> &K
        ensures { result.now ≡ self.now.key }
    {
        &self.key
    }
}
