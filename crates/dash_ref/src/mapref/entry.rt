//! A key of a map, with what stands there.
ghost use Rattle.std.specs.Prelude.{◌≡◌, IsOk, IfOk, IfErr, OnErr, MatchResult, Some, ⊤};
ghost use Rattle.std.specs.Option.{option_map};
ghost use Rattle.std.specs.Fn.{FnOnceReturnsAtMut};
ghost use Rattle.dash_ref.specs.Words.{IsEntryOf, IsShard, LeftBehind, MatchEntry, MayModify, Modified, Puts, PutsCopy, Routes, by, entry_shard, revalued, rewritten, stored};

use crate::held::ShardMut;
use crate::mapref::one::RefMut;
use dash_shard::hash::FixedState;
use dash_shard::keyed::Keyed;
use dash_steps::kept::KeptKey;
pub use occupied::OccupiedEntry;
use std::alloc::AllocError;
use std::fmt::{self, Debug};
use std::hash::{BuildHasher, Hash};
use thiserror::Error;
pub use vacant::VacantEntry;

mod occupied;
mod vacant;

/// What stands at a key: a pair with an equal key, or none.
#[derive(Drop)]
pub enum EntryCase<O, V> {
    /// A pair with an equal key stands there.
    Occupied(O),
    /// There is none.
    Vacant(V),
}

/// A key and a hold of its shard for writing, with the pair that stands there or with room for one, as the original's `Entry`.
///
/// No call of it takes memory or waits, nor does the drop, which ends the hold.
pub type Entry<'a, K, V, S = FixedState> = EntryCase<
    OccupiedEntry<'a, K, V, S>,
    VacantEntry<'a, K, V, S>,
>;

/// No room for the pair of a vacant key (2), which comes back. The pairs are as they were, and the hold is over.
#[derive(Debug, Drop, Error)]
#[error_bound(K: Debug)]
#[error("no memory for the pair of a vacant key")]
pub struct EntryRefused<K> {
    pub key: K,
}

/// So that `map.entry(rt, key)?` converts. The key is dropped.
impl<K: Drop> From<EntryRefused<K>> for AllocError {
    fn from(_: EntryRefused<K>) -> Self {
        AllocError
    }
}

/// No memory for the copy of a vacant key (3). The pairs are as they were, and the entry goes on.
#[derive(Drop, Error)]
#[error("no memory for the copy of a vacant key")]
pub struct InsertEntryRefused<'a, K: Eq + Hash, V, S: BuildHasher = FixedState> {
    pub entry: VacantEntry<'a, K, V, S>,
    pub value: V,
}

impl<K: Eq + Hash, V, S: BuildHasher> Debug for InsertEntryRefused<'_, K, V, S> {
    fn fmt<W: fmt::Write>(&self, f: &mut fmt::Formatter<W>) -> fmt::Result {
        f.write_str("InsertEntryRefused { .. }")
    }
}

/// So that `vacant.insert_entry(value)?` converts. The value is dropped, and the entry too, which ends the hold.
impl<K: Eq + Hash + Drop, V: Drop, S: BuildHasher> From<InsertEntryRefused<'_, K, V, S>>
    for AllocError {
    fn from(_: InsertEntryRefused<'_, K, V, S>) -> Self {
        AllocError
    }
}

/// Why an entry wasn't had without waiting. The key comes back, and the pairs are as they were.
#[derive(Debug, Drop, Error)]
#[error_bound(K: Debug)]
pub enum TryEntryRefused<K> {
    /// The key's shard wasn't got (9), which says nothing of who has it.
    #[error("locked")]
    Locked(K),
    /// No room for the pair of a vacant key (10).
    #[error("no memory for the pair of a vacant key")]
    Memory(K),
}

impl<K: Eq + Hash, V, S: BuildHasher> Keyed for Entry<'_, K, V, S> {
    type Key = K;

    type State = S;

    ghost by = { by K.Hash S.BuildHasher S.Hasher.Hasher };
}

impl<'a, K: Eq + Hash + Drop, V: Drop, S: BuildHasher> Entry<'a, K, V, S> {
    /// The entry of a key that goes to the held shard, for a caller who has the key's hash. It makes one look-up.
    /// For the crates here alone.
    ///
    /// It takes memory for a vacant key where the shard is full, and is refused (2) only for want of it.
    #[inline]
    pub fn find(
        mut shard: ShardMut<'a, K, V, S>,
        hash: u64,
        key: K,
    ) -> Result<Entry<'a, K, V, S>, EntryRefused<K>>
        requires hash { hash ≡ ⟦<Self as Keyed>⟧.by.hash shard.hasher key }
        requires route { Routes ⟦<Self as Keyed>⟧.by shard key }
        ensures case { IsEntryOf K.eq shard.entry key result }
        ensures routes { IfOk result (λ e. Routes ⟦<Self as Keyed>⟧.by (entry_shard e) key) }
        ensures lawful { IfOk result (λ e. IsShard ⟦<Self as Keyed>⟧.by (entry_shard e)) }
    {
        match shard.find_or_place(hash, &key) {
            Ok(position) => Ok(Entry::Occupied(OccupiedEntry::new(shard, position, key))),
            Err(place) => match shard.make_place(hash, place) {
                Ok(place) => Ok(Entry::Vacant(VacantEntry::new(shard, hash, place, key))),
                Err(_) => Err(EntryRefused { key }),
            },
        }
    }

    /// Changes the stored value by `f`, where there is one.
    #[inline]
    pub fn and_modify<F: FnOnce(&mut V) + Drop>(self, f: F) -> Self
        requires { MatchEntry self (λ o. MayModify F.FnOnce f o) (λ _. ⊤) }
        ensures { MatchEntry self.entry
            (λ o. MatchEntry result (Modified (λ v w. FnOnceReturnsAtMut F.FnOnce f v tt w) o) (λ _. ⊥))
            (λ v. MatchEntry result (λ _. ⊥) (λ w. w ≡ v)) }
    {
        match self {
            Entry::Occupied(mut entry) => {
                entry.modify(f);
                Entry::Occupied(entry)
            }
            Entry::Vacant(entry) => Entry::Vacant(entry),
        }
    }

    /// The stored key, or the one that was handed in where there is no pair.
    #[inline]
    pub fn key(&self) -> &K
        ensures { MatchEntry self.now (λ o. option_map (λ p. p.0) (stored o.pair) ≡ Some result.now) (λ v. result.now ≡ v.key) }
    {
        match self {
            Entry::Occupied(entry) => entry.key(),
            Entry::Vacant(entry) => entry.key(),
        }
    }

    /// The key that was handed in.
    #[inline]
    pub fn into_key(self) -> K
        ensures key { MatchEntry self.entry (λ o. result ≡ o.key) (λ v. result ≡ v.key) }
        ensures left { LeftBehind (entry_shard self.entry) }
    {
        match self {
            Entry::Occupied(entry) => entry.into_key(),
            Entry::Vacant(entry) => entry.into_key(),
        }
    }

    /// The stored pair, or the pair of the key and the default value, which it puts.
    #[inline]
    pub fn or_default(self) -> RefMut<'a, K, V, S>
    where
        V: Default,
        ensures { MatchEntry self.entry (λ o. result ≡ o.pair) (λ v. (w : V) × V.is_default w × Puts K.eq v.shard v.key w result) }
    {
        match self {
            Entry::Occupied(entry) => entry.into_ref(),
            Entry::Vacant(entry) => entry.insert(V::default()),
        }
    }

    /// The stored pair, or the pair of the key and `value`, which it puts.
    #[inline]
    pub fn or_insert(self, value: V) -> RefMut<'a, K, V, S>
        ensures { MatchEntry self.entry (λ o. result ≡ o.pair) (λ v. Puts K.eq v.shard v.key value result) }
    {
        match self {
            Entry::Occupied(occupied) => occupied.into_ref(),
            Entry::Vacant(vacant) => vacant.insert(value),
        }
    }

    /// The stored pair, or the pair of the key and what `value` returns, which it puts. `value` runs only then, while the shard is held.
    #[inline]
    pub fn or_insert_with<F: FnOnce() -> V + Drop>(self, value: F) -> RefMut<'a, K, V, S>
        requires { MatchEntry self (λ _. ⊤) (λ _. F.pre value) }
        ensures { MatchEntry self.entry (λ o. result ≡ o.pair) (λ v. (w : V) × F.post value w × Puts K.eq v.shard v.key w result) }
    {
        match self {
            Entry::Occupied(entry) => entry.into_ref(),
            Entry::Vacant(entry) => entry.insert(value()),
        }
    }

    /// As `or_insert_with`, where `value` may refuse: its Err is handed on, the pairs stay, and the hold ends.
    #[inline]
    pub fn or_try_insert_with<E, F: FnOnce() -> Result<V, E> + Drop>(
        self,
        value: F,
    ) -> Result<RefMut<'a, K, V, S>, E>
        requires { MatchEntry self (λ _. ⊤) (λ _. F.pre value) }
        ensures { MatchEntry self.entry
            (λ o. IfOk result (λ r. r ≡ o.pair) × IsOk result)
            (λ v. MatchResult result (λ r. (w : V) × F.post value (Ok w) × Puts K.eq v.shard v.key w r) (λ e. F.post value (Err e) × LeftBehind v.shard)) }
    {
        match self {
            Entry::Occupied(entry) => Ok(entry.into_ref()),
            Entry::Vacant(entry) => Ok(entry.insert(value()?)),
        }
    }

    /// Puts the value, under the stored key where there is one.
    #[inline]
    pub fn insert(self, value: V) -> RefMut<'a, K, V, S>
        ensures { MatchEntry self.entry (λ o. result ≡ rewritten o.pair value) (λ v. Puts K.eq v.shard v.key value result) }
    {
        match self {
            Entry::Occupied(mut entry) => {
                drop(entry.insert(value));
                entry.into_ref()
            }
            Entry::Vacant(entry) => entry.insert(value),
        }
    }

    /// Puts the value, under the stored key or under a copy of the one that was handed in, and returns the pair's entry.
    ///
    /// It takes memory for the copy of a vacant key alone, before anything changes, and is refused (3) only for want of it.
    #[inline]
    pub fn insert_entry(
        self,
        value: V,
    ) -> Result<OccupiedEntry<'a, K, V, S>, InsertEntryRefused<'a, K, V, S>>
    where
        K: KeptKey,
        ensures { MatchEntry self.entry
            (λ o. IfOk result (λ r. r ≡ revalued o value) × IsOk result)
            (λ v. MatchResult result (PutsCopy K.eq K.alike v value) (λ r. (r.entry ≡ v) × (r.value ≡ value))) }
    {
        match self {
            Entry::Occupied(mut entry) => {
                entry.insert(value);
                Ok(entry)
            }
            Entry::Vacant(entry) => entry.insert_entry(value),
        }
    }
}
