//! One shard: pairs with distinct keys, all routed to the shard's number.
ghost use Rattle.std.specs.Prelude.{◌≡◌, ◌+◌, ◌<◌, ◌≤◌, ◌↔◌, IsTrue, IsOk, IfOk, IfErr, IfSome, is_some, Some, None, if◌then◌else◌};
ghost use Rattle.std.specs.Option.{option_map, option_copied_mut};
ghost use Rattle.std.specs.Map.Iter.{deref_pair};
ghost use Rattle.std.specs.Borrow.{LendsIf, sem};
ghost use Rattle.dash_shard.specs.Words.{Alter, Answered, ChangesOn, Done, Given, Inserts, IsAmount, IsHashOf, IsShard, MayAsk, MayChange, MayGive, Memory, RemoveIf, RemoveIfMut, RemovesNamed, RemovesNamedBy, Reserves, Routes, TakesBy, Viewed, at, at_named, by, hash_of, pairs, route_of_hash, shard_len, with_value_of};

use crate::error::{ConstructError, TryReserveError};
use crate::hash::{FixedState, determine_shard};
use crate::keyed::{Keyed, Lender};
use crate::query::Query;
pub use group::probe;
use std::alloc::{AllocError, Global};
use std::fmt::Debug;
use std::hash::{BuildHasher, Hash};
use std::marker::Model;
use table::Table;
pub use table::cursor::Cursor;
pub use table::walk::{IntoIter, Iter};
pub use table::{Place, Search};
use thiserror::Error;

mod all_pairs;
mod group;
pub mod lanes;
pub mod part;
mod positions;
mod table;
pub mod tag;

/// One shard of a map, as the original's table behind a lock: pairs with distinct keys that all go to the shard's number.
///
/// Calls take amortised constant time where the hasher spreads the keys. A new shard of capacity 0 takes no memory.
pub struct Shard<K: Eq + Hash, V, S: BuildHasher = FixedState> {
    hasher: S,
    number: usize,
    amount: usize,
    table: Table<K, V>,
}

impl<K: Eq + Hash, V, S: BuildHasher> Model for Shard<K, V, S> {
    ghost use Rattle.dash_shard.specs.Shard.{ShardState};
    ghost use Rattle.dash_shard.specs.inner.Codes.{shard_code};
    ghost use Rattle.dash_shard.specs.inner.Table.{IsInside, pairs_in, limit, slots_in};
    ghost use Rattle.dash_shard.specs.Hashing.{key_hash};

    ghost Value = { ShardState K V S };

    ghost coded = { shard_code K.code V.code S.code };

    ghost view = { λ s. record { slots = pairs_in s.table; number = s.number; amount = s.amount; hasher = s.hasher; capacity = limit (slots_in s.table) } };

    ghost invariant = { λ s. IsInside (key_hash K.eq K.hash_input S.BuildHasher S.Hasher.Hasher) s.table (record { slots = pairs_in s.table; number = s.number; amount = s.amount; hasher = s.hasher; capacity = limit (slots_in s.table) }) };
}

impl<K: Eq + Hash + Drop, V: Drop, S: BuildHasher + Drop> Drop for Shard<K, V, S> {
    fn drop(self) {
        let (table, hasher) = self.into_parts();
        table.end();
        drop(hasher);
    }
}

impl<K: Eq + Hash, V, S: BuildHasher> Keyed for Shard<K, V, S> {
    type Key = K;

    type State = S;

    ghost by = { by K.Hash S.BuildHasher S.Hasher.Hasher };
}

impl<K: Eq + Hash, V, S: BuildHasher> Lender for Shard<K, V, S> {
    ghost use Rattle.dash_shard.specs.contracts.shard.Shard.{the_row};

    ghost row = { the_row K.row V.row S.row S.Hasher.row (record { eq = K.eq }) (record { hash_input = K.hash_input }) S.BuildHasher S.Hasher.Hasher };
}

/// No memory for a new key (1). The pair comes back, and the shard or map is as it was.
#[derive(Debug, Drop, Error)]
#[error_bound(K: Debug, V: Debug)]
#[error("no memory for a new key")]
pub struct InsertRefused<K, V> {
    pub key: K,
    pub value: V,
}

/// So that `map.insert(rt, key, value)?` converts. The pair is dropped.
impl<K: Drop, V: Drop> From<InsertRefused<K, V>> for AllocError {
    fn from(_: InsertRefused<K, V>) -> Self {
        AllocError
    }
}

impl<K: Eq + Hash, V, S: BuildHasher> Shard<K, V, S> {
    /// An empty shard with room for `capacity` pairs, the one of this number among `amount`.
    ///
    /// Takes memory, but for a capacity of 0.
    pub fn new(
        alloc: Global,
        hasher: S,
        number: usize,
        amount: usize,
        capacity: usize,
    ) -> Result<Self, ConstructError>
    where
        K: Drop,
        V: Drop,
        S: Drop,
        requires number { number < amount }
        requires amount { IsAmount amount }
        ensures empty { IfOk result (λ s. shard_len s ≡ 0) }
        ensures number { IfOk result (λ s. s.number ≡ number) }
        ensures amount { IfOk result (λ s. s.amount ≡ amount) }
        ensures hasher { IfOk result (λ s. s.hasher ≡ hasher) }
        ensures capacity { IfOk result (λ s. capacity ≤ s.capacity) }
        ensures lawful { IfOk result (IsShard ⟦<Self as Keyed>⟧.by) }
        ensures refused { IfErr result (λ e. e ≡ Memory) }
        ensures free { capacity ≡ 0 → IsOk result }
    {
        match Table::with_capacity(alloc, capacity) {
            Ok(table) => Ok(Shard {
                hasher,
                number,
                amount,
                table,
            }),
            Err(_) => Err(ConstructError::Memory),
        }
    }

    /// The shard's number among the map's shards.
    #[inline]
    pub fn number(&self) -> usize
        ensures number { result ≡ self.now.number }
        ensures lawful { IsShard ⟦<Self as Keyed>⟧.by self.now }
    {
        self.number
    }

    /// How many shards the map has.
    #[inline]
    pub fn amount(&self) -> usize
        ensures amount { result ≡ self.now.amount }
        ensures lawful { IsShard ⟦<Self as Keyed>⟧.by self.now }
    {
        self.amount
    }

    /// Whether the key goes to this shard, which the keyed calls ask.
    #[inline]
    pub fn routes<Q: Query<K>>(&self, key: Q) -> bool
        ensures { IsTrue result ↔ (route_of_hash self.now.amount (hash_of S.BuildHasher S.Hasher.Hasher self.now.hasher (Q.hash_input key)) ≡ self.now.number) }
    {
        determine_shard(self.hash_one(key), self.amount) == self.number
    }

    /// The hasher, for calls that take the key's hash.
    #[inline]
    pub fn hasher(&self) -> &S
        ensures { result.now ≡ self.now.hasher }
    {
        &self.hasher
    }

    /// The allocator of the slots. For the crates here alone.
    #[inline]
    pub fn allocator(&self) -> Global {
        self.table.allocator()
    }

    /// The hash of a key, by the shard's hasher, for the calls that take one.
    #[inline(always)]
    pub fn hash_one<Q: Query<K>>(&self, key: Q) -> u64
        ensures { result ≡ hash_of S.BuildHasher S.Hasher.Hasher self.now.hasher (Q.hash_input key) }
    {
        self.hasher.hash_one(key)
    }

    /// Puts the pair, or where an equal key is there the value under the stored key, and returns the old value.
    ///
    /// Takes memory for a new key where the shard is full, and is refused (1) only then.
    #[inline]
    pub fn insert(&mut self, key: K, value: V) -> Result<Option<V>, InsertRefused<K, V>>
    where
        K: Drop,
        V: Drop,
        requires { Routes ⟦<Self as Keyed>⟧.by self.old key }
        ensures inserts { Inserts K.eq self.old self.new key value result }
        ensures lawful { IsShard ⟦<Self as Keyed>⟧.by self.new }
    {
        let hash = self.hash_one(&key);
        self.insert_hashed(hash, key, value)
    }

    /// As `insert`, for a caller who has the key's hash.
    #[inline(always)]
    pub fn insert_hashed(
        &mut self,
        hash: u64,
        key: K,
        value: V,
    ) -> Result<Option<V>, InsertRefused<K, V>>
    where
        K: Drop,
        V: Drop,
        requires hash { hash ≡ ⟦<Self as Keyed>⟧.by.hash self.old.hasher key }
        requires route { Routes ⟦<Self as Keyed>⟧.by self.old key }
        ensures inserts { Inserts K.eq self.old self.new key value result }
        ensures lawful { IsShard ⟦<Self as Keyed>⟧.by self.new }
    {
        let found = self.find_or_place(hash, &key);
        self.insert_found(hash, key, value, found)
    }

    /// Takes the pair whose key equals `key` out, and returns it. It takes no memory, and can't be refused.
    ///
    /// The room stays, for pairs that come later.
    #[inline]
    pub fn remove<Q: Query<K>>(&mut self, key: Q) -> Option<(K, V)>
        ensures removes { RemovesNamed K.eq (Q.names key) self.old self.new result }
        ensures lawful { IsShard ⟦<Self as Keyed>⟧.by self.new }
    {
        let hash = self.hash_one(key);
        self.remove_hashed(hash, key)
    }

    /// As `remove`, for a caller who has the key's hash.
    #[inline(always)]
    pub fn remove_hashed<Q: Query<K>>(&mut self, hash: u64, key: Q) -> Option<(K, V)>
        requires { IsHashOf ⟦<Self as Keyed>⟧.by self.old.hasher (Q.names key) hash }
        ensures removes { RemovesNamed K.eq (Q.names key) self.old self.new result }
        ensures lawful { IsShard ⟦<Self as Keyed>⟧.by self.new }
    {
        let position = self.position_of_hashed(hash, key)?;
        Some(self.take_at(position, hash))
    }

    /// Takes the pair whose key equals `key` out if `f` returns true on it, and returns it. It takes no memory, and can't be refused.
    #[inline]
    pub fn remove_if<Q: Query<K>, F: FnOnce(&K, &V) -> bool>(
        &mut self,
        key: Q,
        f: F,
    ) -> Option<(K, V)>
        requires callable { IfSome (at_named (Q.names key) (pairs self.old)) (MayAsk F.FnOnce f) }
        ensures removes { RemovesNamedBy K.eq (Q.names key) self.old self.new RemoveIf result (Answered F.FnOnce f) }
        ensures lawful { IsShard ⟦<Self as Keyed>⟧.by self.new }
    {
        let hash = self.hash_one(key);
        self.remove_if_hashed(hash, key, f)
    }

    /// As `remove_if`, for a caller who has the key's hash.
    #[inline]
    pub fn remove_if_hashed<Q: Query<K>, F: FnOnce(&K, &V) -> bool>(
        &mut self,
        hash: u64,
        key: Q,
        f: F,
    ) -> Option<(K, V)>
        requires hash { IsHashOf ⟦<Self as Keyed>⟧.by self.old.hasher (Q.names key) hash }
        requires callable { IfSome (at_named (Q.names key) (pairs self.old)) (MayAsk F.FnOnce f) }
        ensures removes { RemovesNamedBy K.eq (Q.names key) self.old self.new RemoveIf result (Answered F.FnOnce f) }
        ensures lawful { IsShard ⟦<Self as Keyed>⟧.by self.new }
    {
        let slot = self.position_of_hashed(hash, key)?;
        let (stored, value) = self.at(slot);
        if f(stored, value) {
            return Some(self.take_at(slot, hash));
        }
        None
    }

    /// As `remove_if`, where `f` may write the value. On `true` the pair is returned as `f` left it, and on `false` it stays so.
    #[inline]
    pub fn remove_if_mut<Q: Query<K>, F: FnOnce(&K, &mut V) -> bool>(
        &mut self,
        key: Q,
        f: F,
    ) -> Option<(K, V)>
        requires callable { IfSome (at_named (Q.names key) (pairs self.old)) (MayChange F.FnOnce f) }
        ensures removes { RemovesNamedBy K.eq (Q.names key) self.old self.new RemoveIfMut result (ChangesOn F.FnOnce f) }
        ensures lawful { IsShard ⟦<Self as Keyed>⟧.by self.new }
    {
        let hash = self.hash_one(key);
        self.remove_if_mut_hashed(hash, key, f)
    }

    /// As `remove_if_mut`, for a caller who has the key's hash.
    #[inline]
    pub fn remove_if_mut_hashed<Q: Query<K>, F: FnOnce(&K, &mut V) -> bool>(
        &mut self,
        hash: u64,
        key: Q,
        f: F,
    ) -> Option<(K, V)>
        requires hash { IsHashOf ⟦<Self as Keyed>⟧.by self.old.hasher (Q.names key) hash }
        requires callable { IfSome (at_named (Q.names key) (pairs self.old)) (MayChange F.FnOnce f) }
        ensures removes { RemovesNamedBy K.eq (Q.names key) self.old self.new RemoveIfMut result (ChangesOn F.FnOnce f) }
        ensures lawful { IsShard ⟦<Self as Keyed>⟧.by self.new }
    {
        let slot = self.position_of_hashed(hash, key)?;
        let (key, value) = self.table.pair_mut(slot);
        if f(key, value) {
            return Some(self.table.take(slot, hash));
        }
        None
    }

    /// Gives the pair whose key equals `key` the value that `f` makes of its own, in its place; without such a pair it does nothing. It takes
    /// no memory, and can't be refused.
    #[inline]
    pub fn alter<Q: Query<K>, F: FnOnce(&K, V) -> V>(&mut self, key: Q, f: F)
        requires callable { IfSome (at_named (Q.names key) (pairs self.old)) (MayGive F.FnOnce f) }
        ensures alters { TakesBy K.eq self.old self.new Alter (Q.names key) Done (Given F.FnOnce f) }
        ensures len { shard_len self.new ≡ shard_len self.old }
        ensures lawful { IsShard ⟦<Self as Keyed>⟧.by self.new }
    {
        let hash = self.hash_one(key);
        self.alter_hashed(hash, key, f);
    }

    /// As `alter`, for a caller who has the key's hash.
    #[inline]
    pub fn alter_hashed<Q: Query<K>, F: FnOnce(&K, V) -> V>(&mut self, hash: u64, key: Q, f: F)
        requires hash { IsHashOf ⟦<Self as Keyed>⟧.by self.old.hasher (Q.names key) hash }
        requires callable { IfSome (at_named (Q.names key) (pairs self.old)) (MayGive F.FnOnce f) }
        ensures alters { TakesBy K.eq self.old self.new Alter (Q.names key) Done (Given F.FnOnce f) }
        ensures len { shard_len self.new ≡ shard_len self.old }
        ensures lawful { IsShard ⟦<Self as Keyed>⟧.by self.new }
    {
        if let Some(slot) = self.position_of_hashed(hash, key) {
            self.table.alter(slot, f);
        }
    }

    /// The pair whose key equals `key`.
    #[inline]
    pub fn get<Q: Query<K>>(&self, key: Q) -> Option<(&K, &V)>
        ensures pair { option_map deref_pair result ≡ at_named (Q.names key) (pairs self.now) }
        ensures lawful { IsShard ⟦<Self as Keyed>⟧.by self.now }
    {
        let hash = self.hash_one(key);
        self.get_hashed(hash, key)
    }

    /// As `get`, for a caller who has the key's hash.
    #[inline(always)]
    pub fn get_hashed<Q: Query<K>>(&self, hash: u64, key: Q) -> Option<(&K, &V)>
        requires { IsHashOf ⟦<Self as Keyed>⟧.by self.now.hasher (Q.names key) hash }
        ensures pair { option_map deref_pair result ≡ at_named (Q.names key) (pairs self.now) }
        ensures lawful { IsShard ⟦<Self as Keyed>⟧.by self.now }
    {
        let position = self.position_of_hashed(hash, key)?;
        Some(self.at(position))
    }

    /// The value of the pair whose key equals `key`, to be written. For the stored key beside it there are `position_of` and `at_mut`.
    #[inline]
    pub fn get_mut<Q: Query<K>>(&mut self, key: Q) -> Option<&mut V>
        ensures* writes_back { sem 𝓛 (LendsIf ⟦<Self as Lender>⟧.row V.row self.entry result (with_value_of (Q.names key) self.old) self.old) }
        ensures value { option_copied_mut result ≡ option_map (λ p. p.1) (at_named (Q.names key) (pairs self.old)) }
        ensures lawful { IsShard ⟦<Self as Keyed>⟧.by self.old }
    {
        let hash = self.hash_one(key);
        self.get_mut_hashed(hash, key)
    }

    /// As `get_mut`, for a caller who has the key's hash.
    #[inline]
    pub fn get_mut_hashed<Q: Query<K>>(&mut self, hash: u64, key: Q) -> Option<&mut V>
        requires { IsHashOf ⟦<Self as Keyed>⟧.by self.old.hasher (Q.names key) hash }
        ensures* writes_back { sem 𝓛 (LendsIf ⟦<Self as Lender>⟧.row V.row self.entry result (with_value_of (Q.names key) self.old) self.old) }
        ensures value { option_copied_mut result ≡ option_map (λ p. p.1) (at_named (Q.names key) (pairs self.old)) }
        ensures lawful { IsShard ⟦<Self as Keyed>⟧.by self.old }
    {
        match self.position_of_hashed(hash, key) {
            Some(position) => Some(self.at_mut(position).1),
            None => None,
        }
    }

    /// Whether there is a pair whose key equals `key`.
    #[inline]
    pub fn contains_key<Q: Query<K>>(&self, key: Q) -> bool
        ensures found { result ≡ is_some (at_named (Q.names key) (pairs self.now)) }
        ensures lawful { IsShard ⟦<Self as Keyed>⟧.by self.now }
    {
        self.get(key).is_some()
    }

    /// What `f` returns on the pair whose key equals `key`.
    #[inline]
    pub fn view<Q: Query<K>, R, F: FnOnce(&K, &V) -> R>(&self, key: Q, f: F) -> Option<R>
        requires { IfSome (at_named (Q.names key) (pairs self.now)) (MayAsk F.FnOnce f) }
        ensures viewed { Viewed F.FnOnce f (at_named (Q.names key) (pairs self.now)) result }
        ensures lawful { IsShard ⟦<Self as Keyed>⟧.by self.now }
    {
        let slot = self.position_of(key)?;
        let (key, value) = self.at(slot);
        Some(f(key, value))
    }

    /// How many pairs there are.
    #[inline]
    pub fn len(&self) -> usize
        ensures len { result ≡ shard_len self.now }
        ensures within { result ≤ self.now.capacity }
        ensures lawful { IsShard ⟦<Self as Keyed>⟧.by self.now }
    {
        self.table.len()
    }

    /// How many pairs there may be before the shard takes memory.
    #[inline]
    pub fn capacity(&self) -> usize
        ensures { result ≡ self.now.capacity }
    {
        self.table.capacity()
    }

    /// Makes room for so many pairs more, where there is less. It is refused (11) only where there is no memory for it. The pairs stay;
    /// their slots change, unless there was room.
    pub fn try_reserve(&mut self, additional: usize) -> Result<(), TryReserveError>
        ensures reserves { Reserves K.eq additional self.old self.new result }
        ensures lawful { IsShard ⟦<Self as Keyed>⟧.by self.new }
    {
        match self.table.reserve(additional, &self.hasher) {
            Ok(()) => Ok(()),
            Err(_) => Err(TryReserveError {}),
        }
    }
}
