//! Calls of threads on a map that they share. A keyed call takes its shard's lock, `len` and its kin take all, one after the other, and
//! `iter` and `try_reserve` take none.
ghost use Rattle.std.specs.Prelude.{◌≡◌, ◌<◌, ◌==◌, length, Option, IsTrue, IfSome, is_some};
ghost use Rattle.std.specs.Option.{option_map};
ghost use Rattle.std.specs.Map.Iter.{deref_pair};
ghost use Rattle.dash_map.specs.Words.{AltersBy, Answered, ChangesOn, FitsTag, FoundBehind, Given, Inserts, IsGot, IsGotMut, IsHashOf, IsShard, IsShardOf, LeavesShard, MayAsk, MayChange, MayGive, Relocks, RemoveIf, RemoveIfMut, Removes, RemovesBy, ReservesAlone, SawAt, SawShards, ShardState, Viewed, at, at_named, at_start, contents, hash_of, len_in, pairs, room_in, route_by, route_of_hash, shape};

use crate::iter::Iter;
use crate::map::DashMap;
use core::mem::replace_with;
use dash_ref::held::{IntoShard, ShardMut};
use dash_ref::mapref::one::{Ref, RefMut};
use dash_shard::error::TryReserveError;
use dash_shard::keyed::Keyed;
use dash_shard::lock::{RwLock, RwLockReadGuard};
use dash_shard::query::Query;
use dash_shard::shard::{InsertRefused, Shard};
use std::hash::{BuildHasher, Hash};
use std::rt::Clock;
use std::sync::Wait;

mod all_pairs;
mod entries;
mod tries;

// The pair of a held shard whose key equals `key`, by the key's hash.
#[inline]
fn find<'s, K: Eq + Hash, V, S: BuildHasher, Q: Query<K>>(
    shard: &'s Shard<K, V, S>,
    hash: u64,
    key: Q,
) -> Option<(&'s K, &'s V)>
    requires { IsHashOf ⟦<DashMap<K, V, S> as Keyed>⟧.by shard.now.hasher (Q.names key) hash }
    ensures pair { option_map deref_pair result ≡ at_named (Q.names key) (pairs shard.now) }
    ensures equal { IfSome result (λ p. IsTrue (Q.names key p.0.now)) }
    ensures lawful { IsShard ⟦<DashMap<K, V, S> as Keyed>⟧.by shard.now }
{
    let position = shard.position_of_hashed(hash, key)?;
    Some(shard.at(position))
}

impl<K: Eq + Hash, V, S: BuildHasher> DashMap<K, V, S> {
    // The key's hash, and the number of the shard that it goes to.
    #[inline]
    fn route_of<Q: Query<K>>(&self, key: Q) -> (u64, usize)
        ensures hash { result.0 ≡ hash_of S.BuildHasher S.Hasher.Hasher self.now.hasher (Q.hash_input key) }
        ensures route { result.1 ≡ route_of_hash self.now.amount (hash_of S.BuildHasher S.Hasher.Hasher self.now.hasher (Q.hash_input key)) }
        ensures hashed { IsHashOf ⟦<Self as Keyed>⟧.by self.now.hasher (Q.names key) result.0 }
        ensures routed { (k : K) → IsTrue (Q.names key k) → result.1 ≡ route_by ⟦<Self as Keyed>⟧.by self.now.hasher self.now.amount k }
        ensures below { result.1 < self.now.amount }
    {
        let hash = self.hash_usize(&key);
        (hash as u64, self.determine_shard(hash))
    }

    // The lock of a shard. Keyed calls wait for it themselves: each level of calls that may wait costs a test.
    #[inline(always)]
    fn lock_of(&self, shard: usize) -> &RwLock<Shard<K, V, S>>
        requires { shard < self.now.amount }
        ensures { (tag : _) (s : ShardState K V S) → tag ≡ result.now.tag → FitsTag ⟦<Self as Keyed>⟧.by tag s
            → IsShardOf ⟦<Self as Keyed>⟧.by self.now shard s }
    {
        &self.row[shard]
    }

    /// Waits until no writer has the shard, and holds it for reading.
    #[inline]
    pub(crate) fn read_shard<R: Wait + Clock>(
        &self,
        rt: &R,
        shard: usize,
    ) -> RwLockReadGuard<'_, Shard<K, V, S>>
        requires { shard < self.now.amount }
        ensures tagged { IsShardOf ⟦<Self as Keyed>⟧.by self.now shard result.value }
        ensures found { FoundBehind result.value }
    {
        self.lock_of(shard).read(rt)
    }

    /// Waits until nobody has the shard, and holds it for writing. The original lends the row of locks.
    #[inline]
    pub fn shards_mut<R: Wait + Clock>(&self, rt: &R, shard: usize) -> ShardMut<'_, K, V, S>
        requires { shard < self.now.amount }
        ensures tagged { IsShardOf ⟦<Self as Keyed>⟧.by self.now shard result }
        ensures found { FoundBehind result }
    {
        self.lock_of(shard).write(rt).shard()
    }

    /// Puts the pair, or where an equal key is there the value under the stored key, and returns the old value. Waits for the key's
    /// shard.
    ///
    /// Takes memory for a new key where its shard is full, and is refused (1) only then.
    #[inline(always)]
    pub fn insert<R: Wait + Clock>(
        &self,
        rt: &R,
        key: K,
        value: V,
    ) -> Result<Option<V>, InsertRefused<K, V>>
    where
        K: Drop,
        V: Drop,
        ensures { LeavesShard ⟦<Self as Keyed>⟧.by self.now key (λ s t. Inserts K.eq s t key value result) }
    {
        let (hash, idx) = self.route_of(&key);
        let mut shard = self.lock_of(idx).write(rt).shard();
        shard.insert_hashed(hash, key, value)
    }

    /// Takes the pair whose key equals `key` out, and returns it. Waits for the key's shard. It takes no memory.
    #[inline]
    pub fn remove<R: Wait + Clock, Q: Query<K>>(&self, rt: &R, key: Q) -> Option<(K, V)>
        ensures equal { IfSome result (λ pair. IsTrue (Q.names key pair.0)) }
        ensures leaves { Removes ⟦<Self as Keyed>⟧.by self.now (Q.names key) result }
    {
        let (hash, idx) = self.route_of(key);
        let mut shard = self.lock_of(idx).write(rt).shard();
        shard.remove_hashed(hash, key)
    }

    /// A walk over the pairs, by rising shard. This call waits for nobody and takes no memory; the walk's steps do both.
    #[inline]
    pub fn iter<'a, R>(&'a self, rt: &'a R) -> Iter<'a, K, V, S, R>
        ensures { result ≡ at_start self.now }
    {
        Iter::new(self, rt)
    }

    /// The pair whose key equals `key`, with a hold of its shard for reading. Waits until no writer has the shard.
    ///
    /// Till the reference is dropped, whoever wants to write the shard waits; in the same thread that is a deadlock. It takes no memory.
    #[inline(always)]
    pub fn get<R: Wait + Clock, Q: Query<K>>(&self, rt: &R, key: Q) -> Option<Ref<'_, K, V, S>>
        ensures { IsGot ⟦<Self as Keyed>⟧.by self.now (Q.names key) result }
    {
        let (hash, idx) = self.route_of(key);
        Ref::find(self.lock_of(idx).read(rt), hash, key)
    }

    /// The pair whose key equals `key`, with a hold of its shard for writing. Waits until nobody has the shard.
    ///
    /// Till the reference is dropped, whoever wants the shard waits; in the same thread that is a deadlock. It takes no memory.
    #[inline(always)]
    pub fn get_mut<R: Wait + Clock, Q: Query<K>>(
        &self,
        rt: &R,
        key: Q,
    ) -> Option<RefMut<'_, K, V, S>>
        ensures { IsGotMut ⟦<Self as Keyed>⟧.by self.now (Q.names key) result }
    {
        let (hash, idx) = self.route_of(key);
        RefMut::find(self.lock_of(idx).write(rt).shard(), hash, key)
    }

    /// Takes the pair whose key equals `key` out if `f` returns true on it, and returns it. Waits for the key's shard. It takes no memory.
    ///
    /// The shard is held while `f` runs.
    #[inline]
    pub fn remove_if<R: Wait + Clock, Q: Query<K>, F: FnOnce(&K, &V) -> bool>(
        &self,
        rt: &R,
        key: Q,
        f: F,
    ) -> Option<(K, V)>
        requires { (p : K × V) → IsTrue (Q.names key p.0) → MayAsk F.FnOnce f p }
        ensures { RemovesBy ⟦<Self as Keyed>⟧.by self.now RemoveIf (Q.names key) result (Answered F.FnOnce f) }
    {
        let (hash, idx) = self.route_of(key);
        let mut shard = self.lock_of(idx).write(rt).shard();
        shard.remove_if_hashed(hash, key, f)
    }

    /// As `remove_if`, where `f` may write the value. On `true` the pair is returned as `f` left it, and on `false` it stays so. Waits for the
    /// key's shard. It takes no memory.
    ///
    /// The shard is held while `f` runs: a call of this map from `f` on a key of that shard deadlocks.
    #[inline]
    pub fn remove_if_mut<R: Wait + Clock, Q: Query<K>, F: FnOnce(&K, &mut V) -> bool>(
        &self,
        rt: &R,
        key: Q,
        f: F,
    ) -> Option<(K, V)>
        requires { (p : K × V) → IsTrue (Q.names key p.0) → MayChange F.FnOnce f p }
        ensures { RemovesBy ⟦<Self as Keyed>⟧.by self.now RemoveIfMut (Q.names key) result (ChangesOn F.FnOnce f) }
    {
        let (hash, idx) = self.route_of(key);
        let mut shard = self.lock_of(idx).write(rt).shard();
        shard.remove_if_mut_hashed(hash, key, f)
    }

    /// What `f` returns on the pair whose key equals `key`. Waits until no writer has the key's shard. It takes no memory.
    ///
    /// The shard is held for reading while `f` runs.
    #[inline]
    pub fn view<R: Wait + Clock, Q: Query<K>, T, F: FnOnce(&K, &V) -> T>(
        &self,
        rt: &R,
        key: Q,
        f: F,
    ) -> Option<T>
        requires { (p : K × V) → IsTrue (Q.names key p.0) → MayAsk F.FnOnce f p }
        ensures { SawAt ⟦<Self as Keyed>⟧.by self.now (Q.names key) (λ p. Viewed F.FnOnce f p result) }
    {
        let (hash, idx) = self.route_of(key);
        let guard = self.lock_of(idx).read(rt);
        let (key, value) = find(&guard, hash, key)?;
        Some(f(key, value))
    }

    /// Gives the pair whose key equals `key` the value that `f` makes of its own; without such a pair it does nothing. Waits for the
    /// key's shard. It takes no memory.
    ///
    /// The shard is held while `f` runs: a call of this map from `f` on a key of that shard deadlocks.
    #[inline]
    pub fn alter<R: Wait + Clock, Q: Query<K>, F: FnOnce(&K, V) -> V>(&self, rt: &R, key: Q, f: F)
        requires { (p : K × V) → IsTrue (Q.names key p.0) → MayGive F.FnOnce f p }
        ensures { AltersBy ⟦<Self as Keyed>⟧.by self.now (Q.names key) (Given F.FnOnce f) }
    {
        let (hash, idx) = self.route_of(key);
        let mut shard = self.lock_of(idx).write(rt).shard();
        shard.alter_hashed(hash, key, f);
    }

    /// Whether there is a pair whose key equals `key`. Waits until no writer has the key's shard. It takes no memory.
    #[inline(always)]
    pub fn contains_key<R: Wait + Clock, Q: Query<K>>(&self, rt: &R, key: Q) -> bool
        ensures { SawAt {V = V} ⟦<Self as Keyed>⟧.by self.now (Q.names key) (λ p. result ≡ is_some p) }
    {
        let (hash, idx) = self.route_of(key);
        let guard = self.lock_of(idx).read(rt);
        find(&guard, hash, key).is_some()
    }

    /// How many pairs there are, saturating at 2^64 - 1. Waits until no writer has a shard, for one shard after the other: others may
    /// change those that it asked before. It takes no memory.
    pub fn len<R: Wait + Clock>(&self, rt: &R) -> usize
        ensures { SawShards {V = V} ⟦<Self as Keyed>⟧.by self.now (λ a. result ≡ len_in a) }
    {
        let mut len: usize = 0;
        for idx in 0..self.row.len() {
            let shard = self.read_shard(rt, idx);
            len = len.saturating_add(shard.len());
        }
        len
    }

    /// Whether there are no pairs. It waits as `len` does.
    pub fn is_empty<R: Wait + Clock>(&self, rt: &R) -> bool
        ensures { SawShards {V = V} ⟦<Self as Keyed>⟧.by self.now (λ a. result ≡ (length (contents a) == 0)) }
    {
        self.len(rt) == 0
    }

    /// How many pairs there may be before some shard takes memory, if they spread as the shards' room does, saturating at 2^64 - 1. It
    /// waits as `len` does.
    pub fn capacity<R: Wait + Clock>(&self, rt: &R) -> usize
        ensures { SawShards {V = V} ⟦<Self as Keyed>⟧.by self.now (λ a. result ≡ room_in a) }
    {
        let mut capacity: usize = 0;
        for idx in 0..self.row.len() {
            let shard = self.read_shard(rt, idx);
            capacity = capacity.saturating_add(shard.capacity());
        }
        capacity
    }

    /// As `Alone::try_reserve`, on this map, which nobody else has: room in each shard for so many pairs more. It waits for nobody, even
    /// where a hold was leaked.
    ///
    /// The shards leave their locks for it and go back, which takes no memory.
    pub fn try_reserve(&mut self, additional: usize) -> Result<(), TryReserveError>
    where
        K: Drop,
        V: Drop,
        ensures reserves { Relocks ⟦<Self as Keyed>⟧.by self.old self.new (λ old new. ReservesAlone K.eq additional old new result) }
        ensures same { shape self.new ≡ shape self.old }
    {
        replace_with(self, additional, Self::try_reserve_alone)
    }

    // Makes the room, and the map after it.
    fn try_reserve_alone(self, additional: usize) -> (Self, Result<(), TryReserveError>)
    where
        K: Drop,
        V: Drop,
        ensures reserves { Relocks ⟦<Self as Keyed>⟧.by self result.0 (λ old new. ReservesAlone K.eq additional old new result.1) }
        ensures same { shape result.0 ≡ shape self }
    {
        let mut alone = self.alone();
        let made = alone.try_reserve(additional);
        (alone.end(), made)
    }
}
