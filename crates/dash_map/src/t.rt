//! The calls of a map that threads share, as a trait: code may be written for any such map.
ghost use Rattle.std.specs.Prelude.{◌≡◌, ◌<◌, ◌==◌, length, IsTrue, IfOk, IfSome, is_some};
ghost use Rattle.std.specs.Map.Calls.{CalledAtPair, TakesPair};
ghost use Rattle.dash_map.specs.Words.{AltersAllAlone, AltersBy, Answered, CallableOnPairs, CalledOnPair, ChangesOn, ClearsAlone, FoundBehind, Given, Inserts, IsGot, IsGotEntry, IsGotMut, IsShardOf, LeavesShard, LeavesShards, MapState, MayAsk, MayChange, MayGive, RemoveIf, RemoveIfMut, Removes, RemovesBy, RetainsAlone, SawAt, SawShards, ShrinksAlone, TakesOnPair, UnlessLocked, UnlessLockedOut, Viewed, at_start, contents, len_in, room_in};

use crate::iter::{Iter, IterMut};
use crate::map::DashMap;
use dash_ref::held::ShardMut;
use dash_ref::mapref::entry::{Entry, EntryRefused, TryEntryRefused};
use dash_ref::mapref::one::{Ref, RefMut};
use dash_ref::try_result::TryResult;
use dash_shard::keyed::Keyed;
use dash_shard::lock::RwLockReadGuard;
use dash_shard::query::Query;
use dash_shard::shard::{InsertRefused, Shard};
use std::alloc::AllocError;
use std::hash::{BuildHasher, Hash};
use std::rt::Clock;
use std::sync::Wait;

/// A map that threads share, for code that is generic in it: the original's `Map`.
///
/// Each call does what that of `DashMap` does whose name it has after its underscore.
pub trait Map<K: Eq + Hash, V, S: BuildHasher> {
    // What contracts see of the map.
    ghost state: { Self → MapState K V S };

    /// The number of the shards.
    fn _shard_count(&self) -> usize
        ensures { result ≡ (state self.now).amount };

    /// Waits until no writer has the shard, and holds it for reading.
    fn _yield_read_shard<R: Wait + Clock>(
        &self,
        rt: &R,
        shard: usize,
    ) -> RwLockReadGuard<'_, Shard<K, V, S>>
        requires { shard < (state self.now).amount }
        ensures tagged { IsShardOf ⟦<DashMap<K, V, S> as Keyed>⟧.by (state self.now) shard result.value }
        ensures found { FoundBehind result.value };

    /// As `DashMap::shards_mut`.
    fn _yield_write_shard<R: Wait + Clock>(&self, rt: &R, shard: usize) -> ShardMut<'_, K, V, S>
        requires { shard < (state self.now).amount }
        ensures tagged { IsShardOf ⟦<DashMap<K, V, S> as Keyed>⟧.by (state self.now) shard result }
        ensures found { FoundBehind result };

    /// As `_yield_read_shard`, for a caller who waits for nobody: none where `RwLock::try_read` doesn't get the shard.
    fn _try_yield_read_shard(&self, shard: usize) -> Option<RwLockReadGuard<'_, Shard<K, V, S>>>
        requires { shard < (state self.now).amount }
        ensures tagged { IfSome result (λ r. IsShardOf ⟦<DashMap<K, V, S> as Keyed>⟧.by (state self.now) shard r.value) }
        ensures found { IfSome result (λ r. FoundBehind r.value) };

    /// As `_yield_write_shard`, for a caller who waits for nobody: none where `RwLock::try_write` doesn't get the shard.
    fn _try_yield_write_shard(&self, shard: usize) -> Option<ShardMut<'_, K, V, S>>
        requires { shard < (state self.now).amount }
        ensures tagged { IfSome result (IsShardOf ⟦<DashMap<K, V, S> as Keyed>⟧.by (state self.now) shard) }
        ensures found { IfSome result FoundBehind };

    /// As `DashMap::insert`.
    fn _insert<R: Wait + Clock>(
        &self,
        rt: &R,
        key: K,
        value: V,
    ) -> Result<Option<V>, InsertRefused<K, V>>
    where
        K: Drop,
        V: Drop,
        ensures { LeavesShard ⟦<DashMap<K, V, S> as Keyed>⟧.by (state self.now) key (λ s t. Inserts K.eq s t key value result) };

    /// As `DashMap::remove`.
    fn _remove<R: Wait + Clock, Q: Query<K>>(&self, rt: &R, key: Q) -> Option<(K, V)>
        ensures equal { IfSome result (λ pair. IsTrue (Q.names key pair.0)) }
        ensures leaves { Removes ⟦<DashMap<K, V, S> as Keyed>⟧.by (state self.now) (Q.names key) result };

    /// As `DashMap::remove_if`.
    fn _remove_if<R: Wait + Clock, Q: Query<K>, F: FnOnce(&K, &V) -> bool>(
        &self,
        rt: &R,
        key: Q,
        f: F,
    ) -> Option<(K, V)>
        requires { (p : K × V) → IsTrue (Q.names key p.0) → MayAsk F.FnOnce f p }
        ensures { RemovesBy ⟦<DashMap<K, V, S> as Keyed>⟧.by (state self.now) RemoveIf (Q.names key) result (Answered F.FnOnce f) };

    /// As `DashMap::remove_if_mut`.
    fn _remove_if_mut<R: Wait + Clock, Q: Query<K>, F: FnOnce(&K, &mut V) -> bool>(
        &self,
        rt: &R,
        key: Q,
        f: F,
    ) -> Option<(K, V)>
        requires { (p : K × V) → IsTrue (Q.names key p.0) → MayChange F.FnOnce f p }
        ensures { RemovesBy ⟦<DashMap<K, V, S> as Keyed>⟧.by (state self.now) RemoveIfMut (Q.names key) result (ChangesOn F.FnOnce f) };

    /// As `DashMap::iter`.
    fn _iter<'a, R>(&'a self, rt: &'a R) -> Iter<'a, K, V, S, R>
        ensures { result ≡ at_start (state self.now) };

    /// As `DashMap::iter_mut`.
    fn _iter_mut<'a, 'r, R>(&'a self, rt: &'r R) -> IterMut<'a, 'r, K, V, S, R>
        ensures { result ≡ at_start (state self.now) };

    /// As `DashMap::get`.
    fn _get<R: Wait + Clock, Q: Query<K>>(&self, rt: &R, key: Q) -> Option<Ref<'_, K, V, S>>
        ensures { IsGot ⟦<DashMap<K, V, S> as Keyed>⟧.by (state self.now) (Q.names key) result };

    /// As `DashMap::get_mut`.
    fn _get_mut<R: Wait + Clock, Q: Query<K>>(&self, rt: &R, key: Q) -> Option<RefMut<'_, K, V, S>>
        ensures { IsGotMut ⟦<DashMap<K, V, S> as Keyed>⟧.by (state self.now) (Q.names key) result };

    /// As `DashMap::try_get`.
    fn _try_get<Q: Query<K>>(&self, key: Q) -> TryResult<Ref<'_, K, V, S>>
        ensures { UnlessLocked result (IsGot ⟦<DashMap<K, V, S> as Keyed>⟧.by (state self.now) (Q.names key)) };

    /// As `DashMap::try_get_mut`.
    fn _try_get_mut<Q: Query<K>>(&self, key: Q) -> TryResult<RefMut<'_, K, V, S>>
        ensures { UnlessLocked result (IsGotMut ⟦<DashMap<K, V, S> as Keyed>⟧.by (state self.now) (Q.names key)) };

    /// As `DashMap::entry`.
    fn _entry<R: Wait + Clock>(&self, rt: &R, key: K) -> Result<Entry<'_, K, V, S>, EntryRefused<K>>
    where
        K: Drop,
        V: Drop,
        ensures { IsGotEntry ⟦<DashMap<K, V, S> as Keyed>⟧.by (state self.now) key result };

    /// As `DashMap::try_entry`.
    fn _try_entry(&self, key: K) -> Result<Entry<'_, K, V, S>, TryEntryRefused<K>>
    where
        K: Drop,
        V: Drop,
        ensures { UnlessLockedOut key result (IsGotEntry ⟦<DashMap<K, V, S> as Keyed>⟧.by (state self.now) key) };

    /// As `DashMap::shrink_to_fit`.
    fn _shrink_to_fit<R: Wait + Clock>(&self, rt: &R)
    where
        K: Drop,
        V: Drop,
        ensures { LeavesShards {V = V} ⟦<DashMap<K, V, S> as Keyed>⟧.by (state self.now) (ShrinksAlone K.eq) };

    /// As `DashMap::retain`.
    fn _retain<R: Wait + Clock, F: FnMut(&K, &mut V) -> bool>(&self, rt: &R, f: F)
    where
        K: Drop,
        V: Drop,
        requires { CallableOnPairs (CalledAtPair F.FnMut) (TakesPair F.FnMut) f }
        ensures { LeavesShards ⟦<DashMap<K, V, S> as Keyed>⟧.by (state self.now) (RetainsAlone K.eq (CalledAtPair F.FnMut) f) };

    /// As `DashMap::len`.
    fn _len<R: Wait + Clock>(&self, rt: &R) -> usize
        ensures { SawShards {V = V} ⟦<DashMap<K, V, S> as Keyed>⟧.by (state self.now) (λ a. result ≡ len_in a) };

    /// As `DashMap::capacity`.
    fn _capacity<R: Wait + Clock>(&self, rt: &R) -> usize
        ensures { SawShards {V = V} ⟦<DashMap<K, V, S> as Keyed>⟧.by (state self.now) (λ a. result ≡ room_in a) };

    /// As `DashMap::alter`.
    fn _alter<R: Wait + Clock, Q: Query<K>, F: FnOnce(&K, V) -> V>(&self, rt: &R, key: Q, f: F)
        requires { (p : K × V) → IsTrue (Q.names key p.0) → MayGive F.FnOnce f p }
        ensures { AltersBy ⟦<DashMap<K, V, S> as Keyed>⟧.by (state self.now) (Q.names key) (Given F.FnOnce f) };

    /// As `DashMap::alter_all`.
    fn _alter_all<R: Wait + Clock, F: FnMut(&K, V) -> V>(&self, rt: &R, f: F)
        requires { CallableOnPairs (CalledOnPair F.FnMut) (TakesOnPair F.FnMut) f }
        ensures { LeavesShards ⟦<DashMap<K, V, S> as Keyed>⟧.by (state self.now) (AltersAllAlone K.eq (CalledOnPair F.FnMut) f) };

    /// As `DashMap::view`.
    fn _view<R: Wait + Clock, Q: Query<K>, T, F: FnOnce(&K, &V) -> T>(
        &self,
        rt: &R,
        key: Q,
        f: F,
    ) -> Option<T>
        requires { (p : K × V) → IsTrue (Q.names key p.0) → MayAsk F.FnOnce f p }
        ensures { SawAt ⟦<DashMap<K, V, S> as Keyed>⟧.by (state self.now) (Q.names key) (λ p. Viewed F.FnOnce f p result) };

    /// A copy of `DashMap::hasher`, refused where it finds no memory.
    fn _hasher(&self) -> Result<S, AllocError>
    where
        S: Clone,
        ensures { IfOk result (S.is_clone (state self.now).hasher) };

    /// As `DashMap::clear`.
    fn _clear<R: Wait + Clock>(&self, rt: &R)
    where
        K: Drop,
        V: Drop,
        ensures { LeavesShards {V = V} ⟦<DashMap<K, V, S> as Keyed>⟧.by (state self.now) ClearsAlone };

    /// As `DashMap::contains_key`.
    fn _contains_key<R: Wait + Clock, Q: Query<K>>(&self, rt: &R, key: Q) -> bool
        ensures { SawAt {V = V} ⟦<DashMap<K, V, S> as Keyed>⟧.by (state self.now) (Q.names key) (λ p. result ≡ is_some p) };

    /// As `DashMap::is_empty`.
    fn _is_empty<R: Wait + Clock>(&self, rt: &R) -> bool
        ensures { SawShards {V = V} ⟦<DashMap<K, V, S> as Keyed>⟧.by (state self.now) (λ a. result ≡ (length (contents a) == 0)) };
}

impl<K: Eq + Hash, V, S: BuildHasher> Map<K, V, S> for DashMap<K, V, S> {
    ghost state = { λ m. m };

    #[inline]
    fn _shard_count(&self) -> usize {
        self.shard_count()
    }

    #[inline]
    fn _yield_read_shard<R: Wait + Clock>(
        &self,
        rt: &R,
        shard: usize,
    ) -> RwLockReadGuard<'_, Shard<K, V, S>> {
        self.read_shard(rt, shard)
    }

    #[inline]
    fn _yield_write_shard<R: Wait + Clock>(&self, rt: &R, shard: usize) -> ShardMut<'_, K, V, S> {
        self.shards_mut(rt, shard)
    }

    #[inline]
    fn _try_yield_read_shard(&self, shard: usize) -> Option<RwLockReadGuard<'_, Shard<K, V, S>>> {
        self.try_shard(shard)
    }

    #[inline]
    fn _try_yield_write_shard(&self, shard: usize) -> Option<ShardMut<'_, K, V, S>> {
        self.try_shards_mut(shard)
    }

    #[inline]
    fn _insert<R: Wait + Clock>(
        &self,
        rt: &R,
        key: K,
        value: V,
    ) -> Result<Option<V>, InsertRefused<K, V>>
    where
        K: Drop,
        V: Drop,
    {
        self.insert(rt, key, value)
    }

    #[inline]
    fn _remove<R: Wait + Clock, Q: Query<K>>(&self, rt: &R, key: Q) -> Option<(K, V)> {
        self.remove(rt, key)
    }

    #[inline]
    fn _remove_if<R: Wait + Clock, Q: Query<K>, F: FnOnce(&K, &V) -> bool>(
        &self,
        rt: &R,
        key: Q,
        f: F,
    ) -> Option<(K, V)> {
        self.remove_if(rt, key, f)
    }

    #[inline]
    fn _remove_if_mut<R: Wait + Clock, Q: Query<K>, F: FnOnce(&K, &mut V) -> bool>(
        &self,
        rt: &R,
        key: Q,
        f: F,
    ) -> Option<(K, V)> {
        self.remove_if_mut(rt, key, f)
    }

    #[inline]
    fn _iter<'a, R>(&'a self, rt: &'a R) -> Iter<'a, K, V, S, R> {
        self.iter(rt)
    }

    #[inline]
    fn _iter_mut<'a, 'r, R>(&'a self, rt: &'r R) -> IterMut<'a, 'r, K, V, S, R> {
        self.iter_mut(rt)
    }

    #[inline]
    fn _get<R: Wait + Clock, Q: Query<K>>(&self, rt: &R, key: Q) -> Option<Ref<'_, K, V, S>> {
        self.get(rt, key)
    }

    #[inline]
    fn _get_mut<R: Wait + Clock, Q: Query<K>>(
        &self,
        rt: &R,
        key: Q,
    ) -> Option<RefMut<'_, K, V, S>> {
        self.get_mut(rt, key)
    }

    #[inline]
    fn _try_get<Q: Query<K>>(&self, key: Q) -> TryResult<Ref<'_, K, V, S>> {
        self.try_get(key)
    }

    #[inline]
    fn _try_get_mut<Q: Query<K>>(&self, key: Q) -> TryResult<RefMut<'_, K, V, S>> {
        self.try_get_mut(key)
    }

    #[inline]
    fn _entry<R: Wait + Clock>(&self, rt: &R, key: K) -> Result<Entry<'_, K, V, S>, EntryRefused<K>>
    where
        K: Drop,
        V: Drop,
    {
        self.entry(rt, key)
    }

    #[inline]
    fn _try_entry(&self, key: K) -> Result<Entry<'_, K, V, S>, TryEntryRefused<K>>
    where
        K: Drop,
        V: Drop,
    {
        self.try_entry(key)
    }

    #[inline]
    fn _shrink_to_fit<R: Wait + Clock>(&self, rt: &R)
    where
        K: Drop,
        V: Drop,
    {
        self.shrink_to_fit(rt)
    }

    #[inline]
    fn _retain<R: Wait + Clock, F: FnMut(&K, &mut V) -> bool>(&self, rt: &R, f: F)
    where
        K: Drop,
        V: Drop,
    {
        self.retain(rt, f)
    }

    #[inline]
    fn _len<R: Wait + Clock>(&self, rt: &R) -> usize {
        self.len(rt)
    }

    #[inline]
    fn _capacity<R: Wait + Clock>(&self, rt: &R) -> usize {
        self.capacity(rt)
    }

    #[inline]
    fn _alter<R: Wait + Clock, Q: Query<K>, F: FnOnce(&K, V) -> V>(&self, rt: &R, key: Q, f: F) {
        self.alter(rt, key, f)
    }

    #[inline]
    fn _alter_all<R: Wait + Clock, F: FnMut(&K, V) -> V>(&self, rt: &R, f: F) {
        self.alter_all(rt, f)
    }

    #[inline]
    fn _view<R: Wait + Clock, Q: Query<K>, T, F: FnOnce(&K, &V) -> T>(
        &self,
        rt: &R,
        key: Q,
        f: F,
    ) -> Option<T> {
        self.view(rt, key, f)
    }

    #[inline]
    fn _hasher(&self) -> Result<S, AllocError>
    where
        S: Clone,
    {
        self.hasher().clone()
    }

    #[inline]
    fn _clear<R: Wait + Clock>(&self, rt: &R)
    where
        K: Drop,
        V: Drop,
    {
        self.clear(rt)
    }

    #[inline]
    fn _contains_key<R: Wait + Clock, Q: Query<K>>(&self, rt: &R, key: Q) -> bool {
        self.contains_key(rt, key)
    }

    #[inline]
    fn _is_empty<R: Wait + Clock>(&self, rt: &R) -> bool {
        self.is_empty(rt)
    }
}
