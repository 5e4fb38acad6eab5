//! A thread's way to a map that it shares, on which it can't deadlock with itself.
ghost use Rattle.std.specs.Prelude.{◌≡◌, ◌<◌, ◌==◌, IfOk, IfSome, IsTrue, is_some, length};
ghost use Rattle.std.specs.Map.Calls.{CalledAtPair, TakesPair};
ghost use Rattle.dash_map.specs.Words.{AltersAllAlone, AltersBy, Answered, CallableOnPairs, CalledOnPair, ChangesOn, ClearsAlone, CopiesEach, FoldsEach, FoundBehind, Given, Inserts, IsGot, IsGotEntry, IsGotMut, IsShardOf, LeavesShard, LeavesShards, MayAsk, MayChange, MayFold, MayGive, MayVisit, RemoveIf, RemoveIfMut, Removes, RemovesBy, RetainsAlone, SawAt, SawShards, ShrinksAlone, TakesOnPair, UnlessLocked, UnlessLockedOut, Viewed, VisitsEach, at_start, by, contents, len_in, of_pair, room_in};

use crate::iter::{Iter, IterMut};
use crate::map::DashMap;
use dash_ref::held::ShardMut;
use dash_ref::mapref::entry::{Entry, EntryRefused, TryEntryRefused};
use dash_ref::mapref::one::{Ref, RefMut};
use dash_ref::try_result::TryResult;
use dash_shard::keyed::Keyed;
use dash_shard::query::Query;
use dash_shard::shard::InsertRefused;
use dash_steps::kept::Kept;
use std::alloc::AllocError;
use std::hash::{BuildHasher, Hash};
use std::rt::Clock;
use std::sync::Wait;

/// A map that threads share with the right to wait for its locks, for a thread that holds one thing at a time. `DashMap::caller` makes it.
///
/// Its calls are the map's without `rt`, and promise what the map's promise. Each takes the caller for writing, and what it returns borrows
/// the caller: while a reference, an entry, a walk or a held shard is alive, no other call of this caller compiles.
///
/// So a thread that reaches a map by one caller alone never waits for itself. Threads that all do so never wait for each other in a circle
/// on that map: a walk takes the shards by rising number, and everybody else holds one shard and waits for none. A second caller in a
/// thread, a call of the map itself, and two maps at once have no such promise. The types say this; no contract speaks of waiting.
#[derive(Drop)]
pub struct Caller<'a, K: Eq + Hash, V, S: BuildHasher, R: Wait + Clock> {
    pub map: &'a DashMap<K, V, S>,
    pub rt: &'a R,
}

impl<K: Eq + Hash, V, S: BuildHasher, R: Wait + Clock> Keyed for Caller<'_, K, V, S, R> {
    type Key = K;

    type State = S;

    ghost by = { by K.Hash S.BuildHasher S.Hasher.Hasher };
}

impl<K: Eq + Hash, V, S: BuildHasher> DashMap<K, V, S> {
    /// A caller of this map. It waits for nobody.
    #[inline]
    pub fn caller<'a, R: Wait + Clock>(&'a self, rt: &'a R) -> Caller<'a, K, V, S, R>
        ensures { result.map.now ≡ self.now }
    {
        Caller { map: self, rt }
    }
}

impl<K: Eq + Hash, V, S: BuildHasher, R: Wait + Clock> Caller<'_, K, V, S, R> {
    /// As `DashMap::shards_mut`.
    #[inline]
    pub fn shards_mut(&mut self, shard: usize) -> ShardMut<'_, K, V, S>
        requires { shard < self.old.map.now.amount }
        ensures tagged { IsShardOf ⟦<Self as Keyed>⟧.by self.old.map.now shard result }
        ensures found { FoundBehind result }
    {
        self.map.shards_mut(self.rt, shard)
    }

    /// As `DashMap::insert`.
    #[inline(always)]
    pub fn insert(&mut self, key: K, value: V) -> Result<Option<V>, InsertRefused<K, V>>
    where
        K: Drop,
        V: Drop,
        ensures leaves { LeavesShard ⟦<Self as Keyed>⟧.by self.old.map.now key (λ s t. Inserts K.eq s t key value result) }
        ensures same { self.new ≡ self.old }
    {
        self.map.insert(self.rt, key, value)
    }

    /// As `DashMap::remove`.
    #[inline]
    pub fn remove<Q: Query<K>>(&mut self, key: Q) -> Option<(K, V)>
        ensures equal { IfSome result (λ pair. IsTrue (Q.names key pair.0)) }
        ensures leaves { Removes ⟦<Self as Keyed>⟧.by self.old.map.now (Q.names key) result }
        ensures same { self.new ≡ self.old }
    {
        self.map.remove(self.rt, key)
    }

    /// As `DashMap::iter`.
    #[inline]
    pub fn iter(&mut self) -> Iter<'_, K, V, S, R>
        ensures { result ≡ at_start self.old.map.now }
    {
        self.map.iter(self.rt)
    }

    /// As `DashMap::iter_mut`.
    #[inline]
    pub fn iter_mut(&mut self) -> IterMut<'_, '_, K, V, S, R>
        ensures { result ≡ at_start self.old.map.now }
    {
        self.map.iter_mut(self.rt)
    }

    /// As `DashMap::get`.
    #[inline(always)]
    pub fn get<Q: Query<K>>(&mut self, key: Q) -> Option<Ref<'_, K, V, S>>
        ensures { IsGot ⟦<Self as Keyed>⟧.by self.old.map.now (Q.names key) result }
    {
        self.map.get(self.rt, key)
    }

    /// As `DashMap::get_mut`.
    #[inline(always)]
    pub fn get_mut<Q: Query<K>>(&mut self, key: Q) -> Option<RefMut<'_, K, V, S>>
        ensures { IsGotMut ⟦<Self as Keyed>⟧.by self.old.map.now (Q.names key) result }
    {
        self.map.get_mut(self.rt, key)
    }

    /// As `DashMap::try_get`.
    #[inline]
    pub fn try_get<Q: Query<K>>(&mut self, key: Q) -> TryResult<Ref<'_, K, V, S>>
        ensures { UnlessLocked result (IsGot ⟦<Self as Keyed>⟧.by self.old.map.now (Q.names key)) }
    {
        self.map.try_get(key)
    }

    /// As `DashMap::try_get_mut`.
    #[inline]
    pub fn try_get_mut<Q: Query<K>>(&mut self, key: Q) -> TryResult<RefMut<'_, K, V, S>>
        ensures { UnlessLocked result (IsGotMut ⟦<Self as Keyed>⟧.by self.old.map.now (Q.names key)) }
    {
        self.map.try_get_mut(key)
    }

    /// As `DashMap::remove_if`.
    #[inline]
    pub fn remove_if<Q: Query<K>, F: FnOnce(&K, &V) -> bool>(
        &mut self,
        key: Q,
        f: F,
    ) -> Option<(K, V)>
        requires { (p : K × V) → IsTrue (Q.names key p.0) → MayAsk F.FnOnce f p }
        ensures leaves { RemovesBy ⟦<Self as Keyed>⟧.by self.old.map.now RemoveIf (Q.names key) result (Answered F.FnOnce f) }
        ensures same { self.new ≡ self.old }
    {
        self.map.remove_if(self.rt, key, f)
    }

    /// As `DashMap::remove_if_mut`.
    #[inline]
    pub fn remove_if_mut<Q: Query<K>, F: FnOnce(&K, &mut V) -> bool>(
        &mut self,
        key: Q,
        f: F,
    ) -> Option<(K, V)>
        requires { (p : K × V) → IsTrue (Q.names key p.0) → MayChange F.FnOnce f p }
        ensures leaves { RemovesBy ⟦<Self as Keyed>⟧.by self.old.map.now RemoveIfMut (Q.names key) result (ChangesOn F.FnOnce f) }
        ensures same { self.new ≡ self.old }
    {
        self.map.remove_if_mut(self.rt, key, f)
    }

    /// As `DashMap::view`.
    #[inline]
    pub fn view<Q: Query<K>, T, F: FnOnce(&K, &V) -> T>(&mut self, key: Q, f: F) -> Option<T>
        requires { (p : K × V) → IsTrue (Q.names key p.0) → MayAsk F.FnOnce f p }
        ensures saw { SawAt ⟦<Self as Keyed>⟧.by self.old.map.now (Q.names key) (λ p. Viewed F.FnOnce f p result) }
        ensures same { self.new ≡ self.old }
    {
        self.map.view(self.rt, key, f)
    }

    /// As `DashMap::alter`.
    #[inline]
    pub fn alter<Q: Query<K>, F: FnOnce(&K, V) -> V>(&mut self, key: Q, f: F)
        requires { (p : K × V) → IsTrue (Q.names key p.0) → MayGive F.FnOnce f p }
        ensures leaves { AltersBy ⟦<Self as Keyed>⟧.by self.old.map.now (Q.names key) (Given F.FnOnce f) }
        ensures same { self.new ≡ self.old }
    {
        self.map.alter(self.rt, key, f);
    }

    /// As `DashMap::contains_key`.
    #[inline(always)]
    pub fn contains_key<Q: Query<K>>(&mut self, key: Q) -> bool
        ensures saw { SawAt {V = V} ⟦<Self as Keyed>⟧.by self.old.map.now (Q.names key) (λ p. result ≡ is_some p) }
        ensures same { self.new ≡ self.old }
    {
        self.map.contains_key(self.rt, key)
    }

    /// As `DashMap::len`.
    #[inline]
    pub fn len(&mut self) -> usize
        ensures saw { SawShards {V = V} ⟦<Self as Keyed>⟧.by self.old.map.now (λ a. result ≡ len_in a) }
        ensures same { self.new ≡ self.old }
    {
        self.map.len(self.rt)
    }

    /// As `DashMap::is_empty`.
    #[inline]
    pub fn is_empty(&mut self) -> bool
        ensures saw { SawShards {V = V} ⟦<Self as Keyed>⟧.by self.old.map.now (λ a. result ≡ (length (contents a) == 0)) }
        ensures same { self.new ≡ self.old }
    {
        self.map.is_empty(self.rt)
    }

    /// As `DashMap::capacity`.
    #[inline]
    pub fn capacity(&mut self) -> usize
        ensures saw { SawShards {V = V} ⟦<Self as Keyed>⟧.by self.old.map.now (λ a. result ≡ room_in a) }
        ensures same { self.new ≡ self.old }
    {
        self.map.capacity(self.rt)
    }

    /// As `DashMap::alter_all`.
    #[inline]
    pub fn alter_all<F: FnMut(&K, V) -> V>(&mut self, f: F)
        requires { CallableOnPairs (CalledOnPair F.FnMut) (TakesOnPair F.FnMut) f }
        ensures leaves { LeavesShards ⟦<Self as Keyed>⟧.by self.old.map.now (AltersAllAlone K.eq (CalledOnPair F.FnMut) f) }
        ensures same { self.new ≡ self.old }
    {
        self.map.alter_all(self.rt, f);
    }

    /// As `DashMap::fold`.
    #[inline]
    pub fn fold<T, F: FnMut(T, &K, &V) -> T>(&mut self, first: T, f: F) -> T
        requires { MayFold of_pair F.FnMut f first }
        ensures saw { SawShards ⟦<Self as Keyed>⟧.by self.old.map.now (λ a. FoldsEach of_pair F.FnMut f first (contents a) result) }
        ensures same { self.new ≡ self.old }
    {
        self.map.fold(self.rt, first, f)
    }

    /// As `DashMap::for_each`.
    #[inline]
    pub fn for_each<F: FnMut(&K, &V)>(&mut self, f: F)
        requires { MayVisit of_pair F.FnMut f }
        ensures saw { SawShards ⟦<Self as Keyed>⟧.by self.old.map.now (λ a. VisitsEach of_pair F.FnMut f (contents a)) }
        ensures same { self.new ≡ self.old }
    {
        self.map.for_each(self.rt, f);
    }
}

impl<K: Eq + Hash + Drop, V: Drop, S: BuildHasher, R: Wait + Clock> Caller<'_, K, V, S, R> {
    /// As `DashMap::entry`.
    #[inline]
    pub fn entry(&mut self, key: K) -> Result<Entry<'_, K, V, S>, EntryRefused<K>>
        ensures { IsGotEntry ⟦<Self as Keyed>⟧.by self.old.map.now key result }
    {
        self.map.entry(self.rt, key)
    }

    /// As `DashMap::try_entry`.
    #[inline]
    pub fn try_entry(&mut self, key: K) -> Result<Entry<'_, K, V, S>, TryEntryRefused<K>>
        ensures { UnlessLockedOut key result (IsGotEntry ⟦<Self as Keyed>⟧.by self.old.map.now key) }
    {
        self.map.try_entry(key)
    }

    /// As `DashMap::retain`.
    #[inline]
    pub fn retain<F: FnMut(&K, &mut V) -> bool>(&mut self, f: F)
        requires { CallableOnPairs (CalledAtPair F.FnMut) (TakesPair F.FnMut) f }
        ensures leaves { LeavesShards ⟦<Self as Keyed>⟧.by self.old.map.now (RetainsAlone K.eq (CalledAtPair F.FnMut) f) }
        ensures same { self.new ≡ self.old }
    {
        self.map.retain(self.rt, f);
    }

    /// As `DashMap::clear`.
    #[inline]
    pub fn clear(&mut self)
        ensures leaves { LeavesShards {V = V} ⟦<Self as Keyed>⟧.by self.old.map.now ClearsAlone }
        ensures same { self.new ≡ self.old }
    {
        self.map.clear(self.rt);
    }

    /// As `DashMap::shrink_to_fit`.
    #[inline]
    pub fn shrink_to_fit(&mut self)
        ensures leaves { LeavesShards {V = V} ⟦<Self as Keyed>⟧.by self.old.map.now (ShrinksAlone K.eq) }
        ensures same { self.new ≡ self.old }
    {
        self.map.shrink_to_fit(self.rt);
    }
}

impl<K: Eq + Hash + Kept + Drop, V: Kept + Drop, S: BuildHasher, R: Wait + Clock> Caller<
    '_,
    K,
    V,
    S,
    R,
> {
    /// As `DashMap::pairs`.
    #[inline]
    pub fn pairs(&mut self) -> Result<Vec<(K, V)>, AllocError>
        ensures copies { IfOk result (λ list. SawShards ⟦<Self as Keyed>⟧.by self.old.map.now (λ a. CopiesEach K.alike V.alike (contents a) list.items)) }
        ensures same { self.new ≡ self.old }
    {
        self.map.pairs(self.rt)
    }
}
