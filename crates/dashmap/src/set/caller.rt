//! A thread's way to a set that it shares, on which it can't deadlock with itself.
ghost use Rattle.std.specs.Prelude.{◌≡◌, ◌==◌, IfSome, IsTrue, is_some, length};
ghost use Rattle.std.specs.Fn.{FnOnceTakesAt};
ghost use Rattle.dashmap.specs.Words.{AnsweredKey, CallableOnPairs, CalledAtKey, ClearsAlone, FoldsEach, Inserts, IsGot, LeavesShard, LeavesShards, MayFold, MayVisit, RemoveIf, Removes, RemovesBy, RetainsAlone, SawAt, SawShards, ShrinksAlone, TakesKey, VisitsEach, at_start, by, contents, inserted, keys_of, len_in, member, of_key, room_in};

use super::DashSet;
use crate::iter_set::Iter;
use crate::setref::one::Ref;
use dash_shard::keyed::Keyed;
use dash_shard::query::Query;
use std::hash::{BuildHasher, Hash};
use std::rt::Clock;
use std::sync::Wait;

/// A set that threads share with the right to wait for its locks, for a thread that holds one thing at a time. `DashSet::caller` makes it.
///
/// Its calls are the set's without `rt`, and promise what the set's promise. What a map's `Caller` says of waiting is so of this.
#[derive(Drop)]
pub struct SetCaller<'a, K: Eq + Hash, S: BuildHasher, R: Wait + Clock> {
    pub set: &'a DashSet<K, S>,
    pub rt: &'a R,
}

impl<K: Eq + Hash, S: BuildHasher, R: Wait + Clock> Keyed for SetCaller<'_, K, S, R> {
    type Key = K;

    type State = S;

    ghost by = { by K.Hash S.BuildHasher S.Hasher.Hasher };
}

impl<K: Eq + Hash, S: BuildHasher> DashSet<K, S> {
    /// A caller of this set. It waits for nobody.
    #[inline]
    pub fn caller<'a, R: Wait + Clock>(&'a self, rt: &'a R) -> SetCaller<'a, K, S, R>
        ensures { result.set.now ≡ self.now }
    {
        SetCaller { set: self, rt }
    }
}

impl<K: Eq + Hash, S: BuildHasher, R: Wait + Clock> SetCaller<'_, K, S, R> {
    /// As `DashSet::insert`.
    #[inline]
    pub fn insert(&mut self, key: K) -> Result<bool, K>
    where
        K: Drop,
        ensures leaves { LeavesShard ⟦<Self as Keyed>⟧.by self.old.set.now key (λ s t. Inserts K.eq s t key tt (inserted result)) }
        ensures same { self.new ≡ self.old }
    {
        self.set.insert(self.rt, key)
    }

    /// As `DashSet::remove`.
    #[inline]
    pub fn remove<Q: Query<K>>(&mut self, key: Q) -> Option<K>
        ensures equal { IfSome result (λ found. IsTrue (Q.names key found)) }
        ensures leaves { Removes ⟦<Self as Keyed>⟧.by self.old.set.now (Q.names key) (member result) }
        ensures same { self.new ≡ self.old }
    {
        self.set.remove(self.rt, key)
    }

    /// As `DashSet::remove_if`.
    #[inline]
    pub fn remove_if<Q: Query<K>, F: FnOnce(&K) -> bool>(&mut self, key: Q, f: F) -> Option<K>
        requires { (k : K) → IsTrue (Q.names key k) → FnOnceTakesAt F.FnOnce f k }
        ensures leaves { RemovesBy ⟦<Self as Keyed>⟧.by self.old.set.now RemoveIf (Q.names key) (member result) (AnsweredKey F.FnOnce f) }
        ensures same { self.new ≡ self.old }
    {
        self.set.remove_if(self.rt, key, f)
    }

    /// As `DashSet::iter`.
    #[inline]
    pub fn iter(&mut self) -> Iter<'_, K, S, R>
        ensures { result ≡ at_start self.old.set.now }
    {
        self.set.iter(self.rt)
    }

    /// As `DashSet::get`.
    #[inline]
    pub fn get<Q: Query<K>>(&mut self, key: Q) -> Option<Ref<'_, K, S>>
        ensures { IsGot ⟦<Self as Keyed>⟧.by self.old.set.now (Q.names key) result }
    {
        self.set.get(self.rt, key)
    }

    /// As `DashSet::shrink_to_fit`.
    #[inline]
    pub fn shrink_to_fit(&mut self)
    where
        K: Drop,
        ensures leaves { LeavesShards {V = Unit {0}} ⟦<Self as Keyed>⟧.by self.old.set.now (ShrinksAlone K.eq) }
        ensures same { self.new ≡ self.old }
    {
        self.set.shrink_to_fit(self.rt);
    }

    /// As `DashSet::retain`.
    #[inline]
    pub fn retain<F: FnMut(&K) -> bool>(&mut self, f: F)
    where
        K: Drop,
        requires { CallableOnPairs (CalledAtKey F.FnMut) (TakesKey F.FnMut) f }
        ensures leaves { LeavesShards ⟦<Self as Keyed>⟧.by self.old.set.now (RetainsAlone K.eq (CalledAtKey F.FnMut) f) }
        ensures same { self.new ≡ self.old }
    {
        self.set.retain(self.rt, f);
    }

    /// As `DashSet::fold`.
    #[inline]
    pub fn fold<T, F: FnMut(T, &K) -> T>(&mut self, first: T, f: F) -> T
        requires { MayFold of_key F.FnMut f first }
        ensures saw { SawShards ⟦<Self as Keyed>⟧.by self.old.set.now (λ a. FoldsEach of_key F.FnMut f first (keys_of (contents a)) result) }
        ensures same { self.new ≡ self.old }
    {
        self.set.fold(self.rt, first, f)
    }

    /// As `DashSet::for_each`.
    #[inline]
    pub fn for_each<F: FnMut(&K)>(&mut self, f: F)
        requires { MayVisit of_key F.FnMut f }
        ensures saw { SawShards ⟦<Self as Keyed>⟧.by self.old.set.now (λ a. VisitsEach of_key F.FnMut f (keys_of (contents a))) }
        ensures same { self.new ≡ self.old }
    {
        self.set.for_each(self.rt, f);
    }

    /// As `DashSet::len`.
    #[inline]
    pub fn len(&mut self) -> usize
        ensures saw { SawShards {V = Unit {0}} ⟦<Self as Keyed>⟧.by self.old.set.now (λ a. result ≡ len_in a) }
        ensures same { self.new ≡ self.old }
    {
        self.set.len(self.rt)
    }

    /// As `DashSet::is_empty`.
    #[inline]
    pub fn is_empty(&mut self) -> bool
        ensures saw { SawShards {V = Unit {0}} ⟦<Self as Keyed>⟧.by self.old.set.now (λ a. result ≡ (length (contents a) == 0)) }
        ensures same { self.new ≡ self.old }
    {
        self.set.is_empty(self.rt)
    }

    /// As `DashSet::clear`.
    #[inline]
    pub fn clear(&mut self)
    where
        K: Drop,
        ensures leaves { LeavesShards {V = Unit {0}} ⟦<Self as Keyed>⟧.by self.old.set.now ClearsAlone }
        ensures same { self.new ≡ self.old }
    {
        self.set.clear(self.rt);
    }

    /// As `DashSet::capacity`.
    #[inline]
    pub fn capacity(&mut self) -> usize
        ensures saw { SawShards {V = Unit {0}} ⟦<Self as Keyed>⟧.by self.old.set.now (λ a. result ≡ room_in a) }
        ensures same { self.new ≡ self.old }
    {
        self.set.capacity(self.rt)
    }

    /// As `DashSet::contains`.
    #[inline]
    pub fn contains<Q: Query<K>>(&mut self, key: Q) -> bool
        ensures saw { SawAt {V = Unit {0}} ⟦<Self as Keyed>⟧.by self.old.set.now (Q.names key) (λ p. result ≡ is_some p) }
        ensures same { self.new ≡ self.old }
    {
        self.set.contains(self.rt, key)
    }
}
