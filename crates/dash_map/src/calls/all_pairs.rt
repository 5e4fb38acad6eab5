//! Calls of threads on all pairs of a map that they share: shard after shard, each in its turn held, by what changes pairs for writing.
ghost use Rattle.std.specs.Prelude.{map};
ghost use Rattle.std.specs.Map.Calls.{CalledAtPair, TakesPair};
ghost use Rattle.dash_map.specs.Words.{AltersAllAlone, CallableOnPairs, CalledOnPair, ClearsAlone, FoldsEach, LeavesShards, MayFold, MayVisit, RetainsAlone, SawShards, ShrinksAlone, TakesOnPair, VisitsEach, contents, of_key, of_pair};

use crate::map::DashMap;
use crate::pairs::{fold_keys_of, fold_pairs, visit_keys_of, visit_pairs};
use dash_shard::keyed::Keyed;
use std::hash::{BuildHasher, Hash};
use std::rt::Clock;
use std::sync::Wait;

impl<K: Eq + Hash + Drop, V: Drop, S: BuildHasher> DashMap<K, V, S> {
    /// Keeps the pairs on which `f` returns true, each with the value that `f` leaves, and lets the others go. It waits until nobody has a
    /// shard, for one shard after the other, in rising order. It takes no memory, and can't be refused.
    ///
    /// `f` is called once at each pair, while the pair's shard is held: a call of this map from `f` deadlocks where it wants that shard.
    /// Others may change the shards that it left, and those that it comes to.
    pub fn retain<R: Wait + Clock, F: FnMut(&K, &mut V) -> bool>(&self, rt: &R, mut f: F)
        requires { CallableOnPairs (CalledAtPair F.FnMut) (TakesPair F.FnMut) f }
        ensures { LeavesShards ⟦<Self as Keyed>⟧.by self.now (RetainsAlone K.eq (CalledAtPair F.FnMut) f) }
    {
        for idx in 0..self.row.len() {
            f = self.shards_mut(rt, idx).retain_by(f);
        }
    }

    /// Lets all pairs go; the room stays. It waits until nobody has a shard, for one shard after the other, in rising order: others may
    /// put pairs in those that it left. It takes no memory, and can't be refused.
    pub fn clear<R: Wait + Clock>(&self, rt: &R)
        ensures { LeavesShards {V = V} ⟦<Self as Keyed>⟧.by self.now ClearsAlone }
    {
        for idx in 0..self.row.len() {
            self.shards_mut(rt, idx).clear();
        }
    }

    /// Gives back what memory the shards have for more pairs than they hold; the pairs stay. It waits as `clear` does.
    ///
    /// A shard takes memory for its new slots, and keeps the old ones where there is none, so that it can't be refused.
    pub fn shrink_to_fit<R: Wait + Clock>(&self, rt: &R)
        ensures { LeavesShards {V = V} ⟦<Self as Keyed>⟧.by self.now (ShrinksAlone K.eq) }
    {
        for idx in 0..self.row.len() {
            self.shards_mut(rt, idx).shrink_to_fit();
        }
    }
}

impl<K: Eq + Hash, V, S: BuildHasher> DashMap<K, V, S> {
    /// Puts what `f` makes of each value where it stood. It waits as `retain` does, and holds each shard while `f` runs over its pairs.
    /// It takes no memory, and can't be refused.
    pub fn alter_all<R: Wait + Clock, F: FnMut(&K, V) -> V>(&self, rt: &R, mut f: F)
        requires { CallableOnPairs (CalledOnPair F.FnMut) (TakesOnPair F.FnMut) f }
        ensures { LeavesShards ⟦<Self as Keyed>⟧.by self.now (AltersAllAlone K.eq (CalledOnPair F.FnMut) f) }
    {
        for idx in 0..self.row.len() {
            f = self.shards_mut(rt, idx).alter_all_by(f);
        }
    }

    /// What `f` makes of `first` and the pairs, called at each in turn with what it made before: by rising shard and in each by rising
    /// slot. It waits until no writer has a shard, for one shard after the other, and holds each for reading while `f` runs over its
    /// pairs. It takes no memory, and can't be refused. The original has no such call.
    ///
    /// Others may change the shards that it left, and those that it comes to. `f` may read this map, and a call of it from `f` that
    /// writes deadlocks where it wants the held shard.
    #[inline]
    pub fn fold<R: Wait + Clock, T, F: FnMut(T, &K, &V) -> T>(
        &self,
        rt: &R,
        first: T,
        mut f: F,
    ) -> T
        requires { MayFold of_pair F.FnMut f first }
        ensures { SawShards ⟦<Self as Keyed>⟧.by self.now (λ a. FoldsEach of_pair F.FnMut f first (contents a) result) }
    {
        let mut folded = first;
        for idx in 0..self.row.len() {
            let shard = self.read_shard(rt, idx);
            (folded, f) = fold_pairs(shard.iter(), folded, f);
        }
        folded
    }

    /// Calls `f` at each pair. It waits and holds as `fold` does.
    #[inline]
    pub fn for_each<R: Wait + Clock, F: FnMut(&K, &V)>(&self, rt: &R, mut f: F)
        requires { MayVisit of_pair F.FnMut f }
        ensures { SawShards ⟦<Self as Keyed>⟧.by self.now (λ a. VisitsEach of_pair F.FnMut f (contents a)) }
    {
        for idx in 0..self.row.len() {
            let shard = self.read_shard(rt, idx);
            f = visit_pairs(shard.iter(), f);
        }
    }

    /// As `fold`, of the keys. For the crates here alone.
    #[inline]
    pub fn fold_keys<R: Wait + Clock, T, F: FnMut(T, &K) -> T>(&self, rt: &R, first: T, f: F) -> T
        requires { MayFold of_key F.FnMut f first }
        ensures { SawShards {V = V} ⟦<Self as Keyed>⟧.by self.now (λ a. FoldsEach of_key F.FnMut f first (map (λ p. p.0) (contents a)) result) }
    {
        let (mut folded, mut f) = (first, f);
        for idx in 0..self.row.len() {
            let shard = self.read_shard(rt, idx);
            (folded, f) = fold_keys_of(shard.iter(), folded, f);
        }
        folded
    }

    /// As `for_each`, of the keys. For the crates here alone.
    #[inline]
    pub fn for_each_key<R: Wait + Clock, F: FnMut(&K)>(&self, rt: &R, mut f: F)
        requires { MayVisit of_key F.FnMut f }
        ensures { SawShards {V = V} ⟦<Self as Keyed>⟧.by self.now (λ a. VisitsEach of_key F.FnMut f (map (λ p. p.0) (contents a))) }
    {
        for idx in 0..self.row.len() {
            let shard = self.read_shard(rt, idx);
            f = visit_keys_of(shard.iter(), f);
        }
    }
}
