//! Parallel work on the pairs of a map. A thread takes shard after shard.
ghost use Rattle.std.specs.Prelude.{◌≡◌, ◌<◌, IfOk, true};
ghost use Rattle.dash_map.specs.Words.{AltersAllAlone, EndedShards, LeavesShards, MapsEach, MayMap, MayWrite, SawShards, Writes, by, contents};
ghost use Rattle.dash_map.specs.inner.Parallel.{MapsNumber, WritesNumber};

use crate::alone::Alone;
use crate::map::DashMap;
pub use dash_rows::parallel::OwningIter;
use dash_rows::parallel::{answers, joined};
use dash_shard::hash::FixedState;
use dash_shard::keyed::Keyed;
use rayon::prelude::*;
use std::alloc::AllocError;
use std::hash::{BuildHasher, Hash};
use std::marker::Model;
use std::rt::Clock;
use std::sync::Wait;
use std::thread::Threads;

/// The pairs of a map that threads share, by rising shard and in each by rising slot. A contract sees the map.
#[derive(Drop)]
pub struct Iter<'a, K: Eq + Hash, V, S: BuildHasher = FixedState> {
    map: &'a DashMap<K, V, S>,
}

impl<'a, K: Eq + Hash, V, S: BuildHasher> Model for Iter<'a, K, V, S> {
    ghost use Rattle.dash_map.specs.Map.{MapState};

    ghost Value = { MapState K V S };

    ghost view = { λ it. it.map.now };
}

impl<K: Eq + Hash, V, S: BuildHasher> Keyed for Iter<'_, K, V, S> {
    type Key = K;

    type State = S;

    ghost by = { by K.Hash S.BuildHasher S.Hasher.Hasher };
}

impl<K: Eq + Hash + Send + Sync, V: Send + Sync, S: BuildHasher + Send + Sync> Iter<'_, K, V, S>
where
    S::Hasher: Send + Sync,
{
    /// What `f` returns for each pair, in the order of the pairs. A thread holds the shard that it is in for reading, and waits until no
    /// writer has it: others may change those that were left, and those that are still to come.
    ///
    /// It takes memory for a list of each shard's answers, and for the whole. Where there is none it is refused (4), and the answers are
    /// dropped. A call of this map from `f` that writes may deadlock: this thread or another holds the shard.
    pub fn map_collect<R: Threads + Wait + Clock + Sync, T: Send + Drop, F: Fn(&K, &V) -> T + Sync>(
        self,
        rt: &R,
        f: F,
    ) -> Result<Vec<T>, AllocError>
        requires { (p : K × V) → MayMap F.Fn f p }
        ensures { IfOk result (λ list. SawShards ⟦<Self as Keyed>⟧.by self.entry (λ a. MapsEach F.Fn f (contents a) list.items)) }
    {
        let map = self.map;
        let alloc = map.row.allocator();
        let lists: Result<Vec<Vec<T>>, AllocError> = (0..map.row.len())
            .into_par_iter()
            .with_min_len(1)
            .map(
                |shard: usize| -> Result<Vec<T>, AllocError>
                    requires { (shard < map.now.amount) × ((p : K × V) → MayMap F.Fn f p) }
                    ensures { IfOk result
                        (λ list. MapsNumber (by K.Hash S.BuildHasher S.Hasher.Hasher) map.entry.now shard F.Fn f list.items) }
                { map.answers_of(rt, shard, &f) },
            )
            .collect(rt, alloc)?;
        joined(alloc, lists?)
    }
}

/// The pairs of a map that threads share, with their values to be written. A contract sees the map.
#[derive(Drop)]
pub struct IterMut<'a, K: Eq + Hash, V, S: BuildHasher = FixedState> {
    map: &'a DashMap<K, V, S>,
}

impl<'a, K: Eq + Hash, V, S: BuildHasher> Model for IterMut<'a, K, V, S> {
    ghost use Rattle.dash_map.specs.Map.{MapState};

    ghost Value = { MapState K V S };

    ghost view = { λ it. it.map.now };
}

impl<K: Eq + Hash, V, S: BuildHasher> Keyed for IterMut<'_, K, V, S> {
    type Key = K;

    type State = S;

    ghost by = { by K.Hash S.BuildHasher S.Hasher.Hasher };
}

impl<K: Eq + Hash + Send + Sync, V: Send + Sync, S: BuildHasher + Send + Sync> IterMut<'_, K, V, S>
where
    S::Hasher: Send + Sync,
{
    /// Calls `f` once at each pair. A thread holds the shard that it is in for writing, and waits until nobody has it: others may change
    /// those that were left, and those that are still to come. It takes no memory, and can't be refused.
    ///
    /// A call of this map from `f` may deadlock: this thread or another holds the shard that it wants.
    pub fn for_each<R: Threads + Wait + Clock + Sync, F: Fn(&K, &mut V) + Sync>(self, rt: &R, f: F)
        requires { (k : K) (v : V) → MayWrite F.Fn f k v }
        ensures { LeavesShards ⟦<Self as Keyed>⟧.by self.entry (AltersAllAlone K.eq (Writes F.Fn) f) }
    {
        let map = self.map;
        (0..map.row.len()).into_par_iter().with_min_len(1).for_each(
            rt,
            |shard: usize|
                requires { (shard < map.now.amount) × ((k : K) (v : V) → MayWrite F.Fn f k v) }
                ensures { WritesNumber (by K.Hash S.BuildHasher S.Hasher.Hasher) map.entry.now shard F.Fn f }
            { map.write_each(rt, shard, &f) },
        );
    }
}

impl<K: Eq + Hash, V, S: BuildHasher> DashMap<K, V, S> {
    /// The pairs, moved out. It takes no memory, and waits for nobody, even where a hold was leaked.
    pub fn into_par_iter(self) -> OwningIter<K, V, S>
    where
        S: Drop,
        ensures { EndedShards ⟦<Self as Keyed>⟧.by self (λ a. result ≡ contents a) }
    {
        let Alone { row, .. } = self.alone();
        OwningIter::new(row.into_items())
    }

    /// The pairs, to be read by several threads. This call waits for nobody and takes no memory.
    #[inline]
    pub fn par_iter(&self) -> Iter<'_, K, V, S>
        ensures { result ≡ self.now }
    {
        Iter { map: self }
    }

    /// The pairs, to be written by several threads. This call waits for nobody and takes no memory.
    #[inline]
    pub fn par_iter_mut(&self) -> IterMut<'_, K, V, S>
        ensures { result ≡ self.now }
    {
        IterMut { map: self }
    }

    /// As `par_iter_mut`, of a map that nobody else has while the pairs are written.
    ///
    /// It is as the original's, which locks each shard all the same: a hold that was leaked keeps a thread waiting.
    #[inline]
    pub fn into_par_iter_mut(&mut self) -> IterMut<'_, K, V, S>
        ensures { result ≡ self.old }
    {
        IterMut { map: self }
    }

    // What `f` returns for each pair of a shard, which is held for reading.
    fn answers_of<R: Wait + Clock, T: Drop, F: Fn(&K, &V) -> T>(
        &self,
        rt: &R,
        shard: usize,
        f: &F,
    ) -> Result<Vec<T>, AllocError>
        requires below { shard < self.now.amount }
        requires callable { (p : K × V) → MayMap F.Fn f.now p }
        ensures { IfOk result (λ list. MapsNumber ⟦<Self as Keyed>⟧.by self.now shard F.Fn f.now list.items) }
    {
        answers(self.row.allocator(), self.read_shard(rt, shard).iter(), f)
    }

    // Calls `f` at each pair of a shard, which is held for writing.
    fn write_each<R: Wait + Clock, F: Fn(&K, &mut V)>(&self, rt: &R, shard: usize, f: &F)
        requires below { shard < self.now.amount }
        requires callable { (k : K) (v : V) → MayWrite F.Fn f.now k v }
        ensures { WritesNumber ⟦<Self as Keyed>⟧.by self.now shard F.Fn f.now }
    {
        self.shards_mut(rt, shard).alter_all_by(
            |key: &K, value: V| -> V
                requires { MayWrite F.Fn f.now key.now value }
                ensures { Writes F.Fn f.entry.now key.now value true result f.entry.now }
            { written(f, key, value) },
        );
    }
}

// The value as `f` leaves it.
#[inline]
fn written<K, V, F: Fn(&K, &mut V)>(f: &F, key: &K, mut value: V) -> V
    requires { MayWrite F.Fn f.now key.now value }
    ensures { Writes F.Fn f.now key.now value true result f.now }
{
    f(key, &mut value);
    value
}
