//! Work of several workers on a map that threads share: each holds one shard at a time.
ghost use Rattle.std.specs.Prelude.{◌≡◌, ◌<◌, OnOk};
ghost use Rattle.dash_map.specs.Words.{PutsBehind, PutsEachBehind, by, route_by};

use super::deal::ByRoute;
use crate::map::DashMap;
use crate::waiting::Waiting;
use dash_rows::workers::held::{Holder, put_held};
use dash_rows::workers::lane::{Lane, run_lane};
use dash_shard::keyed::Keyed;
use std::alloc::AllocError;
use std::hash::{BuildHasher, Hash};
use std::rt::Clock;
use std::sync::Wait;
use std::thread::Threads;

impl<
    'a,
    K: Eq + Hash + Send + Sync + Drop,
    V: Send + Sync + Drop,
    S: BuildHasher + Send + Sync,
    R: Wait + Clock + Sync,
> Holder<(K, V)> for Waiting<'a, K, V, S, R> {
    ghost has = { λ w number. number < w.map.now.amount };

    ghost fits = { λ w number pair hash.
        (route_by (by K.Hash S.BuildHasher S.Hasher.Hasher) w.map.now.hasher w.map.now.amount pair.0 ≡ number)
        × (hash ≡ (by K.Hash S.BuildHasher S.Hasher.Hasher).hash w.map.now.hasher pair.0) };

    ghost took = { λ w number pairs. PutsBehind (by K.Hash S.BuildHasher S.Hasher.Hasher) w.map.now number pairs };

    fn run(&self, number: usize, lane: &mut Lane<(K, V), ()>) {
        let mut shard = self.map.shards_mut(self.rt, number);
        run_lane(&mut shard, lane);
    }
}

impl<
    K: Eq + Hash + Send + Sync + Drop,
    V: Send + Sync + Drop,
    S: BuildHasher + Send + Sync,
> DashMap<K, V, S> {
    /// Puts the pairs of a list by so many workers, while others may change the map: each shard's in one hold and in the list's order. A
    /// shard to which no pair goes is not held. 0 workers count as 1.
    ///
    /// A worker waits until nobody has a shard, for one shard after the other. It takes memory as `par_extend` does, its own before the first
    /// hold. Where there is none (4), some pairs may have been put: of each shard a front of its own.
    pub fn par_extend_shared<R: Threads + Wait + Clock + Sync>(
        &self,
        rt: &R,
        list: Vec<(K, V)>,
        workers: usize,
    ) -> Result<(), AllocError>
    where
        S::Hasher: Send,
        ensures { OnOk result (PutsEachBehind ⟦<Self as Keyed>⟧.by self.now list.items) }
    {
        let count = self.row.len();
        let dealer = ByRoute::new(&self.hasher, count);
        put_held(rt, &self.waiting(rt), &dealer, count, workers, list)
    }
}
