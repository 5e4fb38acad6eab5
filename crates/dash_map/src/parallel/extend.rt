//! Lists of pairs that several workers put into a map.
ghost use Rattle.std.specs.Prelude.{◌≡◌, ◌↔◌, ◌∷◌, [], IfOk, IfErr, IsErrOf, length};
ghost use Rattle.std.specs.Thread.{IsSync};
ghost use denote.Param.Send.{IsSend};
ghost use Rattle.dash_map.specs.Words.{HashAlike, IsAlone, IsDefault, IsOneOf, IsParallelism, MadeOf, MadeShards, Memory, ParExtends, ParExtendsBehind, Parallelism, shape};

use super::deal::ByRoute;
use crate::alone::Alone;
use crate::map::{DashMap, default_shard_amount};
use core::mem::replace_with;
use dash_rows::workers::gate::{Gate, Open};
use dash_rows::workers::run::put_apart;
use dash_shard::error::ConstructError;
use dash_shard::keyed::Keyed;
use std::alloc::{AllocError, Global};
use std::hash::{BuildHasher, Hash};
use std::thread::Threads;

impl<K: Eq + Hash + Send + Drop, V: Send + Drop, S: BuildHasher + Send> Alone<K, V, S> {
    /// Inserts the pairs of a list by so many workers: each shard's in the list's order, those of different shards at once. So of equal
    /// keys the first stays, and the last value. 0 workers count as 1, more than there are shards as so many.
    ///
    /// It takes memory for its own lists, of the list's length, before the first insert, and each pair takes memory as `insert` does. Where
    /// there is none (4), a shard whose pair is refused lets go of that pair and of its later ones, and the other shards go on. It waits for
    /// its own workers alone.
    pub fn par_extend<R: Threads + Sync>(
        &mut self,
        rt: &R,
        list: Vec<(K, V)>,
        workers: usize,
    ) -> Result<(), AllocError>
    where
        S::Hasher: Send,
        ensures { ParExtends ⟦<Self as Keyed>⟧.by list.items self.old self.new result }
    {
        self.par_extend_gated(rt, list, workers, &Open)
    }

    /// As `par_extend`, where each worker passes the gate before its first pair in a shard.
    pub fn par_extend_gated<R: Threads + Sync, G: Gate>(
        &mut self,
        rt: &R,
        list: Vec<(K, V)>,
        workers: usize,
        gate: &G,
    ) -> Result<(), AllocError>
    where
        S::Hasher: Send,
        ensures { ParExtends ⟦<Self as Keyed>⟧.by list.items self.old self.new result }
    {
        let dealer = ByRoute::new(&self.hasher, self.row.len());
        put_apart(rt, gate, &dealer, workers, list, self.row.items_mut())
    }
}

impl<
    K: Eq + Hash + Send + Drop,
    V: Send + Drop,
    S: BuildHasher + Clone + Default + Send + Drop,
> Alone<K, V, S> {
    /// A map of one owner into which so many workers inserted the pairs of a list as `par_extend` does, of the default number of shards for so
    /// many processors.
    ///
    /// Room is made first, by the list's length. It is refused where the parallelism is 0 or above 2^61 (6), then where there is no memory
    /// for a map, for the workers' lists or for a pair (8); then nothing is made.
    pub fn from_par_iter<R: Threads + Sync>(
        rt: &R,
        alloc: Global,
        list: Vec<(K, V)>,
        parallelism: usize,
        workers: usize,
    ) -> Result<Self, ConstructError>
    where
        S::Hasher: Send,
        requires { (s t : S) → S.is_clone s t → HashAlike ⟦<Self as Keyed>⟧.by s t }
        ensures made { IfOk result (MadeOf ⟦<Self as Keyed>⟧.by list.items) }
        ensures hasher { IfOk result (λ a. S.is_default a.hasher) }
        ensures amount { IfOk result (λ a. IsDefault parallelism (length a.row)) }
        ensures lawful { IfOk result (IsAlone ⟦<Self as Keyed>⟧.by) }
        ensures bad_parallelism { IsErrOf result Parallelism ↔ (IsParallelism parallelism → ⊥) }
        ensures kinds { IfErr result (IsOneOf (Parallelism ∷ Memory ∷ [])) }
    {
        let amount = default_shard_amount(parallelism)?;
        let mut alone = Alone::new(alloc, 0, S::default(), amount)?;
        alone.reserve_share(list.len());
        match alone.par_extend(rt, list, workers) {
            Ok(()) => Ok(alone),
            Err(_) => Err(ConstructError::Memory),
        }
    }
}

impl<K: Eq + Hash + Send + Drop, V: Send + Drop, S: BuildHasher + Send> DashMap<K, V, S> {
    /// As `Alone::par_extend`, on this map, which nobody else has. It waits for its own workers alone, even where a hold was leaked.
    ///
    /// The shards leave their locks for it and go back, which takes no memory.
    pub fn par_extend<R: Threads + Sync>(
        &mut self,
        rt: &R,
        list: Vec<(K, V)>,
        workers: usize,
    ) -> Result<(), AllocError>
    where
        S::Hasher: Send,
        ensures extends { ParExtendsBehind ⟦<Self as Keyed>⟧.by self.old self.new list.items result }
        ensures same { shape self.new ≡ shape self.old }
    {
        self.par_extend_gated(rt, list, workers, &Open)
    }

    /// As `par_extend`, where each worker passes the gate before its first pair in a shard.
    pub fn par_extend_gated<R: Threads + Sync, G: Gate>(
        &mut self,
        rt: &R,
        list: Vec<(K, V)>,
        workers: usize,
        gate: &G,
    ) -> Result<(), AllocError>
    where
        S::Hasher: Send,
        ensures extends { ParExtendsBehind ⟦<Self as Keyed>⟧.by self.old self.new list.items result }
        ensures same { shape self.new ≡ shape self.old }
    {
        replace_with(
            self,
            (rt, list, workers, gate),
            Self::par_extend_alone::<R, G>,
        )
    }

    // Inserts the pairs, and the map after it.
    fn par_extend_alone<R: Threads + Sync, G: Gate>(
        self,
        put: (&R, Vec<(K, V)>, usize, &G),
    ) -> (Self, Result<(), AllocError>)
    where
        S::Hasher: Send,
        requires { IsSync R.row × IsSync G.row × IsSend K.row × IsSend V.row × IsSend S.row × IsSend S.Hasher.row }
        ensures extends { ParExtendsBehind ⟦<Self as Keyed>⟧.by self result.0 put.entry.1.items result.1 }
        ensures same { shape result.0 ≡ shape self }
    {
        let (rt, list, workers, gate) = put;
        let mut alone = self.alone();
        let extended = alone.par_extend_gated(rt, list, workers, gate);
        (alone.end(), extended)
    }
}

impl<
    K: Eq + Hash + Send + Drop,
    V: Send + Drop,
    S: BuildHasher + Clone + Default + Send + Drop,
> DashMap<K, V, S> {
    /// As `Alone::from_par_iter`, behind locks.
    pub fn from_par_iter<R: Threads + Sync>(
        rt: &R,
        alloc: Global,
        list: Vec<(K, V)>,
        parallelism: usize,
        workers: usize,
    ) -> Result<Self, ConstructError>
    where
        S::Hasher: Send,
        requires { (s t : S) → S.is_clone s t → HashAlike ⟦<Self as Keyed>⟧.by s t }
        ensures made { IfOk result (λ m. MadeShards ⟦<Self as Keyed>⟧.by m (MadeOf ⟦<Self as Keyed>⟧.by list.items)) }
        ensures hasher { IfOk result (λ m. S.is_default m.hasher) }
        ensures amount { IfOk result (λ m. IsDefault parallelism m.amount) }
        ensures bad_parallelism { IsErrOf result Parallelism ↔ (IsParallelism parallelism → ⊥) }
        ensures kinds { IfErr result (IsOneOf (Parallelism ∷ Memory ∷ [])) }
    {
        Ok(Alone::from_par_iter(rt, alloc, list, parallelism, workers)?.end())
    }
}
