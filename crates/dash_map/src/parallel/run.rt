//! Parallel runs: lists of steps, of which each shard takes its own, apart from the others.
ghost use Rattle.std.specs.Prelude.{◌≡◌, ◌<◌, ◌≤◌, ◌↔◌, [], All, IsTrue, OnOk, OnErr, IsSome, None, length, vec_len, vec_capacity};
ghost use Rattle.std.specs.List.{Any};
ghost use Rattle.std.specs.Thread.{IsSync};
ghost use denote.Param.Send.{IsSend};
ghost use Rattle.dash_map.specs.Words.{IsAlone, KeepsRoom, ParRan, ParRuns, ParRunsBehind, TakesThere, goes_to, shape};

use super::deal::ByRoute;
use crate::alone::Alone;
use crate::map::DashMap;
use crate::run::Fault;
use core::mem::replace_with;
pub use dash_rows::workers::gate::{Gate, Open};
use dash_rows::workers::run::{no_replies, run_apart};
use dash_shard::keyed::Keyed;
use dash_steps::action::Action;
use dash_steps::kept::{Kept, KeptKey};
use dash_steps::step::{Reply, ShardStep};
use std::alloc::AllocError;
use std::hash::BuildHasher;
use std::thread::Threads;

/// What a parallel run returns: at the place of each step in the list its reply, or none where it was not taken, and why some were not.
#[derive(Debug, Drop)]
pub struct ParOutcome<K, V> {
    pub replies: Vec<Option<Reply<K, V>>>,
    pub fault: Option<Fault>,
}

impl<K: KeptKey + Drop, V: Kept + Drop, S: BuildHasher> Alone<K, V, S> {
    // Whether the step names a shard that the map doesn't have. No key is hashed for it.
    fn misses<A: Action<K, V>>(&self, step: &ShardStep<K, V, A>) -> bool
        ensures { IsTrue result ↔ (length self.now.row ≤ goes_to ⟦<Self as Keyed>⟧.by A.acts self.now step.now) }
    {
        match step.key() {
            Ok(_) => false,
            Err(shard) => shard >= self.row.len(),
        }
    }

    // Whether some step does.
    fn misses_any<A: Action<K, V>>(&self, steps: &[ShardStep<K, V, A>]) -> bool
        ensures { IsTrue result ↔ Any (λ t. length self.now.row ≤ goes_to ⟦<Self as Keyed>⟧.by A.acts self.now t) steps.now }
    {
        for step in steps {
            if self.misses(step) {
                return true;
            }
        }
        false
    }
}

impl<K: KeptKey + Send + Drop, V: Kept + Send + Drop, S: BuildHasher + Send> Alone<K, V, S> {
    // Takes the steps, each on its shard.
    fn run_shards<R: Threads + Sync, A: Action<K, V> + Send + Drop, G: Gate>(
        &mut self,
        rt: &R,
        gate: &G,
        workers: usize,
        steps: Vec<ShardStep<K, V, A>>,
        replies: &mut Vec<Option<Reply<K, V>>>,
    ) -> Result<(), AllocError>
    where
        S::Hasher: Send,
        requires within { All (λ t. goes_to ⟦<Self as Keyed>⟧.by A.acts self.old t < length self.old.row) steps.items }
        requires none { replies.old.items ≡ [] }
        requires room { vec_len steps ≤ vec_capacity replies.old }
        ensures ran { ParRan (TakesThere ⟦<Self as Keyed>⟧.by K.alike V.alike A.acts) (goes_to ⟦<Self as Keyed>⟧.by A.acts self.old)
            self.old.row steps.items replies.new.items self.new.row }
        ensures len { length replies.new.items ≡ length steps.items }
        ensures whole { OnOk result (All IsSome replies.new.items) }
        ensures short { OnErr result (Any (λ reply. reply ≡ None) replies.new.items) }
        ensures stays { KeepsRoom self.old self.new }
        ensures lawful { IsAlone ⟦<Self as Keyed>⟧.by self.new }
    {
        let dealer = ByRoute::new(&self.hasher, self.row.len());
        run_apart(
            rt,
            gate,
            &dealer,
            workers,
            steps,
            self.row.items_mut(),
            replies,
        )
    }

    /// As `run`, where so many workers take the steps of different shards at once: 0 workers count as 1, more than there are shards as
    /// so many. Each shard takes its own steps in their order, so that the replies are those that `run` gives.
    ///
    /// A step that names no shard of the map refuses the list before any step is taken (13). The memory for the replies, and for the
    /// lists of the shards, is asked for before the first step too. Where a step finds no memory, its shard's later steps are not
    /// taken, and those of the other shards are (14). A worker for which there is no thread is done by the caller. The original has no
    /// such call.
    pub fn par_run<R: Threads + Sync, A: Action<K, V> + Send + Drop>(
        &mut self,
        rt: &R,
        steps: Vec<ShardStep<K, V, A>>,
        workers: usize,
    ) -> ParOutcome<K, V>
    where
        S::Hasher: Send,
        ensures ran { ParRuns ⟦<Self as Keyed>⟧.by K.alike V.alike A.acts self.old self.new steps.items result }
        ensures stays { KeepsRoom self.old self.new }
        ensures lawful { IsAlone ⟦<Self as Keyed>⟧.by self.new }
    {
        self.par_run_gated(rt, steps, workers, &Open)
    }

    /// As `par_run`, where each worker passes the gate at a shard before its first step there. For tests: a gate holds a worker back.
    pub fn par_run_gated<R: Threads + Sync, A: Action<K, V> + Send + Drop, G: Gate>(
        &mut self,
        rt: &R,
        steps: Vec<ShardStep<K, V, A>>,
        workers: usize,
        gate: &G,
    ) -> ParOutcome<K, V>
    where
        S::Hasher: Send,
        ensures ran { ParRuns ⟦<Self as Keyed>⟧.by K.alike V.alike A.acts self.old self.new steps.items result }
        ensures stays { KeepsRoom self.old self.new }
        ensures lawful { IsAlone ⟦<Self as Keyed>⟧.by self.new }
    {
        // Only a look at the map tells the prover its invariant, which a list that is refused needs too.
        let _ = &self.hasher;
        let alloc = *steps.allocator();
        let missing = self.misses_any(&steps);
        let Ok(mut replies) = Vec::with_capacity(alloc, steps.len()) else {
            let fault = if missing {
                Fault::NoSuchShard
            } else {
                Fault::Memory
            };
            return ParOutcome {
                replies: Vec::new(alloc),
                fault: Some(fault),
            };
        };
        if missing {
            no_replies(steps.len(), &mut replies);
            return ParOutcome {
                replies,
                fault: Some(Fault::NoSuchShard),
            };
        }
        let fault = match self.run_shards(rt, gate, workers, steps, &mut replies) {
            Ok(()) => None,
            Err(_) => Some(Fault::Memory),
        };
        ParOutcome { replies, fault }
    }
}

impl<K: KeptKey + Send + Drop, V: Kept + Send + Drop, S: BuildHasher + Send> DashMap<K, V, S> {
    /// As `Alone::par_run`, on this map, which nobody else has. It waits for nobody, even where a hold was leaked.
    ///
    /// The shards leave their locks for it and go back, which takes no memory.
    pub fn par_run<R: Threads + Sync, A: Action<K, V> + Send + Drop>(
        &mut self,
        rt: &R,
        steps: Vec<ShardStep<K, V, A>>,
        workers: usize,
    ) -> ParOutcome<K, V>
    where
        S::Hasher: Send,
        ensures ran { ParRunsBehind ⟦<Self as Keyed>⟧.by K.alike V.alike A.acts self.old self.new steps.items result }
        ensures same { shape self.new ≡ shape self.old }
    {
        self.par_run_gated(rt, steps, workers, &Open)
    }

    /// As `Alone::par_run_gated`, on this map.
    pub fn par_run_gated<R: Threads + Sync, A: Action<K, V> + Send + Drop, G: Gate>(
        &mut self,
        rt: &R,
        steps: Vec<ShardStep<K, V, A>>,
        workers: usize,
        gate: &G,
    ) -> ParOutcome<K, V>
    where
        S::Hasher: Send,
        ensures ran { ParRunsBehind ⟦<Self as Keyed>⟧.by K.alike V.alike A.acts self.old self.new steps.items result }
        ensures same { shape self.new ≡ shape self.old }
    {
        replace_with(
            self,
            (rt, steps, workers, gate),
            Self::par_run_alone::<R, A, G>,
        )
    }

    // The run, and the map after it.
    fn par_run_alone<R: Threads + Sync, A: Action<K, V> + Send + Drop, G: Gate>(
        self,
        run: (&R, Vec<ShardStep<K, V, A>>, usize, &G),
    ) -> (Self, ParOutcome<K, V>)
    where
        S::Hasher: Send,
        requires { IsSync R.row × IsSync G.row × IsSend A.row
            × IsSend K.row × IsSend V.row × IsSend S.row × IsSend S.Hasher.row }
        ensures ran { ParRunsBehind ⟦<Self as Keyed>⟧.by K.alike V.alike A.acts self result.0 run.entry.1.items result.1 }
        ensures same { shape result.0 ≡ shape self }
    {
        let (rt, steps, workers, gate) = run;
        let mut alone = self.alone();
        let outcome = alone.par_run_gated(rt, steps, workers, gate);
        (alone.end(), outcome)
    }
}
