//! Runs: lists of steps that one owner takes, with their replies.
ghost use Rattle.std.specs.Prelude.{◌≡◌, ◌<◌, IfOk, IfErr, length};
ghost use Rattle.dash_map.specs.Words.{IsAlone, KeepsRoom, WalksGive, keys_in, rules, step_of};
ghost use Rattle.dash_map.specs.inner.Run.{TakesLike, IsMissing};

use crate::alone::Alone;
use crate::map::DashMap;
use core::mem::replace_with;
use dash_shard::keyed::Keyed;
use dash_steps::action::Action;
use dash_steps::kept::{Kept, KeptKey};
use dash_steps::step::{Reply, ShardStep};
use dash_steps::take::take;
use std::hash::BuildHasher;
use thiserror::Error;

/// Why a run stops. The step that is refused changes nothing.
#[derive(Clone, Copy, Debug, PartialEq, Eq, Error)]
pub enum Fault {
    /// The map has no shard of the number that the step names.
    #[error("no such shard (13)")]
    NoSuchShard,
    /// There is no memory.
    #[error("no memory (14)")]
    Memory,
}

/// What a run returns: the replies to the steps that were taken, in their order, and where it stopped the steps from the refused one on,
/// with the reason.
#[derive(Debug, Drop)]
pub struct RunOutcome<K, V, A = ()> {
    pub replies: Vec<Reply<K, V>>,
    pub stopped: Option<(Vec<ShardStep<K, V, A>>, Fault)>,
}

impl<K: KeptKey + Drop, V: Kept + Drop, S: BuildHasher> Alone<K, V, S> {
    ghost use Rattle.dash_map.specs.Run.{RanAlone, IsRefused};

    // Why the first of these steps is refused where there is no memory.
    fn first_fault<A: Action<K, V>>(&self, steps: &[ShardStep<K, V, A>]) -> Fault
        requires { 0 < length steps.now }
        ensures { IsRefused (rules K.alike V.alike (keys_in ⟦<Self as Keyed>⟧.by self.now)) A.acts steps.now result }
    {
        let amount = self.row.len();
        if steps[0].shard(&self.hasher, amount) < amount {
            Fault::Memory
        } else {
            Fault::NoSuchShard
        }
    }

    // Takes the step on the step's shard, or hands it back where there is no such shard, or no memory.
    fn take<A: Action<K, V> + Drop>(
        &mut self,
        step: ShardStep<K, V, A>,
    ) -> Result<Reply<K, V>, (ShardStep<K, V, A>, Fault)>
        requires { IsAlone ⟦<Self as Keyed>⟧.by self.old }
        ensures taken { IfOk result (TakesLike ⟦<Self as Keyed>⟧.by K.alike V.alike self.old self.new (step_of A.acts step)) }
        ensures refused { IfErr result (λ e. (e.0 ≡ step) × (self.new ≡ self.old)) }
        ensures fault { IfErr result (λ e. IsMissing ⟦<Self as Keyed>⟧.by self.old (step_of A.acts step) e.1) }
        ensures stays { KeepsRoom self.old self.new }
        ensures lawful { IsAlone ⟦<Self as Keyed>⟧.by self.new }
    {
        let amount = self.row.len();
        let (hash, shard) = step.route(&self.hasher, amount);
        if shard >= amount {
            return Err((step, Fault::NoSuchShard));
        }
        let taken = take(&mut self.row[shard], hash, step);
        match taken {
            Ok(reply) => Ok(reply),
            Err(step) => Err((step, Fault::Memory)),
        }
    }

    /// Takes the steps in their order, each on the step's shard, up to the first that is refused (13, 14), and returns what they
    /// reply. It waits for nobody.
    ///
    /// It takes memory for the replies, before the first step, for an `Insert` as `insert` does, and for copies of pairs: those that a
    /// `Get` or a `Read` returns, and the one that an action is asked of. `AlterAll` and `Retain` change the shard in place, and take
    /// none, nor do the steps that it leaves. The original has no such call.
    pub fn run<A: Action<K, V> + Drop>(
        &mut self,
        mut steps: Vec<ShardStep<K, V, A>>,
    ) -> RunOutcome<K, V, A>
        ensures ran { RanAlone ⟦<Self as Keyed>⟧.by K.alike V.alike A.acts self.old self.new steps.items result }
        ensures walks { WalksGive (rules K.alike V.alike (keys_in ⟦<Self as Keyed>⟧.by self.old)) }
        ensures stays { KeepsRoom self.old self.new }
        ensures lawful { IsAlone ⟦<Self as Keyed>⟧.by self.new }
    {
        // Only a look at the map tells the prover its invariant, which a run of no steps needs too.
        let _ = &self.hasher;
        let alloc = *steps.allocator();
        let Ok(mut replies) = Vec::with_capacity(alloc, steps.len()) else {
            let fault = self.first_fault(&steps);
            return RunOutcome {
                replies: Vec::new(alloc),
                stopped: Some((steps, fault)),
            };
        };
        // The next step stands at the end, where it is taken off without a move of the others.
        steps.reverse();
        while let Some(step) = steps.pop() {
            match self.take(step) {
                Ok(reply) => replies.push_reserved(reply),
                Err((step, fault)) => {
                    steps.push_reserved(step);
                    steps.reverse();
                    return RunOutcome {
                        replies,
                        stopped: Some((steps, fault)),
                    };
                }
            }
        }
        RunOutcome {
            replies,
            stopped: None,
        }
    }
}

impl<K: KeptKey + Drop, V: Kept + Drop, S: BuildHasher> DashMap<K, V, S> {
    ghost use Rattle.dash_map.specs.Run.{RanBehind};
    ghost use Rattle.dash_map.specs.Map.{shape};

    /// As `Alone::run`, on this map, which nobody else has. It waits for nobody, even where a hold was leaked.
    ///
    /// The shards leave their locks for it and go back, which takes no memory.
    pub fn run<A: Action<K, V> + Drop>(
        &mut self,
        steps: Vec<ShardStep<K, V, A>>,
    ) -> RunOutcome<K, V, A>
        ensures ran { RanBehind ⟦<Self as Keyed>⟧.by K.alike V.alike A.acts self.old self.new steps.items result }
        ensures same { shape self.new ≡ shape self.old }
    {
        replace_with(self, steps, Self::run_alone::<A>)
    }

    // The run, and the map after it.
    fn run_alone<A: Action<K, V> + Drop>(
        self,
        steps: Vec<ShardStep<K, V, A>>,
    ) -> (Self, RunOutcome<K, V, A>)
        ensures ran { RanBehind ⟦<Self as Keyed>⟧.by K.alike V.alike A.acts self result.0 steps.items result.1 }
        ensures same { shape result.0 ≡ shape self }
    {
        let mut alone = self.alone();
        let outcome = alone.run(steps);
        (alone.end(), outcome)
    }
}
