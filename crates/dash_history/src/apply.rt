//! Steps of callers on a map that threads share.
ghost use Rattle.std.specs.Prelude.{◌≡◌, ◌<◌};
ghost use Rattle.dash_history.specs.Words.{Locked, Logs};

use crate::record::map::RecordedMap;
use crate::record::{CallerLog, RecordFault};
use dash_steps::action::KeptAction;
use dash_steps::kept::{Kept, KeptKey};
use dash_steps::known::Recorded;
use dash_steps::step::{Reply, ShardStep};
use std::hash::BuildHasher;
use std::rt::Clock;
use std::sync::Wait;

impl<K: KeptKey + Drop, V: Kept + Drop, S: BuildHasher, A: KeptAction<K, V> + Drop> RecordedMap<
    K,
    V,
    S,
    A,
> {
    /// Waits for the shard of the step's number, takes the step there, and adds one same record of it at the end of the shard's
    /// history and of the caller's log.
    ///
    /// Where it is refused (24, then 20, then 18, then 19), the step is handed back, and pairs, history and log stay as they were.
    pub fn apply<R: Wait + Clock>(
        &self,
        rt: &R,
        log: &mut CallerLog<K, V, A>,
        step: ShardStep<K, V, A>,
    ) -> Result<Reply<K, V>, (ShardStep<K, V, A>, RecordFault)>
        requires { log.old.caller < self.now.callers }
        ensures logs { Logs ⟦<Self as Recorded>⟧.known self.now log.old log.new step result }
        ensures locked { result ≡ Err (step, Locked) → ⊥ }
    {
        if step.is_part() {
            return Err((step, RecordFault::Part));
        }
        let (hash, idx) = self.route(&step);
        if idx >= self.shard_count() {
            return Err((step, RecordFault::NoSuchShard));
        }
        self.held(rt, idx).record_hashed(log, hash, step)
    }

    /// As `apply`, but it waits for nobody: where somebody holds the shard, the step is refused.
    ///
    /// Where it is refused (24, then 20, then 21, then 18, then 19), the step is handed back, and pairs, history and log stay as
    /// they were.
    pub fn try_apply(
        &self,
        log: &mut CallerLog<K, V, A>,
        step: ShardStep<K, V, A>,
    ) -> Result<Reply<K, V>, (ShardStep<K, V, A>, RecordFault)>
        requires { log.old.caller < self.now.callers }
        ensures logs { Logs ⟦<Self as Recorded>⟧.known self.now log.old log.new step result }
    {
        if step.is_part() {
            return Err((step, RecordFault::Part));
        }
        let (hash, idx) = self.route(&step);
        if self.shard_count() <= idx {
            return Err((step, RecordFault::NoSuchShard));
        }
        match self.try_held(idx) {
            Some(mut held) => held.record_hashed(log, hash, step),
            None => Err((step, RecordFault::Locked)),
        }
    }
}
