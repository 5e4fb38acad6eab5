//! Lists of steps, taken one after the other or by two workers.

use crate::keys::{FULL, Key, Value, bare, pair_of};
use crate::map::maps::Tried;
use crate::trial::{Ended, needed};
use dashmap::run::{Fault, RunOutcome, ShardStep};
use std::alloc::{AllocError, Global};
use std::hash::BuildHasher;
use std::rt::Clock;
use std::sync::Wait;
use std::thread::Threads;

// How many steps there are, and how many there are up to the insert.
const STEPS: usize = 5;

const INSERT: usize = 3;

// Steps on shard 0: reads that take memory before and after an insert that does.
fn steps(alloc: Global) -> Result<Vec<ShardStep<Key, Value>>, AllocError> {
    let (key, value) = pair_of(alloc, FULL)?;
    let steps = [
        ShardStep::Get(bare(alloc, 0)),
        ShardStep::Read(0),
        ShardStep::Insert(key, value),
        ShardStep::Get(bare(alloc, FULL)),
        ShardStep::Count(0),
    ];
    needed(Vec::from_array(alloc, steps))
}

impl<S: BuildHasher + Drop> Tried<S> {
    /// `run`: where a step is refused (14) the steps before it were taken, and it comes back with those behind.
    pub fn run(&mut self) -> Result<Ended, AllocError> {
        let RunOutcome { replies, stopped } = self.map.run(steps(self.alloc)?);
        let taken = replies.len();
        let pairs = if taken < INSERT { FULL } else { FULL + 1 };
        Ok(match stopped {
            None => Ended::answered(pairs, taken == STEPS),
            Some((rest, fault)) => {
                let lawful = fault == Fault::Memory && rest.len() == STEPS.saturating_sub(taken);
                Ended::refused("Fault::Memory (14)", pairs, lawful)
            }
        })
    }
}

impl<S: BuildHasher + Send + Sync + Drop> Tried<S>
where
    S::Hasher: Send,
{
    /// `par_run` by two workers: where it is refused (14) each shard stands after a front of its own steps. These go to one shard.
    pub fn par_run<R: Threads + Wait + Clock + Sync>(
        &mut self,
        rt: &R,
    ) -> Result<Ended, AllocError> {
        let outcome = self.map.par_run(rt, steps(self.alloc)?, 2);
        let pairs = self.map.len(rt) as u64;
        let all = outcome.replies.len() == STEPS;
        Ok(match outcome.fault {
            None => Ended::answered(FULL + 1, all),
            Some(fault) => {
                let lawful = fault == Fault::Memory && pairs <= FULL + 1 && (all || pairs == FULL);
                Ended::refused("Fault::Memory (14)", pairs, lawful)
            }
        })
    }
}
