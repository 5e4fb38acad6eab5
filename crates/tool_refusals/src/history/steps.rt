//! The steps that a caller of a recorded map takes.

ghost use Rattle.std.specs.Prelude.{◌<◌};

use crate::history::recorded::{Log, Map, Recorded, Step};
use crate::keys::{FULL, Key, Value, key_of, pair_of};
use crate::trial::{Ended, needed};
use dash_history::record::RecordFault;
use dash_steps::kept::Kept;
use dash_steps::step::{Reply, ShardStep};
use std::alloc::{AllocError, Global};
use std::hash::BuildHasher;
use std::rt::Clock;
use std::sync::Wait;

const RECORD: &str = "RecordFault::Memory (19)";

impl<S: BuildHasher + Drop> Recorded<S> {
    /// A step by caller 0: where it is refused (19) it comes back.
    pub fn step<R>(&mut self, rt: &R, call: &str, way: &str) -> Result<Ended, AllocError>
    where
        R: Wait + Clock,
    {
        Ok(match self.sent(rt, call, way, RecordFault::Memory)? {
            None => {
                self.records = self.records.saturating_add(2);
                Ended::answered(pairs_after(call), true)
            }
            Some(lawful) => Ended::refused(RECORD, FULL, lawful),
        })
    }

    /// A step by caller 0 where a stamp is the last: it comes back (18), whatever memory there is.
    pub fn step_at_last<R>(&mut self, rt: &R, call: &str, way: &str) -> Result<Ended, AllocError>
    where
        R: Wait + Clock,
    {
        let came_back = self.sent(rt, call, way, RecordFault::LastStamp)?;
        Ok(Ended::answered(FULL, came_back == Some(true)))
    }

    // Sends a step by caller 0, and says whether it came back as it was, by this refusal, unless it was taken.
    fn sent<R: Wait + Clock>(
        &mut self,
        rt: &R,
        call: &str,
        way: &str,
        wanted: RecordFault,
    ) -> Result<Option<bool>, AllocError> {
        let step = step_of(self.alloc, call)?;
        let Ok(copy) = step.copy() else {
            drop(step);
            return Err(AllocError);
        };
        let taken = apply(rt, &self.map, self.logs.first_mut(), step, way);
        Ok(came_back(taken, copy, wanted))
    }

    /// A step of all shards by caller 0 where a stamp is the last.
    pub fn whole_at_last<R: Wait + Clock>(&mut self, rt: &R, call: &str) -> Ended {
        let counted = counted(rt, &self.map, self.logs.first_mut(), call);
        Ended::answered(FULL, counted == Err(RecordFault::LastStamp))
    }

    /// Makes the last stamp that of the log of caller 0.
    pub fn spend_log(&mut self) {
        if let Some(log) = self.logs.first_mut() {
            log.learn(u64::MAX);
        }
    }

    /// Makes it that of shard 0, by a step of caller 1.
    pub fn spend_shard<R: Wait + Clock>(&mut self, rt: &R) -> Result<(), AllocError> {
        let Some(log) = self.logs.get_mut(1) else {
            return Ok(());
        };
        log.learn(u64::MAX - 1);
        let count = ShardStep::Count(0);
        drop(needed(apply(rt, &self.map, Some(log), count, "apply"))?);
        self.records = self.records.saturating_add(2);
        Ok(())
    }

    /// A step of all shards by caller 0, which has a record in each.
    pub fn whole<R: Wait + Clock>(&mut self, rt: &R, call: &str) -> Ended {
        match counted(rt, &self.map, self.logs.first_mut(), call) {
            Ok(count) => {
                self.records = self.records.saturating_add(8);
                Ended::answered(FULL, count == FULL)
            }
            Err(fault) => Ended::refused(RECORD, FULL, fault == RecordFault::Memory),
        }
    }
}

/// Takes a step by the call that `way` names.
pub fn apply<R: Wait + Clock, S: BuildHasher + Drop>(
    rt: &R,
    map: &Map<S>,
    log: Option<&mut Log>,
    step: Step,
    way: &str,
) -> Result<Reply<Key, Value>, (Step, RecordFault)> {
    match log {
        Some(log) if log.caller() < map.callers() => match way {
            "apply" => map.apply(rt, log, step),
            "try_apply" => map.try_apply(log, step),
            _ => record(rt, map, log, step),
        },
        _ => Err((step, RecordFault::NoSuchShard)),
    }
}

// Whether a step came back as it was, by this refusal, unless it was taken.
fn came_back<T: Drop>(
    taken: Result<T, (Step, RecordFault)>,
    copy: Step,
    wanted: RecordFault,
) -> Option<bool> {
    let came_back = match &taken {
        Ok(_) => None,
        Err((step, fault)) => Some(*fault == wanted && step.same(&copy)),
    };
    drop((taken, copy));
    came_back
}

// How many pairs a step of all shards counts, or copies.
fn counted<R: Wait + Clock, S: BuildHasher + Drop>(
    rt: &R,
    map: &Map<S>,
    log: Option<&mut Log>,
    call: &str,
) -> Result<u64, RecordFault> {
    match log {
        Some(log) if log.caller() < map.callers() => match call {
            "count_all" => map.count_all(rt, log),
            "try_count_all" => map.try_count_all(log),
            "clone_all" => count_of(map.clone_all(rt, log)),
            _ => count_of(map.try_clone_all(log)),
        },
        _ => Err(RecordFault::NoSuchShard),
    }
}

// How many copies there are.
fn count_of<T: Drop>(copies: Result<Vec<T>, RecordFault>) -> Result<u64, RecordFault> {
    Ok(copies?.len() as u64)
}

// A step of shard 0 by the held shard.
fn record<R: Wait + Clock, S: BuildHasher + Drop>(
    rt: &R,
    map: &Map<S>,
    log: &mut Log,
    step: Step,
) -> Result<Reply<Key, Value>, (Step, RecordFault)>
    requires { log.old.caller < map.now.callers }
{
    if map.shard_count() == 0 {
        return Err((step, RecordFault::NoSuchShard));
    }
    let mut held = map.held(rt, 0);
    let routes = match step.key() {
        Ok(key) => held.routes(key),
        Err(number) => number == held.number(),
    };
    if routes {
        held.record(log, step)
    } else {
        Err((step, RecordFault::NoSuchShard))
    }
}

// The step of this name on shard 0.
fn step_of(alloc: Global, call: &str) -> Result<Step, AllocError> {
    Ok(match call {
        "insert" => {
            let (key, value) = pair_of(alloc, FULL)?;
            ShardStep::Insert(key, value)
        }
        "read" => ShardStep::Read(0),
        "count" => ShardStep::Count(0),
        "alter_all" => ShardStep::AlterAll(0, ()),
        "retain" => ShardStep::Retain(0, ()),
        _ => step_on(key_of(alloc, 0)?, call),
    })
}

// The step of this name on a key that is there.
fn step_on(key: Key, call: &str) -> Step {
    match call {
        "get" => ShardStep::Get(key),
        "contains" => ShardStep::Contains(key),
        "remove" => ShardStep::Remove(key),
        "remove_if" => ShardStep::RemoveIf(key, ()),
        "remove_if_mut" => ShardStep::RemoveIfMut(key, ()),
        _ => ShardStep::Alter(key, ()),
    }
}

// How many pairs there are after the step of this name.
fn pairs_after(call: &str) -> u64 {
    match call {
        "insert" => FULL + 1,
        "remove" | "remove_if" | "remove_if_mut" => FULL - 1,
        _ => FULL,
    }
}
