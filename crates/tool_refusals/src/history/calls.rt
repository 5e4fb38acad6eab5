//! The calls of a recorded map.
ghost use Rattle.dash_shard.specs.Hashing.{HashAlike};

use crate::history::recorded::{Map, Recorded};
use crate::keys::{FULL, Key, Value};
use crate::trial::{Ended, Outcome};
use core::mem::replace_with;
use dash_history::gather::{At, GatherError, gather};
use dash_history::record::map::RecordedMap;
use dash_steps::known::Recorded as Known;
use std::alloc::{AllocError, Global};
use std::hash::BuildHasher;
use std::rt::Clock;
use std::sync::Wait;

impl<S: BuildHasher + Clone + Copy + Drop> Recorded<S> {
    /// Takes the call of this name, a step by the call that `way` names, and where it is refused takes it again.
    pub fn trial<R: Wait + Clock>(&mut self, rt: &R, call: &str, way: &str) -> Outcome
        requires { (s t : S) → S.is_clone s t → HashAlike ⟦<Map<S> as Known>⟧.known.keys s t }
    {
        let outcome = self.take(rt, call, way);
        if outcome.is_refused() {
            outcome.then(self.take(rt, call, way))
        } else {
            outcome
        }
    }

    // Takes a call, and looks at what it left.
    fn take<R: Wait + Clock>(&mut self, rt: &R, call: &str, way: &str) -> Outcome
        requires { (s t : S) → S.is_clone s t → HashAlike ⟦<Map<S> as Known>⟧.known.keys s t }
    {
        let Ok(ended) = self.ended(rt, call, way) else {
            return Outcome::Setup;
        };
        match self.has(ended.pairs) {
            Ok(stands) => ended.left(stands),
            Err(_) => Outcome::Unseen,
        }
    }

    // How a call ended.
    fn ended<R: Wait + Clock>(&mut self, rt: &R, call: &str, way: &str) -> Result<Ended, AllocError>
        requires { (s t : S) → S.is_clone s t → HashAlike ⟦<Map<S> as Known>⟧.known.keys s t }
    {
        match call {
            "recorded_new" => Ok(new(self.alloc, self.hasher)),
            "gather" => Ok(self.gather()),
            "merged" => Ok(self.merged()),
            "recorded_pairs" => Ok(Ended::listed(FULL, FULL, self.map.pairs())),
            "entry_at" => Ok(Ended::answered(FULL, self.has_first())),
            "count_all" | "try_count_all" | "clone_all" | "try_clone_all" => {
                Ok(self.whole(rt, call))
            }
            _ => match call.split_once('_') {
                Some(("last", call)) => {
                    self.spend_log();
                    self.ended_at_last(rt, call, way)
                }
                Some(("spent", call)) => {
                    self.spend_shard(rt)?;
                    self.ended_at_last(rt, call, way)
                }
                _ => self.step(rt, call, way),
            },
        }
    }

    // How a step ended where a stamp is the last.
    fn ended_at_last<R>(&mut self, rt: &R, call: &str, way: &str) -> Result<Ended, AllocError>
    where
        R: Wait + Clock,
    {
        match call {
            "count_all" | "try_count_all" | "clone_all" | "try_clone_all" => {
                Ok(self.whole_at_last(rt, call))
            }
            _ => self.step_at_last(rt, call, way),
        }
    }
}

// `new`: where it is refused (8) nothing is made.
fn new<S: BuildHasher + Clone + Drop>(alloc: Global, hasher: S) -> Ended
    requires { (s t : S) → S.is_clone s t → HashAlike ⟦<Map<S> as Known>⟧.known.keys s t }
{
    match RecordedMap::<Key, Value, S>::new(alloc, hasher, 4, 2).err() {
        None => Ended::answered(FULL, true),
        Some(refused) => Ended::not_made(refused),
    }
}

impl<S: BuildHasher + Drop> Recorded<S> {
    fn gather(&mut self) -> Ended {
        match gather(&mut self.map, &self.logs) {
            Ok(order) => Ended::answered(FULL, order.len() == self.records / 2),
            Err(fault) => {
                let lawful = fault == GatherError::Memory;
                Ended::refused("GatherError::Memory (23)", FULL, lawful)
            }
        }
    }

    fn merged(&mut self) -> Ended {
        let order = replace_with(&mut self.map, (), merged);
        Ended::listed(FULL, self.records as u64 / 2, order)
    }

    // Whether there is a first record of shard 0.
    fn has_first(&mut self) -> bool {
        self.map.shard_count() != 0 && self.map.entry_at(0, 0).is_some()
    }
}

// The merge of the histories, and the map after it.
fn merged<S: BuildHasher + Drop>(map: Map<S>, _: ()) -> (Map<S>, Result<Vec<At>, AllocError>) {
    let alone = map.alone();
    let merged = alone.merged();
    (alone.end(), merged)
}
