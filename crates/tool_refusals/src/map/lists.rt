//! Lists of pairs that are put into a map, by one worker or by two.
ghost use Rattle.dash_shard.specs.Hashing.{HashAlike};

use crate::keys::{FULL, is_pair_of, number_of, pairs_from};
use crate::map::maps::{Map, Tried};
use crate::trial::Ended;
use dashmap::error::ExtendRefused;
use dashmap::keyed::Keyed;
use std::alloc::AllocError;
use std::hash::BuildHasher;
use std::rt::Clock;
use std::sync::Wait;
use std::thread::Threads;

/// So many pairs are put in behind those that fill the shard, by calls that take a list.
pub const MORE: u64 = 20;

impl<S: BuildHasher + Clone + Copy + Default + Send + Sync + Drop> Tried<S>
where
    S::Hasher: Send + Sync,
{
    /// How a call with a list ended, or another.
    pub fn on_list<R>(&mut self, rt: &R, call: &str) -> Result<Ended, AllocError>
    where
        R: Threads + Wait + Clock + Sync,
        requires { (s t : S) → S.is_clone s t → HashAlike ⟦<Map<S> as Keyed>⟧.by s t }
    {
        match call {
            "extend" => self.extend(),
            "par_extend" => self.par_extend(rt, false),
            "par_extend_shared" => self.par_extend(rt, true),
            "run" => self.run(),
            "par_run" => self.par_run(rt),
            _ => self.on_set(rt, call),
        }
    }

    // By two workers.
    fn par_extend<R: Threads + Wait + Clock + Sync>(
        &mut self,
        rt: &R,
        shared: bool,
    ) -> Result<Ended, AllocError> {
        let list = pairs_from(self.alloc, FULL, MORE)?;
        let extended = if shared {
            self.map.par_extend_shared(rt, list, 2)
        } else {
            self.map.par_extend(rt, list, 2)
        };
        Ok(front_of(extended, self.map.len(rt)))
    }
}

impl<S: BuildHasher + Drop> Tried<S> {
    // Where it is refused (12) the pairs before the refused one stay.
    fn extend(&mut self) -> Result<Ended, AllocError> {
        let list = pairs_from(self.alloc, FULL, MORE)?;
        Ok(match self.map.extend(list) {
            Ok(()) => Ended::answered(FULL + MORE, true),
            Err(ExtendRefused { key, value }) => {
                let number = number_of(&key);
                let lawful = number >= FULL && is_pair_of(&key, &value, number);
                Ended::refused("ExtendRefused (12)", number, lawful)
            }
        })
    }
}

/// How workers ended who put a list into a map or a set, that then has so many: where they are refused (4) each shard stands after a front of
/// its own items. These go to one shard.
pub fn front_of(extended: Result<(), AllocError>, count: usize) -> Ended {
    let count = count as u64;
    match extended {
        Ok(()) => Ended::answered(FULL + MORE, true),
        Err(_) => {
            let front = FULL <= count && count < FULL + MORE;
            Ended::refused("AllocError (4)", count, front)
        }
    }
}
