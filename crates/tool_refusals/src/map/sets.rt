//! Calls on a set whose first shard is full.
ghost use Rattle.dash_shard.specs.Hashing.{HashAlike};

use crate::keys::{FULL, Key, bare, is_key_of, key_of, number_of};
use crate::map::lists::{MORE, front_of};
use crate::map::maps::{Map, Tried};
use crate::trial::Ended;
use dashmap::DashSet;
use dashmap::error::ExtendRefused;
use dashmap::keyed::Keyed;
use std::alloc::{AllocError, Global};
use std::hash::BuildHasher;
use std::rt::Clock;
use std::sync::Wait;
use std::thread::Threads;

impl<S: BuildHasher + Clone + Copy + Default + Send + Sync + Drop> Tried<S>
where
    S::Hasher: Send + Sync,
{
    /// How a call on a set ended, or another.
    pub fn on_set<R>(&mut self, rt: &R, call: &str) -> Result<Ended, AllocError>
    where
        R: Threads + Wait + Clock + Sync,
        requires { (s t : S) → S.is_clone s t → HashAlike ⟦<Map<S> as Keyed>⟧.by s t }
    {
        match call {
            "set_insert" => self.set_insert(rt),
            "set_extend" => self.set_extend(),
            "set_par_extend" => self.set_par_extend(rt, false),
            "set_par_extend_shared" => self.set_par_extend(rt, true),
            "set_iter" => Ok(self.set_iter(rt)),
            "set_clone" | "set_collect" | "set_map_collect" => self.on_full_set(rt, call),
            _ => self.on_cache(rt, call),
        }
    }

    // How a call on a set ended that changes nothing, refused (4) or not.
    fn on_full_set<R>(&self, rt: &R, call: &str) -> Result<Ended, AllocError>
    where
        R: Threads + Wait + Clock + Sync,
        requires { (s t : S) → S.is_clone s t → HashAlike ⟦<Map<S> as Keyed>⟧.by s t }
    {
        Ok(match call {
            "set_clone" => Ended::by_memory(FULL, self.set_clone(rt)),
            "set_collect" => return self.set_collect(rt),
            _ => {
                let numbers = self.set.par_iter().map_collect(rt, number_of);
                Ended::listed(FULL, FULL, numbers)
            }
        })
    }

    // By two workers.
    fn set_par_extend<R: Threads + Wait + Clock + Sync>(
        &mut self,
        rt: &R,
        shared: bool,
    ) -> Result<Ended, AllocError> {
        let list = keys_from(self.alloc, FULL, MORE)?;
        let extended = if shared {
            self.set.par_extend_shared(rt, list, 2)
        } else {
            self.set.par_extend(rt, list, 2)
        };
        Ok(front_of(extended, self.set.len(rt)))
    }

    fn set_clone<R: Wait + Clock>(&self, rt: &R) -> Result<bool, AllocError>
        requires { (s t : S) → S.is_clone s t → HashAlike ⟦<Map<S> as Keyed>⟧.by s t }
    {
        let copy = self.set.clone(rt)?;
        Ok(set_has(rt, self.alloc, &copy, FULL))
    }

    // On a set of its own, whose keys are dropped where it is refused (4).
    fn set_collect<R: Threads + Wait + Clock + Sync>(&self, rt: &R) -> Result<Ended, AllocError>
        requires { (s t : S) → S.is_clone s t → HashAlike ⟦<Map<S> as Keyed>⟧.by s t }
    {
        let keys = self.set.clone(rt)?.into_par_iter().collect(rt);
        Ok(Ended::listed(FULL, FULL, keys))
    }
}

impl<S: BuildHasher + Drop> Tried<S> {
    // Where it is refused (16) the key comes back.
    fn set_insert<R: Wait + Clock>(&self, rt: &R) -> Result<Ended, AllocError> {
        let key = key_of(self.alloc, FULL)?;
        Ok(match self.set.insert(rt, key) {
            Ok(is_new) => Ended::answered(FULL + 1, is_new),
            Err(key) => Ended::refused("the key (16)", FULL, is_key_of(&key, FULL)),
        })
    }

    // Where it is refused (12) the keys before the refused one stay.
    fn set_extend(&mut self) -> Result<Ended, AllocError> {
        let list = keys_from(self.alloc, FULL, MORE)?;
        Ok(match self.set.extend(list) {
            Ok(()) => Ended::answered(FULL + MORE, true),
            Err(ExtendRefused { key, value: () }) => {
                let number = number_of(&key);
                Ended::refused("ExtendRefused (12)", number, number >= FULL)
            }
        })
    }

    // Where a step is refused (4) the walk is over and gives nothing more.
    fn set_iter<R: Wait + Clock>(&self, rt: &R) -> Ended {
        let mut walk = self.set.iter(rt);
        let mut count = 0u64;
        while let Some(item) = walk.next() {
            if item.is_err() {
                return Ended::refused("AllocError (4)", FULL, walk.next().is_none());
            }
            count = count.saturating_add(1);
        }
        Ended::answered(FULL, count == FULL)
    }
}

/// The keys of the numbers from `first` on, so many.
pub fn keys_from(alloc: Global, first: u64, count: u64) -> Result<Vec<Key>, AllocError> {
    let mut keys = Vec::new(alloc);
    for step in 0..count {
        keys.push(key_of(alloc, first.wrapping_add(step))?)?;
    }
    Ok(keys)
}

/// Whether a set has the keys of the numbers below `keys` and no other.
pub fn set_has<R: Wait + Clock, S: BuildHasher + Drop>(
    rt: &R,
    alloc: Global,
    set: &DashSet<Key, S>,
    keys: u64,
) -> bool {
    let mut has = set.len(rt) as u64 == keys;
    for number in 0..keys {
        has &= set.contains(rt, &bare(alloc, number));
    }
    has
}
