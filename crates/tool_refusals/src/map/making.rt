//! Calls that make a map of the one that is there, take it apart, or make one with a hasher.
ghost use Rattle.dash_shard.specs.Hashing.{HashAlike};

use crate::keys::{FULL, Key, Value, bare, is_list_of};
use crate::map::fixed::{made, take_fixed};
use crate::map::listed::take_list;
use crate::map::maps::{Map, Tried, ended_with, has};
use crate::trial::Ended;
use dashmap::ReadOnlyView;
use dashmap::keyed::Keyed;
use std::alloc::{AllocError, Global};
use std::hash::BuildHasher;
use std::rt::Clock;
use std::sync::Wait;
use std::thread::Threads;

// The map as a view.
type View<S> = ReadOnlyView<Key, Value, S>;

impl<S: BuildHasher + Clone + Copy + Default + Send + Sync + Drop> Tried<S>
where
    S::Hasher: Send + Sync,
{
    /// How a call on a copy of the map ended, or another.
    pub fn on_copy<R>(&self, rt: &R, call: &str) -> Result<Ended, AllocError>
    where
        R: Threads + Wait + Clock + Sync,
        requires { (s t : S) → S.is_clone s t → HashAlike ⟦<Map<S> as Keyed>⟧.by s t }
    {
        match call {
            "clone" => Ok(Ended::by_memory(FULL, self.clone(rt))),
            "into_read_only" => self.into_read_only(rt),
            "view_clone" => self.view_clone(rt),
            "into_inner" => self.into_inner(rt),
            "collect" => self.collect(rt),
            _ => self.construct(rt, call),
        }
    }

    fn clone<R: Wait + Clock>(&self, rt: &R) -> Result<bool, AllocError>
        requires { (s t : S) → S.is_clone s t → HashAlike ⟦<Map<S> as Keyed>⟧.by s t }
    {
        let copy = self.map.clone(rt)?;
        Ok(has(rt, self.alloc, &copy, FULL))
    }

    // A view of a copy.
    fn view<R: Wait + Clock>(&self, rt: &R) -> Result<View<S>, AllocError>
        requires { (s t : S) → S.is_clone s t → HashAlike ⟦<Map<S> as Keyed>⟧.by s t }
    {
        Ok(self.map.clone(rt)?.into_read_only())
    }

    fn into_read_only<R: Wait + Clock>(&self, rt: &R) -> Result<Ended, AllocError>
        requires { (s t : S) → S.is_clone s t → HashAlike ⟦<Map<S> as Keyed>⟧.by s t }
    {
        let view = self.view(rt)?;
        Ok(Ended::answered(FULL, shows_all(self.alloc, &view)))
    }

    // Where it is refused (4) the view is unchanged.
    fn view_clone<R: Wait + Clock>(&self, rt: &R) -> Result<Ended, AllocError>
        requires { (s t : S) → S.is_clone s t → HashAlike ⟦<Map<S> as Keyed>⟧.by s t }
    {
        let view = self.view(rt)?;
        Ok(match view.clone() {
            Ok(copy) => Ended::answered(FULL, shows_all(self.alloc, &copy)),
            Err(_) => Ended::refused("AllocError (4)", FULL, shows_all(self.alloc, &view)),
        })
    }

    // Where it is refused (15) the view comes back whole.
    fn into_inner<R: Wait + Clock>(&self, rt: &R) -> Result<Ended, AllocError>
        requires { (s t : S) → S.is_clone s t → HashAlike ⟦<Map<S> as Keyed>⟧.by s t }
    {
        let alloc = self.alloc;
        Ok(match self.view(rt)?.into_inner(alloc) {
            Ok(map) => Ended::answered(FULL, has(rt, alloc, &map, FULL)),
            Err(refused) => {
                let whole = shows_all(alloc, &refused.owner);
                let again = refused.owner.into_inner(alloc).is_ok();
                Ended::refused("ViewRefused (15)", FULL, whole && again)
            }
        })
    }

    // Where it is refused (4) the pairs are dropped.
    fn collect<R: Threads + Wait + Clock + Sync>(&self, rt: &R) -> Result<Ended, AllocError>
        requires { (s t : S) → S.is_clone s t → HashAlike ⟦<Map<S> as Keyed>⟧.by s t }
    {
        Ok(ended_with(self.map.clone(rt)?.into_par_iter().collect(rt)))
    }

    // Takes a constructor with a hasher.
    fn construct<R>(&self, rt: &R, call: &str) -> Result<Ended, AllocError>
    where
        R: Threads + Wait + Clock + Sync,
        requires { (s t : S) → S.is_clone s t → HashAlike ⟦<Map<S> as Keyed>⟧.by s t }
    {
        let (alloc, hasher) = (self.alloc, *self.map.hasher());
        let map = match call {
            "with_hasher" => Map::with_hasher(alloc, hasher, 1),
            "with_capacity_and_hasher" => Map::with_capacity_and_hasher(alloc, 20, hasher, 1),
            "with_hasher_and_shard_amount" => Map::with_hasher_and_shard_amount(alloc, hasher, 4),
            "with_capacity_and_hasher_and_shard_amount" => {
                Map::with_capacity_and_hasher_and_shard_amount(alloc, 20, hasher, 4)
            }
            _ => return self.make_of_list(rt, call),
        };
        Ok(made(rt, alloc, 0, map))
    }

    // Takes a constructor of a list, or one with the default hasher.
    fn make_of_list<R>(&self, rt: &R, call: &str) -> Result<Ended, AllocError>
    where
        R: Threads + Wait + Clock + Sync,
        requires { (s t : S) → S.is_clone s t → HashAlike ⟦<Map<S> as Keyed>⟧.by s t }
    {
        match call {
            "from_pairs" | "from_iter" | "from_par_iter" | "set_from_iter" | "set_from_par_iter" =>
                { take_list::<R, S>(rt, self.alloc, call) }
            _ => take_fixed(rt, self.alloc, call),
        }
    }
}

// Whether a view has the pairs of the numbers below `FULL` and no other.
fn shows_all<S: BuildHasher + Drop>(alloc: Global, view: &View<S>) -> bool {
    let mut all = view.len() as u64 == FULL;
    for number in 0..FULL {
        match view.get(&bare(alloc, number)) {
            Some(value) => all &= is_list_of(value, number),
            None => all = false,
        }
    }
    all
}
