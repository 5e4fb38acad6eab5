//! A map whose first shard is full, which calls are taken on, beside a set and a cache.
ghost use Rattle.dash_shard.specs.Hashing.{HashAlike};

use crate::keys::{FULL, Key, Value, bare, is_list_of, number_of, pairs_from};
use crate::map::caches::{Echo, Echoed};
use crate::map::sets::{keys_from, set_has};
use crate::trial::{Ended, Outcome, needed};
use dashmap::keyed::Keyed;
use dashmap::try_result::TryResult;
use dashmap::{DashMap, DashSet, Memo};
use std::alloc::{AllocError, Global};
use std::hash::BuildHasher;
use std::rt::Clock;
use std::sync::Wait;
use std::thread::Threads;

/// A map.
pub type Map<S> = DashMap<Key, Value, S>;

/// A map, a set and a cache of four shards. Map and set have the numbers below `FULL`, which fill shard 0: one more takes memory.
#[derive(Drop)]
pub struct Tried<S: BuildHasher> {
    pub alloc: Global,
    pub map: Map<S>,
    pub set: DashSet<Key, S>,
    pub cache: Memo<Key, Echoed, Echo, S>,
}

impl<S: BuildHasher + Clone + Copy + Drop> Tried<S> {
    /// Makes what calls are taken on.
    pub fn begin(alloc: Global, hasher: S) -> Result<Self, AllocError>
        requires { (s t : S) → S.is_clone s t → HashAlike ⟦<Map<S> as Keyed>⟧.by s t }
    {
        let mut map = needed(Map::with_hasher_and_shard_amount(alloc, hasher, 4))?;
        needed(map.extend(pairs_from(alloc, 0, FULL)?))?;
        let mut set = needed(DashSet::with_hasher(alloc, hasher, 1))?;
        needed(set.extend(keys_from(alloc, 0, FULL)?))?;
        let cache = needed(Memo::with_hasher_and_shard_amount(alloc, Echo, hasher, 4))?;
        Ok(Tried {
            alloc,
            map,
            set,
            cache,
        })
    }
}

impl<S: BuildHasher + Clone + Copy + Default + Send + Sync + Drop> Tried<S>
where
    S::Hasher: Send + Sync,
{
    /// Takes the call of this name, and where it is refused takes it again.
    pub fn trial<R: Threads + Wait + Clock + Sync>(&mut self, rt: &R, call: &str) -> Outcome
        requires { (s t : S) → S.is_clone s t → HashAlike ⟦<Map<S> as Keyed>⟧.by s t }
    {
        let outcome = self.take(rt, call);
        if outcome.is_refused() {
            outcome.then(self.take(rt, call))
        } else {
            outcome
        }
    }

    // Takes a call, and looks at what it left.
    fn take<R: Threads + Wait + Clock + Sync>(&mut self, rt: &R, call: &str) -> Outcome
        requires { (s t : S) → S.is_clone s t → HashAlike ⟦<Map<S> as Keyed>⟧.by s t }
    {
        let Ok(ended) = self.on_map(rt, call) else {
            return Outcome::Setup;
        };
        let (pairs, keys) = if call.starts_with("set_") {
            (FULL, ended.pairs)
        } else {
            (ended.pairs, FULL)
        };
        let stands = has(rt, self.alloc, &self.map, pairs);
        ended.left(stands && set_has(rt, self.alloc, &self.set, keys))
    }

    // How a call on the map ended, or another.
    fn on_map<R>(&mut self, rt: &R, call: &str) -> Result<Ended, AllocError>
    where
        R: Threads + Wait + Clock + Sync,
        requires { (s t : S) → S.is_clone s t → HashAlike ⟦<Map<S> as Keyed>⟧.by s t }
    {
        match call {
            "pairs" => Ok(ended_with(self.map.pairs(rt))),
            "iter" => Ok(self.iter(rt)),
            "map_collect" => Ok(self.map_collect(rt)),
            "try_reserve" => Ok(self.try_reserve(rt)),
            "shrink_to_fit" => self.shrink_to_fit(rt),
            "insert" | "insert_over" | "entry" | "try_entry" | "insert_entry" => {
                self.on_key(rt, call)
            }
            _ => self.on_list(rt, call),
        }
    }

    // Where it is refused (4) the map is unchanged.
    fn map_collect<R: Threads + Wait + Clock + Sync>(&self, rt: &R) -> Ended {
        let listed = self.map.par_iter().map_collect(rt, is_listed);
        Ended::listed(FULL, FULL, listed)
    }
}

impl<S: BuildHasher + Drop> Tried<S> {
    // Where a step is refused (4) the walk is over and gives nothing more.
    fn iter<R: Wait + Clock>(&self, rt: &R) -> Ended {
        let mut walk = self.map.iter(rt);
        let mut count = 0u64;
        let mut lawful = true;
        while let Some(item) = walk.next() {
            let Ok(pair) = item else {
                let over = walk.next().is_none() && walk.next().is_none() && walk.next().is_none();
                return Ended::refused("AllocError (4)", FULL, over);
            };
            lawful &= is_listed(pair.key(), pair.value());
            count = count.saturating_add(1);
        }
        Ended::answered(FULL, lawful && count == FULL && walk.next().is_none())
    }

    // Where it is refused (11) the pairs are unchanged.
    fn try_reserve<R: Wait + Clock>(&mut self, rt: &R) -> Ended {
        match self.map.try_reserve(100) {
            Ok(()) => Ended::answered(FULL, self.map.capacity(rt) as u64 >= FULL + 100),
            Err(_) => Ended::refused("TryReserveError (11)", FULL, true),
        }
    }

    // It keeps what a shard has where there is no memory for less.
    fn shrink_to_fit<R: Wait + Clock>(&mut self, rt: &R) -> Result<Ended, AllocError> {
        needed(self.map.try_reserve(100))?;
        self.map.shrink_to_fit(rt);
        Ok(Ended::answered(FULL, true))
    }
}

/// Whether a map has the pairs of the numbers below `pairs` and no other, and nobody holds the shards that these are in.
pub fn has<R: Wait + Clock, S: BuildHasher + Drop>(
    rt: &R,
    alloc: Global,
    map: &Map<S>,
    pairs: u64,
) -> bool {
    for number in 0..pairs {
        match map.try_get_mut(&bare(alloc, number)) {
            TryResult::Present(pair) if is_list_of(pair.value(), number) => {}
            _ => return false,
        }
    }
    map.len(rt) as u64 == pairs
}

/// How a call ended that gives all pairs: where it is refused (4) the map is unchanged.
pub fn ended_with(pairs: Result<Vec<(Key, Value)>, AllocError>) -> Ended {
    match pairs {
        Ok(pairs) => Ended::answered(FULL, are_all(&pairs)),
        Err(_) => Ended::refused("AllocError (4)", FULL, true),
    }
}

// Whether this is the list of the pairs of the numbers below `FULL`.
fn are_all(pairs: &[(Key, Value)]) -> bool {
    let mut lawful = pairs.len() as u64 == FULL;
    for (key, value) in pairs {
        lawful &= number_of(key) < FULL && is_listed(key, value);
    }
    lawful
}

// Whether the value of this key is the list of its number.
fn is_listed(key: &Key, value: &Value) -> bool {
    is_list_of(value, number_of(key))
}
