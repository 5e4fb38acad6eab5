//! Calls that make a map, a set or a cache with the default hasher. Where one is refused nothing is made.

use crate::keys::{FULL, Key};
use crate::map::caches::{Echo, Echoed};
use crate::map::maps::{Map, has};
use crate::map::texts;
use crate::trial::Ended;
use dashmap::error::ConstructError;
use dashmap::{DashMap, DashSet, Memo};
use std::alloc::{AllocError, Global};
use std::hash::BuildHasher;
use std::rt::Clock;
use std::sync::Wait;
use std::thread::Threads;

/// How a call with the default hasher ended.
pub fn take_fixed<R>(rt: &R, alloc: Global, call: &str) -> Result<Ended, AllocError>
where
    R: Threads + Wait + Clock + Sync,
{
    let map = match call {
        "new" => DashMap::new(alloc, 1),
        "default" => DashMap::default(alloc, 1),
        "with_capacity" => DashMap::with_capacity(alloc, 20, 1),
        "with_shard_amount" => DashMap::with_shard_amount(alloc, 4),
        "with_capacity_and_shard_amount" => DashMap::with_capacity_and_shard_amount(alloc, 20, 4),
        _ => return take_empty(rt, alloc, call),
    };
    Ok(made(rt, alloc, 0, map))
}

// How a call ended that makes a set or a cache with nothing in it.
fn take_empty<R>(rt: &R, alloc: Global, call: &str) -> Result<Ended, AllocError>
where
    R: Threads + Wait + Clock + Sync,
{
    let is_empty = match call {
        "set_new" => DashSet::new(alloc, 1).map(|set: DashSet<Key>| set.is_empty(rt)),
        "set_with_capacity" => {
            DashSet::with_capacity(alloc, 20, 1).map(|set: DashSet<Key>| set.is_empty(rt))
        }
        "memo_new" => {
            Memo::new(alloc, Echo, 1).map(|cache: Memo<Key, Echoed, Echo>| cache.len(rt) == 0)
        }
        "text_look_ups" => return texts::look_up(rt, alloc),
        _ => return Ok(Ended::unknown(FULL)),
    };
    Ok(ended(is_empty))
}

/// How a constructor ended: by 8, or with a map or set that has what it should have, or hasn't.
pub fn ended(has_all: Result<bool, ConstructError>) -> Ended {
    match has_all {
        Ok(has_all) => Ended::answered(FULL, has_all),
        Err(refused) => Ended::not_made(refused),
    }
}

/// What a constructor shows that puts so many pairs into its map: it is refused by 8.
pub fn made<R: Wait + Clock, S: BuildHasher + Drop>(
    rt: &R,
    alloc: Global,
    pairs: u64,
    map: Result<Map<S>, ConstructError>,
) -> Ended {
    ended(map.map(|map: Map<S>| has(rt, alloc, &map, pairs)))
}
