//! Calls that make a map or a set of a list. Where one is refused nothing is made.
ghost use Rattle.dash_shard.specs.Hashing.{HashAlike};

use crate::keys::{FULL, Key, Value, pairs_from};
use crate::map::fixed::{ended, made};
use crate::map::maps::Map;
use crate::map::sets::{keys_from, set_has};
use crate::trial::Ended;
use dashmap::DashSet;
use dashmap::error::FromRefused;
use dashmap::keyed::Keyed;
use std::alloc::{AllocError, Global};
use std::hash::BuildHasher;
use std::rt::Clock;
use std::sync::Wait;
use std::thread::Threads;

// So many pairs get room for `FULL` in each of four shards. One of these gets more.
const LIST: u64 = 4 * FULL;

/// How a call ended that makes a map or a set of a list.
pub fn take_list<R, S>(rt: &R, alloc: Global, call: &str) -> Result<Ended, AllocError>
where
    R: Threads + Wait + Clock + Sync,
    S: BuildHasher + Clone + Default + Send + Sync + Drop,
    S::Hasher: Send,
    requires { (s t : S) → S.is_clone s t → HashAlike ⟦<Map<S> as Keyed>⟧.by s t }
{
    let (pairs, keys) = (pairs_from(alloc, 0, LIST)?, keys_from(alloc, 0, LIST)?);
    Ok(match call {
        "from_pairs" => made_of(rt, alloc, Map::<S>::from_pairs(alloc, pairs, 1)),
        "from_iter" => made_of(rt, alloc, Map::<S>::from_iter(alloc, pairs, 1)),
        "from_par_iter" => {
            let map = Map::<S>::from_par_iter(rt, alloc, pairs, 1, 2);
            made(rt, alloc, LIST, map)
        }
        "set_from_iter" => match DashSet::<Key, S>::from_iter(alloc, keys, 1) {
            Ok(set) => Ended::answered(FULL, set_has(rt, alloc, &set, LIST)),
            Err(refused) => not_made_of(refused),
        },
        "set_from_par_iter" => {
            let set = DashSet::<Key, S>::from_par_iter(rt, alloc, keys, 1, 2);
            ended(set.map(|set: DashSet<Key, S>| set_has(rt, alloc, &set, LIST)))
        }
        _ => Ended::unknown(FULL),
    })
}

// What a constructor of a list shows: it is refused by 8, or at a pair (12).
fn made_of<R: Wait + Clock, S: BuildHasher + Drop>(
    rt: &R,
    alloc: Global,
    map: Result<Map<S>, FromRefused<Key, Value>>,
) -> Ended {
    match map {
        Ok(map) => made(rt, alloc, LIST, Ok(map)),
        Err(refused) => not_made_of(refused),
    }
}

fn not_made_of<K: Drop, V: Drop>(refused: FromRefused<K, V>) -> Ended {
    match refused {
        FromRefused::Construct(refused) => Ended::not_made(refused),
        FromRefused::Pair(_) => Ended::refused("FromRefused::Pair (12)", FULL, true),
    }
}
