//! Calls of a map, a set or a cache.
ghost use Rattle.dash_shard.specs.Hashing.{HashAlike};

mod caches;
mod entries;
mod fixed;
mod listed;
mod lists;
mod making;
mod maps;
mod sets;
mod steps;
mod texts;

use crate::trial::Outcome;
use crate::words::word;
use dashmap::hash::{FixedState, PlaceState, ZeroState};
use dashmap::keyed::Keyed;
use maps::{Map, Tried};
use std::alloc::Global;
use std::env::Env;
use std::hash::BuildHasher;
use std::io;
use std::rt::Clock;
use std::sync::Wait;
use std::thread::Threads;

// Tries the call that the words name, with the hasher that they name. `fixed` is the default one.
pub(crate) fn tried<R>(rt: &R) -> io::Result<Outcome>
where
    R: Env + AllocGlobal + Threads + Wait + Clock + Sync,
{
    let call = word(rt, 2)?;
    let hasher = word(rt, 3)?;
    Ok(match hasher.as_str() {
        "place" => trial(rt, rt.alloc(), PlaceState, &call),
        "zero" => trial(rt, rt.alloc(), ZeroState, &call),
        "fixed" => trial(rt, rt.alloc(), FixedState, &call),
        _ => Outcome::Wrong("no such hasher"),
    })
}

// Tries a call with this hasher.
fn trial<R, S>(rt: &R, alloc: Global, hasher: S, call: &str) -> Outcome
where
    R: Threads + Wait + Clock + Sync,
    S: BuildHasher + Clone + Copy + Default + Send + Sync + Drop,
    S::Hasher: Send + Sync,
    requires { (s t : S) → S.is_clone s t → HashAlike ⟦<Map<S> as Keyed>⟧.by s t }
{
    match Tried::begin(alloc, hasher) {
        Ok(mut tried) => tried.trial(rt, call),
        Err(_) => Outcome::Setup,
    }
}
