//! Calls of a recorded map.
//!
//! `last_CALL` is the step CALL of a caller whose log has the last stamp, and `spent_CALL` one of a shard that has it: it answers so whatever
//! memory there is.
ghost use Rattle.dash_shard.specs.Hashing.{HashAlike};

mod calls;
mod recorded;
mod steps;

use crate::trial::Outcome;
use crate::words::word;
use dash_shard::hash::{PlaceState, ZeroState};
use dash_steps::known::Recorded as Known;
use recorded::{Map, Recorded};
use std::alloc::Global;
use std::env::Env;
use std::hash::BuildHasher;
use std::io;
use std::rt::Clock;
use std::sync::Wait;

// Tries the call that the words name, with the hasher that they name.
pub(crate) fn tried<R: Env + AllocGlobal + Wait + Clock>(rt: &R) -> io::Result<Outcome> {
    let call = word(rt, 2)?;
    let hasher = word(rt, 3)?;
    let way = word(rt, 4)?;
    Ok(match hasher.as_str() {
        "place" => trial(rt, rt.alloc(), PlaceState, &call, &way),
        "zero" => trial(rt, rt.alloc(), ZeroState, &call, &way),
        _ => Outcome::Wrong("no such hasher"),
    })
}

// Tries a call with this hasher.
fn trial<R, S>(rt: &R, alloc: Global, hasher: S, call: &str, way: &str) -> Outcome
where
    R: Wait + Clock,
    S: BuildHasher + Clone + Copy + Drop,
    requires { (s t : S) → S.is_clone s t → HashAlike ⟦<Map<S> as Known>⟧.known.keys s t }
{
    match Recorded::begin(rt, alloc, hasher) {
        Ok(mut recorded) => recorded.trial(rt, call, way),
        Err(_) => Outcome::Setup,
    }
}
