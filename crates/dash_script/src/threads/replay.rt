//! A replay of gathered steps on a plain map, std's `HashMap`.
ghost use Rattle.std.specs.Prelude.{◌≡◌, ◌↔◌, [], IfOk, IsTrue, Some, nat_eq, option_map};
ghost use Rattle.std.specs.HashMap.{IsUnique};
ghost use Rattle.std.specs.List.{Contains};
ghost use Rattle.dash_script.specs.Words.{At, EachOnce, IsReplay, Names, along, histories, record_at};
ghost use Rattle.dash_script.specs.inner.Replay.{Fits, Makes};

use dash_history::alone::RecAlone;
use dash_history::gather::At;
use dash_history::record::Record;
use dash_shard::hash::PlaceState;
use dash_steps::step::{Reply, ShardStep};
use std::alloc::{AllocError, Global};
use std::collections::HashMap;

/// Whether the steps at these places, taken one after the other on a plain map, get the recorded replies, and leave just these
/// pairs.
pub fn agrees(
    alloc: Global,
    map: &RecAlone<u64, u64, PlaceState>,
    ats: &[At],
    pairs: &[(u64, u64)],
) -> Result<bool, AllocError>
    requires { (a : At) → Contains ats.now a → Names (histories map.now) a }
    ensures { IfOk result (λ agrees. IsTrue agrees
        ↔ IsReplay [] (along (histories map.now) ats.now) pairs.now) }
{
    let mut plain = HashMap::new(alloc);
    for at in ats {
        if !takes(&mut plain, entry(map, *at))? {
            return Ok(false);
        }
    }
    Ok(has_just(plain, pairs))
}

// The record at a place.
fn entry(map: &RecAlone<u64, u64, PlaceState>, at: At) -> &Record<u64, u64>
    requires { Names (histories map.now) at }
    ensures { record_at (histories map.now) at.shard at.place ≡ Some result.now }
{
    match map.entry_at(at.shard, at.place) {
        Some(record) => record,
        None => unreachable!(),
    }
}

/// Takes the step of a record, and says whether it got the recorded reply.
pub fn takes(plain: &mut HashMap<u64, u64>, record: &Record<u64, u64>) -> Result<bool, AllocError>
    requires { IsUnique nat_eq plain.old }
    ensures fits { IfOk result (λ fits. IsTrue fits ↔ Fits plain.old.entries «record».now) }
    ensures makes { IfOk result (λ fits. IsTrue fits → Makes plain.old.entries «record».now plain.new.entries) }
    ensures unique { IsUnique nat_eq plain.new }
{
    match (&record.step, &record.reply) {
        (ShardStep::Get(key), Reply::Pair(pair)) => {
            Ok(is_pair(*pair, *key, plain.get(key).copied()))
        }
        (ShardStep::Insert(key, value), Reply::Old(old)) => {
            Ok(plain.insert(*key, *value)? == *old)
        }
        (ShardStep::Remove(key), Reply::Pair(pair)) => {
            Ok(is_pair(*pair, *key, plain.remove(key)))
        }
        _ => Ok(false),
    }
}

// Whether it is the pair of this key with this value, or none where there is no value.
fn is_pair(pair: Option<(u64, u64)>, key: u64, value: Option<u64>) -> bool
    ensures { IsTrue result ↔ (pair ≡ option_map (λ v. (key, v)) value) }
{
    pair == value.map(|value| (key, value))
}

/// Whether the map has just these pairs, each once.
pub fn has_just(mut plain: HashMap<u64, u64>, pairs: &[(u64, u64)]) -> bool
    ensures { IsTrue result ↔ EachOnce nat_eq plain.entries pairs.now }
{
    for pair in pairs {
        if plain.remove(&pair.0) != Some(pair.1) {
            return false;
        }
    }
    plain.is_empty()
}
