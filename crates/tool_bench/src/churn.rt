//! What a search for an absent key costs in a full shard, before and after many of its pairs went and others came.

use crate::Refused;
use crate::keys::key;
use dash_shard::hash::FixedState;
use dash_shard::shard::Shard;
use std::alloc::{AllocError, Global};
use std::fmt;
use std::rt::Clock;
use std::time::Instant;

/// As many pairs as 65,536 groups of sixteen slots take, seven in eight.
const PAIRS: usize = 65_536 * 14;

/// How many pairs go, each for one that comes.
const EXCHANGES: u64 = 1_000_000;

/// How many absent keys are searched for.
const MISSES: u64 = 1_000_000;

/// The first number of the absent keys.
const ABSENT: u64 = 1 << 40;

type Pairs = Shard<u64, u64, FixedState>;

/// The time of all searches, and at how many groups they looked.
#[derive(Clone, Copy, Debug)]
struct Searches {
    nanoseconds: u128,
    visits: u64,
}

/// The searches in the full shard, and those after the exchanges.
#[derive(Clone, Copy, Debug)]
pub struct Churn {
    keys: u64,
    fresh: Searches,
    after: Searches,
}

impl fmt::Display for Searches {
    fn fmt<W: fmt::Write>(&self, f: &mut fmt::Formatter<W>) -> fmt::Result {
        write!(f, "ns {} visits {}", self.nanoseconds, self.visits)
    }
}

impl fmt::Display for Churn {
    fn fmt<W: fmt::Write>(&self, f: &mut fmt::Formatter<W>) -> fmt::Result {
        let Churn { keys, fresh, after } = *self;
        write!(f, "keys {keys} fresh {fresh} after {after}")
    }
}

/// Fills a shard, searches, exchanges a million pairs, and searches again. It takes memory for the shard and the absent keys.
pub fn measure(rt: &impl Clock, alloc: Global) -> Result<Churn, Refused> {
    let mut shard = Pairs::new(alloc, FixedState, 0, 2, PAIRS)?;
    let mut newest = fill(&mut shard)?;
    let absent = absent_keys(alloc, &shard)?;
    let fresh = search(rt, &shard, absent.as_slice())?;
    let mut exchanged: u64 = 0;
    for oldest in 0..newest {
        if exchanged == EXCHANGES {
            break;
        }
        if remove(&mut shard, key(oldest)) {
            newest = put_next(&mut shard, newest)?;
            exchanged = exchanged.saturating_add(1);
        }
    }
    let after = search(rt, &shard, absent.as_slice())?;
    Ok(Churn {
        keys: absent.len() as u64,
        fresh,
        after,
    })
}

// Puts the pair of a number, if its key goes to the shard. Says whether it does.
fn put(shard: &mut Pairs, number: u64) -> Result<bool, Refused> {
    let key = key(number);
    if !shard.routes(&key) {
        return Ok(false);
    }
    shard.insert(key, number)?;
    Ok(true)
}

// Puts the pair of the next number, from this one on, whose key goes to the shard, and returns the number behind it.
fn put_next(shard: &mut Pairs, from: u64) -> Result<u64, Refused> {
    let mut number = from;
    for _ in 0..1_000u64 {
        let is_put = put(shard, number)?;
        number = number.saturating_add(1);
        if is_put {
            break;
        }
    }
    Ok(number)
}

// Puts pairs of the lowest numbers till the shard is full, and returns the number behind them.
fn fill(shard: &mut Pairs) -> Result<u64, Refused> {
    let mut number = 0;
    for _ in 0..PAIRS {
        number = put_next(shard, number)?;
    }
    Ok(number)
}

// Takes the pair of a key out, if it goes to the shard and is there. Says whether it was.
fn remove(shard: &mut Pairs, key: u64) -> bool {
    shard.routes(&key) && shard.remove(&key).is_some()
}

// Keys that go to the shard, and are not there.
fn absent_keys(alloc: Global, shard: &Pairs) -> Result<Vec<u64>, AllocError> {
    let mut keys = Vec::new(alloc);
    for number in ABSENT..ABSENT + 2 * MISSES {
        if shard.routes(&key(number)) {
            keys.push(key(number))?;
        }
    }
    Ok(keys)
}

fn search(rt: &impl Clock, shard: &Pairs, keys: &[u64]) -> Result<Searches, Refused> {
    let mut visits: u64 = 0;
    let start = Instant::now(rt)?;
    for key in keys {
        visits = visits.wrapping_add(shard.search(key).visits as u64);
    }
    Ok(Searches {
        nanoseconds: start.elapsed(rt)?.as_nanos(),
        visits,
    })
}
