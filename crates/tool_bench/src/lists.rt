//! Calls on a whole list or map, which start their threads themselves, walks of a map's owner, and the time that they take.

use crate::Refused;
use crate::keys::key;
use crate::run::Measured;
use crate::work::PAIRS;
use dash_map::map::DashMap;
use dash_map::read_only::ViewIter;
use dash_shard::hash::FixedState;
use std::alloc::{AllocError, Global};
use std::rt::Clock;
use std::sync::Wait;
use std::thread::Threads;
use std::time::Instant;

type Map = DashMap<u64, u64, FixedState>;

/// One call that is measured. `of_name` says how a command line names it.
#[derive(Clone, Copy)]
pub enum Call {
    /// Puts a list of a million pairs into a map with room for them, one after the other.
    Extend,
    /// The same, into a map without room.
    Extend0,
    /// The same as `Extend`, by several workers.
    ParExtend,
    /// The same as `Extend0`, by several workers.
    ParExtend0,
    /// Copies the values of a million pairs into a list, by as many threads as the machine has processors.
    ParMapCollect,
    /// Walks over a million pairs of a map that has one owner.
    AloneIterate,
    /// The same of a view.
    ViewIterate,
}

impl Call {
    pub fn of_name(name: &str) -> Option<Call> {
        Some(match name {
            "extend" => Call::Extend,
            "extend0" => Call::Extend0,
            "par-extend" => Call::ParExtend,
            "par-extend0" => Call::ParExtend0,
            "par-map-collect" => Call::ParMapCollect,
            "alone-iterate" => Call::AloneIterate,
            "view-iterate" => Call::ViewIterate,
            _ => return None,
        })
    }

    // How many pairs there is room for when the map is made.
    fn room(self) -> usize {
        match self {
            Call::Extend0 | Call::ParExtend0 => 0,
            _ => PAIRS,
        }
    }
}

/// Makes a map of so many shards and a list, and takes the time that a call on both needs with so many workers.
///
/// It takes memory for both and for what the call takes, and waits for the call's threads.
pub fn measure<R: Threads + Wait + Clock + Sync>(
    rt: &R,
    alloc: Global,
    call: Call,
    workers: usize,
    shards: usize,
) -> Result<Measured, Refused> {
    let mut map = Map::with_capacity_and_shard_amount(alloc, call.room(), shards)?;
    let list = pairs(alloc)?;
    match call {
        Call::ParMapCollect | Call::AloneIterate | Call::ViewIterate => {
            map.extend(list)?;
            read(rt, map, call)
        }
        _ => put(rt, &mut map, list, call, workers),
    }
}

// A million pairs.
fn pairs(alloc: Global) -> Result<Vec<(u64, u64)>, AllocError> {
    let mut list = Vec::with_capacity(alloc, PAIRS)?;
    for number in 0..PAIRS as u64 {
        list.push((key(number), number))?;
    }
    Ok(list)
}

fn put<R: Threads + Wait + Clock + Sync>(
    rt: &R,
    map: &mut Map,
    list: Vec<(u64, u64)>,
    call: Call,
    workers: usize,
) -> Result<Measured, Refused> {
    let start = Instant::now(rt)?;
    match call {
        Call::Extend | Call::Extend0 => map.extend(list)?,
        _ => map.par_extend(rt, list, workers)?,
    }
    let nanoseconds = start.elapsed(rt)?.as_nanos();
    Ok(Measured {
        nanoseconds,
        steps: PAIRS as u64,
        sum: map.len(rt) as u64,
        bytes: 0,
    })
}

// Reads all pairs of a map, in the way of a call.
fn read<R: Threads + Wait + Clock + Sync>(
    rt: &R,
    map: Map,
    call: Call,
) -> Result<Measured, Refused> {
    match call {
        Call::AloneIterate => walk(rt, map.alone().iter()),
        Call::ViewIterate => walk(rt, map.into_read_only().iter()),
        _ => collect(rt, &map),
    }
}

fn walk(rt: &impl Clock, pairs: ViewIter<'_, u64, u64, FixedState>) -> Result<Measured, Refused> {
    let start = Instant::now(rt)?;
    let mut steps: u64 = 0;
    let mut sum: u64 = 0;
    for (_, value) in pairs {
        steps = steps.wrapping_add(1);
        sum = sum.wrapping_add(*value);
    }
    Ok(Measured {
        nanoseconds: start.elapsed(rt)?.as_nanos(),
        steps,
        sum,
        bytes: 0,
    })
}

fn collect<R: Threads + Wait + Clock + Sync>(rt: &R, map: &Map) -> Result<Measured, Refused> {
    let start = Instant::now(rt)?;
    let values = map
        .par_iter()
        .map_collect(rt, |_: &u64, value: &u64| *value)?;
    let nanoseconds = start.elapsed(rt)?.as_nanos();
    let mut sum: u64 = 0;
    for value in values.iter() {
        sum = sum.wrapping_add(*value);
    }
    Ok(Measured {
        nanoseconds,
        steps: values.len() as u64,
        sum,
        bytes: 0,
    })
}
