//! The map and the set, and the calls that they take.

use crate::answer::Answer;
use crate::draw::Draw;
use crate::noted::Noted;
use crate::{entries, keyed, lists, sets, walks};
use dashmap::error::ConstructError;
use dashmap::{DashMap, DashSet};
use std::alloc::{AllocError, Global};
use std::hash::BuildHasher;
use std::io::{self, Write};
use std::rt::Clock;
use std::sync::Wait;

pub const SHARDS: usize = 4;

pub type Map<S> = DashMap<Noted, u64, S>;

pub type Set<S> = DashSet<Noted, S>;

#[derive(Drop)]
pub struct Maps<S: BuildHasher> {
    pub map: Map<S>,
    pub set: Set<S>,
}

/// Takes so many calls on the two, and writes the line of each.
pub fn run<R: Wait + Clock, S: BuildHasher + Drop, W: Write>(
    rt: &R,
    alloc: Global,
    out: &mut W,
    map: Result<Map<S>, ConstructError>,
    set: Result<Set<S>, ConstructError>,
    calls: u64,
) -> io::Result<()> {
    let (Ok(map), Ok(set)) = (map, set) else {
        return Err(io::ErrorKind::OutOfMemory.into());
    };
    take_all(rt, alloc, out, &mut Maps { map, set }, calls)
}

fn take_all<R: Wait + Clock, S: BuildHasher + Drop, W: Write>(
    rt: &R,
    alloc: Global,
    out: &mut W,
    maps: &mut Maps<S>,
    calls: u64,
) -> io::Result<()> {
    for number in 0..calls {
        let draw = Draw::of(number);
        let (call, answer) = take(rt, alloc, maps, draw)?;
        writeln!(out, "{number} {call} {}: {answer}", draw.name)?;
    }
    out.flush()
}

// Takes one call, and returns its word and what it answered.
fn take<R: Wait + Clock, S: BuildHasher + Drop>(
    rt: &R,
    alloc: Global,
    maps: &mut Maps<S>,
    draw: Draw,
) -> Result<(&'static str, Answer), AllocError> {
    match draw.group {
        0..=5 => keyed::take(rt, &maps.map, draw),
        6..=10 => entries::take(rt, &maps.map, draw),
        11..=13 => sets::take(rt, maps, draw),
        14 => walks::take(rt, &maps.map, draw),
        _ => lists::take(rt, alloc, maps, draw),
    }
}
