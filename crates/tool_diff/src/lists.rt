//! Lists of pairs and keys, into a map and out of it.

use crate::answer::{Answer, Walk, needed};
use crate::draw::Draw;
use crate::noted::Noted;
use crate::run::{Map, Maps, Set};
use dashmap::DashMap;
use std::alloc::{AllocError, Global};
use std::hash::BuildHasher;
use std::rt::Clock;
use std::sync::Wait;

pub fn take<R: Wait + Clock, S: BuildHasher>(
    rt: &R,
    alloc: Global,
    maps: &mut Maps<S>,
    draw: Draw,
) -> Result<(&'static str, Answer), AllocError> {
    Ok(match draw.kind {
        0..=4 => {
            extend(alloc, &mut maps.map, draw)?;
            ("extend", Answer::Number(maps.map.len(rt) as u64))
        }
        5..=7 => {
            extend_set(alloc, &mut maps.set, draw)?;
            ("set extend", Answer::Number(maps.set.len(rt) as u64))
        }
        _ => ("from_iter, into_iter", gathered(alloc, draw)?),
    })
}

fn extend<S: BuildHasher>(alloc: Global, map: &mut Map<S>, draw: Draw) -> Result<(), AllocError> {
    needed(map.extend(pairs(alloc, draw)?))
}

fn extend_set<S: BuildHasher>(
    alloc: Global,
    set: &mut Set<S>,
    draw: Draw,
) -> Result<(), AllocError> {
    needed(set.extend(keys(alloc, draw)?))
}

// What a map gives that was made of a list.
fn gathered(alloc: Global, draw: Draw) -> Result<Answer, AllocError> {
    let map = needed(DashMap::<Noted, u64>::from_iter(alloc, pairs(alloc, draw)?, 1))?;
    let mut walk = Walk::new();
    for (key, value) in map {
        walk.add(0, key, value);
    }
    Ok(walk.ended())
}

// Some pairs, of which two may have equal keys.
fn pairs(alloc: Global, draw: Draw) -> Result<Vec<(Noted, u64)>, AllocError> {
    let mut pairs = Vec::new(alloc);
    for step in 0..draw.value % 8 {
        let mut key = draw.key_after(step % 5);
        key.note = step;
        pairs.push((key, draw.value.wrapping_add(step)))?;
    }
    Ok(pairs)
}

fn keys(alloc: Global, draw: Draw) -> Result<Vec<Noted>, AllocError> {
    let mut keys = Vec::new(alloc);
    for step in 0..draw.value % 8 {
        keys.push(draw.key_after(step))?;
    }
    Ok(keys)
}
