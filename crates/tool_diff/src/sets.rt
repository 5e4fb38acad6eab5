//! Calls of a set.

use crate::answer::{Answer, Walk, needed};
use crate::draw::Draw;
use crate::run::{Maps, Set};
use std::alloc::AllocError;
use std::hash::BuildHasher;
use std::rt::Clock;
use std::sync::Wait;

pub fn take<R: Wait + Clock, S: BuildHasher>(
    rt: &R,
    maps: &Maps<S>,
    draw: Draw,
) -> Result<(&'static str, Answer), AllocError> {
    let (set, key) = (&maps.set, draw.key());
    Ok(match draw.kind {
        0..=3 => ("set insert", insert(rt, set, draw)?),
        4 => ("set remove", Answer::key(set.remove(rt, &key))),
        5 => {
            let removed = set.remove_if(rt, &key, |key| key.note % 2 == 0);
            ("set remove_if", Answer::key(removed))
        }
        6 => ("set get", get(rt, set, draw)),
        7 => ("set contains", Answer::yes(set.contains(rt, &key))),
        8 => {
            set.retain(rt, |key| key.name % 16 != draw.value % 16);
            ("set retain", Answer::yes(set.is_empty(rt)))
        }
        9 => ("set len", Answer::Number(set.len(rt) as u64)),
        _ => ("set iter", all(rt, maps)?),
    })
}

fn insert<R: Wait + Clock, S: BuildHasher>(
    rt: &R,
    set: &Set<S>,
    draw: Draw,
) -> Result<Answer, AllocError> {
    Ok(Answer::yes(needed(set.insert(rt, draw.key()))?))
}

fn get<R: Wait + Clock, S: BuildHasher>(rt: &R, set: &Set<S>, draw: Draw) -> Answer {
    match set.get(rt, &draw.key()) {
        Some(found) => Answer::Key(*found.key()),
        None => Answer::None,
    }
}

// What a walk over the set gives, by the shards of the map.
fn all<R: Wait + Clock, S: BuildHasher>(rt: &R, maps: &Maps<S>) -> Result<Answer, AllocError> {
    let mut walk = Walk::new();
    for found in maps.set.iter(rt) {
        let found = found?;
        walk.add(maps.map.determine_map(found.key()), *found.key(), 0);
    }
    Ok(walk.ended())
}
