//! Calls of one key.

use crate::answer::{Answer, needed};
use crate::draw::Draw;
use crate::run::Map;
use dashmap::try_result::TryResult;
use std::alloc::AllocError;
use std::hash::BuildHasher;
use std::rt::Clock;
use std::sync::Wait;

pub fn take<R: Wait + Clock, S: BuildHasher>(
    rt: &R,
    map: &Map<S>,
    draw: Draw,
) -> Result<(&'static str, Answer), AllocError> {
    Ok(match draw.kind {
        0..=3 => ("insert", insert(rt, map, draw)?),
        4 => ("get", get(rt, map, draw)),
        5 => ("get_mut", raise(rt, map, draw)),
        6 => ("remove", Answer::pair(map.remove(rt, &draw.key()))),
        _ => take_by_closure(rt, map, draw),
    })
}

fn insert<R: Wait + Clock, S: BuildHasher>(
    rt: &R,
    map: &Map<S>,
    draw: Draw,
) -> Result<Answer, AllocError> {
    let old = needed(map.insert(rt, draw.key(), draw.value))?;
    Ok(Answer::number(old))
}

fn get<R: Wait + Clock, S: BuildHasher>(rt: &R, map: &Map<S>, draw: Draw) -> Answer {
    match map.get(rt, &draw.key()) {
        Some(found) => Answer::told(found),
        None => Answer::None,
    }
}

// Adds one to a value by a reference.
fn raise<R: Wait + Clock, S: BuildHasher>(rt: &R, map: &Map<S>, draw: Draw) -> Answer {
    let Some(mut found) = map.get_mut(rt, &draw.key()) else {
        return Answer::None;
    };
    *found = found.wrapping_add(1);
    Answer::told_mut(found)
}

fn take_by_closure<R: Wait + Clock, S: BuildHasher>(
    rt: &R,
    map: &Map<S>,
    draw: Draw,
) -> (&'static str, Answer) {
    let key = draw.key();
    match draw.kind {
        7 => {
            let removed = map.remove_if(rt, &key, |_, value| *value % 2 == 0);
            ("remove_if", Answer::pair(removed))
        }
        8 => {
            let removed = map.remove_if_mut(rt, &key, |_, value| {
                *value = value.wrapping_add(1);
                *value % 3 == 0
            });
            ("remove_if_mut", Answer::pair(removed))
        }
        9 => {
            map.alter(rt, &key, |_, value| value.wrapping_mul(3).wrapping_add(1));
            let seen = map.view(rt, &key, |key, value| (*key, *value));
            ("alter, view", Answer::pair(seen))
        }
        10 => ("contains_key", Answer::yes(map.contains_key(rt, &key))),
        _ => ("try_get", try_get(map, draw)),
    }
}

// The pair of a key, or the number of its shard.
fn try_get<S: BuildHasher>(map: &Map<S>, draw: Draw) -> Answer {
    match map.try_get(&draw.key()) {
        TryResult::Present(found) => Answer::told(found),
        _ => Answer::Number(map.determine_map(&draw.key()) as u64),
    }
}
