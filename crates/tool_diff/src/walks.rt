//! Walks, and calls of all pairs.

use crate::answer::{Answer, Walk};
use crate::draw::Draw;
use crate::run::Map;
use std::alloc::AllocError;
use std::hash::BuildHasher;
use std::rt::Clock;
use std::sync::Wait;

pub fn take<R: Wait + Clock, S: BuildHasher>(
    rt: &R,
    map: &Map<S>,
    draw: Draw,
) -> Result<(&'static str, Answer), AllocError> {
    let call = change(rt, map, draw);
    let answer = match draw.kind {
        8 => Answer::Number(map.len(rt) as u64),
        9 => Answer::yes(map.is_empty(rt)),
        _ => all(rt, map)?,
    };
    Ok((call, answer))
}

// Takes the call, if it is one that changes pairs, and returns its word.
fn change<R: Wait + Clock, S: BuildHasher>(rt: &R, map: &Map<S>, draw: Draw) -> &'static str {
    match draw.kind {
        0..=3 => "iter",
        4 | 5 => {
            add_to_each(rt, map, draw.value);
            "iter_mut"
        }
        6 => {
            retain(rt, map, draw.value);
            "retain"
        }
        7 => {
            map.alter_all(rt, |_, value| value.wrapping_mul(3) % 1000);
            "alter_all"
        }
        8 => "len",
        9 => "is_empty",
        10 => {
            map.shrink_to_fit(rt);
            "shrink_to_fit"
        }
        _ => {
            if draw.value % 16 == 0 {
                map.clear(rt);
            }
            "clear"
        }
    }
}

fn add_to_each<R: Wait + Clock, S: BuildHasher>(rt: &R, map: &Map<S>, more: u64) {
    let mut walk = map.iter_mut(rt);
    for _ in rt.forever() {
        let Some(value) = walk.next_mut() else {
            break;
        };
        *value = value.wrapping_add(more);
    }
}

fn retain<R: Wait + Clock, S: BuildHasher>(rt: &R, map: &Map<S>, but: u64) {
    map.retain(rt, |key, value| {
        *value = value.wrapping_add(1);
        key.name % 16 != but % 16
    });
}

// What a walk over the map gives.
fn all<R: Wait + Clock, S: BuildHasher>(rt: &R, map: &Map<S>) -> Result<Answer, AllocError> {
    let mut walk = Walk::new();
    for found in map.iter(rt) {
        let found = found?;
        walk.add(map.determine_map(found.key()), *found.key(), *found.value());
    }
    Ok(walk.ended())
}
