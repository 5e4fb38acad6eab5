//! Entries.

use crate::answer::{Answer, needed};
use crate::draw::Draw;
use crate::noted::Noted;
use crate::run::Map;
use dashmap::mapref::entry::{Entry, OccupiedEntry};
use std::alloc::AllocError;
use std::hash::BuildHasher;
use std::rt::Clock;
use std::sync::Wait;

pub fn take<R: Wait + Clock, S: BuildHasher>(
    rt: &R,
    map: &Map<S>,
    draw: Draw,
) -> Result<(&'static str, Answer), AllocError> {
    let entry = match draw.value % 2 {
        0 => needed(map.entry(rt, draw.key())),
        _ => needed(map.try_entry(draw.key())),
    };
    Ok(match entry? {
        Entry::Occupied(occupied) if draw.kind < 6 => take_occupied(occupied, draw),
        entry => take_any(entry, draw),
    })
}

fn take_occupied<S: BuildHasher>(
    mut entry: OccupiedEntry<'_, Noted, u64, S>,
    draw: Draw,
) -> (&'static str, Answer) {
    match draw.kind {
        0 => ("occupied get", Answer::Pair(*entry.key(), *entry.get())),
        1 => {
            *entry.get_mut() = draw.value;
            ("occupied into_ref", Answer::told_value(entry.into_ref()))
        }
        2 => ("occupied insert", Answer::Number(entry.insert(draw.value))),
        3 => ("remove", Answer::Number(entry.remove())),
        4 => {
            let (key, value) = entry.remove_entry();
            ("remove_entry", Answer::Pair(key, value))
        }
        _ => {
            let (key, value) = entry.replace_entry(draw.value);
            ("replace_entry", Answer::Pair(key, value))
        }
    }
}

fn take_any<S: BuildHasher>(entry: Entry<'_, Noted, u64, S>, draw: Draw) -> (&'static str, Answer) {
    let value = draw.value;
    let (call, found) = match draw.kind {
        0 | 1 => return ("into_key", Answer::Key(entry.into_key())),
        2 | 3 => return ("key", Answer::Key(*entry.key())),
        4 | 5 | 6 => ("or_insert", entry.or_insert(value)),
        7 => ("or_default", entry.or_default()),
        8 => ("or_insert_with", entry.or_insert_with(|| value)),
        9 => return ("or_try_insert_with", try_insert(entry, value)),
        10 => ("and_modify", entry.and_modify(raise).or_insert(value)),
        _ => return ("entry insert", Answer::told_mut(entry.insert(value))),
    };
    (call, Answer::told_value(found))
}

fn raise(value: &mut u64) {
    *value = value.wrapping_add(1);
}

// Asks a closure that may refuse for the value.
fn try_insert<S: BuildHasher>(entry: Entry<'_, Noted, u64, S>, value: u64) -> Answer {
    let found = entry.or_try_insert_with(|| if value % 3 == 0 {
        Err(value)
    } else {
        Ok(value)
    });
    match found {
        Ok(found) => Answer::told_mut(found),
        Err(value) => Answer::Number(value),
    }
}
