//! Calls on a map and a set whose keys are texts: a key is put as a `String`, and asked for by a `&str`.

use crate::answer::{Answer, needed};
use crate::draw::Draw;
use crate::noted::Noted;
use crate::run::SHARDS;
use dashmap::mapref::one::RefMut;
use dashmap::try_result::TryResult;
use dashmap::{DashMap, DashSet};
use std::alloc::{AllocError, Global};
use std::io::{self, Write};
use std::rt::Clock;
use std::sync::Wait;

type Map = DashMap<String, u64>;

type Set = DashSet<String>;

/// Takes so many calls, and writes the line of each.
pub fn run<R: Wait + Clock, W: Write>(
    rt: &R,
    alloc: Global,
    out: &mut W,
    calls: u64,
) -> io::Result<()> {
    let (Ok(map), Ok(set)) = (Map::with_shard_amount(alloc, SHARDS), Set::new(alloc, 1)) else {
        return Err(io::ErrorKind::OutOfMemory.into());
    };
    for number in 0..calls {
        let draw = Draw::of(number);
        let text = format!(in alloc; "{}", draw.name)?;
        let (call, answer) = match draw.group {
            0..=10 => on_map(rt, &map, draw, text)?,
            _ => on_set(rt, &set, draw, text)?,
        };
        writeln!(out, "{number} {call} {}: {answer}", draw.name)?;
    }
    out.flush()
}

// The number that a text is of, and its length.
fn told(text: &String) -> Noted {
    Noted {
        name: text.as_str().parse::<u64>().unwrap_or(0),
        note: text.len() as u64,
    }
}

fn told_pair(pair: Option<(String, u64)>) -> Answer {
    match pair {
        Some((key, value)) => Answer::Pair(told(&key), value),
        None => Answer::None,
    }
}

fn on_map<R: Wait + Clock>(
    rt: &R,
    map: &Map,
    draw: Draw,
    text: String,
) -> Result<(&'static str, Answer), AllocError> {
    let asked = text.as_str();
    Ok(match draw.kind {
        0..=3 => {
            let old = needed(map.insert(rt, text, draw.value))?;
            ("insert", Answer::number(old))
        }
        4 => {
            let found = map.get(rt, asked);
            let pair = found.map(|found| Answer::Pair(told(found.key()), *found.value()));
            ("get", pair.unwrap_or(Answer::None))
        }
        5 => ("get_mut", raised(map.get_mut(rt, asked))),
        6 => ("remove", told_pair(map.remove(rt, asked))),
        _ => by_closure(rt, map, draw, asked),
    })
}

// Adds one to a value by a reference.
fn raised(found: Option<RefMut<'_, String, u64>>) -> Answer {
    let Some(mut found) = found else {
        return Answer::None;
    };
    *found = found.wrapping_add(1);
    Answer::Pair(told(found.key()), *found.value())
}

fn by_closure<R: Wait + Clock>(
    rt: &R,
    map: &Map,
    draw: Draw,
    asked: &str,
) -> (&'static str, Answer) {
    match draw.kind {
        7 => {
            let removed = map.remove_if(rt, asked, |_, value| *value % 2 == 0);
            ("remove_if", told_pair(removed))
        }
        8 => {
            let removed = map.remove_if_mut(rt, asked, |_, value| {
                *value = value.wrapping_add(1);
                *value % 3 == 0
            });
            ("remove_if_mut", told_pair(removed))
        }
        9 => {
            map.alter(rt, asked, |_, value| {
                value.wrapping_mul(3).wrapping_add(1)
            });
            let seen = map.view(rt, asked, |key, value| Answer::Pair(told(key), *value));
            ("alter, view", seen.unwrap_or(Answer::None))
        }
        10 => ("contains_key", Answer::yes(map.contains_key(rt, asked))),
        _ => match map.try_get(asked) {
            TryResult::Present(found) => {
                ("try_get", Answer::Pair(told(found.key()), *found.value()))
            }
            _ => ("try_get", Answer::Number(map.determine_map(asked) as u64)),
        },
    }
}

fn on_set<R: Wait + Clock>(
    rt: &R,
    set: &Set,
    draw: Draw,
    text: String,
) -> Result<(&'static str, Answer), AllocError> {
    let asked = text.as_str();
    Ok(match draw.kind {
        0..=3 => ("set insert", Answer::yes(needed(set.insert(rt, text))?)),
        4 | 5 => {
            let removed = set.remove(rt, asked).map(|key| Answer::Key(told(&key)));
            ("set remove", removed.unwrap_or(Answer::None))
        }
        6 | 7 => {
            let removed = set.remove_if(rt, asked, |key| key.len() % 2 == 0);
            let removed = removed.map(|key| Answer::Key(told(&key)));
            ("set remove_if", removed.unwrap_or(Answer::None))
        }
        8 | 9 => {
            let found = set
                .get(rt, asked)
                .map(|found| Answer::Key(told(found.key())));
            ("set get", found.unwrap_or(Answer::None))
        }
        _ => ("set contains", Answer::yes(set.contains(rt, asked))),
    })
}
