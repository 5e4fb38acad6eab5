//! Calls on a key: on one of the thread's own, of the map and of the set, and on a counter.

use super::{
    Draw, Map, Set, Worker, counter_key, goes, goes_at, parted, raise, raise_found, raised,
    raised_at,
};
use crate::answer::{Answer, Done, Judged, NO_MEMORY};
use crate::call::{COUNTERS, Call};
use dashmap::hash::FixedState;
use dashmap::try_result::TryResult;
use dashmap::{Entry, OccupiedEntry};
use std::rt::Clock;
use std::sync::Wait;

impl Worker {
    pub fn take_pair<R: Wait + Clock>(&mut self, rt: &R, map: &Map, draw: Draw) -> Judged {
        let stood = self.own.at(draw.number);
        let (call, wanted, came, left) = match draw.group {
            0..=7 => exchange(rt, map, draw, stood),
            8..=11 => read(rt, map, draw, stood),
            12..=14 => write(rt, map, draw, stood),
            _ => {
                self.tally.count(Call::Entry);
                enter(rt, map, draw, stood)
            }
        };
        self.own.put(draw.number, left);
        self.judge(call, draw.key, wanted, came)
    }

    pub fn take_key<R: Wait + Clock>(&mut self, rt: &R, set: &Set, draw: Draw) -> Judged {
        let stood = self.own_set.at(draw.number);
        let (call, wanted, came, left) = on_set(rt, set, draw, stood);
        self.own_set.put(draw.number, left);
        self.judge(call, draw.key, wanted, came)
    }

    // Raises a counter, if it gets it, and judges what stood there: at least what this thread added to it in this round.
    pub fn take_counter<R: Wait + Clock>(&mut self, rt: &R, map: &Map, draw: Draw) -> Judged {
        let counter = draw.number as usize % COUNTERS;
        let key = counter_key(counter);
        let (call, came) = count(rt, map, draw.kind, key);
        let least = self.tally.added(counter);
        if came != Answer::Locked
            && let Some(added) = self.tally.added.get_mut(counter)
        {
            *added = raised(least);
        }
        let wanted = match came {
            Answer::Pair(_, stood) => Answer::Pair(key, stood.max(least)),
            _ => Answer::Pair(key, least),
        };
        self.judge_try(call, key, false, wanted, came)
    }
}

// Puts a pair or takes it out.
fn exchange<R: Wait + Clock>(rt: &R, map: &Map, draw: Draw, stood: Option<u64>) -> Done {
    let (key, value) = (draw.key, draw.value);
    match draw.kind {
        0..=3 => {
            let came = match map.insert(rt, key, value) {
                Ok(old) => Answer::number(old),
                Err(_) => NO_MEMORY,
            };
            (Call::Insert, Answer::number(stood), came, Some(value))
        }
        4..=9 => {
            let came = Answer::pair(map.remove(rt, &key));
            (Call::Remove, Answer::at(key, stood), came, None)
        }
        10..=12 => {
            let (gone, left) = parted(stood);
            let came = Answer::pair(map.remove_if(rt, &key, goes_at));
            (Call::RemoveIf, Answer::at(key, gone), came, left)
        }
        _ => {
            let (gone, left) = parted(stood.map(raised));
            let came = Answer::pair(map.remove_if_mut(rt, &key, raise_and_ask));
            (Call::RemoveIfMut, Answer::at(key, gone), came, left)
        }
    }
}

// Reads a pair.
fn read<R: Wait + Clock>(rt: &R, map: &Map, draw: Draw, stood: Option<u64>) -> Done {
    let wanted = Answer::at(draw.key, stood);
    match draw.kind {
        0..=5 => {
            let came = Answer::told(map.get(rt, &draw.key));
            (Call::Get, wanted, came, stood)
        }
        6..=10 => {
            let came = Answer::pair(map.view(rt, &draw.key, pair_of));
            (Call::View, wanted, came, stood)
        }
        _ => {
            let came = Answer::Truth(map.contains_key(rt, &draw.key));
            let wanted = Answer::Truth(stood.is_some());
            (Call::ContainsKey, wanted, came, stood)
        }
    }
}

// Writes a value, by a function or by a reference.
fn write<R: Wait + Clock>(rt: &R, map: &Map, draw: Draw, stood: Option<u64>) -> Done {
    let (key, left) = (draw.key, stood.map(raised));
    if draw.kind % 2 == 0 {
        map.alter(rt, &key, raised_at);
        let came = Answer::pair(map.view(rt, &key, pair_of));
        return (Call::Alter, Answer::at(key, left), came, left);
    }
    let came = raise_found(map.get_mut(rt, &key));
    (Call::GetMut, Answer::at(key, stood), came, left)
}

fn pair_of(key: &u64, value: &u64) -> (u64, u64) {
    (*key, *value)
}

// Raises a value, and says whether it then goes.
fn raise_and_ask(_: &u64, value: &mut u64) -> bool {
    raise(value);
    goes(*value)
}

fn key_goes(key: &u64) -> bool {
    goes(*key)
}

// Takes the entry of a key, and makes one call of it.
fn enter<R: Wait + Clock>(rt: &R, map: &Map, draw: Draw, stood: Option<u64>) -> Done {
    match map.entry(rt, draw.key) {
        Ok(Entry::Occupied(entry)) if draw.kind < 8 => on_occupied(entry, draw, stood),
        Ok(entry) => on_entry(entry, draw, stood),
        Err(_) => (Call::Entry, Answer::Nothing, NO_MEMORY, stood),
    }
}

// A call of an entry that is occupied.
fn on_occupied(
    mut entry: OccupiedEntry<'_, u64, u64, FixedState>,
    draw: Draw,
    stood: Option<u64>,
) -> Done {
    let (key, value) = (draw.key, draw.value);
    let (pair, old) = (Answer::at(key, stood), Answer::number(stood));
    match draw.kind {
        0 | 1 => {
            *entry.get_mut() = value;
            let came = Answer::told_mut(entry.into_ref());
            let wanted = Answer::Pair(key, value);
            (Call::OccupiedGetMut, wanted, came, Some(value))
        }
        2 => {
            let came = Answer::Number(entry.insert(value));
            (Call::OccupiedInsert, old, came, Some(value))
        }
        3 => {
            let came = Answer::pair(Some(entry.replace_entry(value)));
            (Call::OccupiedReplaceEntry, pair, came, Some(value))
        }
        4 | 5 => {
            let came = Answer::Number(entry.remove());
            (Call::OccupiedRemove, old, came, None)
        }
        _ => {
            let came = Answer::pair(Some(entry.remove_entry()));
            (Call::OccupiedRemoveEntry, pair, came, None)
        }
    }
}

// A call of any entry, which gives it up or leaves a value at its key.
fn on_entry(entry: Entry<'_, u64, u64, FixedState>, draw: Draw, stood: Option<u64>) -> Done {
    let (key, value) = (draw.key, draw.value);
    let put = stood.unwrap_or(value);
    let (call, left, found) = match draw.kind {
        0 | 8 => (Call::OrInsert, put, entry.or_insert(value)),
        1 | 9 => (Call::OrInsertWith, put, entry.or_insert_with(|| value)),
        2 | 10 => (Call::OrDefault, stood.unwrap_or(0), entry.or_default()),
        3 | 11 => {
            let left = stood.map_or(value, raised);
            let entry = entry.and_modify(raise);
            (Call::AndModify, left, entry.or_insert(value))
        }
        4 | 12 => (Call::EntryInsert, value, entry.insert(value)),
        5 | 13 => {
            let came = Answer::Number(entry.into_key());
            return (Call::IntoKey, Answer::Number(key), came, stood);
        }
        _ => return try_insert(entry, draw, stood),
    };
    let came = Answer::told_mut(found);
    (call, Answer::Pair(key, left), came, Some(left))
}

// Asks a closure that may refuse for the value.
fn try_insert(entry: Entry<'_, u64, u64, FixedState>, draw: Draw, stood: Option<u64>) -> Done {
    let refuses = draw.other % 4 == 0;
    let given = if refuses { None } else { Some(draw.value) };
    let came = match entry.or_try_insert_with(|| given.ok_or(())) {
        Ok(found) => Answer::told_mut(found),
        Err(()) => Answer::Nothing,
    };
    let left = stood.or(given);
    let wanted = Answer::at(draw.key, left);
    (Call::OrTryInsertWith, wanted, came, left)
}

// Takes a call of the set.
fn on_set<R: Wait + Clock>(rt: &R, set: &Set, draw: Draw, stood: Option<u64>) -> Done {
    let (key, found) = (draw.key, Answer::number(stood));
    match draw.kind {
        0..=3 => {
            let came = match set.insert(rt, key) {
                Ok(is_new) => Answer::Truth(is_new),
                Err(_) => NO_MEMORY,
            };
            let wanted = Answer::Truth(stood.is_none());
            (Call::SetInsert, wanted, came, Some(key))
        }
        4..=8 => {
            let came = Answer::number(set.remove(rt, &key));
            (Call::SetRemove, found, came, None)
        }
        9 | 10 => {
            let (gone, left) = parted(stood);
            let came = Answer::number(set.remove_if(rt, &key, key_goes));
            (Call::SetRemoveIf, Answer::number(gone), came, left)
        }
        11..=13 => {
            let came = match set.get(rt, &key) {
                Some(found) => Answer::Number(*found.key()),
                None => Answer::Nothing,
            };
            (Call::SetGet, found, came, stood)
        }
        _ => {
            let came = Answer::Truth(set.contains(rt, &key));
            let wanted = Answer::Truth(stood.is_some());
            (Call::SetContains, wanted, came, stood)
        }
    }
}

// Raises a counter, and returns what stood there, or later.
fn count<R: Wait + Clock>(rt: &R, map: &Map, kind: u64, key: u64) -> (Call, Answer) {
    match kind {
        0..=3 => match map.entry(rt, key) {
            Ok(entry) => (Call::CountEntry, raise_found(Some(entry.or_insert(0)))),
            Err(_) => (Call::CountEntry, NO_MEMORY),
        },
        4..=7 => (Call::CountGetMut, raise_found(map.get_mut(rt, &key))),
        8..=11 => match map.try_get_mut(&key) {
            TryResult::Present(found) => (Call::CountTryGetMut, raise_found(Some(found))),
            TryResult::Absent => (Call::CountTryGetMut, Answer::Nothing),
            TryResult::Locked => (Call::CountTryGetMut, Answer::Locked),
        },
        _ => {
            map.alter(rt, &key, raised_at);
            (Call::CountAlter, Answer::told(map.get(rt, &key)))
        }
    }
}
