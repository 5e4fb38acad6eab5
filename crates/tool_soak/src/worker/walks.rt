//! Walks, and calls on all pairs, of which the thread changes its own alone.

use super::{Draw, Map, OWNERS, Set, Shared, Worker, goes, owner, parted, raise, raised};
use crate::answer::{Answer, Judged, judge, no_memory};
use crate::call::{COUNTERS, Call};
use crate::list::{List, weight};
use std::alloc::AllocError;
use std::rt::Clock;
use std::sync::Wait;

impl Worker {
    // A call that looks at all shards, or at some pairs.
    pub fn take_look<R: Wait + Clock>(&mut self, rt: &R, shared: &Shared, draw: Draw) -> Judged {
        let (map, set) = (&shared.map, &shared.set);
        let own = self.own.sums(0, 1).0;
        match draw.kind {
            0..=7 => self.walk(rt, map, draw.other % 512),
            8 | 9 => {
                let came = map.len(rt) as u64;
                self.tally.most = self.tally.most.max(came);
                self.judge_least(Call::Len, own.wrapping_add(COUNTERS as u64), came)
            }
            10 => self.judge_least(Call::Capacity, own, map.capacity(rt) as u64),
            11 => {
                let own = self.own_set.sums(0, 1).0;
                self.judge_least(Call::SetLen, own, set.len(rt) as u64)
            }
            12 | 13 => {
                let came = Answer::Truth(map.is_empty(rt));
                self.judge(Call::IsEmpty, 0, Answer::Truth(false), came)
            }
            14 => {
                map.shrink_to_fit(rt);
                self.tally.count(Call::ShrinkToFit);
                Ok(())
            }
            _ => {
                set.shrink_to_fit(rt);
                self.tally.count(Call::SetShrink);
                Ok(())
            }
        }
    }

    // Judges a number, which is to be this one or greater.
    fn judge_least(&mut self, call: Call, least: u64, came: u64) -> Judged {
        let wanted = Answer::Number(came.max(least));
        self.judge(call, 0, wanted, Answer::Number(came))
    }

    // A call on all pairs.
    pub fn take_walk<R: Wait + Clock>(&mut self, rt: &R, shared: &Shared, draw: Draw) -> Judged {
        let map = &shared.map;
        match draw.kind {
            0..=2 => self.walk(rt, map, 0),
            3..=5 => self.walk_writing(rt, map),
            6 | 7 => self.see_copies(Call::Pairs, map.pairs(rt)),
            8 | 9 => self.see_copies(Call::Clone, copies(rt, map)),
            10 | 11 => {
                self.alter_all(rt, map);
                Ok(())
            }
            12 | 13 => {
                self.retain(rt, map);
                Ok(())
            }
            _ => {
                self.retain_keys(rt, &shared.set);
                self.walk_set(rt, &shared.set)
            }
        }
    }

    /// A walk over the map. It ends early after so many pairs, if there are as many, and calls that wait for nobody beside the last.
    pub fn walk<R: Wait + Clock>(&mut self, rt: &R, map: &Map, mut pairs: u64) -> Judged {
        for found in map.iter(rt) {
            let Ok(found) = found else {
                return Err(no_memory(Call::Iter));
            };
            let key = *found.key();
            let stood = self.own.at(key / OWNERS);
            self.see(Call::Iter, key, *found.value(), stood);
            pairs = pairs.wrapping_sub(1);
            if pairs == 0 {
                self.tally.count(Call::IterEnded);
                let draw = self.draw();
                self.take_tries(map, key, true, draw);
                self.seen = 0;
                return Ok(());
            }
        }
        self.judge_own(Call::Iter)
    }

    /// A walk over the set.
    pub fn walk_set<R: Wait + Clock>(&mut self, rt: &R, set: &Set) -> Judged {
        for found in set.iter(rt) {
            let Ok(found) = found else {
                return Err(no_memory(Call::SetIter));
            };
            let key = *found.key();
            let stood = self.own_set.at(key / OWNERS);
            self.see(Call::SetIter, key, key, stood);
        }
        let (_, wanted) = self.own_set.sums(0, 1);
        self.judge_seen(Call::SetIter, wanted)
    }

    // A walk that writes each value of its own.
    fn walk_writing<R: Wait + Clock>(&mut self, rt: &R, map: &Map) -> Judged {
        let mut walk = map.iter_mut(rt);
        for _ in rt.forever() {
            if !walk.advance() {
                break;
            }
            let mut found = walk.item_mut();
            let (key, value) = (*found.key(), *found.value());
            let stood = self.own.at(key / OWNERS);
            self.see(Call::IterMut, key, value, stood);
            if owner(key) == self.index {
                raise(found.value_mut());
            }
        }
        let judged = self.judge_own(Call::IterMut);
        self.raise_own();
        judged
    }

    // Judges copies of all pairs.
    fn see_copies(&mut self, call: Call, copies: Result<Vec<(u64, u64)>, AllocError>) -> Judged {
        let Ok(copies) = copies else {
            return Err(no_memory(call));
        };
        for (key, value) in &copies {
            let stood = self.own.at(*key / OWNERS);
            self.see(call, *key, *value, stood);
        }
        self.judge_own(call)
    }

    // Judges a pair that a walk gave, and notes what is wrong. One of the thread's own is known, and is weighed. Another's value names
    // its thread, or nobody.
    fn see(&mut self, call: Call, key: u64, value: u64, stood: Option<u64>) {
        let came = Answer::Pair(key, value);
        if owner(key) == self.index {
            self.seen = self.seen.wrapping_add(weight(key / OWNERS, value));
            self.note(judge(call, key, Answer::at(key, stood), came));
        } else if owner(value) != 0 && owner(value) != owner(key) {
            self.note(judge(call, key, Answer::Pair(key, owner(key)), came));
        }
    }

    // Judges whether a walk saw each pair of its own once, by what they weigh.
    fn judge_seen(&mut self, call: Call, wanted: u64) -> Judged {
        let came = Answer::Number(self.seen);
        self.seen = 0;
        self.judge(call, self.index, Answer::Number(wanted), came)
    }

    // The same of the map.
    fn judge_own(&mut self, call: Call) -> Judged {
        let (_, wanted) = self.own.sums(0, 1);
        self.judge_seen(call, wanted)
    }

    // All values of its own were raised.
    fn raise_own(&mut self) {
        for value in &mut self.own.values {
            if let Some(value) = value {
                raise(value);
            }
        }
    }

    // Changes all values of its own.
    fn alter_all<R: Wait + Clock>(&mut self, rt: &R, map: &Map) {
        self.tally.count(Call::AlterAll);
        let me = self.index;
        map.alter_all(
            rt,
            |key, value| if owner(*key) == me {
                raised(value)
            } else {
                value
            },
        );
        self.raise_own();
    }

    // Changes all values of its own, and keeps some of them.
    fn retain<R: Wait + Clock>(&mut self, rt: &R, map: &Map) {
        self.tally.count(Call::Retain);
        let me = self.index;
        map.retain(rt, |key, value| {
            if owner(*key) != me {
                return true;
            }
            raise(value);
            !goes(*value)
        });
        self.raise_own();
        part_all(&mut self.own);
    }

    // Keeps some keys of its own.
    fn retain_keys<R: Wait + Clock>(&mut self, rt: &R, set: &Set) {
        self.tally.count(Call::SetRetain);
        let me = self.index;
        set.retain(rt, |key| owner(*key) != me || !goes(*key));
        part_all(&mut self.own_set);
    }
}

// What goes of a list is gone.
fn part_all(list: &mut List) {
    for value in &mut list.values {
        *value = parted(*value).1;
    }
}

// The pairs of a copy of the map.
fn copies<R: Wait + Clock>(rt: &R, map: &Map) -> Result<Vec<(u64, u64)>, AllocError> {
    map.clone(rt)?.pairs(rt)
}
