//! Calls that wait for nobody, alone and beside a guard.
ghost use Rattle.std.specs.Prelude.{◌≡◌, ◌↔◌, ◌⊎◌, IsTrue, IsFalse, Ok};

use super::{Draw, Map, OWN, OWNERS, Worker, raise, raise_found, raised};
use crate::answer::{Answer, Done, Judged, NO_MEMORY};
use crate::call::Call;
use dashmap::Entry;
use dashmap::error::TryEntryRefused;
use dashmap::try_result::TryResult;
use std::rt::Clock;
use std::sync::Wait;

/// The shard that this thread holds while it calls, and whether it holds it for reading alone.
#[derive(Clone, Copy)]
pub(super) struct Held {
    pub shard: usize,
    pub reads: bool,
}

impl Worker {
    // Takes a call that waits for nobody: mostly some of them beside a guard, and then a call of it.
    pub fn take_beside<R: Wait + Clock>(&mut self, rt: &R, map: &Map, draw: Draw) -> Judged {
        match draw.kind {
            0..=3 => self.take_try(map, draw, None),
            4..=7 => self.beside_ref(rt, map, draw),
            8 | 9 => self.beside_entry(rt, map, draw),
            _ => self.beside_ref_mut(rt, map, draw),
        }
    }

    // Calls beside a reference that reads.
    fn beside_ref<R: Wait + Clock>(&mut self, rt: &R, map: &Map, draw: Draw) -> Judged {
        let key = draw.key;
        let found = map.get(rt, &key);
        if found.is_some() {
            self.take_tries(map, key, true, draw);
        }
        let wanted = Answer::at(key, self.own.at(draw.number));
        self.judge(Call::Get, key, wanted, Answer::told(found))
    }

    // Calls beside an entry.
    fn beside_entry<R: Wait + Clock>(&mut self, rt: &R, map: &Map, draw: Draw) -> Judged {
        let (key, value) = (draw.key, draw.value);
        let came = match map.entry(rt, key) {
            Ok(entry) => {
                self.take_tries(map, key, false, draw);
                Answer::told_mut(entry.insert(value))
            }
            Err(_) => NO_MEMORY,
        };
        self.own.put(draw.number, Some(value));
        self.judge(Call::EntryInsert, key, Answer::Pair(key, value), came)
    }

    // Calls beside a reference that writes, and, once it has written and is one that reads, again.
    fn beside_ref_mut<R: Wait + Clock>(&mut self, rt: &R, map: &Map, draw: Draw) -> Judged {
        let key = draw.key;
        let left = self.own.at(draw.number).map(raised);
        let Some(mut found) = map.get_mut(rt, &key) else {
            return self.judge(Call::GetMut, key, Answer::at(key, left), Answer::Nothing);
        };
        self.take_tries(map, key, false, draw);
        raise(found.value_mut());
        self.own.put(draw.number, left);
        let found = found.downgrade();
        self.take_tries(map, key, true, draw);
        let came = Answer::told(Some(found));
        self.judge(Call::Downgrade, key, Answer::at(key, left), came)
    }

    // Takes three calls beside a guard of a key's shard, which may be one that only reads, and notes what is wrong.
    pub fn take_tries(&mut self, map: &Map, key: u64, reads: bool, mut draw: Draw) {
        let shard = map.determine_map(&key);
        for _ in 0..3 {
            let judged = self.take_try(map, draw, Some(Held { shard, reads }));
            self.note(judged);
            draw.number = (draw.number ^ draw.other) % OWN;
            draw.key = self.key(draw.number);
            draw.kind = draw.kind.wrapping_add(draw.value);
            draw.value = draw.value.wrapping_add(OWNERS);
        }
    }

    // Takes one call that waits for nobody, on a key of its own.
    fn take_try(&mut self, map: &Map, draw: Draw, held: Option<Held>) -> Judged {
        let stood = self.own.at(draw.number);
        let (call, wanted, came, left) = match draw.kind % 3 {
            0 => try_read(map, draw, stood),
            1 => try_write(map, draw, stood),
            _ => try_exchange(map, draw, stood),
        };
        self.own.put(draw.number, left);
        let is_own = match held {
            Some(held) => held.shard == map.determine_map(&draw.key)
                && !(held.reads && draw.kind % 3 == 0),
            None => false,
        };
        self.judge_try(call, draw.key, is_own, wanted, came)
    }

    // Judges the answer of a call that waits for nobody. It has to be `Locked` where this thread has the shard itself, and elsewhere it
    // may be.
    pub fn judge_try(
        &mut self,
        call: Call,
        key: u64,
        is_own: bool,
        wanted: Answer,
        came: Answer,
    ) -> Judged
        ensures own { IsTrue is_own → (result ≡ Ok tt ↔ (came ≡ Answer.Locked)) }
        ensures other { IsFalse is_own → (result ≡ Ok tt ↔ (came ≡ wanted) ⊎ (came ≡ Answer.Locked)) }
    {
        if is_own {
            return self.judge(call, key, Answer::Locked, came);
        }
        if came == Answer::Locked {
            self.tally.count(Call::Locked);
            return Ok(());
        }
        self.judge(call, key, wanted, came)
    }
}

fn try_read(map: &Map, draw: Draw, stood: Option<u64>) -> Done {
    let came = match map.try_get(&draw.key) {
        TryResult::Present(found) => Answer::told(Some(found)),
        TryResult::Absent => Answer::Nothing,
        TryResult::Locked => Answer::Locked,
    };
    (Call::TryGet, Answer::at(draw.key, stood), came, stood)
}

fn try_write(map: &Map, draw: Draw, stood: Option<u64>) -> Done {
    let wanted = Answer::at(draw.key, stood);
    let (came, left) = match map.try_get_mut(&draw.key) {
        TryResult::Present(found) => (raise_found(Some(found)), stood.map(raised)),
        TryResult::Absent => (Answer::Nothing, stood),
        TryResult::Locked => (Answer::Locked, stood),
    };
    (Call::TryGetMut, wanted, came, left)
}

// Takes a pair out, or puts one where none is.
fn try_exchange(map: &Map, draw: Draw, stood: Option<u64>) -> Done {
    let (came, left) = match map.try_entry(draw.key) {
        Ok(Entry::Occupied(entry)) => (Answer::pair(Some(entry.remove_entry())), None),
        Ok(Entry::Vacant(entry)) => {
            drop(entry.insert(draw.value));
            (Answer::Nothing, Some(draw.value))
        }
        Err(TryEntryRefused::Locked(_)) => (Answer::Locked, stood),
        Err(TryEntryRefused::Memory(_)) => (NO_MEMORY, stood),
    };
    (Call::TryEntry, Answer::at(draw.key, stood), came, left)
}
