//! What a call answered, as its line says it.

use crate::noted::Noted;
use dashmap::mapref::one::{Ref, RefMut};
use std::alloc::AllocError;
use std::fmt;
use std::hash::BuildHasher;

/// What a call answered.
#[derive(Clone, Copy)]
pub enum Answer {
    None,
    Number(u64),
    Key(Noted),
    Pair(Noted, u64),
    Walk(Walk),
}

impl fmt::Display for Answer {
    fn fmt<W: fmt::Write>(&self, f: &mut fmt::Formatter<W>) -> fmt::Result {
        match *self {
            Answer::None => write!(f, "none"),
            Answer::Number(number) => write!(f, "{number}"),
            Answer::Key(key) => write!(f, "{}~{}", key.name, key.note),
            Answer::Pair(key, value) => write!(f, "{}~{}:{value}", key.name, key.note),
            Answer::Walk(walk) => write!(f, "{} pairs {:016x}", walk.count, walk.digest),
        }
    }
}

impl Answer {
    pub fn number(found: Option<u64>) -> Answer {
        match found {
            Some(number) => Answer::Number(number),
            None => Answer::None,
        }
    }

    pub fn key(found: Option<Noted>) -> Answer {
        match found {
            Some(key) => Answer::Key(key),
            None => Answer::None,
        }
    }

    pub fn pair(found: Option<(Noted, u64)>) -> Answer {
        match found {
            Some((key, value)) => Answer::Pair(key, value),
            None => Answer::None,
        }
    }

    pub fn yes(yes: bool) -> Answer {
        Answer::Number(yes as u64)
    }

    /// The pair of a reference.
    pub fn told<S: BuildHasher>(found: Ref<'_, Noted, u64, S>) -> Answer {
        Answer::Pair(*found.key(), *found.value())
    }

    /// The pair of a reference that writes.
    pub fn told_mut<S: BuildHasher>(found: RefMut<'_, Noted, u64, S>) -> Answer {
        Answer::Pair(*found.key(), *found.value())
    }

    /// The value alone of a reference that writes.
    pub fn told_value<S: BuildHasher>(found: RefMut<'_, Noted, u64, S>) -> Answer {
        Answer::Number(*found.value())
    }
}

/// What a call gave that is refused for want of memory alone.
pub fn needed<T, E: Drop>(made: Result<T, E>) -> Result<T, AllocError> {
    match made {
        Ok(it) => Ok(it),
        Err(_) => Err(AllocError),
    }
}

/// What a walk gave, whatever the order in a shard: how many pairs, and a digest of them and of the order of their shards.
#[derive(Clone, Copy)]
pub struct Walk {
    count: u64,
    shard: u64,
    sum: u64,
    digest: u64,
}

impl Walk {
    pub fn new() -> Walk {
        Walk {
            count: 0,
            shard: 0,
            sum: 0,
            digest: 0,
        }
    }

    /// Adds a pair of a shard.
    pub fn add(&mut self, shard: usize, key: Noted, value: u64) {
        if shard as u64 != self.shard {
            self.end_shard(shard as u64);
        }
        let pair = mixed(mixed(mixed(key.name) ^ key.note) ^ value);
        self.sum = self.sum.wrapping_add(pair);
        self.count = self.count.wrapping_add(1);
    }

    /// The walk, once it gave its last pair.
    pub fn ended(mut self) -> Answer {
        self.end_shard(0);
        Answer::Walk(self)
    }

    fn end_shard(&mut self, next: u64) {
        self.digest = mixed(self.digest ^ mixed(self.sum ^ self.shard));
        self.shard = next;
        self.sum = 0;
    }
}

/// A number whose bits look random, another one for each number.
#[inline]
pub fn mixed(number: u64) -> u64 {
    let mut mixed = number.wrapping_mul(0x9e37_79b9_7f4a_7c15);
    mixed = (mixed ^ (mixed >> 30)).wrapping_mul(0xbf58_476d_1ce4_e5b9);
    mixed = (mixed ^ (mixed >> 27)).wrapping_mul(0x94d0_49bb_1331_11eb);
    mixed ^ (mixed >> 31)
}
