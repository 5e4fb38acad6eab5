//! Calls on a cache.
ghost use Rattle.dash_shard.specs.Hashing.{HashAlike};

use crate::keys::{FULL, Key, is_key_of, key_of};
use crate::map::maps::{Map, Tried};
use crate::trial::{Ended, needed};
use dashmap::Kept;
use dashmap::keyed::Keyed;
use dashmap::memo::Rule;
use std::alloc::AllocError;
use std::hash::BuildHasher;
use std::rt::Clock;
use std::sync::Wait;
use std::thread::Threads;

/// A key, as a value. Two are alike where the keys are equal, as values of equal keys have to be.
#[derive(Drop)]
pub struct Echoed {
    key: Key,
}

impl Kept for Echoed {
    ghost use Rattle.std.specs.Prelude.{◌==◌};
    ghost use Rattle.std.specs.Cmp.{nat_eq_equiv, on_equiv};

    ghost alike = { λ v w. v.key.name == w.key.name };

    fn copy(&self) -> Result<Echoed, AllocError> {
        Ok(Echoed {
            key: self.key.copy()?,
        })
    }

    fn same(&self, other: &Echoed) -> bool {
        self.key == other.key
    }

    ghost alike_laws = { on_equiv (λ v. v.key.name) nat_eq_equiv };
}

/// The key itself, in memory of its own.
#[derive(Drop)]
pub struct Echo;

impl Rule<Key, Echoed> for Echo {
    ghost value_of = { λ key. record { key = key } };

    fn compute(&self, key: &Key) -> Result<Echoed, AllocError> {
        Ok(Echoed { key: key.copy()? })
    }

    ghost equal_alike = { λ j k same. same };
}

impl<S: BuildHasher + Clone + Copy + Default + Send + Sync + Drop> Tried<S>
where
    S::Hasher: Send + Sync,
{
    /// How a call on a cache ended, or another.
    pub fn on_cache<R>(&self, rt: &R, call: &str) -> Result<Ended, AllocError>
    where
        R: Threads + Wait + Clock + Sync,
        requires { (s t : S) → S.is_clone s t → HashAlike ⟦<Map<S> as Keyed>⟧.by s t }
    {
        match call {
            "memo_ask" => self.ask(rt, true, false),
            "memo_ask_kept" => self.ask(rt, true, true),
            "memo_try_ask" => self.ask(rt, false, false),
            "memo_try_ask_kept" => self.ask(rt, false, true),
            _ => self.on_copy(rt, call),
        }
    }
}

impl<S: BuildHasher + Drop> Tried<S> {
    // Asks for a value by a call that waits or not, when it is kept or not. Where it is refused (25) what is kept stays so.
    fn ask<R: Wait + Clock>(&self, rt: &R, waits: bool, kept: bool) -> Result<Ended, AllocError> {
        let key = key_of(self.alloc, FULL)?;
        if kept {
            drop(needed(self.cache.ask(rt, &key))?);
        }
        let before = self.cache.len(rt);
        let answer = if waits {
            self.cache.ask(rt, &key)
        } else {
            self.cache.try_ask(&key)
        };
        let after = self.cache.len(rt);
        let stays = before <= after && after <= 1;
        Ok(match answer {
            Ok(value) => Ended::answered(FULL, stays && is_key_of(&value.key, FULL)),
            Err(_) => Ended::refused("MemoRefused (25)", FULL, stays),
        })
    }
}
