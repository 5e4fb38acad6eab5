//! Calls on one key, which is new in a full shard.

use crate::keys::{FULL, Key, Value, bare, is_key_of, is_pair_of, pair_of};
use crate::map::maps::Tried;
use crate::trial::Ended;
use dashmap::Entry;
use dashmap::error::{EntryRefused, InsertEntryRefused, InsertRefused, TryEntryRefused};
use std::alloc::AllocError;
use std::hash::BuildHasher;
use std::rt::Clock;
use std::sync::Wait;

impl<S: BuildHasher + Drop> Tried<S> {
    /// How a call on one key ended.
    pub fn on_key<R: Wait + Clock>(&self, rt: &R, call: &str) -> Result<Ended, AllocError> {
        match call {
            "insert" => self.insert(rt, FULL),
            "insert_over" => self.insert(rt, 1),
            "entry" => self.entry(rt),
            "try_entry" => self.try_entry(),
            _ => self.insert_entry(rt),
        }
    }

    // `insert`: where it is refused (1) the pair comes back. Over an equal key it takes no memory.
    fn insert<R: Wait + Clock>(&self, rt: &R, number: u64) -> Result<Ended, AllocError> {
        let (key, value) = pair_of(self.alloc, number)?;
        Ok(match self.map.insert(rt, key, value) {
            Ok(old) => {
                let pairs = if number < FULL { FULL } else { FULL + 1 };
                Ended::answered(pairs, old.is_some() == (number < FULL))
            }
            Err(InsertRefused { key, value }) => {
                let came_back = number == FULL && is_pair_of(&key, &value, number);
                Ended::refused("InsertRefused (1)", FULL, came_back)
            }
        })
    }

    // `entry`: where it is refused (2) the key comes back.
    fn entry<R: Wait + Clock>(&self, rt: &R) -> Result<Ended, AllocError> {
        let (key, value) = pair_of(self.alloc, FULL)?;
        Ok(match self.map.entry(rt, key) {
            Ok(entry) => put(entry, value),
            Err(EntryRefused { key }) => {
                Ended::refused("EntryRefused (2)", FULL, is_key_of(&key, FULL))
            }
        })
    }

    // `try_entry`: where it is refused (10) the key comes back. The one thread here gets each hold.
    fn try_entry(&self) -> Result<Ended, AllocError> {
        let (key, value) = pair_of(self.alloc, FULL)?;
        Ok(match self.map.try_entry(key) {
            Ok(entry) => put(entry, value),
            Err(TryEntryRefused::Memory(key)) => {
                Ended::refused("TryEntryRefused::Memory (10)", FULL, is_key_of(&key, FULL))
            }
            Err(TryEntryRefused::Locked(_key)) => Ended::answered(FULL, false),
        })
    }

    // `insert_entry`: where it is refused (3) the entry goes on, holds its shard, and takes the value.
    fn insert_entry<R: Wait + Clock>(&self, rt: &R) -> Result<Ended, AllocError> {
        let (key, value) = pair_of(self.alloc, FULL)?;
        Ok(match self.map.entry(rt, key)?.insert_entry(value) {
            Ok(entry) => Ended::answered(FULL + 1, is_pair_of(entry.key(), entry.get(), FULL)),
            Err(InsertEntryRefused { entry, value }) => {
                let came_back = is_pair_of(entry.key(), &value, FULL) && self.is_held();
                drop(entry.insert(value));
                Ended::refused("InsertEntryRefused (3)", FULL + 1, came_back)
            }
        })
    }

    // Whether somebody holds the shard that is full.
    fn is_held(&self) -> bool {
        self.map.try_get_mut(&bare(self.alloc, 0)).is_locked()
    }
}

// Puts a value at a key that has to be vacant.
fn put<S: BuildHasher + Drop>(entry: Entry<'_, Key, Value, S>, value: Value) -> Ended {
    match entry {
        Entry::Vacant(entry) => {
            drop(entry.insert(value));
            Ended::answered(FULL + 1, true)
        }
        Entry::Occupied(_) => Ended::answered(FULL, false),
    }
}
