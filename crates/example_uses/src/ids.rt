//! Numbers for names: each name has one. A name that has one is looked up by text, without a copy of it.
use dashmap::DashMap;
use dashmap::error::ConstructError;
use std::alloc::{AllocError, Global};
use std::rt::Clock;
use std::sync::Wait;
use std::sync::atomic::{AtomicU32, Ordering};
use std::thread::Threads;

/// The names, each with its number. Threads share it.
#[derive(Drop)]
pub struct Ids {
    ids: DashMap<String, u32>,
    next: AtomicU32,
}

impl Ids {
    /// No names. The first one gets number 0.
    pub fn of<R: Threads + AllocGlobal>(rt: &R) -> Result<Self, ConstructError> {
        Ok(Ids {
            ids: DashMap::of(rt)?,
            next: AtomicU32::new(0),
        })
    }

    /// The name's number, a new one where it had none. Waits for the name's shard, and takes memory for a new name.
    pub fn id_of<R: Wait + Clock>(
        &self,
        rt: &R,
        alloc: Global,
        name: &str,
    ) -> Result<u32, AllocError> {
        let mut ids = self.ids.caller(rt);
        if let Some(id) = ids.get(name) {
            return Ok(*id);
        }
        // Somebody may have put the name in meanwhile: then the entry has its number.
        let Ok(entry) = ids.entry(String::from_str(alloc, name)?) else {
            return Err(AllocError);
        };
        let id = entry.or_insert_with(|| self.next.fetch_add(1, Ordering::Relaxed));
        Ok(*id)
    }

    /// How many names there are. Waits for one shard after the other.
    pub fn len<R: Wait + Clock>(&self, rt: &R) -> usize {
        self.ids.len(rt)
    }
}
