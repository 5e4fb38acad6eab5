//! How often a cache found what it was asked for. Each shard has numbers of its own, so that threads which ask for keys of different shards
//! don't write one place.
ghost use Rattle.std.specs.Prelude.{◌≡◌, IfErr};
ghost use Rattle.dashmap.specs.Words.{Memory};

use crossbeam_utils::CachePadded;
use dash_shard::error::ConstructError;
use std::alloc::Global;
use std::sync::atomic::{AtomicU64, Ordering};

// A number goes so far. Of the threads that are just adding one there are not as many as 2^64 is above it, so it never wraps.
const MOST: u64 = 1 << 63;

// How often what was asked for was kept in one shard, and how often it wasn't.
#[derive(Drop)]
struct Count {
    hits: AtomicU64,
    misses: AtomicU64,
}

// The counts of all shards.
#[derive(Drop)]
pub(super) struct Counts {
    row: Vec<CachePadded<Count>>,
}

impl Counts {
    // No counts yet, in memory of their own.
    pub(super) fn new(alloc: Global, shards: usize) -> Result<Self, ConstructError>
        ensures { IfErr result (λ e. e ≡ Memory) }
    {
        let Ok(mut row) = Vec::with_capacity(alloc, shards) else {
            return Err(ConstructError::Memory);
        };
        for _ in 0..shards {
            if row.push(CachePadded::new(Count::new())).is_err() {
                return Err(ConstructError::Memory);
            }
        }
        Ok(Counts { row })
    }

    #[inline]
    pub(super) fn hit(&self, shard: usize) {
        if let Some(count) = self.row.get(shard) {
            add_one(&count.hits);
        }
    }

    #[inline]
    pub(super) fn miss(&self, shard: usize) {
        if let Some(count) = self.row.get(shard) {
            add_one(&count.misses);
        }
    }

    // Saturating, as `misses`.
    pub(super) fn hits(&self) -> u64 {
        let mut sum: u64 = 0;
        for count in &self.row {
            sum = sum.saturating_add(count.hits.load(Ordering::Relaxed));
        }
        sum
    }

    pub(super) fn misses(&self) -> u64 {
        let mut sum: u64 = 0;
        for count in &self.row {
            sum = sum.saturating_add(count.misses.load(Ordering::Relaxed));
        }
        sum
    }
}

impl Count {
    fn new() -> Count {
        Count {
            hits: AtomicU64::new(0),
            misses: AtomicU64::new(0),
        }
    }
}

#[inline]
fn add_one(number: &AtomicU64) {
    if number.load(Ordering::Relaxed) < MOST {
        number.fetch_add(1, Ordering::Relaxed);
    }
}
