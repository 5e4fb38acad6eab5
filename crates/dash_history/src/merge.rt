//! The merge of the histories of a row of shards.
ghost use Rattle.std.specs.Prelude.{◌≡◌, ◌++◌, map, IfOk, OnOk};
ghost use Rattle.dash_history.specs.inner.Gathering.{EachRecorded, places, places_from};
ghost use Rattle.dash_history.specs.Words.{IsMerge};

use crate::place::At;
use crate::record::{RecShard, Record};
use dash_steps::action::KeptAction;
use dash_steps::kept::{Kept, KeptKey};
use dash_steps::known::Recorded;
use std::alloc::{AllocError, Global};
use std::hash::BuildHasher;

// How many records there are.
fn count<K: KeptKey + Drop, V: Kept + Drop, S: BuildHasher, A: KeptAction<K, V> + Drop>(
    row: &[RecShard<K, V, S, A>],
) -> usize {
    let mut count: usize = 0;
    for shard in row {
        count = count.saturating_add(shard.history().len());
    }
    count
}

// Adds the places of the history of a shard.
fn add_places<K, V, A>(
    ats: &mut Vec<At>,
    shard: usize,
    history: &[Record<K, V, A>],
) -> Result<(), AllocError>
    ensures { OnOk result (ats.new.items ≡ ats.old.items ++ places_from shard 0 history.now) }
{
    for (place, record) in history.iter().enumerate() {
        ats.push(At {
            stamp: record.stamp,
            shard,
            place,
            caller: record.caller,
        })?;
    }
    Ok(())
}

// The places of all records, shard by shard.
fn places<K: KeptKey + Drop, V: Kept + Drop, S: BuildHasher, A: KeptAction<K, V> + Drop>(
    alloc: Global,
    row: &[RecShard<K, V, S, A>],
) -> Result<Vec<At>, AllocError>
    ensures { IfOk result (λ ats. ats.items ≡ places 0 (map (λ s. s.history) row.now)) }
{
    let mut ats = Vec::with_capacity(alloc, count(row))?;
    for idx in 0..row.len() {
        add_places(&mut ats, idx, row[idx].history())?;
    }
    Ok(ats)
}

/// The merge of the histories of these shards. It takes memory for the answer, and as much again while it sorts.
pub(crate) fn merge<K: KeptKey + Drop, V: Kept + Drop, S: BuildHasher, A: KeptAction<K, V> + Drop>(
    alloc: Global,
    row: &[RecShard<K, V, S, A>],
) -> Result<Vec<At>, AllocError>
    requires { EachRecorded ⟦<RecShard<K, V, S, A> as Recorded>⟧.known row.now }
    ensures { IfOk result (λ ats. IsMerge (map (λ s. s.history) row.now) ats.items) }
{
    let mut ats = places(alloc, row)?;
    ats.sort()?;
    Ok(ats)
}
