//! A recorded map of two callers, which calls are taken on.
ghost use Rattle.dash_shard.specs.Hashing.{HashAlike};

use crate::history::steps::apply;
use crate::keys::{FULL, Key, Value, bare, pair_of};
use crate::trial::needed;
use core::mem::replace_with;
use dash_history::alone::RecAlone;
use dash_history::record::map::RecordedMap;
use dash_history::record::{CallerLog, Record};
use dash_steps::kept::Kept;
use dash_steps::known::Recorded as Known;
use dash_steps::step::ShardStep;
use std::alloc::{AllocError, Global};
use std::hash::BuildHasher;
use std::rt::Clock;
use std::sync::Wait;

/// A recorded map.
pub type Map<S> = RecordedMap<Key, Value, S>;

/// The log of a caller.
pub type Log = CallerLog<Key, Value>;

/// A step.
pub type Step = ShardStep<Key, Value>;

// A copy of the record at a place, if one is there.
type Copied = Option<Record<Key, Value>>;

// Those at the places of all lists: first the histories, then the logs.
type Copies = Vec<Copied>;

// So many records fill a list: one more takes memory.
const RECORDS: u64 = 32;

// So many places of a list are looked at, which are more than a list may get records.
const PLACES: usize = 40;

// So many lists there are: four histories and two logs.
const LISTS: usize = 6;

/// A map with the logs of its callers, and copies of all records.
#[derive(Drop)]
pub struct Recorded<S: BuildHasher> {
    pub alloc: Global,
    pub hasher: S,
    pub map: Map<S>,
    pub logs: Vec<Log>,
    /// How many records histories and logs have to have.
    pub records: usize,
    copies: Copies,
}

impl<S: BuildHasher + Clone + Copy + Drop> Recorded<S> {
    /// A map of four shards, where one more pair takes memory in shard 0, and one more record in its history and in the log of caller 0.
    /// Caller 1 took two steps in shard 1.
    pub fn begin<R: Wait + Clock>(rt: &R, alloc: Global, hasher: S) -> Result<Self, AllocError>
        requires { (s t : S) → S.is_clone s t → HashAlike ⟦<Map<S> as Known>⟧.known.keys s t }
    {
        let (map, logs) = needed(RecordedMap::new(alloc, hasher, 4, 2))?;
        let mut recorded = Recorded {
            alloc,
            hasher,
            map,
            logs,
            records: RECORDS as usize * 2 + 4,
            copies: Vec::new(alloc),
        };
        recorded.fill(rt)?;
        Ok(recorded)
    }
}

impl<S: BuildHasher + Drop> Recorded<S> {
    // Fills the lists of the map and of its logs, and copies the records.
    fn fill<R: Wait + Clock>(&mut self, rt: &R) -> Result<(), AllocError> {
        for number in 0..RECORDS + 2 {
            let step = filling(self.alloc, number)?;
            let log = self.logs.get_mut((number >= RECORDS) as usize);
            drop(needed(apply(rt, &self.map, log, step, "apply"))?);
        }
        self.has(FULL)?;
        Ok(())
    }

    /// Whether there are so many pairs, and as many records as there have to be, where those that were copied stand as they were.
    pub fn has(&mut self, pairs: u64) -> Result<bool, AllocError> {
        let found = self.map.pairs()?.len();
        let seen = replace_with(&mut self.map, (&self.logs, &mut self.copies), seen)?;
        Ok(found as u64 == pairs && seen == Some(self.records))
    }
}

// A step that puts a pair, or once there are `FULL` one that is only recorded. Those of caller 1 come last.
fn filling(alloc: Global, number: u64) -> Result<Step, AllocError> {
    if number >= RECORDS {
        return Ok(ShardStep::Count(1));
    }
    if number >= FULL {
        return Ok(ShardStep::Contains(bare(alloc, 0)));
    }
    let (key, value) = pair_of(alloc, number)?;
    Ok(ShardStep::Insert(key, value))
}

// The record at a place, counted over all lists.
fn record_at<'a, S: BuildHasher + Drop>(
    alone: &'a RecAlone<Key, Value, S>,
    logs: &'a [Log],
    index: usize,
) -> Option<&'a Record<Key, Value>> {
    let (list, place) = (index / PLACES, index % PLACES);
    let shards = alone.shard_count();
    if list < shards {
        alone.entry_at(list, place)
    } else {
        logs.get(list - shards)?.entries().get(place)
    }
}

// What `look` finds, and the map that was looked at.
fn seen<S: BuildHasher + Drop>(
    map: Map<S>,
    (logs, copies): (&Vec<Log>, &mut Copies),
) -> (Map<S>, Result<Option<usize>, AllocError>) {
    let alone = map.alone();
    let seen = look(&alone, logs, copies);
    (alone.end(), seen)
}

// How many records there are, where each that was copied stands as it was. The first look copies them.
fn look<S: BuildHasher + Drop>(
    alone: &RecAlone<Key, Value, S>,
    logs: &[Log],
    copies: &mut Copies,
) -> Result<Option<usize>, AllocError> {
    let mut count = 0usize;
    let mut same = true;
    for index in 0..LISTS * PLACES {
        let record = record_at(alone, logs, index);
        count = count.saturating_add(record.is_some() as usize);
        if index < copies.len() {
            same &= is_kept(copies.get(index), record);
        } else {
            copies.push(copy_of(record)?)?;
        }
    }
    Ok(if same { Some(count) } else { None })
}

fn copy_of(record: Option<&Record<Key, Value>>) -> Result<Copied, AllocError> {
    match record {
        Some(record) => Ok(Some(record.copy()?)),
        None => Ok(None),
    }
}

// Whether a record stands as it was copied, if it was.
fn is_kept(copy: Option<&Copied>, now: Option<&Record<Key, Value>>) -> bool {
    match (copy, now) {
        (Some(Some(copy)), Some(now)) => copy.same(now),
        (Some(Some(_)), None) => false,
        _ => true,
    }
}
