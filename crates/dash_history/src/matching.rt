//! Whether the logs of callers match the histories.
ghost use Rattle.std.specs.Prelude.{◌≡◌, ◌+◌, ◌^◌, ◌<◌, ◌↔◌, ◌⊎◌, IfOk, IsTrue, MatchOption, Some, length, map};
ghost use Rattle.std.specs.List.{Contains};
ghost use Rattle.dash_history.specs.Words.{AreCallers, At, IsMerge, Names, alike_record, record_at};
ghost use Rattle.dash_history.specs.inner.Gathering.{agrees, AllEnded, EachLog, Finds, KeepsCallers, SomeGoesOn};

use crate::place::At;
use crate::record::{CallerLog, RecShard, Record};
use dash_steps::action::KeptAction;
use dash_steps::kept::{Kept, KeptKey};
use dash_steps::known::Recorded;
use std::alloc::{AllocError, Global};
use std::hash::BuildHasher;

/// By each caller the index of its log, or none where the logs are not those of the callers 0 to `callers - 1`, each once.
pub(crate) fn index_of<K, V, A>(
    alloc: Global,
    callers: usize,
    logs: &[CallerLog<K, V, A>],
) -> Result<Option<Vec<usize>>, AllocError>
    ensures { IfOk result (λ o. MatchOption o (AreCallers callers logs.now → ⊥)
        (λ index. AreCallers callers logs.now × Finds callers logs.now index.items × EachLog logs.now)) }
{
    let none = logs.len();
    let mut index = vec![in alloc; none; callers]?;
    for i in 0..logs.len() {
        let caller = logs[i].caller() as usize;
        if caller >= callers || index[caller] != none {
            return Ok(None);
        }
        index[caller] = i;
    }
    for j in 0..callers {
        if index[j] == none {
            return Ok(None);
        }
    }
    Ok(Some(index))
}

// The record at a place.
fn record_at<K: KeptKey + Drop, V: Kept + Drop, S: BuildHasher, A: KeptAction<K, V> + Drop>(
    row: &[RecShard<K, V, S, A>],
    at: At,
) -> &Record<K, V, A>
    requires { Names (map (λ s. s.history) row.now) at }
    ensures { record_at (map (λ s. s.history) row.now) at.shard at.place ≡ Some result.now }
{
    &row[at.shard].history()[at.place]
}

// Whether the log has this record at the index `k`.
fn says<K: Kept + Drop, V: Kept + Drop, A: Kept>(
    log: &CallerLog<K, V, A>,
    k: usize,
    record: &Record<K, V, A>,
) -> bool
    ensures says { result ≡ agrees (alike_record K.alike V.alike A.alike) record.now log.now.entries k }
    ensures few { IsTrue result → k + 1 < 2 ^ 64 }
{
    match log.entries().get(k) {
        Some(own) => record.same(own),
        None => false,
    }
}

// Whether `next` has the number of entries of each log.
fn ended<K: Drop, V: Drop, A>(next: &[usize], logs: &[CallerLog<K, V, A>]) -> bool
    requires { length next.now ≡ length logs.now }
    ensures all { IsTrue result → AllEnded logs.now next.now }
    ensures some { IsTrue result ⊎ SomeGoesOn logs.now next.now }
{
    for i in 0..logs.len() {
        if next[i] != logs[i].entries().len() {
            return false;
        }
    }
    true
}

/// Whether the records of each caller stand along the places as in its log, and the log has no others.
pub(crate) fn follows<
    K: KeptKey + Drop,
    V: Kept + Drop,
    S: BuildHasher,
    A: KeptAction<K, V> + Drop,
>(
    alloc: Global,
    row: &[RecShard<K, V, S, A>],
    ats: &[At],
    logs: &[CallerLog<K, V, A>],
    index: &[usize],
) -> Result<bool, AllocError>
    requires merge { IsMerge (map (λ s. s.history) row.now) ats.now }
    requires callers { (a : At) → Contains ats.now a → a.caller < length index.now }
    requires owners { AreCallers (length index.now) logs.now }
    requires finds { Finds (length index.now) logs.now index.now }
    ensures { IfOk result (λ yes. IsTrue yes
        ↔ KeepsCallers ⟦<RecShard<K, V, S, A> as Recorded>⟧.known (map (λ s. s.history) row.now) logs.now ats.now) }
{
    let mut next = vec![in alloc; 0usize; logs.len()]?;
    for at in ats {
        let record = record_at(row, *at);
        let log = index[at.caller as usize];
        let k = next[log];
        if !says(&logs[log], k, record) {
            return Ok(false);
        }
        next[log] = k + 1;
    }
    Ok(ended(&next, logs))
}
