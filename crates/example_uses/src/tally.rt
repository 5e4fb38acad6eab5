//! An election: threads count the ballots on one map.
use dashmap::DashMap;
use dashmap::error::EntryRefused;
use std::rt::Clock;
use std::sync::Wait;
use std::sync::atomic::{AtomicU64, Ordering};
use std::thread::{self, Threads};

/// How many votes each candidate has, by the candidate's number.
pub type Votes = DashMap<u64, u64>;

// Counts one ballot. No vote is lost between the look-up and the write: the entry holds its shard.
fn count<R: Wait + Clock>(rt: &R, votes: &Votes, ballot: u64) -> Result<(), EntryRefused<u64>> {
    let mut votes = votes.caller(rt);
    let mut count = votes.entry(ballot)?.or_insert(0);
    *count = count.saturating_add(1);
    Ok(())
}

/// Counts the ballots on four threads, and returns how many were not counted for lack of memory.
pub fn tally<R: Threads + Wait + Clock + Sync>(rt: &R, votes: &Votes, ballots: &mut [u64]) -> u64 {
    let lost = AtomicU64::new(0);
    let count_one = |_: usize, ballot: &mut u64| {
        if count(rt, votes, *ballot).is_err() {
            lost.fetch_add(1, Ordering::SeqCst);
        }
    };
    thread::for_each_mut(rt, ballots, 4, &count_one);
    lost.into_inner()
}

/// A candidate's votes, or none where nobody voted for them.
pub fn votes_of<R: Wait + Clock>(rt: &R, votes: &Votes, candidate: u64) -> Option<u64> {
    let mut votes = votes.caller(rt);
    let found = votes.get(&candidate)?;
    Some(*found.value())
}
