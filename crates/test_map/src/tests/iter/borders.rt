//! A walk that comes to the end of a shard takes the next hold before it gives up the old one.
//!
//! One thread has the next shard, and another one walks. They wait for one another by what is held, and no longer than they have turns.
use crate::tests::checks::is;
use crate::tests::maps::{Places, is_held, three_pairs};
use std::alloc::Global;
use std::process::Abort;
use std::rt::Clock;
use std::sync::Wait;
use std::thread::{self, Threads};

// Waits until somebody holds the shard of a key, and says whether that came.
fn is_held_soon(map: &Places, key: u64) -> bool {
    for _ in 0..100_000u64 {
        if is_held(map, key) {
            return true;
        }
        thread::yield_now();
    }
    false
}

// Has the shard 1 and, once the walk is in the shard 0, the shard 3 as a sign. Says whether the walk keeps its shard while it wants the next.
fn keep_the_next_shard<R: Wait + Clock>(rt: &R, map: &Places) -> bool {
    let Some(_next) = map.get_mut(rt, &1) else {
        return false;
    };
    if !is_held_soon(map, 0) {
        return true;
    }
    let Some(_sign) = map.get_mut(rt, &3) else {
        return false;
    };
    let mut kept = true;
    for _ in 0..10_000u64 {
        thread::yield_now();
        kept = kept && is_held(map, 0);
    }
    kept
}

// Walks once the shard 1 is held, and goes on from the first pair at the sign. Says whether all three pairs came.
fn read_to_the_end<R: Wait + Clock>(rt: &R, map: &Places) -> bool {
    is_held_soon(map, 1);
    let mut walk = map.iter(rt);
    let mut values = 0u64;
    if let Some(Ok(item)) = walk.next() {
        values = *item;
    }
    is_held_soon(map, 3);
    for item in walk {
        if let Ok(item) = item {
            values = values.wrapping_add(*item);
        }
    }
    values == 45
}

// The same of a walk that writes.
fn write_to_the_end<R: Wait + Clock>(rt: &R, map: &Places) -> bool {
    is_held_soon(map, 1);
    let mut walk = map.iter_mut(rt);
    let mut values = 0u64;
    for _ in 0..4 {
        if let Some(value) = walk.next_mut() {
            values = values.wrapping_add(*value);
        }
        if values == 5 {
            is_held_soon(map, 3);
        }
    }
    values == 45
}

// Both threads, where the walk writes or reads. Ends the test where a hold was given up too early or a pair didn't come.
fn meet<R: Threads + Wait + Clock + Abort + Sync>(rt: &R, alloc: Global, writes: bool) {
    let map = three_pairs(rt, alloc);
    let mut answers = [false, false];
    thread::for_each_mut(
        rt,
        answers.as_mut_slice(),
        2,
        &|thread, answer: &mut bool| {
            *answer = match thread {
                0 => keep_the_next_shard(rt, &map),
                _ if writes => write_to_the_end(rt, &map),
                _ => read_to_the_end(rt, &map),
            };
        },
    );
    is(rt, answers, [true, true]);
}

#[test]
fn a_walk_that_reads(rt: HostRuntime) {
    meet(&rt, rt.alloc(), false);
}

#[test]
fn a_walk_that_writes(rt: HostRuntime) {
    meet(&rt, rt.alloc(), true);
}
