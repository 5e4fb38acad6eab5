//! Logs that no run of the map gave: each list of them is refused by a mismatch, and nothing changes.
use crate::tests::checks::is;
use crate::tests::gather::{is_gathered, three_inserts, three_places};
use crate::tests::maps::{Alone, Log, are_pairs, map_of_two};
use dash_history::gather::GatherError;
use std::alloc::Global;
use std::process::Abort;
use std::rt::Clock;
use std::sync::Wait;

// The log of a caller of another map after three inserts: how many shards that map has, where caller 1 put its pair, and which
// caller it is.
type Other = (usize, u64, u32);

// These logs.
fn logs_of<R: Abort + Wait + Clock>(rt: &R, alloc: Global, others: &[Other]) -> Vec<Log> {
    let mut logs = Vec::new(alloc);
    for &(amount, key, caller) in others {
        let (_, first, second) = three_inserts(rt, alloc, amount, key, true);
        let log = if caller == 0 { first } else { second };
        logs.push(log).expect(rt, "refused");
    }
    logs
}

// Ends the test where these logs aren't refused, or something changed: the pairs stand there, and the map's own logs match.
fn refuses(rt: &impl Abort, alone: &Alone, logs: &[Log], own: &[Log]) {
    is(rt, alone.gather(logs).err(), Some(GatherError::Mismatch));
    are_pairs(
        rt,
        alone.pairs().expect(rt, "refused"),
        &[(0, 20), (1, 10), (4, 30)],
    );
    is_gathered(rt, alone, own, &three_places());
}

#[test]
fn false_logs_are_refused(rt: HostRuntime) {
    let (map, first, second) = three_inserts(&rt, rt.alloc(), 4, 4, true);
    let (alone, own) = (map.alone(), [second, first]);
    let others: [&[Other]; 7] = [
        // Logs are missing.
        &[],
        &[(4, 4, 0)],
        &[(4, 4, 1)],
        // One comes twice.
        &[(4, 4, 0), (4, 4, 0)],
        &[(4, 4, 0), (4, 4, 1), (4, 4, 1)],
        // Caller 0 put (0, 20) where another value stood; all else of its log is alike.
        &[(4, 0, 0), (4, 4, 1)],
        // Among eight shards the key 3 goes to shard 6.
        &[(8, 3, 0), (8, 3, 1)],
    ];
    for others in others {
        let logs = logs_of(&rt, rt.alloc(), others);
        refuses(&rt, &alone, &logs, &own);
    }
    let (_, first, second) = map_of_two(&rt, rt.alloc(), 4);
    refuses(&rt, &alone, &[first, second], &own);

    // A twin's logs are the same logs, in the other order.
    let twin = logs_of(&rt, rt.alloc(), &[(4, 4, 0), (4, 4, 1)]);
    is_gathered(&rt, &alone, &twin, &three_places());
}
