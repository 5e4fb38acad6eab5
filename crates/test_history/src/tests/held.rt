//! Recorded shards that are held.
use crate::tests::checks::{is, prints};
use crate::tests::maps::{Step, map_of_two};
use std::mem;

// A leaked hold leaves what it recorded, and a map that can be dropped.
#[test]
fn a_leaked_hold_leaves_what_it_recorded(rt: HostRuntime) {
    let (map, _, mut log) = map_of_two(&rt, rt.alloc(), 4);
    let mut held = map.held(&rt, 1);
    is(
        &rt,
        (held.number(), held.amount(), held.last_stamp()),
        (1, 4, 0),
    );
    assert!(rt; held.routes(&5));
    assert!(rt; log.caller() < held.callers());
    let answer = held.record(&mut log, Step::Insert(5, 50));
    prints(&rt, rt.alloc(), &answer, "Ok(Old(None))");
    mem::forget(held);
    let alone = map.alone();
    is(&rt, (alone.last_of(1), log.last_stamp()), (1, 1));
    let map = alone.end();
    mem::forget(map.held(&rt, 1));
    drop(map);
}
