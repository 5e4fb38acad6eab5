//! One shard's calls, as worked by hand.
use crate::tests::by_hand::{new_shard, put, remove, shard_one};
use crate::tests::checks::is;
use crate::values::Noted;
use dash_shard::hash::PlaceState;

mod held;
mod table;

#[test]
fn the_stored_key_stays(rt: HostRuntime) {
    let mut shard = new_shard(&rt, rt.alloc(), PlaceState, 1, 4, 0);
    for (note, value, old) in [(1, 100, None), (2, 200, Some(100))] {
        let key = Noted { name: 5, note };
        is(&rt, (note, put(&rt, &mut shard, key, value)), (note, old));
    }
    let key = Noted { name: 5, note: 3 };
    let (key, value) = shard.get(&key).expect(&rt, "no pair");
    is(&rt, (key.note, *value, shard.len()), (1, 200, 1));
}

#[test]
fn shrink_to_fit_gives_places_back(rt: HostRuntime) {
    let mut shard = shard_one(
        &rt,
        rt.alloc(),
        [(1, 15u64), (5, 22), (9, 27), (13, 30), (17, 36)],
    );
    shard.try_reserve(10).expect(&rt, "refused");
    let before = shard.capacity();
    is(&rt, remove(&rt, &mut shard, 5), Some((5, 22)));
    shard.shrink_to_fit();
    is(&rt, (before, shard.capacity(), shard.len()), (28, 14, 4));
    for (key, value) in [(1, 15), (9, 27), (13, 30), (17, 36)] {
        is(&rt, shard.get(&key), Some((&key, &value)));
    }
    shard.clear();
    shard.shrink_to_fit();
    is(&rt, shard.capacity(), 0);
}

// All these keys begin in the first of two groups, and the last four stand past it.
#[test]
fn removed_marks_go(rt: HostRuntime) {
    let mut shard = shard_one(&rt, rt.alloc(), []);
    is(&rt, shard.search(&81).visits, 0);
    shard.try_reserve(20).expect(&rt, "refused");
    is(&rt, shard.groups(), 2);
    for i in 0..20u64 {
        is(&rt, (i, put(&rt, &mut shard, 4 * i + 1, i)), (i, None));
    }
    is(
        &rt,
        (shard.search(&81).visits, shard.search(&77).visits),
        (2, 2),
    );
    for (number, visits) in [(0, 2), (16, 2), (17, 2), (18, 2), (19, 1)] {
        let key = 4 * number + 1;
        is(&rt, remove(&rt, &mut shard, key), Some((key, number)));
        is(&rt, (number, shard.search(&81).visits), (number, visits));
    }
}
