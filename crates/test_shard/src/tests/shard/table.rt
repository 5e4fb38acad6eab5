//! The marks of sixteen slots, and what becomes of them where keys come and go.
use crate::tests::by_hand::{new_shard, put, remove};
use crate::tests::checks::is;
use dash_shard::hash::{PlaceState, ZeroState};
use dash_shard::shard::probe;

#[test]
fn looks_at_sixteen_tags(rt: HostRuntime) {
    let mut last = [128u8; 16];
    last[15] = 127;
    let mut two = [128u8; 16];
    two[0] = 5;
    two[2] = 129;
    two[3] = 5;
    for (group, tag, matches, empty) in [
        ([128; 16], 128, 65535, 65535),
        (last, 127, 32768, 32767),
        (two, 5, 9, 65522),
        ([129; 16], 0, 0, 0),
    ] {
        let seen = probe(&group, tag);
        is(&rt, (tag, seen.matches, seen.empty), (tag, matches, empty));
    }
}

#[test]
fn one_key_comes_and_goes(rt: HostRuntime) {
    let mut shard = new_shard(&rt, rt.alloc(), PlaceState, 1, 2, 0);
    for turn in 0..10_000u64 {
        is(&rt, put(&rt, &mut shard, 6, turn), None);
        is(&rt, remove(&rt, &mut shard, 6), Some((6, turn)));
    }
    is(&rt, (shard.len(), shard.groups()), (0, 1));
    assert!(rt; !shard.contains_key(&6));
}

#[test]
fn keys_of_one_hash(rt: HostRuntime) {
    let mut shard = new_shard(&rt, rt.alloc(), ZeroState, 0, 2, 0);
    for key in 0..200u64 {
        is(&rt, put(&rt, &mut shard, key, key), None);
    }
    is(&rt, shard.len(), 200);
    for key in 0..200u64 {
        assert!(rt; shard.contains_key(&key), "{key}");
        if key % 2 == 1 {
            is(&rt, remove(&rt, &mut shard, key), Some((key, key)));
        }
    }
    for key in 0..200u64 {
        is(&rt, (key, shard.contains_key(&key)), (key, key % 2 == 0));
    }
}
