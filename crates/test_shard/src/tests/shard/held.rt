//! One shard behind its lock, as worked by hand.
use crate::tests::by_hand::lock_of_one;
use crate::tests::checks::is;
use crate::tests::nap::{ROUNDS, wakes_reader, wakes_writer};
use dash_ref::held::{IntoShard, ShardMut};
use dash_shard::hash::PlaceState;
use std::mem;
use std::process::Abort;

type Held<'a> = ShardMut<'a, u64, u64, PlaceState>;

// Puts a pair, which has to go to the held shard, and returns the old value.
fn put(rt: &impl Abort, held: &mut Held<'_>, key: u64, value: u64) -> Option<u64> {
    assert!(rt; held.routes(&key), "the key goes to another shard");
    held.insert(key, value).expect(rt, "refused")
}

#[test]
fn a_held_shard_is_changed_in_place(rt: HostRuntime) {
    let lock = lock_of_one(&rt, rt.alloc(), [(1, 10u64), (5, 50)]);
    let mut held = lock.write(&rt).shard();
    is(&rt, (held.number(), held.amount(), held.len()), (1, 4, 2));
    is(&rt, put(&rt, &mut held, 9, 90), None);
    *held.get_mut(&1).expect(&rt, "no pair") = 11;
    let position = held.position_of(&5).expect(&rt, "no place");
    let (_, value) = held.at_mut(position);
    *value = 55;
    assert!(rt; lock.try_read().is_none(), "a writer has the shard");
    drop(held);
    let shard = lock.into_inner();
    let found = (shard.get(&1), shard.get(&5), shard.get(&9));
    is(
        &rt,
        found,
        (Some((&1, &11)), Some((&5, &55)), Some((&9, &90))),
    );
}

#[test]
fn a_leaked_hold_leaves_a_shard(rt: HostRuntime) {
    let lock = lock_of_one(&rt, rt.alloc(), [(1, 10u64)]);
    let mut held = lock.write(&rt).shard();
    is(&rt, put(&rt, &mut held, 5, 50), None);
    *held.get_mut(&1).expect(&rt, "no pair") = 11;
    mem::forget(held);
    assert!(rt; lock.try_write().is_none(), "the writer is never gone");
    let shard = lock.into_inner();
    is(
        &rt,
        (shard.get(&1), shard.get(&5)),
        (Some((&1, &11)), Some((&5, &50))),
    );
}

// A held shard that ends by a downgrade, and by the end of that hold, which wakes nobody.
struct Downgraded<'a> {
    held: Held<'a>,
}

impl Drop for Downgraded<'_> {
    fn drop(self) {
        let Self { held } = self;
        drop(held.downgrade());
    }
}

// Finds a held shard whose release, or whose downgrade, wakes nobody: the millisecond that ends each sleep would hide it.
#[test]
fn the_end_of_a_held_shard_wakes_who_sleeps(rt: HostRuntime) {
    let lock = lock_of_one(&rt, rt.alloc(), [(1, 10u64)]);
    let mut woken = [false; 3];
    for _ in 0..ROUNDS {
        let held = lock.write(&rt).shard();
        let round = [
            wakes_reader(&rt, &lock, Downgraded { held }),
            wakes_reader(&rt, &lock, lock.write(&rt).shard()),
            wakes_writer(&rt, &lock, lock.write(&rt).shard()),
        ];
        for (woken, now) in woken.iter_mut().zip(round) {
            *woken |= now;
        }
    }
    is(&rt, woken, [true; 3]);
}
