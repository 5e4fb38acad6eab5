//! Runs of a few steps, as worked by hand.
use crate::tests::checks::{is, prints};
use crate::tests::maps::{has, map_of_four, put};
use dash_steps::action::Action;
use dash_steps::step::ShardStep;
use std::alloc::Global;
use std::process::Abort;
use std::rt::Clock;
use std::sync::Wait;

#[test]
fn six_steps_of_one_owner(rt: HostRuntime) {
    let mut alone = map_of_four(&rt, rt.alloc()).alone();
    let steps: Vec<ShardStep<u64, u64>> = vec![in rt.alloc();
        ShardStep::Insert(1, 10),
        ShardStep::Insert(5, 50),
        ShardStep::Get(1),
        ShardStep::Remove(1),
        ShardStep::Get(1),
        ShardStep::Remove(1),
    ]
    .expect(&rt, "refused");
    prints(
        &rt,
        rt.alloc(),
        &alone.run(steps).replies,
        "[Old(None), Old(None), Pair(Some((1, 10))), Pair(Some((1, 10))), Pair(None), Pair(None)]",
    );
    is(&rt, (alone.len(), alone.get(&5)), (1, Some((&5, &50))));
}

// Counts the shards 0 to 2 of a map with this pair, takes the two steps, and counts the shard 3.
fn count_around<R: Abort + Wait + Clock>(
    rt: &R,
    alloc: Global,
    (key, value): (u64, u64),
    [first, second]: [ShardStep<u64, u64>; 2],
    wanted: &str,
) {
    let mut map = map_of_four(rt, alloc);
    put(rt, &map, key, value);
    let steps: Vec<ShardStep<u64, u64>> = vec![in alloc;
        ShardStep::Count(0),
        ShardStep::Count(1),
        ShardStep::Count(2),
        first,
        second,
        ShardStep::Count(3),
    ]
    .expect(rt, "refused");
    prints(rt, alloc, &map.run(steps).replies, wanted);
    has(rt, &map, key, None);
}

#[test]
fn counts_may_miss_every_pair(rt: HostRuntime) {
    count_around(
        &rt,
        rt.alloc(),
        (3, 30),
        [ShardStep::Insert(0, 5), ShardStep::Remove(3)],
        "[Number(0), Number(0), Number(0), Old(None), Pair(Some((3, 30))), Number(0)]",
    );
}

#[test]
fn counts_may_see_pairs_that_never_met(rt: HostRuntime) {
    count_around(
        &rt,
        rt.alloc(),
        (0, 5),
        [ShardStep::Remove(0), ShardStep::Insert(3, 30)],
        "[Number(1), Number(0), Number(0), Pair(Some((0, 5))), Old(None), Number(1)]",
    );
}

// Adds the number, wrapped, and returns true where the new value is even.
#[derive(Debug, Drop)]
struct Adds(u64);

impl Action<u64, u64> for Adds {
    ghost use Rattle.std.specs.Prelude.{◌+◌, ◌%◌, ◌^◌, ◌==◌, refl};
    ghost use Rattle.std.specs.Cmp.{nat_eq_equiv};
    ghost use Rattle.std.proofs.Common.{eqb-true};

    ghost acts = { λ f k v. ((v + f.0) % 2 ^ 64, (v + f.0) % 2 ^ 64 % 2 == 0) };

    fn act(&self, _key: &u64, value: &mut u64) -> bool {
        *value = value.wrapping_add(self.0);
        *value % 2 == 0
    }

    ghost acts_alike = { λ f j k u v key value. rw (eqb-true u v value) (nat_eq_equiv.refl ((v + f.0) % 2 ^ 64), refl) };
}

// A count of a shard that isn't there stands between two inserts: what stood before it was done, and the rest comes back.
#[test]
fn every_shard_call(rt: HostRuntime) {
    let mut map = map_of_four(&rt, rt.alloc());
    let steps: Vec<ShardStep<u64, u64>> = vec![in rt.alloc();
        ShardStep::Insert(1, 10),
        ShardStep::Count(4),
        ShardStep::Insert(2, 20),
    ]
    .expect(&rt, "refused");
    prints(
        &rt,
        rt.alloc(),
        &map.run(steps),
        "RunOutcome { replies: [Old(None)], stopped: Some(([Count(4), Insert(2, 20)], NoSuchShard)) }",
    );
    prints(&rt, rt.alloc(), &map.waiting(&rt), "{1: 10}");
}

// The run stops at a shard that isn't there, and the rest comes back.
#[test]
fn steps_on_each_pair_of_a_shard(rt: HostRuntime) {
    let mut map = map_of_four(&rt, rt.alloc());
    let steps = vec![in rt.alloc();
        ShardStep::Insert(1, 10),
        ShardStep::Insert(5, 51),
        ShardStep::Insert(2, 20),
        ShardStep::AlterAll(1, Adds(1)),
        ShardStep::Read(2),
        ShardStep::Get(1),
        ShardStep::Get(5),
        ShardStep::Retain(1, Adds(2)),
        ShardStep::Read(1),
        ShardStep::Read(0),
        ShardStep::Count(1),
        ShardStep::Read(4),
        ShardStep::Retain(4, Adds(1)),
    ]
    .expect(&rt, "refused");
    prints(
        &rt,
        rt.alloc(),
        &map.run(steps),
        "RunOutcome { replies: [Old(None), Old(None), Old(None), Done, Pairs([(2, 20)]), Pair(Some((1, 11))), Pair(Some((5, 52))), Done, Pairs([(5, 54)]), Pairs([]), Number(1)], stopped: Some(([Read(4), Retain(4, Adds(1))], NoSuchShard)) }",
    );
}
