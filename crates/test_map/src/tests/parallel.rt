//! Runs, lists and walks that several workers share, as worked by hand.
use crate::tests::checks::{is, prints};
use crate::tests::maps::{Places, has, map_of, map_of_four, put};
use dash_map::parallel::run::{Gate, ParOutcome};
use dash_map::run::Fault;
use dash_steps::step::ShardStep;
use std::alloc::Global;
use std::process::Abort;
use std::sync::atomic::{AtomicBool, AtomicU64, Ordering};
use std::thread;

#[test]
fn equal_keys_of_a_list(rt: HostRuntime) {
    for workers in [1, 2, 3] {
        let mut alone = map_of_four(&rt, rt.alloc()).alone();
        let list = vec![in rt.alloc(); (1, 10), (5, 50), (1, 11)].expect(&rt, "refused");
        alone.par_extend(&rt, list, workers).expect(&rt, "refused");
        is(&rt, alone.get(&1), Some((&1, &11)));
        is(&rt, alone.get(&5), Some((&5, &50)));
        is(&rt, alone.len(), 2);
    }
}

#[test]
fn counts_may_miss_every_pair(rt: HostRuntime) {
    for workers in [0, 1, 2, 3, 4, 99] {
        let mut map = map_of_four(&rt, rt.alloc());
        put(&rt, &map, 3, 30);
        let steps: Vec<ShardStep<u64, u64>> = vec![in rt.alloc();
            ShardStep::Count(0),
            ShardStep::Count(1),
            ShardStep::Count(2),
            ShardStep::Insert(0, 5),
            ShardStep::Remove(3),
            ShardStep::Count(3),
        ]
        .expect(&rt, "refused");
        let outcome = map.par_run(&rt, steps, workers);
        is(&rt, outcome.fault, None);
        prints(
            &rt,
            rt.alloc(),
            &outcome.replies,
            "[Some(Number(0)), Some(Number(0)), Some(Number(0)), Some(Old(None)), Some(Pair(Some((3, 30)))), Some(Number(0))]",
        );
        has(&rt, &map, 0, Some(5));
    }
}

#[test]
fn a_shard_that_is_not_there(rt: HostRuntime) {
    let mut alone = map_of_four(&rt, rt.alloc()).alone();
    let steps: Vec<ShardStep<u64, u64>> = vec![in rt.alloc();
        ShardStep::Insert(1, 10),
        ShardStep::Count(4),
        ShardStep::Insert(2, 20),
    ]
    .expect(&rt, "refused");
    let outcome = alone.par_run(&rt, steps, 2);
    is(&rt, outcome.fault, Some(Fault::NoSuchShard));
    prints(&rt, rt.alloc(), &outcome.replies, "[None, None, None]");
    is(&rt, alone.is_empty(), true);
}

// Holds the worker at the shard `first` back until another one passed, for so many turns at most.
#[derive(Drop)]
struct Holds<'a> {
    first: usize,
    passed: &'a AtomicBool,
    missed: &'a AtomicBool,
}

impl Gate for Holds<'_> {
    fn pass(&self, shard: usize) {
        if shard != self.first {
            self.passed.store(true, Ordering::SeqCst);
            return;
        }
        for _ in 0..1_000_000u64 {
            if self.passed.load(Ordering::SeqCst) {
                return;
            }
            thread::yield_now();
        }
        self.missed.store(true, Ordering::SeqCst);
    }
}

fn two_steps(rt: &impl Abort, alloc: Global) -> Vec<ShardStep<u64, u64>> {
    vec![in alloc; ShardStep::Insert(0, 1), ShardStep::Insert(3, 1)].expect(rt, "refused")
}

#[test]
fn two_workers_at_once(rt: HostRuntime) {
    for first in [0, 3] {
        let passed = AtomicBool::new(false);
        let missed = AtomicBool::new(false);
        let gate = Holds {
            first,
            passed: &passed,
            missed: &missed,
        };
        let mut alone = map_of_four(&rt, rt.alloc()).alone();
        let outcome: ParOutcome<u64, u64> = alone.par_run_gated(
            &rt,
            two_steps(&rt, rt.alloc()),
            2,
            &gate,
        );
        is(&rt, outcome.fault, None);
        is(&rt, missed.load(Ordering::SeqCst), false);

        passed.store(false, Ordering::SeqCst);
        let mut alone = map_of_four(&rt, rt.alloc()).alone();
        let list = vec![in rt.alloc(); (0u64, 1u64), (3, 1)].expect(&rt, "refused");
        alone
            .par_extend_gated(&rt, list, 2, &gate)
            .expect(&rt, "refused");
        is(&rt, alone.len(), 2);
        is(&rt, missed.load(Ordering::SeqCst), false);
    }
}

// Waits until four workers have come, for so many turns at most.
#[derive(Drop)]
struct AllCome<'a> {
    come: &'a AtomicU64,
    missed: &'a AtomicBool,
}

impl Gate for AllCome<'_> {
    fn pass(&self, _: usize) {
        await_four(self.come, self.missed);
    }
}

fn await_four(come: &AtomicU64, missed: &AtomicBool) {
    come.fetch_add(1, Ordering::SeqCst);
    for _ in 0..1_000_000u64 {
        if come.load(Ordering::SeqCst) >= 4 {
            return;
        }
        thread::yield_now();
    }
    missed.store(true, Ordering::SeqCst);
}

// Finds workers of whom two take turns, in a run and in a list.
#[test]
fn four_workers_at_once(rt: HostRuntime) {
    let missed = AtomicBool::new(false);
    let come = AtomicU64::new(0);
    let gate = AllCome {
        come: &come,
        missed: &missed,
    };
    let mut map: Places = map_of_four(&rt, rt.alloc());
    let steps: Vec<ShardStep<u64, u64>> = vec![in rt.alloc();
        ShardStep::Insert(0, 1),
        ShardStep::Insert(1, 1),
        ShardStep::Insert(2, 1),
        ShardStep::Insert(3, 1),
    ]
    .expect(&rt, "refused");
    let outcome = map.par_run_gated(&rt, steps, 4, &gate);
    is(&rt, outcome.fault, None);
    is(
        &rt,
        (map.len(&rt), missed.load(Ordering::SeqCst)),
        (4, false),
    );

    come.store(0, Ordering::SeqCst);
    let list = vec![in rt.alloc(); (0u64, 2u64), (1, 2), (2, 2), (3, 2)].expect(&rt, "refused");
    map.par_extend_gated(&rt, list, 4, &gate)
        .expect(&rt, "refused");
    is(
        &rt,
        (map.len(&rt), missed.load(Ordering::SeqCst)),
        (4, false),
    );
}

// A value that waits for those of four shards when it is dropped, or not.
struct Comes<'a> {
    come: &'a AtomicU64,
    missed: &'a AtomicBool,
    waits: bool,
}

impl Drop for Comes<'_> {
    fn drop(self) {
        let Self {
            come,
            missed,
            waits,
        } = self;
        if waits {
            await_four(come, missed);
        }
    }
}

// A list of four pairs, one for each shard.
fn four_of<'a>(
    rt: &impl Abort,
    alloc: Global,
    come: &'a AtomicU64,
    missed: &'a AtomicBool,
    waits: bool,
) -> Vec<(u64, Comes<'a>)> {
    let mut list = Vec::new(alloc);
    for key in 0..4 {
        let value = Comes {
            come,
            missed,
            waits,
        };
        list.push((key, value)).expect(rt, "refused");
    }
    list
}

// Finds workers of a shared list of whom two take turns, and one who holds a shard that isn't his: each drops an old value while he has
// its shard.
#[test]
fn four_workers_at_once_on_a_shared_map(rt: HostRuntime) {
    let come = AtomicU64::new(0);
    let missed = AtomicBool::new(false);
    let mut map = map_of_four(&rt, rt.alloc());
    map.extend(four_of(&rt, rt.alloc(), &come, &missed, true))
        .ok()
        .expect(&rt, "refused");
    let list = four_of(&rt, rt.alloc(), &come, &missed, false);
    map.par_extend_shared(&rt, list, 4).expect(&rt, "refused");
    is(&rt, come.load(Ordering::SeqCst), 4);
    is(
        &rt,
        (map.len(&rt), missed.load(Ordering::SeqCst)),
        (4, false),
    );
}

#[test]
fn a_map_by_workers(rt: HostRuntime) {
    let mut map: Places = map_of(&rt, rt.alloc(), []);
    let list = vec![in rt.alloc(); (1, 10), (5, 50), (2, 20)].expect(&rt, "refused");
    map.par_extend_shared(&rt, list, 2).expect(&rt, "refused");
    let one_more = |_key: &u64, value: &mut u64| {
        *value = value.wrapping_add(1);
    };
    map.par_iter_mut().for_each(&rt, one_more);
    map.into_par_iter_mut().for_each(&rt, one_more);
    let mut pairs = map
        .par_iter()
        .map_collect(&rt, |key: &u64, value: &u64| (*key, *value))
        .expect(&rt, "refused");
    pairs.sort_unstable();
    prints(&rt, rt.alloc(), &pairs, "[(1, 12), (2, 22), (5, 52)]");
    let mut pairs = map.into_par_iter().collect(&rt).expect(&rt, "refused");
    pairs.sort_unstable();
    prints(&rt, rt.alloc(), &pairs, "[(1, 12), (2, 22), (5, 52)]");
}
