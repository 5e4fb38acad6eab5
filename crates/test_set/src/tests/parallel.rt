//! Lists that several workers put into a map or a set.
use crate::tests::checks::{is, prints};
use dashmap::run::Open;
use dashmap::{DashMap, DashSet};
use std::alloc::Global;
use std::process::Abort;

type Map = DashMap<u64, u64>;

type Keys = DashSet<u64>;

// Each of ten keys ten times, with rising values.
fn pairs(rt: &impl Abort, alloc: Global) -> Vec<(u64, u64)> {
    (0..100)
        .map(|i| (i % 10, i))
        .collect::<Vec<(u64, u64)>>(alloc)
        .expect(rt, "refused")
}

#[test]
fn pairs_of_equal_keys_by_workers(rt: HostRuntime) {
    let mut map = Map::new(rt.alloc(), 1).expect(&rt, "refused");
    for workers in 0..4 {
        map.par_extend(&rt, pairs(&rt, rt.alloc()), workers)
            .expect(&rt, "refused");
    }
    map.par_extend_gated(&rt, pairs(&rt, rt.alloc()), 2, &Open)
        .expect(&rt, "refused");
    is(&rt, map.len(&rt), 10);
    is(&rt, map.remove(&rt, &3), Some((3, 93)));
    let made = Map::from_par_iter(&rt, rt.alloc(), pairs(&rt, rt.alloc()), 1, 3).expect(
        &rt, "refused",
    );
    is(&rt, made.len(&rt), 10);
    is(&rt, made.remove(&rt, &7), Some((7, 97)));
}

#[test]
fn keys_by_workers(rt: HostRuntime) {
    let one = |key: u64| vec![in rt.alloc(); key].expect(&rt, "refused");
    let mut set = Keys::from_par_iter(&rt, rt.alloc(), one(7), 1, 2).expect(&rt, "refused");
    set.par_extend(&rt, one(8), 2).expect(&rt, "refused");
    set.par_extend_shared(&rt, one(9), 2).expect(&rt, "refused");
    let copied = set.par_iter().map_collect(&rt, |key: &u64| *key);
    for keys in [copied, set.into_par_iter().collect(&rt)] {
        let mut keys = keys.expect(&rt, "refused");
        keys.sort_unstable();
        prints(&rt, rt.alloc(), &keys, "[7, 8, 9]");
    }
}
