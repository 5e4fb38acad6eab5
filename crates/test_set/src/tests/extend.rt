//! Lists of pairs that make a map, or are put into one, and the copies that a map gives.
use crate::tests::checks::is;
use dashmap::DashMap;
use std::alloc::Global;
use std::process::Abort;

type Map = DashMap<u64, u64>;

fn three_pairs(rt: &impl Abort, alloc: Global) -> Vec<(u64, u64)> {
    vec![in alloc; (1, 10), (5, 50), (1, 11)].expect(rt, "refused")
}

// Ends the test where these aren't the pairs that the three leave.
fn are_two(rt: &impl Abort, mut pairs: Vec<(u64, u64)>) {
    pairs.sort_unstable();
    is(rt, pairs.as_slice(), &[(1, 11), (5, 50)]);
}

#[test]
fn equal_keys_of_a_list(rt: HostRuntime) {
    let map = Map::from_pairs(rt.alloc(), three_pairs(&rt, rt.alloc()), 1).expect(&rt, "refused");
    are_two(&rt, map.pairs(&rt).expect(&rt, "refused"));
    let map = Map::from_iter(rt.alloc(), three_pairs(&rt, rt.alloc()), 1).expect(&rt, "refused");
    are_two(&rt, map.alone().pairs().expect(&rt, "refused"));
}

#[test]
fn equal_keys_of_what_is_put_in(rt: HostRuntime) {
    let mut map = Map::new(rt.alloc(), 1).expect(&rt, "refused");
    map.insert(&rt, 5, 40).expect(&rt, "refused");
    map.extend(three_pairs(&rt, rt.alloc()))
        .expect(&rt, "refused");
    are_two(&rt, map.pairs(&rt).expect(&rt, "refused"));
    let mut alone = map.alone();
    alone
        .extend(three_pairs(&rt, rt.alloc()))
        .expect(&rt, "refused");
    is(&rt, alone.len(), 2);
}
