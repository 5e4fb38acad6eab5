//! Views of a map that nobody writes any more.
use crate::tests::checks::is;
use crate::tests::maps::{Names, map_of, put, text};
use dash_map::map::DashMap;
use dash_steps::kept::Kept;
use std::alloc::Global;
use std::process::Abort;
use std::rt::Clock;
use std::sync::Wait;

const NAMES: [(u64, &str); 4] = [
    (1, "one"),
    (10, "ten"),
    (27, "twenty seven"),
    (45, "forty five"),
];

// A clone of a map of the four names, which is gone.
fn four_names<R: Abort + Wait + Clock>(rt: &R, alloc: Global) -> Names {
    let map = map_of(rt, alloc, []);
    for (key, name) in NAMES {
        put(rt, &map, key, text(rt, alloc, name));
    }
    map.clone(rt).expect(rt, "refused")
}

// Whether this is one of the four pairs.
fn is_one(key: u64, name: &str) -> bool {
    NAMES.contains(&(key, name))
}

// Ends the test where these aren't the four pairs.
fn are_four(rt: &impl Abort, pairs: &[(u64, String)]) {
    is(rt, pairs.len(), 4);
    for (key, name) in pairs {
        is(rt, (*key, is_one(*key, name.as_str())), (*key, true));
    }
}

#[test]
fn a_view_and_back(rt: HostRuntime) {
    let view = four_names(&rt, rt.alloc()).into_read_only();
    let view = view.clone().expect(&rt, "refused");
    is(&rt, (view.len(), view.shards().len()), (4, 4));
    is(&rt, view.contains_key(&45), true);
    let name = view.get(&27).expect(&rt, "no pair");
    is(&rt, name.as_str(), "twenty seven");
    is(&rt, view.get_key_value(&10).is_some(), true);
    is(&rt, view.iter().last().is_some(), true);
    is(&rt, view.keys().last(), Some(&27));
    is(&rt, view.values().last().is_some(), true);
    let Ok(map) = view.into_inner(rt.alloc()) else {
        panic!(&rt; "no memory");
    };
    are_four(&rt, &map.pairs(&rt).expect(&rt, "refused"));
}

// A view of a map that a list made.
#[test]
fn a_clone_of_a_view(rt: HostRuntime) {
    let list = vec![in rt.alloc(); (1, 10), (5, 50), (1, 11)].expect(&rt, "refused");
    let map = DashMap::<u64, u64>::from_iter(rt.alloc(), list, 1).expect(&rt, "refused");
    let view = map.into_read_only();
    let copy = view.clone().expect(&rt, "refused");
    drop(view);
    is(
        &rt,
        (copy.len(), copy.get(&1), copy.get(&5)),
        (2, Some(&11), Some(&50)),
    );
}

#[test]
fn a_view_by_workers(rt: HostRuntime) {
    let view = four_names(&rt, rt.alloc()).into_read_only();
    let copies = view
        .par_iter()
        .map_collect(&rt, |key: &u64, name: &String| (*key, name.copy()));
    let copies = copies.expect(&rt, "refused");
    is(&rt, copies.len(), 4);
    for (key, name) in &copies {
        let name = name.as_ref().expect(&rt, "refused");
        is(&rt, (*key, is_one(*key, name.as_str())), (*key, true));
    }
    are_four(
        &rt,
        &view.into_par_iter().collect(&rt).expect(&rt, "refused"),
    );
}
