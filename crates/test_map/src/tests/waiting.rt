//! The operators of a map, its shards, and what it prints.
use crate::tests::checks::is;
use crate::tests::maps::{Names, map_of, text};
use dash_map::map::DashMap;
use std::alloc::Global;
use std::fmt;
use std::process::Abort;

#[test]
fn operators(rt: HostRuntime) {
    let map = map_of(&rt, rt.alloc(), []);
    let map = map.waiting(&rt);
    is(&rt, (map << (1, 10)).expect(&rt, "refused"), None);
    is(&rt, (map << (1, 11)).expect(&rt, "refused"), Some(10));
    is(&rt, (map >> &1).map(|found| *found), Some(11));
    is(&rt, (map >> &2).is_none(), true);
    is(&rt, (map | &1).map(|found| *found), Some(11));
    is(&rt, map & &1, true);
    is(&rt, map - &1, Some((1, 11)));
    is(&rt, map & &1, false);
    is(&rt, (map | &1).is_none(), true);
}

#[test]
fn operators_ask_by_text(rt: HostRuntime) {
    let map = DashMap::with_shard_amount(rt.alloc(), 4).expect(&rt, "refused");
    let map = map.waiting(&rt);
    let ada = text(&rt, rt.alloc(), "ada");
    is(&rt, (map << (ada, 36)).expect(&rt, "refused"), None);
    is(&rt, (map >> "ada").map(|found| *found), Some(36));
    is(&rt, (map | "ad").is_none(), true);
    is(&rt, map & "ada", true);
    is(&rt, (map - "ada").is_some(), true);
    is(&rt, map & "ada", false);
}

// Ends the test where three pairs, two of them in one shard, print as another text.
fn prints_three(rt: &impl Abort, alloc: Global, map: &impl fmt::Debug) {
    let text = format!(in alloc; "{map:?}").expect(rt, "no memory");
    let texts = ["{0: 5, 1: 6, 5: 7}", "{0: 5, 5: 7, 1: 6}"];
    is(rt, texts.contains(&text.as_str()), true);
}

#[test]
fn prints_its_pairs(rt: HostRuntime) {
    let map = map_of(&rt, rt.alloc(), [(0, 5), (1, 6), (5, 7)]);
    prints_three(&rt, rt.alloc(), &map.waiting(&rt));
    prints_three(&rt, rt.alloc(), &map.into_read_only());
}

#[test]
fn raw_insert(rt: HostRuntime) {
    let map: Names = map_of(&rt, rt.alloc(), []);
    let mut shard = map.shards_mut(&rt, map.determine_map(&42));
    let name = text(&rt, rt.alloc(), "forty two");
    is(
        &rt,
        shard.insert(42, name).expect(&rt, "refused").is_none(),
        true,
    );
    drop(shard);
    let found = map.get(&rt, &42).expect(&rt, "no pair");
    is(&rt, found.as_str(), "forty two");
}
