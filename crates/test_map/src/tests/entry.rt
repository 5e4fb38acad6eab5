//! Entries of a map that threads share, as worked by hand.
use crate::tests::checks::is;
use crate::tests::maps::{Places, is_written, map_of, put, value_of};
use dash_map::map::DashMap;
use dash_ref::mapref::entry::{Entry, OccupiedEntry, TryEntryRefused};
use dash_shard::hash::PlaceState;
use std::process::Abort;
use std::rt::Clock;
use std::sync::Wait;
use test_shard::values::Noted;

// The entry of a key, once nobody has its shard.
fn entry_of<'a, R: Abort + Wait + Clock>(
    rt: &R,
    map: &'a Places,
    key: u64,
) -> Entry<'a, u64, u64, PlaceState> {
    map.entry(rt, key).expect(rt, "refused")
}

// The key that comes back where somebody holds its shard.
fn locked_key(map: &Places, key: u64) -> Option<u64> {
    match map.try_entry(key) {
        Err(TryEntryRefused::Locked(key)) => Some(key),
        _ => None,
    }
}

#[test]
fn an_entry_holds_its_shard(rt: HostRuntime) {
    let map = map_of(&rt, rt.alloc(), [(1, 10)]);
    for key in [1, 5] {
        is(&rt, locked_key(&map, key), None);
        let entry = entry_of(&rt, &map, key);
        is(
            &rt,
            (is_written(&map, 9), is_written(&map, 2)),
            (true, false),
        );
        drop(entry);
        let held = map.get(&rt, &1);
        is(&rt, locked_key(&map, key), Some(key));
        drop(held);
    }
    is(&rt, map.len(&rt), 1);
}

// What `try_entry` returns at a key.
fn case_of(map: &Places, key: u64) -> &'static str {
    match map.try_entry(key) {
        Ok(Entry::Occupied(_)) => "occupied",
        Ok(Entry::Vacant(_)) => "vacant",
        Err(TryEntryRefused::Locked(_)) => "locked",
        Err(TryEntryRefused::Memory(_)) => "no memory",
    }
}

#[test]
fn a_try_tells_a_pair_from_none(rt: HostRuntime) {
    let map = map_of(&rt, rt.alloc(), [(1, 10)]);
    for (key, case) in [(1, "occupied"), (5, "vacant")] {
        is(&rt, (key, case_of(&map, key)), (key, case));
        let held = map.get(&rt, &1);
        is(&rt, (key, case_of(&map, key)), (key, "locked"));
        drop(held);
    }
}

type Named = DashMap<Noted, u64, PlaceState>;

// The entry of a key that has a pair, in a shard that nobody has.
fn occupied<'a>(
    rt: &impl Abort,
    map: &'a Named,
    key: Noted,
) -> OccupiedEntry<'a, Noted, u64, PlaceState> {
    match map.try_entry(key) {
        Ok(Entry::Occupied(entry)) => entry,
        _ => panic!(rt; "no pair"),
    }
}

#[test]
fn noted_keys(rt: HostRuntime) {
    let a = |note| Noted { name: 5, note };
    let map = Named::with_hasher_and_shard_amount(rt.alloc(), PlaceState, 4).expect(&rt, "refused");
    is(&rt, put(&rt, &map, a(1), 100), None);
    is(&rt, put(&rt, &map, a(2), 200), Some(100));
    let (key, value) = occupied(&rt, &map, a(3)).replace_entry(300);
    is(&rt, (key.note, value), (1, 200));
    let (key, value) = occupied(&rt, &map, a(4)).remove_entry();
    is(&rt, (key.note, value), (3, 300));
    is(&rt, map.is_empty(&rt), true);
}

// What stood at the key 1, and what stands there once an entry has put 2.
fn put_two<R: Abort + Wait + Clock>(rt: &R, map: &Places) -> (Option<u64>, u64) {
    let entry = entry_of(rt, map, 1);
    let stood = match &entry {
        Entry::Occupied(entry) => Some(*entry.get()),
        Entry::Vacant(_) => None,
    };
    let entry = entry.insert_entry(2).ok().expect(rt, "no memory");
    (stood, *entry.get())
}

#[test]
fn vacant_then_occupied(rt: HostRuntime) {
    let map = map_of(&rt, rt.alloc(), []);
    is(&rt, put_two(&rt, &map), (None, 2));
    is(&rt, value_of(&rt, &map, 1), Some(2));
    put(&rt, &map, 1, 1000);
    is(&rt, put_two(&rt, &map), (Some(1000), 2));
    is(&rt, value_of(&rt, &map, 1), Some(2));
}

#[test]
fn what_stands_or_is_put(rt: HostRuntime) {
    let map = map_of(&rt, rt.alloc(), []);
    let none = entry_of(&rt, &map, 1).or_try_insert_with(|| Err("no value"));
    is(&rt, none.err(), Some("no value"));
    is(&rt, value_of(&rt, &map, 1), None);
    is(&rt, *entry_of(&rt, &map, 1).or_insert_with(|| 9), 9);
    is(&rt, value_of(&rt, &map, 1), Some(9));
    let entry = entry_of(&rt, &map, 1).and_modify(|value| *value = 10);
    is(&rt, *entry.or_default(), 10);
    is(&rt, value_of(&rt, &map, 1), Some(10));
}
