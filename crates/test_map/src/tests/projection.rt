//! References that are mapped to a part of their value.
use crate::tests::checks::{is, prints};
use crate::tests::maps::map_of;
use dash_map::map::DashMap;
use dash_ref::mapref::one::{Compose, First, Payload, Projection};
use dash_shard::hash::PlaceState;
use std::alloc::Global;
use std::process::Abort;
use std::rt::Clock;
use std::sync::Wait;

type Halves = DashMap<u64, Option<(u64, u64)>, PlaceState>;

// A struct, of which one field is lent.
#[derive(Debug, Drop, PartialEq)]
struct Sides {
    left: u64,
    right: u64,
}

#[derive(Drop)]
struct Left;

impl Projection<Sides> for Left {
    ghost use Rattle.std.specs.Prelude.{Some, refl};
    ghost use Rattle.dash_ref.specs.inner.Parts.{field_is_part};

    type Target = u64;

    ghost part = { λ _ s. Some s.left };

    ghost with = { λ _ s left. record s { left = left } };

    ghost lawful = { λ _. field_is_part (λ _ _. refl) (λ _. refl) (λ _ _ _. refl) };

    fn holds(&self, _sides: &Sides) -> bool {
        true
    }

    fn get<'v>(&'v self, sides: &'v Sides) -> &'v u64 {
        &sides.left
    }

    fn get_mut<'v>(sides: &'v mut Sides, _left: &'v Self) -> &'v mut u64 {
        &mut sides.left
    }
}

#[test]
fn writes_a_field_of_a_struct(rt: HostRuntime) {
    let map = map_of(&rt, rt.alloc(), [(1, Sides { left: 3, right: 4 })]);
    let mut left = map.get_mut(&rt, &1).expect(&rt, "no pair").map(Left);
    *left = 9;
    drop(left);
    let found = map.get(&rt, &1).expect(&rt, "no pair");
    is(&rt, (found.left, found.right), (9, 4));
}

// The payload of a stored `None`: the guard comes back, and the value is as it was.
#[test]
fn no_payload_hands_the_guard_back(rt: HostRuntime) {
    let map: Halves = map_of(&rt, rt.alloc(), [(1, None)]);
    let found = map.get(&rt, &1).expect(&rt, "no pair");
    let found = found.try_map(Payload).err().expect(&rt, "a payload");
    is(&rt, *found, None);
    drop(found);
    let found = map.get_mut(&rt, &1).expect(&rt, "no pair");
    let found = found.try_map(Payload).err().expect(&rt, "a payload");
    is(&rt, *found, None);
}

// A map of one pair.
fn one_pair<R: Abort + Wait + Clock>(rt: &R, alloc: Global) -> Halves {
    map_of(rt, alloc, [(1, Some((2, 4)))])
}

#[test]
fn reads_a_part_of_a_part(rt: HostRuntime) {
    let map = one_pair(&rt, rt.alloc());
    let found = map.get(&rt, &1).expect(&rt, "no pair");
    let first = found.try_map(Compose {
        outer: Payload,
        inner: First,
    });
    let first = first.ok().expect(&rt, "no payload");
    let text = format!(in rt.alloc(); "{first:?}, {first}").expect(&rt, "refused");
    is(&rt, text.as_str(), "MappedRef { k: 1, v: 2 }, 2");
}

#[test]
fn a_mapped_box_lends_what_it_has(rt: HostRuntime) {
    let boxed = Box::new(rt.alloc(), 7u64).expect(&rt, "refused");
    let map = map_of(&rt, rt.alloc(), [(1, (boxed, 4u64))]);
    let found = map.get(&rt, &1).expect(&rt, "no pair").map(First);
    let lent: &u64 = found.as_ref();
    is(&rt, *lent, 7);
}

#[test]
fn writes_a_part_of_a_part(rt: HostRuntime) {
    let map = one_pair(&rt, rt.alloc());
    let found = map.get_mut(&rt, &1).expect(&rt, "no pair");
    let pair = found.try_map(Payload).ok().expect(&rt, "no payload");
    let mut first = pair.map(First);
    *first = 7;
    prints(&rt, rt.alloc(), &first, "MappedRefMut { k: 1, v: 7 }");
    drop(first);
    let found = map.get(&rt, &1).expect(&rt, "no pair");
    is(&rt, *found, Some((7, 4)));
}
