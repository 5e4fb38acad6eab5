//! Keys that are equal but differ, by hashers that spread them and by one that puts all in one place.
use crate::tests::checks::is;
use dashmap::hash::{FixedState, PlaceState, ZeroState};
use dashmap::{Alone, DashMap, Kept, KeptKey};
use std::alloc::{AllocError, Global};
use std::hash::BuildHasher;
use std::process::Abort;
use std::rt::Clock;
use std::sync::Wait;
use std::thread::Threads;

/// A name with a note, which says nothing to `==` and to hashers.
#[derive_where(PartialEq, Eq, Hash, Debug)]
#[derive(Drop)]
struct Noted {
    name: u64,
    #[derive_where(skip(EqHashOrd))]
    note: u64,
}

// Copies are alike their sources in the note too.
impl Kept for Noted {
    ghost use Rattle.std.specs.Cmp.{nat_eq_equiv, on_equiv};
    ghost use Rattle.dashmap.specs.Words.{pair_equiv};

    ghost alike = { λ j k. ⟦<(u64, u64) as Kept>⟧.alike (j.name, j.note) (k.name, k.note) };

    fn copy(&self) -> Result<Noted, AllocError> {
        Ok(Noted {
            name: self.name,
            note: self.note,
        })
    }

    fn same(&self, other: &Noted) -> bool {
        (self.name, self.note) == (other.name, other.note)
    }

    ghost alike_laws = { on_equiv (λ k. (k.name, k.note)) (pair_equiv nat_eq_equiv nat_eq_equiv) };
}

impl KeptKey for Noted {
    ghost use Rattle.std.specs.Prelude.{◌==◌};
    ghost use Rattle.std.proofs.lemmas.Bool.{and_parts};

    ghost alike_equal = { λ j k same. (and_parts (j.name == k.name) (j.note == k.note) same).0 };
}

fn make_noted(name: u64, note: u64) -> Noted {
    Noted { name, note }
}

// The key a with this note.
fn a(note: u64) -> Noted {
    make_noted(5, note)
}

type Map<S> = DashMap<Noted, u64, S>;

// Ends the test where the map has another pair at a, or it isn't the only one.
fn has_a<R: Abort + Wait + Clock, S: BuildHasher>(rt: &R, map: &Map<S>, note: u64, value: u64) {
    let found = map.get(rt, &a(9)).expect(rt, "no pair");
    is(rt, (found.key().note, *found.value()), (note, value));
    drop(found);
    is(rt, map.len(rt), 1);
}

// The calls by an equal key on a map without pairs, which has none afterwards.
fn equal_keys<R: Abort + Wait + Clock, S: BuildHasher>(rt: &R, map: &Map<S>) {
    is(rt, map.insert(rt, a(1), 100).expect(rt, "refused"), None);
    has_a(rt, map, 1, 100);
    let entry = map.entry(rt, a(9)).expect(rt, "refused");
    is(rt, (entry.key().note, entry.into_key().note), (1, 9));
    has_a(rt, map, 1, 100);
    is(rt, *map.entry(rt, a(9)).expect(rt, "refused").insert(7), 7);
    has_a(rt, map, 1, 7);
    let (key, value) = map.remove(rt, &a(9)).expect(rt, "no pair");
    is(rt, (key.note, value), (1, 7));
    is(rt, map.len(rt), 0);
}

// The value of a key that is looked for by an equal one.
fn value_of<R: Wait + Clock, S: BuildHasher>(rt: &R, map: &Map<S>, name: u64) -> Option<u64> {
    map.view(rt, &make_noted(name, 2), |_, value| *value)
}

// Puts a pair beside the one of a, by an entry, whose key is the one that was handed in.
fn put_beside<R: Abort + Wait + Clock, S: BuildHasher>(rt: &R, map: &Map<S>) {
    is(rt, map.insert(rt, a(1), 100).expect(rt, "refused"), None);
    let entry = map.entry(rt, make_noted(6, 1)).expect(rt, "refused");
    let entry = entry.insert_entry(5).ok().expect(rt, "refused");
    is(rt, entry.into_key().note, 1);
    is(
        rt,
        (value_of(rt, map, 6), value_of(rt, map, 5)),
        (Some(5), Some(100)),
    );
}

// Copies of a map's pairs have the stored key, with its note.
fn copies<R: Abort + Wait + Clock, S: BuildHasher>(rt: &R, map: &Map<S>) {
    is(rt, map.insert(rt, a(1), 100).expect(rt, "refused"), None);
    is(
        rt,
        map.insert(rt, a(2), 200).expect(rt, "refused"),
        Some(100),
    );
    let pairs = map.pairs(rt).expect(rt, "refused");
    let (key, value) = pairs.first().expect(rt, "no pair");
    is(
        rt,
        (key.same(&a(1)), key.same(&a(2)), *value),
        (true, false, 200),
    );
}

// Of equal keys in a list the first stays, and the last value, by one worker and by more.
fn first_and_last<R: Abort + Threads + Sync, S: BuildHasher + Send + Sync>(
    rt: &R,
    alloc: Global,
    alone: &mut Alone<Noted, u64, S>,
)
where
    S::Hasher: Send,
{
    for workers in [1, 2, 3] {
        let list = vec![in alloc; (a(1), 1), (a(2), 2), (a(3), 3)].expect(rt, "refused");
        alone.par_extend(rt, list, workers).expect(rt, "refused");
        let (key, value) = alone.remove(&a(9)).expect(rt, "no pair");
        is(rt, (workers, key.note, value), (workers, 1, 3));
    }
}

// All of these on a map without pairs.
fn all_calls<R: Abort + Threads + Wait + Clock + Sync, S: BuildHasher + Send + Sync + Drop>(
    rt: &R,
    alloc: Global,
    map: Map<S>,
)
where
    S::Hasher: Send,
{
    equal_keys(rt, &map);
    put_beside(rt, &map);
    map.clear(rt);
    copies(rt, &map);
    map.clear(rt);
    first_and_last(rt, alloc, &mut map.alone());
}

// A list of (a#1, 1) and (a#2, 2) leaves (a#1, 2).
#[test]
fn the_first_key_of_a_list_and_the_last_value(rt: HostRuntime) {
    let list = vec![in rt.alloc(); (a(1), 1), (a(2), 2)].expect(&rt, "refused");
    let map = Map::<FixedState>::from_pairs(rt.alloc(), list, 1).expect(&rt, "refused");
    has_a(&rt, &map, 1, 2);
}

#[test]
fn an_equal_key_finds_the_stored_one(rt: HostRuntime) {
    let place = Map::with_hasher_and_shard_amount(rt.alloc(), PlaceState, 4);
    all_calls(&rt, rt.alloc(), place.expect(&rt, "refused"));
    let zero = Map::with_hasher_and_shard_amount(rt.alloc(), ZeroState, 4);
    all_calls(&rt, rt.alloc(), zero.expect(&rt, "refused"));
    let fixed = Map::with_hasher_and_shard_amount(rt.alloc(), FixedState, 4);
    all_calls(&rt, rt.alloc(), fixed.expect(&rt, "refused"));
}
