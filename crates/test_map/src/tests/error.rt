//! The texts of all refusals.
use crate::tests::checks::{is, prints};
use crate::tests::maps::map_of_four;
use dash_history::gather::GatherError;
use dash_history::record::RecordFault;
use dash_map::extend::{ExtendRefused, FromRefused};
use dash_map::read_only::ViewRefused;
use dash_map::run::Fault;
use dash_ref::mapref::entry::{Entry, EntryRefused, InsertEntryRefused, TryEntryRefused};
use dash_shard::error::{ConstructError, TryReserveError};
use dash_shard::shard::InsertRefused;
use std::alloc::Global;
use std::fmt;
use std::process::Abort;

fn has_text(rt: &impl Abort, alloc: Global, error: &impl fmt::Display, wanted: &str) {
    let text = format!(in alloc; "{error}").expect(rt, "no memory");
    is(rt, text.as_str(), wanted);
}

fn have_texts<E: fmt::Display>(rt: &impl Abort, alloc: Global, rows: &[(E, &str)]) {
    for (error, text) in rows {
        has_text(rt, alloc, error, text);
    }
}

#[test]
fn texts(rt: HostRuntime) {
    let construct = [
        (ConstructError::ShardAmount, "shard amount (5)"),
        (ConstructError::Parallelism, "parallelism (6)"),
        (ConstructError::CapacityOverflow, "capacity overflow (7)"),
        (ConstructError::Memory, "no memory (8)"),
        (ConstructError::Callers, "callers (17)"),
    ];
    have_texts(&rt, rt.alloc(), &construct);
    has_text(&rt, rt.alloc(), &TryReserveError {}, "no memory (11)");
    has_text(&rt, rt.alloc(), &Fault::NoSuchShard, "no such shard (13)");
    has_text(&rt, rt.alloc(), &Fault::Memory, "no memory (14)");
    let record = [
        (RecordFault::LastStamp, "last stamp (18)"),
        (RecordFault::Memory, "no memory (19)"),
        (RecordFault::NoSuchShard, "no such shard (20)"),
        (RecordFault::Locked, "locked (21)"),
        (RecordFault::Part, "part (24)"),
    ];
    have_texts(&rt, rt.alloc(), &record);
    has_text(&rt, rt.alloc(), &GatherError::Mismatch, "mismatch (22)");
    has_text(&rt, rt.alloc(), &GatherError::Memory, "no memory (23)");
}

#[test]
fn texts_of_what_is_handed_back(rt: HostRuntime) {
    let (key, value) = (1, 10);
    let of_insert = "no memory for a new key";
    has_text(&rt, rt.alloc(), &InsertRefused { key, value }, of_insert);
    let of_entry = "no memory for the pair of a vacant key";
    has_text(&rt, rt.alloc(), &EntryRefused { key }, of_entry);
    let of_try = [
        (TryEntryRefused::Memory(key), of_entry),
        (TryEntryRefused::Locked(key), "locked"),
    ];
    have_texts(&rt, rt.alloc(), &of_try);
    let of_extend = "no memory for a new key of the list";
    has_text(&rt, rt.alloc(), &ExtendRefused { key, value }, of_extend);
    let of_from = [
        (FromRefused::Pair(ExtendRefused { key, value }), of_extend),
        (
            FromRefused::Construct(ConstructError::Memory),
            "no memory (8)",
        ),
    ];
    have_texts(&rt, rt.alloc(), &of_from);
}

#[test]
fn texts_of_holders(rt: HostRuntime) {
    let map = map_of_four(&rt, rt.alloc());
    let Entry::Vacant(entry) = map.entry(&rt, 1).expect(&rt, "refused") else {
        panic!(&rt; "a pair");
    };
    let refused = InsertEntryRefused { entry, value: 10 };
    let of_copy = "no memory for the copy of a vacant key";
    has_text(&rt, rt.alloc(), &refused, of_copy);
    prints(&rt, rt.alloc(), &refused, "InsertEntryRefused { .. }");
    drop(refused);
    let owner = map.into_read_only();
    let refused = ViewRefused { owner };
    let of_view = "no memory for a row of locks";
    has_text(&rt, rt.alloc(), &refused, of_view);
    prints(&rt, rt.alloc(), &refused, "ViewRefused { .. }");
}
