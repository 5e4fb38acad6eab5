//! The kinds of calls, and how many of each were taken.

/// How many counters all threads share.
pub const COUNTERS: usize = 16;

/// A kind of call.
#[derive(Clone, Copy)]
pub enum Call {
    Insert,
    Get,
    GetMut,
    Remove,
    RemoveIf,
    RemoveIfMut,
    Alter,
    View,
    ContainsKey,
    TryGet,
    TryGetMut,
    TryEntry,
    Locked,
    Downgrade,
    Entry,
    OccupiedGetMut,
    OccupiedInsert,
    OccupiedRemove,
    OccupiedRemoveEntry,
    OccupiedReplaceEntry,
    OrInsert,
    OrInsertWith,
    OrDefault,
    OrTryInsertWith,
    AndModify,
    EntryInsert,
    IntoKey,
    Iter,
    IterEnded,
    IterMut,
    Retain,
    AlterAll,
    ShrinkToFit,
    Len,
    IsEmpty,
    Capacity,
    Pairs,
    Clone,
    CountEntry,
    CountGetMut,
    CountAlter,
    CountTryGetMut,
    CountGet,
    SetInsert,
    SetRemove,
    SetRemoveIf,
    SetContains,
    SetGet,
    SetIter,
    SetRetain,
    SetLen,
    SetShrink,
    Apply,
    TryApply,
    CountAll,
    CloneAll,
    TryCountAll,
    TryCloneAll,
    RefusedStep,
    Gather,
    ReplayGet,
    ReplayContains,
    ReplayInsert,
    ReplayRemove,
    ReplayRemoveIf,
    ReplayRemoveIfMut,
    ReplayAlter,
    ReplayRead,
    ReplayCount,
    ReplayAlterAll,
    ReplayRetain,
    ReplayCountPart,
    ReplayReadPart,
    Clear,
    TryReserve,
}

/// How the kinds are named, in their order.
pub const NAMES: [&str; 75] = [
    "insert",
    "get",
    "get_mut",
    "remove",
    "remove_if",
    "remove_if_mut",
    "alter",
    "view",
    "contains_key",
    "try_get",
    "try_get_mut",
    "try_entry",
    "try_ forms that found it locked",
    "downgrade",
    "entry",
    "OccupiedEntry::get_mut",
    "OccupiedEntry::insert",
    "OccupiedEntry::remove",
    "OccupiedEntry::remove_entry",
    "OccupiedEntry::replace_entry",
    "or_insert",
    "or_insert_with",
    "or_default",
    "or_try_insert_with",
    "and_modify",
    "Entry::insert",
    "into_key",
    "iter",
    "iter, ended early",
    "iter_mut",
    "retain",
    "alter_all",
    "shrink_to_fit",
    "len",
    "is_empty",
    "capacity",
    "pairs",
    "clone",
    "shared entry",
    "shared get_mut",
    "shared alter",
    "shared try_get_mut",
    "shared get",
    "set insert",
    "set remove",
    "set remove_if",
    "set contains",
    "set get",
    "set iter",
    "set retain",
    "set len",
    "set shrink_to_fit",
    "recorded apply",
    "recorded try_apply",
    "recorded count_all",
    "recorded clone_all",
    "recorded try_count_all",
    "recorded try_clone_all",
    "recorded steps that must be refused",
    "gather",
    "replayed get",
    "replayed contains",
    "replayed insert",
    "replayed remove",
    "replayed remove_if",
    "replayed remove_if_mut",
    "replayed alter",
    "replayed read",
    "replayed count",
    "replayed alter_all",
    "replayed retain",
    "replayed count_part",
    "replayed read_part",
    "clear",
    "try_reserve",
];

/// How many calls of each kind were taken, and how many pairs a map had at most.
#[derive(Clone, Copy)]
pub struct Tally {
    pub counts: [u64; NAMES.len()],
    pub most: u64,
    /// What was added to each counter.
    pub added: [u64; COUNTERS],
}

impl Tally {
    pub fn new() -> Tally {
        Tally {
            counts: [0; NAMES.len()],
            most: 0,
            added: [0; COUNTERS],
        }
    }

    /// One more call of a kind.
    #[inline]
    pub fn count(&mut self, call: Call) {
        if let Some(count) = self.counts.get_mut(call as usize) {
            *count = count.wrapping_add(1);
        }
    }

    /// What was added to a counter.
    pub fn added(&self, counter: usize) -> u64 {
        self.added.get(counter).copied().unwrap_or(0)
    }

    /// The calls of another tally too.
    pub fn add(&mut self, other: &Tally) {
        for (count, more) in self.counts.iter_mut().zip(&other.counts) {
            *count = count.wrapping_add(*more);
        }
        for (added, more) in self.added.iter_mut().zip(&other.added) {
            *added = added.wrapping_add(*more);
        }
        self.most = self.most.max(other.most);
    }
}
