//! A table of pairs, found by the tags of their hashes, sixteen at a time.
ghost use Rattle.std.specs.Prelude.{ℕ, ◌≡◌, ◌+◌, ◌-◌, ◌*◌, ◌/◌, ◌^◌, ◌<◌, ◌≤◌, ◌++◌, IfSome, IfNone, IsOk, IfOk, IfErr, OnOk, OnErr, IsSome, length, [], vec_len, vec_capacity, slice_set, slice_index, replicate};
ghost use Rattle.dash_shard.specs.inner.Table.{IsTable, IsHashedBy, HoldsNamed, LacksNamed, AreTaken, MissesLanes, PassesFirst, MayEnd, limit, slots_in, groups_in, pairs_in, hashes_in};
ghost use Rattle.dash_shard.specs.inner.Marks.{group_at};
ghost use Rattle.dash_shard.specs.inner.Cursors.{IsSlotCursor, Advances};
ghost use Rattle.dash_shard.specs.Words.{IsNextTaken, slot};
ghost use Rattle.dash_shard.specs.inner.SlotRows.Slots.{IsBlank};
ghost use Rattle.std.specs.Int.{bit_at};
ghost use Rattle.std.specs.Option.{option_map};
ghost use Rattle.std.specs.Map.Iter.{deref_pair};

use crate::query::Query;
use crate::shard::group::probe;
use cursor::Cursor;
use marks::{
    class, count_at, group_of, has_lane, home, next_group, next_pair, own_lane, split_lowest,
    steps_to, tag,
};
use slots::Slots;
use std::alloc::Global;
use std::hash::{BuildHasher, Hash};
use std::mem;

pub mod cursor;
mod growth;
mod marks;
mod places;
mod slots;
mod sweep;
mod values;
pub mod walk;

/// Pairs in slots that they keep, found by the tags of their hashes. An empty one takes no memory.
///
/// It has no `Drop`: `end` lets its pairs go.
pub struct Table<K, V> {
    // It stands first, beside the lock's word: an insert or a removal writes both, and no second line of the shard.
    len: usize,
    // To proofs, the label of a taken slot is the hash of its key.
    slots: Slots<(K, V)>,
    // A tag for each slot, in groups of sixteen.
    tags: Vec<u8>,
    // For each group, how many pairs of each class stand past it on their ways: 32 counts of four bits.
    counts: Vec<u128>,
}

/// Where a key's pair stands, and how many groups of slots were looked at to find it.
#[derive(Clone, Copy, PartialEq, Eq, Debug)]
pub struct Search {
    pub position: Option<usize>,
    pub visits: usize,
}

/// A free slot where a pair may be put, so many groups after the first of its hash's way. For the crates here alone.
#[derive(Clone, Copy, PartialEq, Eq, Debug, Default)]
pub struct Place {
    pub slot: usize,
    pub steps: usize,
}

// Of the slots of a group that the mask names, the lowest whose key the query names.
#[inline(always)]
fn find_in<K: Eq + Hash, V, Q: Query<K>>(
    slots: &Slots<(K, V)>,
    start: usize,
    mask: u16,
    key: Q,
) -> Option<usize>
    requires fits { start + 16 < 2 ^ 64 }
    requires taken { AreTaken slots.now.values start mask }
    ensures found { IfSome result (HoldsNamed (Q.names key) slots.now.values) }
    ensures lies { IfSome result (λ i. (start ≤ i) × (i < start + 16)) }
    ensures absent { IfNone result (MissesLanes (Q.names key) slots.now.values start mask) }
{
    if mask == 0 {
        return None;
    }
    let mut left = mask;
    loop {
        let (lane, rest) = split_lowest(left);
        if key.names(&slots.get(start + lane).0) {
            return Some(start + lane);
        }
        if rest == 0 {
            return None;
        }
        left = rest;
    }
}

// The same of a way's first group. It looks at the own lane of the key's hash first, where many pairs stand: a processor that expects that
// fetches the slot while it waits for the tags.
#[inline(always)]
fn find_at_home<K: Eq + Hash, V, Q: Query<K>>(
    slots: &Slots<(K, V)>,
    start: usize,
    own: usize,
    mask: u16,
    key: Q,
) -> Option<usize>
    requires fits { start + 16 < 2 ^ 64 }
    requires own { own < 16 }
    requires taken { AreTaken slots.now.values start mask }
    ensures found { IfSome result (HoldsNamed (Q.names key) slots.now.values) }
    ensures lies { IfSome result (λ i. (start ≤ i) × (i < start + 16)) }
    ensures absent { IfNone result (MissesLanes (Q.names key) slots.now.values start mask) }
{
    if mask == 0 {
        return None;
    }
    if has_lane(mask, own) && key.names(&slots.get(start + own).0) {
        return Some(start + own);
    }
    find_in(slots, start, mask, key)
}

impl<K, V> Table<K, V> {
    /// A table with no slots, which takes no memory.
    #[inline]
    pub fn new(alloc: Global) -> Self
        ensures table { IsTable result }
        ensures empty { slots_in result ≡ 0 }
    {
        Table {
            slots: Slots::new(alloc),
            tags: Vec::new(alloc),
            counts: Vec::new(alloc),
            len: 0,
        }
    }

    /// Where the slots are taken from.
    #[inline]
    pub fn allocator(&self) -> Global {
        self.slots.allocator()
    }

    // The slots and their tags. The counts go.
    fn into_slots(self) -> (Slots<(K, V)>, Vec<u8>)
        ensures slots { result.0 ≡ self.slots }
        ensures tags { result.1 ≡ self.tags }
    {
        let Table {
            slots,
            tags,
            counts,
            len: _,
        } = self;
        drop(counts);
        (slots, tags)
    }

    /// Ends a table with no pairs, and gives its memory back.
    #[inline]
    pub fn end_blank(self)
        requires { IsBlank self.slots }
    {
        let (slots, tags) = self.into_slots();
        drop(tags);
        slots.end();
    }

    /// How many pairs there may be before the table takes memory: seven of each eight slots.
    #[inline]
    pub fn capacity(&self) -> usize
        requires { IsTable self.now }
        ensures { result ≡ limit (slots_in self.now) }
    {
        14 * self.counts.len()
    }

    /// How many groups of slots there are.
    #[inline]
    pub fn groups(&self) -> usize
        ensures { result ≡ groups_in self.now }
    {
        self.counts.len()
    }

    /// Looks for the pair of this hash whose key the query names, group by group along the hash's way.
    #[inline(always)]
    pub fn search<Q: Query<K>>(&self, hash: u64, key: Q) -> Search
    where
        K: Eq + Hash,
        requires { IsTable self.now }
        ensures found { IfSome result.position (HoldsNamed (Q.names key) (pairs_in self.now)) }
        ensures absent { IfNone result.position (LacksNamed (Q.names key) self.now hash) }
        ensures visits { (result.visits ≤ groups_in self.now) × (0 < groups_in self.now → 0 < result.visits) }
        ensures last { IfSome result.position (λ i. i / 16 ≡ group_at (groups_in self.now) hash (result.visits - 1)) }
        ensures ended { IfNone result.position (MayEnd self.now hash result.visits) }
    {
        let count = self.counts.len();
        if count == 0 {
            return Search {
                position: None,
                visits: 0,
            };
        }
        let first = home(hash, count);
        let seen = probe(group_of(&self.tags, first), tag(hash));
        let own = own_lane(hash);
        if let Some(position) = find_at_home(&self.slots, 16 * first, own, seen.matches, key) {
            return Search {
                position: Some(position),
                visits: 1,
            };
        }
        if seen.empty != 0 {
            return Search {
                position: None,
                visits: 1,
            };
        }
        match self.search_past(hash, key, first) {
            Ok(position) => Search {
                position: Some(position),
                visits: steps_to(first, position / 16, count) + 1,
            },
            Err(visits) => Search {
                position: None,
                visits,
            },
        }
    }

    // Where a search past the first group of the way finds the pair, or else how many groups it looked at with the first. Few groups are
    // full, so it is seldom called. What it returns fits registers, and costs no caller anything that doesn't call it.
    #[cold]
    #[inline(never)]
    fn search_past<Q: Query<K>>(&self, hash: u64, key: Q, first: usize) -> Result<usize, usize>
    where
        K: Eq + Hash,
        requires table { IsTable self.now }
        requires passes { PassesFirst (Q.names key) self.now hash first }
        ensures found { IfOk result (HoldsNamed (Q.names key) (pairs_in self.now)) }
        ensures absent { OnErr result (LacksNamed (Q.names key) self.now hash) }
        ensures visits { IfErr result (λ visits. (visits ≤ groups_in self.now) × (0 < visits)) }
        ensures ended { IfErr result (MayEnd self.now hash) }
    {
        let count = self.counts.len();
        let (tag, class) = (tag(hash), class(hash));
        let mut group = first;
        for visits in 1..count {
            if count_at(self.counts[group], class) == 0 {
                return Err(visits);
            }
            group = next_group(group, count);
            let seen = probe(group_of(&self.tags, group), tag);
            if let Some(position) = find_in(&self.slots, 16 * group, seen.matches, key) {
                return Ok(position);
            }
            if seen.empty != 0 {
                return Err(visits + 1);
            }
        }
        Err(count)
    }

    /// The slot of the pair of this hash whose key the query names.
    #[inline(always)]
    pub fn find<Q: Query<K>>(&self, hash: u64, key: Q) -> Option<usize>
    where
        K: Eq + Hash,
        requires { IsTable self.now }
        ensures found { IfSome result (HoldsNamed (Q.names key) (pairs_in self.now)) }
        ensures absent { IfNone result (LacksNamed (Q.names key) self.now hash) }
    {
        self.search(hash, key).position
    }

    /// The pair of a taken slot.
    #[inline(always)]
    pub fn at(&self, position: usize) -> (&K, &V)
        requires { IsSome (slot (pairs_in self.now) position) }
        ensures { Some (deref_pair result) ≡ slot (pairs_in self.now) position }
    {
        let (key, value) = self.slots.get(position);
        (key, value)
    }

    /// The hash of the key of a taken slot.
    #[inline]
    pub fn hash_at<S: BuildHasher>(&self, position: usize, hasher: &S) -> u64
    where
        K: Eq + Hash,
        requires taken { IsSome (slot (pairs_in self.now) position) }
        requires hashed { IsHashedBy K.hash_input S.BuildHasher S.Hasher.Hasher hasher.now self.now.slots }
        ensures { result ≡ slice_index (hashes_in self.now) position }
    {
        hasher.hash_one(self.at(position).0)
    }

    /// Puts a value in the slot of the one at a taken slot.
    #[inline(always)]
    pub fn replace(&mut self, position: usize, value: V) -> V
        requires taken { IsSome (slot (pairs_in self.old) position) }
        requires table { IsTable self.old }
        ensures old { Some result ≡ option_map (λ p. p.1) (slot (pairs_in self.old) position) }
        ensures pairs { pairs_in self.new ≡ slice_set (pairs_in self.old) position (option_map (λ p. (p.0, value)) (slot (pairs_in self.old) position)) }
        ensures hashes { hashes_in self.new ≡ hashes_in self.old }
        ensures len { self.new.len ≡ self.old.len }
        ensures slots { slots_in self.new ≡ slots_in self.old }
        ensures table { IsTable self.new }
    {
        let pair = self.slots.get_mut(position);
        mem::replace(&mut pair.1, value)
    }

    /// The lowest taken slot not below `position`.
    #[inline]
    pub fn next_taken(&self, position: usize) -> Option<usize>
        requires { IsTable self.now }
        ensures next { IsNextTaken (pairs_in self.now) position result }
        ensures below { IfSome result (λ i. i < 2 ^ 64 - 1) }
    {
        let slot = next_pair(&self.tags, position);
        if slot < self.tags.len() {
            Some(slot)
        } else {
            None
        }
    }

    /// A cursor before the first slot.
    #[inline]
    pub fn cursor(&self) -> Cursor
        requires { IsTable self.now }
        ensures first { result.position ≡ 0 }
        ensures cursor { IsSlotCursor (pairs_in self.now) result }
    {
        Cursor::new()
    }

    /// The lowest taken slot from the cursor's position on. The cursor goes on behind it, and stays where there is none.
    #[inline(always)]
    pub fn advance(&self, cursor: &mut Cursor) -> Option<usize>
        requires table { IsTable self.now }
        requires cursor { IsSlotCursor (pairs_in self.now) cursor.old }
        ensures { Advances (pairs_in self.now) cursor.old result cursor.new }
    {
        cursor.next(&self.tags)
    }

    /// How many slots are taken.
    #[inline]
    pub fn len(&self) -> usize
        ensures { result ≡ self.now.len }
    {
        self.len
    }
}
