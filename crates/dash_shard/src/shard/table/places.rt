//! The places of a table: which one a pair is put on, and what is left where one goes.
ghost use Rattle.std.specs.Prelude.{ℕ, ◌≡◌, ◌+◌, ◌*◌, ◌/◌, ◌^◌, ◌<◌, ◌≤◌, Some, None, IfSome, IfNone, IfOk, IfErr, OnErr, IsSome, length, slice_set, slice_index};
ghost use Rattle.dash_shard.specs.inner.Marks.{IsFull};
ghost use Rattle.dash_shard.specs.inner.Table.{IsTable, IsSpot, IsOnWay, Holds, IsAbsent, PassesFirst, limit, slots_in, groups_in, pairs_in, hashes_in};
ghost use Rattle.dash_shard.specs.Words.{slot};

use super::marks::{
    EMPTY, REMOVED, class, count_at, count_way, group_of, home, lowest, next_group, own_lane,
    own_or_lowest, steps_to, tag, uncount_past,
};
use super::{Place, Table, find_at_home, find_in};
use crate::shard::group::probe;
use crate::shard::lanes::free_lanes;
use std::hash::Hash;

// The place that was found before, or else the first free lane of a group.
#[inline(always)]
fn first_free(free: Option<usize>, row: &[u8; 16], start: usize) -> Option<usize>
    requires { start + 16 < 2 ^ 64 }
    ensures kept { (i : ℕ) → free ≡ Some i → result ≡ Some i }
    ensures found { free ≡ None → IfSome result (λ i. (j : ℕ) × (j < 16) × (i ≡ start + j) × (128 ≤ slice_index row.now j)) }
    ensures none { free ≡ None → IfNone result ((j : ℕ) → j < 16 → slice_index row.now j < 128) }
{
    if free.is_some() {
        return free;
    }
    let mask = free_lanes(row);
    if mask == 0 {
        return None;
    }
    Some(start + lowest(mask))
}

// What marks a slot of a group whose pair goes: it is empty unless pairs stand past the group. None does where a slot is empty, and then the
// counts needn't be read.
#[inline(always)]
fn left_mark(tags: &[u8], counts: &[u128], group: usize) -> u8
    requires group { group < length counts.now }
    requires tags { 16 * group + 16 ≤ length tags.now }
    ensures free { 128 ≤ result }
    ensures empty { slice_index counts.now group ≡ 0 → result ≡ 128 }
    ensures removed { IsFull tags.now group → 0 < slice_index counts.now group → result ≡ 129 }
{
    if probe(group_of(tags, group), EMPTY).empty != 0 {
        return EMPTY;
    }
    if counts[group] == 0 { EMPTY } else { REMOVED }
}

impl<K, V> Table<K, V> {
    /// The slot of the pair of this hash whose key is equal, or else the first place on its way where it may be put, in one pass.
    #[inline(always)]
    pub fn find_or_place(&self, hash: u64, key: &K) -> Result<usize, Place>
    where
        K: Eq + Hash,
        requires { IsTable self.now }
        ensures found { IfOk result (Holds K.eq (pairs_in self.now) key.now) }
        ensures absent { OnErr result (IsAbsent K.eq self.now hash key.now) }
        ensures place { IfErr result (λ place. self.now.len < limit (slots_in self.now) → IsOnWay self.now hash place) }
    {
        let count = self.counts.len();
        if count == 0 {
            return Err(Place::default());
        }
        let first = home(hash, count);
        let seen = probe(group_of(&self.tags, first), tag(hash));
        let own = own_lane(hash);
        if let Some(position) = find_at_home(&self.slots, 16 * first, own, seen.matches, key) {
            return Ok(position);
        }
        if seen.empty != 0 {
            return Err(Place {
                slot: 16 * first + own_or_lowest(seen.empty, own),
                steps: 0,
            });
        }
        match self.place_past(hash, key, first) {
            Ok(position) => Ok(position),
            Err(slot) => Err(Place {
                slot,
                steps: steps_to(first, slot / 16, count),
            }),
        }
    }

    // Where a pass beyond the first group of the way finds the pair, or else a place for it where there is room.
    #[cold]
    #[inline(never)]
    fn place_past(&self, hash: u64, key: &K, first: usize) -> Result<usize, usize>
    where
        K: Eq + Hash,
        requires table { IsTable self.now }
        requires passes { PassesFirst (λ k. K.eq k key.now) self.now hash first }
        ensures found { IfOk result (Holds K.eq (pairs_in self.now) key.now) }
        ensures absent { OnErr result (IsAbsent K.eq self.now hash key.now) }
        ensures within { IfErr result (λ free. free / 16 < groups_in self.now) }
        ensures free { IfErr result (λ free. self.now.len < limit (slots_in self.now) → IsSpot self.now hash free) }
    {
        let count = self.counts.len();
        let (tag, class) = (tag(hash), class(hash));
        let mut group = first;
        let mut free = first_free(None, group_of(&self.tags, first), 16 * first);
        for _visits in 1..count {
            // With a place known it ends where a search does.
            if free.is_some() && count_at(self.counts[group], class) == 0 {
                break;
            }
            group = next_group(group, count);
            let row = group_of(&self.tags, group);
            let seen = probe(row, tag);
            if let Some(position) = find_in(&self.slots, 16 * group, seen.matches, key) {
                return Ok(position);
            }
            free = first_free(free, row, 16 * group);
            if seen.empty != 0 {
                break;
            }
        }
        Err(free.unwrap_or(0))
    }

    /// The first place on a hash's way where a pair of it may be put.
    #[inline(always)]
    pub fn place_for(&self, hash: u64) -> Place
        requires table { IsTable self.now }
        requires room { self.now.len < limit (slots_in self.now) }
        ensures { IsOnWay self.now hash result }
    {
        let count = self.counts.len();
        let first = home(hash, count);
        let free = free_lanes(group_of(&self.tags, first));
        if free != 0 {
            return Place {
                slot: 16 * first + own_or_lowest(free, own_lane(hash)),
                steps: 0,
            };
        }
        let slot = self.place_on_way(hash);
        Place {
            slot,
            steps: steps_to(first, slot / 16, count),
        }
    }

    // The first place on a hash's way, from its first group on. Few first groups are full, so it is seldom called.
    #[cold]
    #[inline(never)]
    fn place_on_way(&self, hash: u64) -> usize
        requires table { IsTable self.now }
        requires room { self.now.len < limit (slots_in self.now) }
        ensures { IsSpot self.now hash result }
    {
        let count = self.counts.len();
        let mut group = home(hash, count);
        for _step in 0..count {
            let free = first_free(None, group_of(&self.tags, group), 16 * group);
            if let Some(position) = free {
                return position;
            }
            group = next_group(group, count);
        }
        unreachable!()
    }

    /// Puts a pair on a place where it may be put.
    #[inline(always)]
    pub fn put(&mut self, place: Place, hash: u64, key: K, value: V)
        requires table { IsTable self.old }
        requires room { self.old.len < limit (slots_in self.old) }
        requires place { IsOnWay self.old hash place }
        ensures pairs { pairs_in self.new ≡ slice_set (pairs_in self.old) place.slot (Some (key, value)) }
        ensures hashes { hashes_in self.new ≡ slice_set (hashes_in self.old) place.slot hash }
        ensures len { self.new.len ≡ self.old.len + 1 }
        ensures slots { slots_in self.new ≡ slots_in self.old }
        ensures table { IsTable self.new }
    {
        count_way(&mut self.counts, hash, place.steps);
        self.tags[place.slot] = tag(hash);
        self.slots.put(place.slot, hash, (key, value));
        self.len += 1;
    }

    /// Puts a pair on the first place of its way, and returns the slot.
    #[inline]
    pub fn push(&mut self, hash: u64, key: K, value: V) -> usize
        requires table { IsTable self.old }
        requires room { self.old.len < limit (slots_in self.old) }
        ensures within { result < slots_in self.old }
        ensures free { slot (pairs_in self.old) result ≡ None }
        ensures pairs { pairs_in self.new ≡ slice_set (pairs_in self.old) result (Some (key, value)) }
        ensures hashes { hashes_in self.new ≡ slice_set (hashes_in self.old) result hash }
        ensures len { self.new.len ≡ self.old.len + 1 }
        ensures slots { slots_in self.new ≡ slots_in self.old }
        ensures table { IsTable self.new }
    {
        let place = self.place_for(hash);
        self.put(place, hash, key, value);
        place.slot
    }

    /// Takes the pair of a taken slot, by the hash of its key. The slot is empty then, or marked as one whose pair was removed where others
    /// stand past its group.
    #[inline(always)]
    pub fn take(&mut self, position: usize, hash: u64) -> (K, V)
        requires table { IsTable self.old }
        requires taken { IsSome (slot (pairs_in self.old) position) }
        requires hash { hash ≡ slice_index (hashes_in self.old) position }
        ensures old { slot (pairs_in self.old) position ≡ Some result }
        ensures pairs { pairs_in self.new ≡ slice_set (pairs_in self.old) position None }
        ensures hashes { hashes_in self.new ≡ hashes_in self.old }
        ensures len { self.new.len + 1 ≡ self.old.len }
        ensures slots { slots_in self.new ≡ slots_in self.old }
        ensures table { IsTable self.new }
    {
        let count = self.counts.len();
        let home = home(hash, count);
        let group = position / 16;
        let steps = steps_to(home, group, count);
        uncount_past(&mut self.counts, &mut self.tags, home, steps, class(hash));
        self.tags[position] = left_mark(&self.tags, &self.counts, group);
        self.len -= 1;
        self.slots.take(position)
    }
}
