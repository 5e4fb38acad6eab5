//! The marks of a table: a tag for each slot, in groups of sixteen, and for each group how many pairs of each class stand past it on their ways.
ghost use Rattle.std.specs.Prelude.{◌≡◌, ◌⊎◌, ℕ, ◌+◌, ◌*◌, ◌/◌, ◌%◌, ◌-◌, ◌^◌, ◌<◌, ◌≤◌, ◌↔◌, IsTrue, length, slice_index};
ghost use Rattle.std.specs.Int.{bit_at};
ghost use Rattle.dash_shard.specs.Words.{class_of};
ghost use Rattle.dash_shard.specs.inner.Marks.{round, step_to, goes_past, tag_of, count_of, IsRaised, IsLowered, OthersStay, CountsPast, UncountsPast, IsClean, KeepsTags, IsSplit};

use crate::shard::lanes::taken_lanes;

// What stands for a tag where a slot is empty, and where its pair was removed from a group that pairs stand past.
pub(super) const EMPTY: u8 = 128;

pub(super) const REMOVED: u8 = 129;

// A count stays at this once it comes to it, since four bits hold no more.
const MANY: u128 = 15;

// The lowest bit of a mask.
#[inline(always)]
pub(super) fn lowest(mask: u16) -> usize
    requires { 0 < mask }
    ensures bound { result < 16 }
    ensures set { bit_at mask result ≡ 1 }
    ensures first { (j : ℕ) → j < result → bit_at mask j ≡ 0 }
{
    mask.trailing_zeros() as usize
}

// Whether a mask names a lane.
#[inline(always)]
pub(super) fn has_lane(mask: u16, lane: usize) -> bool
    requires { lane < 16 }
    ensures { IsTrue result ↔ (bit_at mask lane ≡ 1) }
{
    (mask >> lane) & 1 == 1
}

// The own lane of a hash, if a mask names it, or else the lowest that it names.
#[inline(always)]
pub(super) fn own_or_lowest(mask: u16, own: usize) -> usize
    requires some { 0 < mask }
    requires own { own < 16 }
    ensures bound { result < 16 }
    ensures set { bit_at mask result ≡ 1 }
{
    if has_lane(mask, own) {
        own
    } else {
        lowest(mask)
    }
}

// The lowest bit of a mask, and the mask without it.
#[inline(always)]
pub(super) fn split_lowest(mask: u16) -> (usize, u16)
    requires { 0 < mask }
    ensures { IsSplit 16 mask result }
{
    (lowest(mask), mask & (mask - 1))
}

// The same of a mask of four groups.
#[inline(always)]
pub(super) fn split_lowest_of_four(mask: u64) -> (usize, u64)
    requires { 0 < mask }
    ensures { IsSplit 64 mask result }
{
    (mask.trailing_zeros() as usize, mask & (mask - 1))
}

// So many tags from a slot on.
#[inline(always)]
pub(super) fn tags_at<const N: usize>(tags: &[u8], start: usize) -> &[u8; N]
    requires { start + N ≤ length tags.now }
    ensures { (j : ℕ) → j < N → slice_index result.now j ≡ slice_index tags.now (start + j) }
{
    match <&[u8; N]>::try_from(&tags[start..start + N]) {
        Ok(row) => row,
        Err(_) => unreachable!(),
    }
}

// The tags of a group.
#[inline(always)]
pub(super) fn group_of(tags: &[u8], group: usize) -> &[u8; 16]
    requires { 16 * group + 16 ≤ length tags.now }
    ensures { (j : ℕ) → j < 16 → slice_index result.now j ≡ slice_index tags.now (16 * group + j) }
{
    tags_at(tags, 16 * group)
}

// The lowest slot from `from` on that is taken, by its tag, or one that isn't there. It looks at one, which is a good guess where pairs stand
// close together, and then at sixteen at once.
#[inline(always)]
pub(super) fn next_pair(tags: &[u8], from: usize) -> usize
    ensures from { from ≤ result }
    ensures taken { result < length tags.now → slice_index tags.now result < 128 }
    ensures passed { (j : ℕ) → from ≤ j → j < result → 128 ≤ slice_index tags.now j }
{
    let mut slot = from;
    while slot < tags.len() {
        if tags[slot] < EMPTY {
            return slot;
        }
        slot += 1;
        if tags.len() - slot >= 16 {
            let mask = taken_lanes(tags_at(tags, slot));
            if mask != 0 {
                return slot + lowest(mask);
            }
            slot += 16;
        }
    }
    slot
}

// How many times a hash goes round so many groups, without a division where they are three times a power of two.
#[inline(always)]
fn rounds(hash: u64, count: usize) -> u64
    requires { 0 < count }
    ensures { result ≡ hash / count }
{
    let shift = count.trailing_zeros();
    if count >> shift == 3 {
        (hash / 3) >> shift
    } else {
        hash / count as u64
    }
}

// The group where a hash's way begins.
#[inline(always)]
pub(super) fn home(hash: u64, count: usize) -> usize
    requires { 0 < count }
    ensures is { result ≡ hash % count }
    ensures below { result < count }
{
    let mask = count - 1;
    if count & mask == 0 {
        (hash & mask as u64) as usize
    } else {
        (hash - rounds(hash, count) * count as u64) as usize
    }
}

// The group that comes next on each way.
#[inline(always)]
pub(super) fn next_group(group: usize, count: usize) -> usize
    requires { group < count }
    ensures next { (home s : ℕ) → home < count → s < count → group ≡ round count (home + s) → result ≡ round count (home + (s + 1)) }
    ensures below { result < count }
{
    if group + 1 == count { 0 } else { group + 1 }
}

// How many groups a way from `home` goes past before it comes to a group.
#[inline(always)]
pub(super) fn steps_to(home: usize, group: usize, count: usize) -> usize
    requires home { home < count }
    requires group { group < count }
    ensures is { result ≡ step_to count home group }
    ensures below { result < count }
{
    if group == home {
        0
    } else if group < home {
        count - home + group
    } else {
        group - home
    }
}

// The tag of a hash, by its top seven bits.
#[inline(always)]
pub(super) fn tag(hash: u64) -> u8
    ensures is { result ≡ tag_of hash }
    ensures below { result < 128 }
{
    (hash >> 57) as u8
}

// The lane that a pair of the hash takes in its first group where it is free. It is one of all sixteen, so that most pairs find theirs free.
#[inline(always)]
pub(super) fn own_lane(hash: u64) -> usize
    ensures { result < 16 }
{
    tag(hash) as usize % 16
}

// The class of a hash, by bits that are not the tag's, and seldom the shard's or the home group's.
#[inline(always)]
pub(super) fn class(hash: u64) -> usize
    ensures is { result ≡ class_of hash }
    ensures below { result < 32 }
{
    (hash >> 32) as usize % 32
}

// Of the counts of a group, the one of a class.
#[inline(always)]
pub(super) fn count_at(counts: u128, class: usize) -> u128
    requires { class < 32 }
    ensures { result ≡ count_of counts class }
{
    (counts >> (4 * class)) % 16
}

// The counts of a group, with one more of a class.
#[inline(always)]
fn raised(counts: u128, class: usize) -> u128
    requires { class < 32 }
    ensures own { IsRaised (count_of counts class) 1 (count_of result class) }
    ensures more { counts ≤ result }
    ensures others { OthersStay class counts result }
{
    if count_at(counts, class) < MANY {
        counts + (1 << (4 * class))
    } else {
        counts
    }
}

// The counts of a group, with one less of a class.
#[inline(always)]
fn lowered(counts: u128, class: usize) -> u128
    requires class { class < 32 }
    requires some { 0 < count_of counts class }
    ensures own { IsLowered (count_of counts class) 1 (count_of result class) }
    ensures others { OthersStay class counts result }
{
    if count_at(counts, class) < MANY {
        counts - (1 << (4 * class))
    } else {
        counts
    }
}

// Counts a pair of a class at each group that its way goes past.
#[cold]
#[inline(never)]
fn count_past(counts: &mut [u128], home: usize, steps: usize, class: usize)
    requires home { home < length counts.old }
    requires steps { steps ≤ length counts.old }
    requires class { class < 32 }
    ensures len { length counts.new ≡ length counts.old }
    ensures counts { CountsPast (length counts.old) home steps class counts.old counts.new }
{
    let count = counts.len();
    let mut group = home;
    for _step in 0..steps {
        counts[group] = raised(counts[group], class);
        group = next_group(group, count);
    }
}

// Counts a pair of a hash that stands so many groups after the first of its way at each group before its own. Most stand in the first.
#[inline(always)]
pub(super) fn count_way(counts: &mut [u128], hash: u64, steps: usize)
    requires { steps < length counts.old }
    ensures len { length counts.new ≡ length counts.old }
    ensures counts { CountsPast (length counts.old) (hash % length counts.old) steps (class_of hash) counts.old counts.new }
{
    if steps != 0 {
        count_past(counts, home(hash, counts.len()), steps, class(hash));
    }
}

// Makes the removed marks of a group empty ones.
#[inline]
fn clean_group(tags: &mut [u8], group: usize)
    requires { 16 * group + 16 ≤ length tags.old }
    ensures len { length tags.new ≡ length tags.old }
    ensures clean { IsClean tags.new group }
    ensures keeps { (i : ℕ) → (slice_index tags.new i ≡ slice_index tags.old i)
        ⊎ ((slice_index tags.old i ≡ 129) × (slice_index tags.new i ≡ 128) × (i / 16 ≡ group)) }
{
    for slot in 16 * group..16 * group + 16 {
        if tags[slot] == REMOVED {
            tags[slot] = EMPTY;
        }
    }
}

// Takes a pair of a class off the counts of each group that its way goes past. Where no pair is left that stands past a group, its removed
// marks become empty ones.
#[inline]
pub(super) fn uncount_past(
    counts: &mut [u128],
    tags: &mut [u8],
    home: usize,
    steps: usize,
    class: usize,
)
    requires home { home < length counts.old }
    requires steps { steps ≤ length counts.old }
    requires class { class < 32 }
    requires tags { length tags.old ≡ 16 * length counts.old }
    requires some { (g : ℕ) → g < length counts.old → goes_past (length counts.old) home steps g ≤ count_of (slice_index counts.old g) class }
    requires clean { (g : ℕ) → g < length counts.old → slice_index counts.old g ≡ 0 → IsClean tags.old g }
    ensures len { length counts.new ≡ length counts.old }
    ensures tags_len { length tags.new ≡ length tags.old }
    ensures counts { UncountsPast (length counts.old) home steps class counts.old counts.new }
    ensures keeps { KeepsTags counts.new tags.old tags.new }
    ensures clean { (g : ℕ) → g < length counts.old → slice_index counts.new g ≡ 0 → IsClean tags.new g }
{
    let count = counts.len();
    let mut group = home;
    for _step in 0..steps {
        counts[group] = lowered(counts[group], class);
        if counts[group] == 0 {
            clean_group(tags, group);
        }
        group = next_group(group, count);
    }
}
