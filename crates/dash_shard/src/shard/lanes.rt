//! Sixteen tags at once, or four times as many.
ghost use Rattle.std.specs.Prelude.{◌≡◌, ℕ, ◌<◌, ◌≤◌, ◌↔◌, slice_index};
ghost use Rattle.std.specs.Int.{bit_at};
ghost use Rattle.dash_shard.specs.Words.{IsMask};

use std::simd::prelude::*;

/// What a look at a group of tags finds: a bit for each lane with the tag, and one for each that is empty.
#[derive(Clone, Copy, PartialEq, Eq, Debug)]
pub struct Probe {
    pub matches: u16,
    pub empty: u16,
}

// A bit for each lane that has the tag.
#[inline(always)]
pub(super) fn lanes_with(group: &[u8; 16], tag: u8) -> u16
    ensures { IsMask group.now tag result }
{
    u8x16::from_array(*group)
        .simd_eq(u8x16::splat(tag))
        .to_bitmask() as u16
}

// A bit for each lane that is empty or removed.
#[inline(always)]
pub(super) fn free_lanes(group: &[u8; 16]) -> u16
    ensures { (i : ℕ) → (bit_at result i ≡ 1) ↔ ((i < 16) × (128 ≤ slice_index group.now i)) }
{
    u8x16::from_array(*group)
        .simd_ge(u8x16::splat(128))
        .to_bitmask() as u16
}

// A bit for each lane with a pair.
#[inline(always)]
pub(super) fn taken_lanes(group: &[u8; 16]) -> u16
    ensures { (i : ℕ) → (bit_at result i ≡ 1) ↔ ((i < 16) × (slice_index group.now i < 128)) }
{
    u8x16::from_array(*group)
        .simd_lt(u8x16::splat(128))
        .to_bitmask() as u16
}

// The same of four groups.
#[inline(always)]
pub(super) fn taken_lanes_of_four(groups: &[u8; 64]) -> u64
    ensures taken { (i : ℕ) → (bit_at result i ≡ 1) ↔ ((i < 64) × (slice_index groups.now i < 128)) }
{
    let tags = u8x64::from_array(*groups);
    tags.simd_lt(u8x64::splat(128)).to_bitmask()
}
