//! A look at a group of sixteen tags.
ghost use Rattle.std.specs.Prelude.{◌<◌, ◌^◌};
ghost use Rattle.dash_shard.specs.Words.{IsMask};

use super::lanes::{Probe, lanes_with};

/// Where a group of tags has `tag`, and where it is empty: a place with no pair, and none that was removed, has the tag 128.
///
/// Lane 0 is the lowest bit. It looks at all sixteen at once.
#[inline(always)]
pub fn probe(group: &[u8; 16], tag: u8) -> Probe
    ensures matches { IsMask group.now tag result.matches }
    ensures empty { IsMask group.now 128 result.empty }
    ensures fits { (result.matches < 2 ^ 16) × (result.empty < 2 ^ 16) }
{
    Probe {
        matches: lanes_with(group, tag),
        empty: lanes_with(group, 128),
    }
}
