//! Where a walk over the slots of a table goes on.
ghost use Rattle.std.specs.Prelude.{ℕ, List, ◌≡◌, ◌+◌, length};
ghost use Rattle.std.specs.Option.{option_map_or};
ghost use Rattle.dash_shard.specs.inner.Cursors.{ComesInGroups, IsTagCursor, IsNextTag};

use super::marks::{split_lowest_of_four, tags_at};
use crate::shard::lanes::{taken_lanes, taken_lanes_of_four};

/// Where a walk over the slots of a shard goes on, and what the tags of a group or of four say, looked at once. For the crates here alone.
#[derive(Clone, Copy, PartialEq, Eq, Debug, Default)]
pub struct Cursor {
    /// The slot where the walk goes on.
    pub position: usize,
    /// The first slot that was looked at.
    pub start: usize,
    /// The slot behind the last that was looked at.
    pub end: usize,
    /// A bit for each taken slot of those from the position on.
    pub left: u64,
}

impl Cursor {
    // A cursor before the first slot.
    #[inline(always)]
    pub(super) fn new() -> Self
        ensures first { result.position ≡ 0 }
        ensures cursor { (tags : List ℕ) → ComesInGroups (length tags) → IsTagCursor tags result }
    {
        Cursor::default()
    }

    // The lowest taken slot from the position on, by its tag. The cursor goes on behind it, and stays where there is none.
    #[inline(always)]
    pub(super) fn next(&mut self, tags: &[u8]) -> Option<usize>
        requires { IsTagCursor tags.now self.old }
        ensures next { IsNextTag tags.now self.old.position result }
        ensures position { self.new.position ≡ option_map_or (λ slot. slot + 1) result self.old.position }
        ensures cursor { IsTagCursor tags.now self.new }
    {
        while self.left == 0 {
            if self.end == tags.len() {
                return None;
            }
            self.start = self.end;
            if tags.len() - self.start >= 64 {
                self.end += 64;
                self.left = taken_lanes_of_four(tags_at(tags, self.start));
            } else {
                self.end += 16;
                self.left = taken_lanes(tags_at(tags, self.start)) as u64;
            }
        }
        let (lane, rest) = split_lowest_of_four(self.left);
        self.left = rest;
        let slot = self.start + lane;
        self.position = slot + 1;
        Some(slot)
    }
}
