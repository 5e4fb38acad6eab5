//! How many lines pages have: each page is counted once.
ghost use Rattle.std.specs.Prelude.{◌≡◌, IfOk};
ghost use Rattle.example_uses.specs.Pages.{line_count};

use dashmap::Memo;
use dashmap::error::ConstructError;
use dashmap::memo::{MemoRefused, Rule};
use std::alloc::{AllocError, Global};
use std::rt::Clock;
use std::sync::Wait;

/// Counts the line ends of a page.
#[derive(Clone, Copy, Debug)]
pub struct LineCount;

impl Rule<String, u64> for LineCount {
    ghost use Rattle.example_uses.specs.Pages.{line_count, same_lines};

    ghost value_of = { line_count };

    fn compute(&self, page: &String) -> Result<u64, AllocError> {
        let ends = page.as_bytes().iter().filter(|byte| **byte == b'\n');
        Ok(ends.count() as u64)
    }

    ghost equal_alike = { same_lines };
}

/// The numbers of lines that are kept.
pub type LineCounts = Memo<String, u64, LineCount>;

/// No numbers of lines yet. Of about so many pages they will be kept, the more evenly the pages spread over the shards.
pub fn counts_of(
    alloc: Global,
    most: usize,
    parallelism: usize,
) -> Result<LineCounts, ConstructError> {
    Memo::with_bound(alloc, LineCount, most, parallelism)
}

/// How many lines the page has. Waits for the page's shard.
pub fn lines_of<R: Wait + Clock>(
    rt: &R,
    counts: &LineCounts,
    page: &String,
) -> Result<u64, MemoRefused>
    ensures { IfOk result (λ lines. lines ≡ line_count page.now) }
{
    counts.ask(rt, page)
}
