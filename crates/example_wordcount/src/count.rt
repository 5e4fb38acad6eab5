//! The words of a text, counted by threads on one map.

ghost use Rattle.std.specs.Prelude.{◌≤◌, length};

use bstr::ByteSlice;
use dashmap::DashMap;
use dashmap::error::EntryRefused;
use std::alloc::{AllocError, Global};
use std::rt::Clock;
use std::sync::Wait;
use std::thread::{self, Threads};

/// How often each word came. The words stand in the texts.
pub type Counts<'t> = DashMap<&'t [u8], u64>;

/// Counts the words of a text, by so many threads: the runs of letters and digits, as Unicode has them.
///
/// Takes memory for the parts and for new words. Where it is refused, some words may have been counted.
pub fn count_text<'t, R: Threads + Wait + Clock + Sync>(
    rt: &R,
    alloc: Global,
    counts: &Counts<'t>,
    text: &'t [u8],
    threads: usize,
) -> Result<(), AllocError> {
    let parts = parts(alloc, text, threads)?;
    let count = |index: usize| count_words(rt, counts, parts[index]).is_ok();
    let counted = thread::map_indices(rt, alloc, parts.len(), &count)?;
    match counted.iter().all(|is_counted| *is_counted) {
        true => Ok(()),
        false => Err(AllocError),
    }
}

// Counts the words of a part.
fn count_words<'t, R: Wait + Clock>(
    rt: &R,
    counts: &Counts<'t>,
    text: &'t [u8],
) -> Result<(), EntryRefused<&'t [u8]>> {
    for word in text.fields_with(|c| !c.is_alphanumeric()) {
        let mut count = counts.entry(rt, word)?.or_insert(0);
        *count = count.saturating_add(1);
    }
    Ok(())
}

// Cuts a text into so many parts of much the same size, but through no word.
fn parts<'t>(alloc: Global, text: &'t [u8], count: usize) -> Result<Vec<&'t [u8]>, AllocError> {
    let size = text.len() / count.max(1);
    let mut parts = Vec::with_capacity(alloc, count)?;
    let mut rest = text;
    for _ in 1..count {
        let (part, behind) = rest.split_at(cut(rest, size));
        parts.push(part)?;
        rest = behind;
    }
    parts.push(rest)?;
    Ok(parts)
}

// The first index from `size` on with a byte of ASCII that is in no word, or the end.
fn cut(text: &[u8], size: usize) -> usize
    ensures { result ≤ length text.now }
{
    let from = size.min(text.len());
    let more = text[from..]
        .iter()
        .position(|byte| byte.is_ascii() && !byte.is_ascii_alphanumeric());
    more.map_or(text.len(), |more| from + more)
}

/// The words that came most often, so many, beside how often they came: by falling counts, and among equal ones by the word.
pub fn most_frequent<'t>(
    alloc: Global,
    counts: Counts<'t>,
    top: usize,
) -> Result<Vec<(u64, &'t [u8])>, AllocError> {
    let mut rows = Vec::new(alloc);
    for (word, count) in counts {
        rows.push((count, word))?;
    }
    rows.sort_unstable_by(|a, b| b.0.cmp(&a.0).then_with(|| a.1.cmp(b.1)));
    rows.truncate(top);
    Ok(rows)
}
