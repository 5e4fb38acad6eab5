//! How much memory the process has.

use std::fs;
use std::rt::Files;

/// How many bytes of the process are in memory, as the system says, or 0 where it doesn't say.
pub fn resident<R: Files + AllocGlobal>(rt: &R) -> u64 {
    let Ok(text) = fs::read_to_string(rt, "/proc/self/statm") else {
        return 0;
    };
    let Some(pages) = text.as_str().split_whitespace().nth(1) else {
        return 0;
    };
    pages
        .parse::<u64>()
        .map_or(0, |pages| pages.saturating_mul(4096))
}
