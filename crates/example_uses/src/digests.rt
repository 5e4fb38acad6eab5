//! How often files came, by a digest of their bytes: a map whose keys are `Vec<u8>`s is asked by `&[u8]`.
use dashmap::DashMap;
use std::alloc::{AllocError, Global};
use std::rt::Clock;
use std::sync::Wait;

/// How often each file came.
pub type Digests = DashMap<Vec<u8>, u64>;

/// How often a file came, 0 for never. Waits for the digest's shard.
pub fn count_of<R: Wait + Clock>(rt: &R, digests: &Digests, digest: &[u8]) -> u64 {
    digests.view(rt, digest, |_, count| *count).unwrap_or(0)
}

/// Counts a file once more, and says how often it came by now. It copies the digest where the file is new. Waits for the digest's shard.
pub fn count<R: Wait + Clock>(
    rt: &R,
    alloc: Global,
    digests: &Digests,
    digest: &[u8],
) -> Result<u64, AllocError> {
    let mut digests = digests.caller(rt);
    if let Some(mut count) = digests.get_mut(digest) {
        *count = count.saturating_add(1);
        return Ok(*count);
    }
    let Ok(entry) = digests.entry(Vec::from_slice(alloc, digest)?) else {
        return Err(AllocError);
    };
    let mut count = entry.or_insert(0);
    *count = count.saturating_add(1);
    Ok(*count)
}
