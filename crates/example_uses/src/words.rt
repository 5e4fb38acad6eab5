//! The words of a page, counted on a map that threads share.
ghost use Rattle.std.specs.Prelude.{◌≡◌, ◌+◌, ◌-◌, ◌^◌, min, IfOk, IfErr};
ghost use Rattle.std.specs.Option.{option_map, option_map_or};
ghost use Rattle.dashmap.specs.Words.{at, at_named, pairs, SawServing, SawShard};

use dashmap::error::EntryRefused;
use dashmap::keyed::Keyed;
use dashmap::{DashMap, Query};
use std::hash::{BuildHasher, Hash};
use std::mem;
use std::rt::Clock;
use std::sync::Wait;

/// Counts the key once more, and says how often it came by now. Waits for the key's shard.
pub fn count<K: Eq + Hash + Drop, S: BuildHasher, R: Wait + Clock>(
    rt: &R,
    counts: &DashMap<K, u64, S>,
    key: K,
) -> Result<u64, EntryRefused<K>>
    ensures one_more { IfOk result (λ n. SawShard ⟦<DashMap<K, u64, S> as Keyed>⟧.by counts.now key
        (λ s. n ≡ min (option_map_or (λ p. p.1) (at K.eq (pairs s) key) 0 + 1) (2 ^ 64 - 1))) }
    ensures refused { IfErr result (λ e. e.key ≡ key) }
{
    let mut counts = counts.caller(rt);
    let mut count = counts.entry(key)?.or_insert(0);
    let now = count.saturating_add(1);
    *count = now;
    Ok(now)
}

/// Counts each word of a page. Waits for one word's shard after the other.
pub fn count_words<'p, R: Wait + Clock>(
    rt: &R,
    counts: &DashMap<&'p str, u64>,
    page: &'p str,
) -> Result<(), EntryRefused<&'p str>> {
    for word in page.split_whitespace() {
        count(rt, counts, word)?;
    }
    Ok(())
}

/// Starts the key's count anew, and says what it was. Waits for the key's shard.
pub fn start_anew<K: Eq + Hash, S: BuildHasher, R: Wait + Clock, Q: Query<K>>(
    rt: &R,
    counts: &DashMap<K, u64, S>,
    key: Q,
) -> Option<u64>
    ensures was { SawServing ⟦<DashMap<K, u64, S> as Keyed>⟧.by counts.now (Q.names key)
        (λ s. result ≡ option_map (λ p. p.1) (at_named (Q.names key) (pairs s))) }
{
    let mut counts = counts.caller(rt);
    let mut count = counts.get_mut(key)?;
    Some(mem::take(&mut *count))
}
