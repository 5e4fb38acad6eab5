//! One history of a recorded map: the histories of its shards merged, where the logs of its callers match them.
ghost use Rattle.std.specs.Prelude.{◌≡◌, List};
ghost use Rattle.dash_history.specs.Words.{At, Gathers, IsGathered, Known, LogState, RecAloneState, RelocksRecShards, StampsStandInOrder, shape};

pub use crate::place::At;
use crate::record::CallerLog;
use crate::record::map::RecordedMap;
use core::mem::replace_with;
use dash_steps::action::KeptAction;
use dash_steps::kept::{Kept, KeptKey};
use dash_steps::known::Recorded;
use std::hash::BuildHasher;
use thiserror::Error;

/// Why there is no one history.
#[derive(Clone, Copy, Debug, PartialEq, Eq, Error)]
pub enum GatherError {
    /// The logs don't match the histories of the shards.
    #[error("mismatch (22)")]
    Mismatch,
    /// There is no memory.
    #[error("no memory (23)")]
    Memory,
}

/// As `RecAlone::gather`, on a recorded map between its two moves, `alone` and `end`.
///
/// As nobody else has the map, it waits for nobody, even where a hold was leaked.
pub fn gather<K, V, S, A>(
    map: &mut RecordedMap<K, V, S, A>,
    logs: &[CallerLog<K, V, A>],
) -> Result<Vec<At>, GatherError>
where
    K: KeptKey + Drop,
    V: Kept + Drop,
    S: BuildHasher,
    A: KeptAction<K, V> + Drop,
    ensures gathers { RelocksRecShards ⟦<RecordedMap<K, V, S, A> as Recorded>⟧.known map.old map.new
        (λ a. Gathers ⟦<RecordedMap<K, V, S, A> as Recorded>⟧.known a logs.now result) }
    ensures same { shape map.new ≡ shape map.old }
{
    replace_with(map, logs, gather_alone)
}

// The gathering, and the map after it.
fn gather_alone<K, V, S, A>(
    map: RecordedMap<K, V, S, A>,
    logs: &[CallerLog<K, V, A>],
) -> (RecordedMap<K, V, S, A>, Result<Vec<At>, GatherError>)
where
    K: KeptKey + Drop,
    V: Kept + Drop,
    S: BuildHasher,
    A: KeptAction<K, V> + Drop,
    ensures gathers { RelocksRecShards ⟦<RecordedMap<K, V, S, A> as Recorded>⟧.known map result.0
        (λ a. Gathers ⟦<RecordedMap<K, V, S, A> as Recorded>⟧.known a logs.now result.1) }
    ensures same { shape result.0 ≡ shape map }
{
    let alone = map.alone();
    let gathered = alone.gather(logs);
    (alone.end(), gathered)
}

/// A law, with no code: there is one history. Two that `gather` gave of one map with the same logs are the same list.
pub fn one_history<K, V, S, A>()
    ensures { (w : Known K V A S) (a : RecAloneState K V A S) (logs : List (LogState K V A))
        (xs ys : List At) → IsGathered w a logs xs → IsGathered w a logs ys → xs ≡ ys }
{}

/// A law, with no code: a record with a stamp above t, as each that is made after `learn(t)`, stands after every record of stamp
/// at most t.
pub fn stands_after<K, V, S, A>()
    ensures { (w : Known K V A S) (a : RecAloneState K V A S) (logs : List (LogState K V A))
        (ats : List At) → IsGathered w a logs ats → StampsStandInOrder ats }
{}
