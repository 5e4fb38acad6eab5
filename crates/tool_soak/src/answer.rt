//! What a call returns, and whether it is right.
ghost use Rattle.std.specs.Prelude.{◌≡◌, ◌↔◌, Ok, IfErr};

use crate::call::Call;
use dash_history::record::RecordFault;
use dashmap::hash::FixedState;
use dashmap::mapref::one::{Ref, RefMut};

/// What a call answered, or has to answer.
#[derive(Clone, Copy, Debug, PartialEq, Eq)]
pub enum Answer {
    Nothing,
    Number(u64),
    Pair(u64, u64),
    Truth(bool),
    /// Somebody has the shard, and the call waits for nobody.
    Locked,
    /// It was refused for another reason.
    Refused(RecordFault),
}

/// The answer of a call that got no memory.
pub const NO_MEMORY: Answer = Answer::Refused(RecordFault::Memory);

/// What a call did: its kind, what it had to answer, what it answered, and what it has to leave at its key.
pub type Done = (Call, Answer, Answer, Option<u64>);

impl Answer {
    /// A number, or nothing.
    #[inline]
    pub fn number(found: Option<u64>) -> Answer {
        match found {
            Some(number) => Answer::Number(number),
            None => Answer::Nothing,
        }
    }

    /// A pair, or nothing.
    #[inline]
    pub fn pair(found: Option<(u64, u64)>) -> Answer {
        match found {
            Some((key, value)) => Answer::Pair(key, value),
            None => Answer::Nothing,
        }
    }

    /// The pair of a key with what stands there, or nothing.
    #[inline]
    pub fn at(key: u64, stood: Option<u64>) -> Answer {
        match stood {
            Some(value) => Answer::Pair(key, value),
            None => Answer::Nothing,
        }
    }

    /// The pair of a reference, or nothing.
    #[inline]
    pub fn told(found: Option<Ref<'_, u64, u64, FixedState>>) -> Answer {
        match found {
            Some(found) => Answer::Pair(*found.key(), *found.value()),
            None => Answer::Nothing,
        }
    }

    /// The pair of a reference that writes.
    #[inline]
    pub fn told_mut(found: RefMut<'_, u64, u64, FixedState>) -> Answer {
        Answer::Pair(*found.key(), *found.value())
    }
}

/// A wrong answer: which call on which key, what was wanted, and what came.
#[derive(Clone, Copy)]
pub struct Wrong {
    pub call: Call,
    pub key: u64,
    pub wanted: Answer,
    pub came: Answer,
}

/// Nothing, or the first wrong answer.
pub type Judged = Result<(), Wrong>;

/// Whether a call answered what it has to.
#[inline]
pub fn judge(call: Call, key: u64, wanted: Answer, came: Answer) -> Judged
    ensures right { result ≡ Ok tt ↔ (wanted ≡ came) }
    ensures wrong { IfErr result (λ w. w ≡ record { call = call; key = key; wanted = wanted; came = came }) }
{
    if wanted == came {
        return Ok(());
    }
    Err(Wrong {
        call,
        key,
        wanted,
        came,
    })
}

/// What is wrong where a call got no memory.
pub fn no_memory(call: Call) -> Wrong {
    Wrong {
        call,
        key: 0,
        wanted: Answer::Nothing,
        came: NO_MEMORY,
    }
}
