//! What a call shows, and a trial of it: what the call left is looked at, and where it was refused it is taken again.

use crate::keys::FULL;
use dash_shard::error::ConstructError;
use std::alloc::AllocError;
use std::fmt;

/// What a call showed, or a trial of it.
#[derive(Clone, Copy)]
pub enum Outcome {
    /// There was no memory for what the call needs.
    Setup,
    /// There was no memory to look at what it left.
    Unseen,
    /// It answered as with ample memory.
    Answered,
    /// It was refused by this name, left the state that the name demands, and after a trial it answered when it was asked again.
    Refused(&'static str),
    /// It is wrong so.
    Wrong(&'static str),
}

impl Outcome {
    /// This, where what was found is what had to be there.
    pub fn lawful(self, lawful: bool) -> Outcome {
        if lawful {
            self
        } else {
            Outcome::Wrong("what it left")
        }
    }

    /// Whether the call was refused, and is to be taken again.
    pub fn is_refused(self) -> bool {
        matches!(self, Outcome::Refused(_))
    }

    /// What a trial shows where the call first showed this, and was then taken again.
    pub fn then(self, again: Outcome) -> Outcome {
        match again {
            Outcome::Answered => self,
            Outcome::Refused(_) => Outcome::Wrong("refused twice"),
            Outcome::Setup => Outcome::Wrong("no memory the second time"),
            _ => again,
        }
    }
}

impl fmt::Display for Outcome {
    fn fmt<W: fmt::Write>(&self, f: &mut fmt::Formatter<W>) -> fmt::Result {
        match *self {
            Outcome::Setup => write!(f, "setup"),
            Outcome::Unseen => write!(f, "unseen"),
            Outcome::Answered => write!(f, "answered"),
            Outcome::Refused(name) => write!(f, "refused {name}"),
            Outcome::Wrong(what) => write!(f, "wrong: {what}"),
        }
    }
}

/// How one call ended, before what it left is looked at.
#[derive(Clone, Copy)]
pub struct Ended {
    outcome: Outcome,
    /// How many pairs have to stand after it.
    pub pairs: u64,
}

impl Ended {
    /// It answered, and what it gave is what it had to be, or not.
    pub fn answered(pairs: u64, lawful: bool) -> Ended {
        Ended {
            outcome: Outcome::Answered.lawful(lawful),
            pairs,
        }
    }

    /// It was refused by this name, and what it handed back is what it had to be, or not.
    pub fn refused(name: &'static str, pairs: u64, lawful: bool) -> Ended {
        Ended {
            outcome: Outcome::Refused(name).lawful(lawful),
            pairs,
        }
    }

    /// A constructor was refused, by this and no other name (8).
    pub fn not_made(refused: ConstructError) -> Ended {
        let lawful = refused == ConstructError::Memory;
        Ended::refused("ConstructError::Memory (8)", FULL, lawful)
    }

    /// There is no such call.
    pub fn unknown(pairs: u64) -> Ended {
        Ended {
            outcome: Outcome::Wrong("no such call"),
            pairs,
        }
    }

    /// It gave what it had to, or not, or was refused (4). So many pairs stand either way.
    pub fn by_memory(pairs: u64, lawful: Result<bool, AllocError>) -> Ended {
        match lawful {
            Ok(lawful) => Ended::answered(pairs, lawful),
            Err(_) => Ended::refused("AllocError (4)", pairs, true),
        }
    }

    /// It gave a list that has to have so many items, or was refused (4). So many pairs stand either way.
    pub fn listed<T: Drop>(pairs: u64, count: u64, list: Result<Vec<T>, AllocError>) -> Ended {
        match list {
            Ok(list) => Ended::answered(pairs, list.len() as u64 == count),
            Err(_) => Ended::refused("AllocError (4)", pairs, true),
        }
    }

    /// What it showed, where all stands as it has to, or not.
    pub fn left(self, stands: bool) -> Outcome {
        self.outcome.lawful(stands)
    }
}

/// What a call needs, where there was memory for it.
pub fn needed<T, E: Drop>(made: Result<T, E>) -> Result<T, AllocError> {
    match made {
        Ok(it) => Ok(it),
        Err(_) => Err(AllocError),
    }
}
