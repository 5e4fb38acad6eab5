//! The pure core of a lock: its word, and the events that change it. It has no memory and waits for nobody.
ghost use Rattle.std.specs.Prelude.{◌≡◌};
ghost use Rattle.std.specs.Option.{option_map};
ghost use Rattle.dash_shard.specs.Words.{after, free, reach, state_of, word_of};

use std::marker::Model;

/// Readers wait, and sleep.
pub const READERS_PARKED: u64 = 1;

/// Writers wait, and sleep.
pub const WRITERS_PARKED: u64 = 2;

/// One reader.
pub const ONE_READER: u64 = 4;

/// The writer: all bits but the two marks.
pub const ONE_WRITER: u64 = u64::MAX - 3;

/// The most readers at once.
pub const MOST_READERS: u64 = 0x3fff_ffff_ffff_fffe;

/// Who waits, as a mark in the word says.
#[derive(Clone, Copy, Debug, Drop, Eq, PartialEq)]
pub enum Mark {
    Readers,
    Writers,
}

/// What happens to a lock by one atomic step on its word.
#[derive(Clone, Copy, Debug, Drop, Eq, PartialEq)]
pub enum LockEvent {
    TakeShared,
    TakeExclusive,
    ReleaseShared,
    ReleaseExclusive,
    Downgrade,
    SetMark(Mark),
    ClearWriters,
}

/// The word of a lock, as the original's `state`: two marks, and above them how many readers, or a writer. Each number is the word of a
/// state. A contract sees the number.
#[derive(Clone, Copy, Debug, Drop, Eq, PartialEq)]
pub struct LockWord {
    bits: u64,
}

impl Model for LockWord {
    ghost use Rattle.std.specs.Prelude.{ℕ};

    ghost Value = { ℕ };

    ghost view = { λ w. w.bits };

    ghost inverse = { λ n. record { bits = n } };
}

impl LockWord {
    /// The word that is this number.
    #[inline]
    pub fn from_bits(bits: u64) -> LockWord
        ensures bits { result ≡ bits }
        ensures state { word_of (state_of result) ≡ bits }
    {
        LockWord { bits }
    }

    /// The word as a number.
    #[inline]
    pub fn bits(&self) -> u64
        ensures { result ≡ self.now }
    {
        self.bits
    }

    /// The word after an event, or `None` where the event isn't lawful.
    pub fn step(&self, event: LockEvent) -> Option<LockWord>
        ensures word { result ≡ option_map word_of (after event (state_of self.now)) }
        ensures state { option_map state_of result ≡ after event (state_of self.now) }
    {
        let bits = self.bits;
        let holders = bits / ONE_READER;
        let bits = match event {
            LockEvent::TakeShared if holders < MOST_READERS => bits + ONE_READER,
            LockEvent::TakeExclusive if holders == 0 => bits + ONE_WRITER,
            LockEvent::ReleaseShared if 0 < holders && holders <= MOST_READERS => bits - ONE_READER,
            LockEvent::ReleaseExclusive if MOST_READERS < holders => 0,
            LockEvent::Downgrade if MOST_READERS < holders => ONE_READER + bits / 2 % 2 * 2,
            LockEvent::SetMark(Mark::Readers) if 0 < holders => bits - bits % 2 + READERS_PARKED,
            LockEvent::SetMark(Mark::Writers) if 0 < holders => {
                bits - bits / 2 % 2 * 2 + WRITERS_PARKED
            }
            LockEvent::ClearWriters if bits == WRITERS_PARKED => 0,
            _ => return None,
        };
        Some(LockWord { bits })
    }

    /// The word after these events, from the free lock's on, or `None` where one isn't lawful in its turn.
    pub fn run(events: &[LockEvent]) -> Option<LockWord>
        ensures { result ≡ option_map word_of (reach events.now free) }
    {
        let mut word = LockWord { bits: 0 };
        for event in events {
            word = word.step(*event)?;
        }
        Some(word)
    }
}
