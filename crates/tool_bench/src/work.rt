//! The kinds of work that are measured.

/// One kind of work. `of_name` says how a command line names it.
#[derive(Clone, Copy, PartialEq, Eq)]
pub enum Work {
    /// Looks up keys that are there, among a million.
    Hit,
    HitMask,
    RandomHit,
    /// The same by a caller of the map.
    CallerHit,
    /// Looks up keys that are absent, among a million.
    Miss,
    MissMask,
    /// Looks up keys that are there, among a thousand.
    SmallHit,
    /// Looks up keys that are absent, among a thousand.
    SmallMiss,
    /// Looks up keys that are there, among two thousand of one hash.
    Hostile,
    /// Inserts a million new keys into a map with room for them.
    Insert,
    /// Inserts a million new keys into a map without room.
    Insert0,
    Insert0Mask,
    RandomInsert0,
    /// The longest single one of these inserts.
    Worst,
    /// Removes a million keys.
    Remove,
    RemoveMask,
    RandomRemove,
    /// Walks over a million pairs.
    Iterate,
    /// Walks over a million pairs and keeps them all.
    Retain,
    /// Adds one to values through `get_mut`.
    GetMut,
    /// The same among a thousand, over and over.
    SmallUpdate,
    /// Removes a key and inserts it again, among a thousand, over and over.
    SmallCycle,
    /// Adds one to values by `alter`.
    Alter,
    /// Adds one through `entry` and `or_insert`, to a million values that are there and a million that aren't.
    Entry,
    /// Adds one to the value of one key by `alter`, from all threads.
    Contend,
    /// The same by `get_mut`, each hold for about a microsecond.
    Hold,
    /// The first thread holds a shard for a second, and the others wait for it.
    Wait,
    /// A mix: mostly look-ups.
    Read,
    ReadMask,
    /// A mix: mostly inserts and removals, as many of each.
    Exchange,
    ExchangeMask,
    /// A mix: mostly inserts, into a map without room.
    Grow,
    GrowMask,
    /// How many bytes a pair takes. No time is taken.
    Memory,
}

// How a command line names each.
static NAMES: [(&str, Work); 34] = [
    ("hit", Work::Hit),
    ("hit-mask", Work::HitMask),
    ("random-hit", Work::RandomHit),
    ("caller-hit", Work::CallerHit),
    ("miss", Work::Miss),
    ("miss-mask", Work::MissMask),
    ("small-hit", Work::SmallHit),
    ("small-miss", Work::SmallMiss),
    ("hostile", Work::Hostile),
    ("insert", Work::Insert),
    ("insert0", Work::Insert0),
    ("insert0-mask", Work::Insert0Mask),
    ("random-insert0", Work::RandomInsert0),
    ("worst", Work::Worst),
    ("remove", Work::Remove),
    ("remove-mask", Work::RemoveMask),
    ("random-remove", Work::RandomRemove),
    ("iterate", Work::Iterate),
    ("retain", Work::Retain),
    ("get-mut", Work::GetMut),
    ("small-update", Work::SmallUpdate),
    ("small-cycle", Work::SmallCycle),
    ("alter", Work::Alter),
    ("entry", Work::Entry),
    ("contend", Work::Contend),
    ("hold", Work::Hold),
    ("wait", Work::Wait),
    ("read", Work::Read),
    ("read-mask", Work::ReadMask),
    ("exchange", Work::Exchange),
    ("exchange-mask", Work::ExchangeMask),
    ("grow", Work::Grow),
    ("grow-mask", Work::GrowMask),
    ("memory", Work::Memory),
];

/// How the keys of a work are made, and hashed.
#[derive(Clone, Copy)]
pub enum Form {
    /// As most works have them.
    Mixed,
    /// By one multiplication, and drawn by a mask.
    Masked,
    /// As most, by std's `RandomState`.
    Random,
    /// As most, and each hash is 0.
    Zero,
}

impl Work {
    pub fn of_name(name: &str) -> Option<Work> {
        for (named, work) in &NAMES {
            if name == *named {
                return Some(*work);
            }
        }
        None
    }

    pub fn form(self) -> Form {
        match self {
            Work::HitMask | Work::MissMask | Work::Insert0Mask | Work::RemoveMask => Form::Masked,
            Work::ReadMask | Work::ExchangeMask | Work::GrowMask => Form::Masked,
            Work::RandomHit | Work::RandomInsert0 | Work::RandomRemove => Form::Random,
            Work::Hostile => Form::Zero,
            _ => Form::Mixed,
        }
    }

    /// Of how many pairs the work takes its numbers.
    pub fn pairs(self) -> usize {
        match (self, self.form()) {
            (_, Form::Masked) => MASKED,
            (Work::SmallHit | Work::SmallMiss | Work::SmallUpdate | Work::SmallCycle, _) => SMALL,
            (Work::Contend | Work::Hold | Work::Wait, _) => SMALL,
            (Work::Hostile, _) => 2 * SMALL,
            _ => PAIRS,
        }
    }

    /// How many pairs there is room for when the map is made.
    pub fn room(self) -> usize {
        match self {
            Work::Insert0 | Work::Insert0Mask | Work::RandomInsert0 | Work::Worst => 0,
            Work::Grow | Work::GrowMask | Work::Memory => 0,
            Work::Entry => 2 * PAIRS,
            _ => self.pairs(),
        }
    }

    /// How many pairs are there before the time is taken.
    pub fn filled(self) -> usize {
        match self {
            Work::Insert => 0,
            Work::Entry => PAIRS,
            Work::Exchange | Work::ExchangeMask => self.pairs() / 2,
            _ => self.room(),
        }
    }
}

/// How many pairs a map has, how many where they are drawn by a mask, and how many where it fits a cache.
pub const PAIRS: usize = 1_000_000;

pub const MASKED: usize = 1 << 20;

pub const SMALL: usize = 1_000;

/// How many steps the mixes and look-ups take in all.
pub const STEPS: usize = 4_000_000;

/// How many holds of about a microsecond there are in all, and look-ups among keys of one hash.
pub const HOLDS: usize = 200_000;

/// The first number of the absent keys.
pub const ABSENT: u64 = 1 << 40;
