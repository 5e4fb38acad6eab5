//! A hash map that threads share through a reference, cut into shards, each behind a lock of its own.
//!
//! Names stand where the Rust crate `dashmap` has them. They come from the crates below, which say what each call promises.
//!
//! - *Who waits.* A call that takes `rt` waits for a shard's lock. A reference, an entry or a walk holds its shard until it is dropped: a
//!   call on that shard from the same thread then deadlocks, unless both only read. The `try_` calls wait for nobody.
//! - *Who allocates.* Constructors, `insert` and `entry` of a new key in a full shard, `try_reserve` and `into_inner`. Each returns a
//!   `Result`, and what is refused comes back. Look-ups take no memory.
//! - *How many shards.* `of` asks the system for its processors, and `new` is told; they take four for each, rounded up to a power of
//!   two. More shards means less waiting, and some cache lines each; a map of few keys does with two.
//! - *Which hasher.* `FixedState` is fast and always the same. Where keys come from strangers hand std's `RandomState` to
//!   `with_hasher`, or somebody may choose keys that all go to one shard and one group of slots.
#![tactic(auto)]

pub use dash_map::alone::Alone;
pub use dash_map::caller::Caller;
pub use dash_map::map::DashMap;
pub use dash_map::read_only::ReadOnlyView;
pub use dash_map::t::Map;
pub use dash_map::waiting::Waiting;
pub use dash_ref::mapref::entry::{Entry, OccupiedEntry, VacantEntry};
pub use dash_ref::util::SharedValue;
pub use dash_shard::error::TryReserveError;
pub use dash_shard::lock::raw::RawRwLock;
pub use dash_shard::lock::{RwLock, RwLockReadGuard, RwLockWriteGuard};
pub use dash_shard::query::Query;
pub use dash_steps::kept::{Kept, KeptKey};
pub use memo::Memo;
pub use set::{DashSet, SetCaller};

pub mod iter_set;
pub mod memo;
pub mod rayon;
pub mod set;
pub mod setref;

/// What calls are refused for.
pub mod error {
    pub use crate::memo::MemoRefused;
    pub use dash_map::extend::{ExtendRefused, FromRefused};
    pub use dash_map::read_only::ViewRefused;
    pub use dash_map::run::Fault;
    pub use dash_ref::mapref::entry::{EntryRefused, InsertEntryRefused, TryEntryRefused};
    pub use dash_shard::error::{ConstructError, TryReserveError};
    pub use dash_shard::shard::InsertRefused;
}

/// Hashers, and the shard that a hash goes to.
pub mod hash {
    pub use dash_shard::hash::{
        FixedState, PlaceState, ZeroState, determine_shard, is_shard_amount,
    };
}

/// Recorded maps: each step is kept with its reply, and `gather` gives one history of all that threads did.
pub mod history {
    pub use dash_history::alone::RecAlone;
    pub use dash_history::caller::RecCaller;
    pub use dash_history::gather::{At, GatherError, gather};
    pub use dash_history::record::held::RecShardMut;
    pub use dash_history::record::map::RecordedMap;
    pub use dash_history::record::{CallerLog, Record, RecordFault};
    pub use dash_steps::action::{Action, KeptAction};
    pub use dash_steps::kept::{Kept, KeptKey};
    pub use dash_steps::known::Recorded;
    pub use dash_steps::step::{Reply, ShardStep};
}

/// Walks over the pairs of a map.
pub mod iter {
    pub use dash_map::iter::{AloneIterMut, Iter, IterMut, OwningIter};
}

/// Names for a type's keys, for contracts alone.
pub mod keyed {
    pub use dash_shard::keyed::{Keyed, Lender};
}

/// The lock of a shard.
pub mod lock {
    pub use dash_shard::lock::raw::{ExclusiveHold, RawRwLock, SharedHold};
    pub use dash_shard::lock::word::{LockEvent, LockWord, Mark};
    pub use dash_shard::lock::{RwLock, RwLockReadGuard, RwLockWriteGuard, Tagged};
}

/// References into a map, each of which holds a shard.
pub mod mapref {
    /// A key of a map, with what stands there.
    pub mod entry {
        pub use dash_ref::mapref::entry::{Entry, OccupiedEntry, VacantEntry};
    }

    /// References that a walk gives.
    pub mod multiple {
        pub use dash_ref::mapref::multiple::{RefMulti, RefMutMulti};
    }

    /// References to one pair, or to a part of its value.
    pub mod one {
        pub use dash_ref::mapref::one::{
            Compose, First, MappedRef, MappedRefMut, Payload, Projection, Ref, RefMut, Second,
        };
    }
}

/// What a look-up takes in the place of a key.
pub mod query {
    pub use dash_shard::query::Query;
}

/// A view of a map that nobody writes any more.
pub mod read_only {
    pub use dash_map::read_only::{Keys, ReadOnlyView, Values, ViewIter};
}

/// Lists of steps, taken one after the other or by several workers, and gates that tests hold workers back with.
pub mod run {
    pub use dash_map::parallel::run::{Gate, Open, ParOutcome};
    pub use dash_map::run::{Fault, RunOutcome};
    pub use dash_steps::step::{Reply, ShardStep};
}

/// One shard of a map.
pub mod shard {
    pub use dash_ref::held::{IntoShard, ShardMut};
    pub use dash_shard::shard::lanes::Probe;
    pub use dash_shard::shard::{Search, Shard, probe};
}

/// What is generic in a map that threads share.
pub mod t {
    pub use dash_map::t::Map;
}

/// What a look-up that waits for nobody returns.
pub mod try_result {
    pub use dash_ref::try_result::TryResult;
}
