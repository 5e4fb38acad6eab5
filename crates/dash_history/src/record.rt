//! Recorded shards and callers' logs, and the one call that lengthens both.
ghost use Rattle.std.specs.Prelude.{◌≡◌, ◌<◌, [], IsTrue, IfOk, IfErr, vec_len, vec_capacity, max};
ghost use Rattle.dash_history.specs.Words.{GoesTo, IsAmount, IsFresh, IsLog, IsPart, IsRecorded, Records, SameShard, alike_record, known, last_or};
ghost use Rattle.dash_history.specs.inner.Tells.{Tells};
ghost use Rattle.dash_history.specs.inner.Grows.{Adds};
ghost use Rattle.dash_steps.specs.inner.Hashed.{HasHash};

use dash_shard::hash::FixedState;
use dash_shard::shard::Shard;
use dash_steps::action::KeptAction;
use dash_steps::kept::{Kept, KeptKey};
use dash_steps::known::Recorded;
use dash_steps::plan::{carry_out, find, prepare};
use dash_steps::step::{Reply, ShardStep};
use std::alloc::{AllocError, Global};
use std::hash::BuildHasher;
use std::marker::Model;
use thiserror::Error;

pub mod held;
pub mod map;
pub mod tag;
pub mod whole;

/// Why a step is refused. Nothing changes then, and the step is handed back.
#[derive(Clone, Copy, Debug, PartialEq, Eq, Error)]
pub enum RecordFault {
    /// The greater of the shard's and the caller's last stamp is 2^64 - 1.
    #[error("last stamp (18)")]
    LastStamp,
    /// There is no memory.
    #[error("no memory (19)")]
    Memory,
    /// The map has no shard of the number that the step names.
    #[error("no such shard (20)")]
    NoSuchShard,
    /// Somebody holds the step's shard, and the call waits for nobody.
    #[error("locked (21)")]
    Locked,
    /// The step is a part of a whole step, which no call takes by itself.
    #[error("part (24)")]
    Part,
}

/// A recorded step. It is kept once in its shard's history and once in its caller's log.
#[derive(Debug, Drop)]
pub struct Record<K, V, A = ()> {
    pub stamp: u64,
    pub caller: u32,
    pub shard: usize,
    pub step: ShardStep<K, V, A>,
    pub reply: Reply<K, V>,
}

impl<K: Kept + Drop, V: Kept + Drop, A: Kept> Record<K, V, A> {
    ghost use Rattle.dash_history.specs.History.{alike_record};

    /// A copy of the record, alike it.
    pub fn copy(&self) -> Result<Record<K, V, A>, AllocError>
    where
        A: Drop,
        ensures { IfOk result (λ copy. IsTrue (alike_record K.alike V.alike A.alike self.now copy)) }
    {
        Ok(Record {
            stamp: self.stamp,
            caller: self.caller,
            shard: self.shard,
            step: self.step.copy()?,
            reply: self.reply.copy()?,
        })
    }

    /// Whether the two are alike.
    pub fn same(&self, other: &Self) -> bool
        ensures { result ≡ alike_record K.alike V.alike A.alike self.now other.now }
    {
        self.stamp == other.stamp
            && self.caller == other.caller
            && self.shard == other.shard
            && self.step.same(&other.step)
            && self.reply.same(&other.reply)
    }
}

/// What one caller did, in its order.
#[derive(Drop)]
pub struct CallerLog<K, V, A = ()> {
    caller: u32,
    last: u64,
    entries: Vec<Record<K, V, A>>,
}

impl<K, V, A> Model for CallerLog<K, V, A> {
    ghost use Rattle.dash_history.specs.History.{LogState, IsLog};

    ghost Value = { LogState K V A };

    ghost view = { λ l. record { caller = l.caller; last = l.last; entries = l.entries.items } };

    ghost invariant = { λ l. IsLog (record { caller = l.caller; last = l.last; entries = l.entries.items }) };
}

impl<K, V, A> CallerLog<K, V, A> {
    /// A log with no entries, which takes no memory.
    pub(crate) fn new(alloc: Global, caller: u32) -> CallerLog<K, V, A>
        ensures { result ≡ record { caller = caller; last = 0; entries = [] } }
    {
        CallerLog {
            caller,
            last: 0,
            entries: Vec::new(alloc),
        }
    }

    /// The caller's number.
    #[inline]
    pub fn caller(&self) -> u32
        ensures caller { result ≡ self.now.caller }
        ensures log { IsLog self.now }
    {
        self.caller
    }

    /// The stamp of the caller's last step, 0 for none.
    #[inline]
    pub fn last_stamp(&self) -> u64
        ensures last { result ≡ self.now.last }
        ensures log { IsLog self.now }
    {
        self.last
    }

    /// Makes the last stamp the greater of itself and `stamp`: what the caller records from now on stands after every record of a
    /// stamp that it has learned of.
    #[inline]
    pub fn learn(&mut self, stamp: u64)
        ensures { self.new ≡ record self.old { last = max self.old.last stamp } }
    {
        self.last = self.last.max(stamp);
    }

    // The allocator of the log.
    #[inline]
    fn allocator(&self) -> Global {
        *self.entries.allocator()
    }

    /// The records of the caller's steps, in its order.
    #[inline]
    pub fn entries(&self) -> &[Record<K, V, A>]
        ensures entries { result.now ≡ self.now.entries }
        ensures log { IsLog self.now }
    {
        self.entries.as_slice()
    }
}

/// A shard with the history that led to its pairs.
#[derive(Drop)]
pub struct RecShard<K: KeptKey, V: Kept, S: BuildHasher = FixedState, A: KeptAction<K, V> = ()> {
    shard: Shard<K, V, S>,
    history: Vec<Record<K, V, A>>,
    last: u64,
    callers: u32,
}

impl<K: KeptKey, V: Kept, S: BuildHasher, A: KeptAction<K, V>> Model for RecShard<K, V, S, A> {
    ghost use Rattle.dash_history.specs.History.{RecState, IsRecorded};
    ghost use Rattle.dash_steps.specs.Takes.{known_by};

    ghost Value = { RecState K V A S };

    ghost view = { λ s. record { shard = s.shard; callers = s.callers; last = s.last; history = s.history.items } };

    ghost invariant = { λ s. IsRecorded (known_by K.eq K.hash_input K.alike V.alike A.alike A.acts S.BuildHasher S.Hasher.Hasher) (record { shard = s.shard; callers = s.callers; last = s.last; history = s.history.items }) };
}

impl<K: KeptKey, V: Kept, S: BuildHasher, A: KeptAction<K, V>> Recorded for RecShard<K, V, S, A> {
    type Key = K;

    type Value = V;

    type Action = A;

    type State = S;

    ghost known = { known K.KeptKey V.alike A.KeptAction S.BuildHasher S.Hasher.Hasher };
}

// The record of a step with its reply, twice.
fn copies<K: Kept + Drop, V: Kept + Drop, A: Kept + Drop>(
    stamp: u64,
    caller: u32,
    shard: usize,
    step: &ShardStep<K, V, A>,
    reply: &Reply<K, V>,
) -> Result<(Record<K, V, A>, Record<K, V, A>), AllocError>
    ensures first { IfOk result (λ p. Tells K.alike V.alike A.alike stamp caller shard step.now reply.now p.0) }
    ensures second { IfOk result (λ p. IsTrue (alike_record K.alike V.alike A.alike p.0 p.1)) }
{
    let first = Record {
        stamp,
        caller,
        shard,
        step: step.copy()?,
        reply: reply.copy()?,
    };
    let second = first.copy()?;
    Ok((first, second))
}

// Room for one more record.
fn make_room<T>(list: &mut Vec<T>) -> bool
    ensures room { IsTrue result → vec_len list.new < vec_capacity list.new }
    ensures items { list.new.items ≡ list.old.items }
{
    list.reserve(1).is_ok()
}

// What a refused step had made.
fn discard<K: Drop, V: Drop, A: Drop>(
    first: Record<K, V, A>,
    second: Record<K, V, A>,
    reply: Reply<K, V>,
) {
    drop(first);
    drop(second);
    drop(reply);
}

impl<K: KeptKey + Drop, V: Kept + Drop, S: BuildHasher, A: KeptAction<K, V> + Drop> RecShard<
    K,
    V,
    S,
    A,
> {
    /// A shard with no pairs and no history.
    pub(crate) fn new(
        alloc: Global,
        hasher: S,
        number: usize,
        amount: usize,
        callers: u32,
    ) -> Result<Self, AllocError>
    where
        S: Drop,
        requires number { number < amount }
        requires amount { IsAmount amount }
        ensures number { IfOk result (λ s. s.shard.number ≡ number) }
        ensures amount { IfOk result (λ s. s.shard.amount ≡ amount) }
        ensures hasher { IfOk result (λ s. s.shard.hasher ≡ hasher) }
        ensures callers { IfOk result (λ s. s.callers ≡ callers) }
        ensures fresh { IfOk result IsFresh }
        ensures legal { IfOk result (IsRecorded ⟦<Self as Recorded>⟧.known) }
    {
        let Ok(shard) = Shard::new(alloc, hasher, number, amount, 0) else {
            return Err(AllocError);
        };
        Ok(RecShard {
            shard,
            history: Vec::new(alloc),
            last: 0,
            callers,
        })
    }

    /// The last stamp, 0 for none.
    #[inline]
    pub(crate) fn last_stamp(&self) -> u64
        ensures last { result ≡ self.now.last }
        ensures legal { IsRecorded ⟦<Self as Recorded>⟧.known self.now }
    {
        self.last
    }

    /// The shard itself.
    #[inline]
    pub(crate) fn shard(&self) -> &Shard<K, V, S>
        ensures shard { result.now ≡ self.now.shard }
        ensures legal { IsRecorded ⟦<Self as Recorded>⟧.known self.now }
    {
        let _ = &self.last;
        &self.shard
    }

    // How many callers the map has.
    #[inline]
    fn callers(&self) -> u32
        ensures { result ≡ self.now.callers }
    {
        self.callers
    }

    /// The records of the shard's steps, in their order.
    #[inline]
    pub(crate) fn history(&self) -> &[Record<K, V, A>]
        ensures history { result.now ≡ self.now.history }
        ensures legal { IsRecorded ⟦<Self as Recorded>⟧.known self.now }
    {
        let _ = &self.last;
        self.history.as_slice()
    }

    // Takes a step at a stamp, and adds a record of it at the end of the history. It returns the reply, and the same record for
    // the log.
    fn grow(
        &mut self,
        stamp: u64,
        caller: u32,
        hash: u64,
        step: ShardStep<K, V, A>,
    ) -> Result<(Reply<K, V>, Record<K, V, A>), ShardStep<K, V, A>>
        requires goes { GoesTo ⟦<Self as Recorded>⟧.known self.old.shard step }
        requires hash { HasHash ⟦<Self as Recorded>⟧.known self.old.shard step hash }
        requires caller { caller < self.old.callers }
        requires above { self.old.last < stamp }
        ensures ok { Adds ⟦<Self as Recorded>⟧.known self.old self.new stamp caller step result }
        ensures refused { IfErr result (λ back. (back ≡ step) × (self.new ≡ self.old)) }
        ensures stays { SameShard self.old.shard self.new.shard }
        ensures callers { self.new.callers ≡ self.old.callers }
        ensures legal { IsRecorded ⟦<Self as Recorded>⟧.known self.new }
    {
        if !make_room(&mut self.history) {
            return Err(step);
        }
        let alloc = *self.history.allocator();
        let found = find(&self.shard, hash, &step);
        let Ok((reply, change)) = prepare(alloc, &self.shard, found.ok(), &step) else {
            return Err(step);
        };
        let number = self.shard.number();
        let Ok((first, second)) = copies(stamp, caller, number, &step, &reply) else {
            drop((reply, change));
            return Err(step);
        };
        match carry_out(&mut self.shard, hash, found, step, change) {
            Ok(()) => {
                self.history.push_reserved(first);
                self.last = stamp;
                Ok((reply, second))
            }
            Err(step) => {
                discard(first, second, reply);
                Err(step)
            }
        }
    }

    /// Takes a step of this shard, and adds one same record of it at the end of its history and of the caller's log. The hash is
    /// that of the step's key.
    ///
    /// Takes memory for the copies and the records, before anything changes.
    pub(crate) fn record_hashed(
        &mut self,
        log: &mut CallerLog<K, V, A>,
        hash: u64,
        step: ShardStep<K, V, A>,
    ) -> Result<Reply<K, V>, (ShardStep<K, V, A>, RecordFault)>
        requires goes { GoesTo ⟦<Self as Recorded>⟧.known self.old.shard step }
        requires hash { HasHash ⟦<Self as Recorded>⟧.known self.old.shard step hash }
        requires caller { log.old.caller < self.old.callers }
        requires own { IsPart step → ⊥ }
        ensures records { Records ⟦<Self as Recorded>⟧.known self.old self.new log.old log.new step result }
        ensures last { self.old.last ≡ last_or 0 self.old.history }
        ensures legal { IsRecorded ⟦<Self as Recorded>⟧.known self.new }
    {
        let last = self.last.max(log.last);
        if last == u64::MAX {
            return Err((step, RecordFault::LastStamp));
        }
        if !make_room(&mut log.entries) {
            return Err((step, RecordFault::Memory));
        }
        match self.grow(last + 1, log.caller, hash, step) {
            Ok((reply, record)) => {
                log.entries.push_reserved(record);
                log.last = last + 1;
                Ok(reply)
            }
            Err(step) => Err((step, RecordFault::Memory)),
        }
    }
}
