//! A recorded map of one owner, without locks.
ghost use Rattle.std.specs.Prelude.{◌∷◌, [], ◌≡◌, ◌+◌, ◌<◌, max, ◌↔◌, Some, IsErrOf, IsSomeAnd, IfOk, IfErr, IsFalse, OnErr, ◌-◌, ◌^◌, length, slice_get, Err, IsTrue, flat_map, option_map};
ghost use Rattle.dash_history.specs.Words.{Applied, AppliedWhole, Callers, ClonesAll, CopiesRecPairs, CountsAll, EachAt, Gathers, HandsBack, HashAlike, IsAmount, IsCallers, IsFresh, IsOneHistory, IsOneOf, IsPart, IsRecAlone, Known, LastStamp, Locked, LogState, NoShard, NoStampIn, NoSuchShard, RecAloneState, RefusesPart, Reply, ShardAmount, ShardStep, Whole, fresh_logs, histories, kinds_in, known, last_at, pairs, record_at, shard_of, top_of};
ghost use Rattle.dash_shard.specs.declared.error.ConstructError.TheVariants.{Memory};
ghost use Rattle.dash_history.specs.inner.Fresh.{FreshRow};
ghost use Rattle.dash_steps.specs.inner.Copied.{alike_pairs};
ghost use Rattle.dash_history.specs.declared.record.RecordFault.TheVariants as fault;
ghost use Rattle.dash_history.specs.inner.Parts.{Planned};

use crate::gather::GatherError;
use crate::joined::{join_numbers, join_pairs};
use crate::matching::{follows, index_of};
use crate::merge::merge;
use crate::place::At;
use crate::record::map::Locked;
use crate::record::whole::Parts;
use crate::record::{CallerLog, RecShard, Record, RecordFault};
use dash_shard::error::ConstructError;
use dash_shard::hash::{FixedState, is_shard_amount};
use dash_shard::keyed::Keyed;
use dash_shard::row::Row;
use dash_shard::shard::Shard;
use dash_steps::action::KeptAction;
use dash_steps::kept::{Kept, KeptKey};
use dash_steps::known::Recorded;
use dash_steps::step::{Reply, ShardStep, Whole};
use dash_steps::sweep::add_copies;
use std::alloc::{AllocError, Global};
use std::hash::BuildHasher;
use std::marker::Model;

/// A recorded map of one owner: its shards without locks, each with its history.
#[derive(Drop)]
pub struct RecAlone<K: KeptKey, V: Kept, S: BuildHasher = FixedState, A: KeptAction<K, V> = ()> {
    pub(crate) hasher: S,
    pub(crate) callers: u32,
    pub(crate) row: Row<RecShard<K, V, S, A>, Locked<K, V, S, A>>,
}

impl<K: KeptKey, V: Kept, S: BuildHasher, A: KeptAction<K, V>> Model for RecAlone<K, V, S, A> {
    ghost use Rattle.dash_history.specs.Alone.{RecAloneState, IsRecAlone};
    ghost use Rattle.dash_steps.specs.Takes.{known_by};

    ghost Value = { RecAloneState K V A S };

    ghost view = { λ a. record { hasher = a.hasher; callers = a.callers; row = a.row } };

    ghost invariant = { λ a. IsRecAlone (known_by K.eq K.hash_input K.alike V.alike A.alike A.acts S.BuildHasher S.Hasher.Hasher) (record { hasher = a.hasher; callers = a.callers; row = a.row }) };
}

impl<K: KeptKey, V: Kept, S: BuildHasher, A: KeptAction<K, V>> Recorded for RecAlone<K, V, S, A> {
    type Key = K;

    type Value = V;

    type Action = A;

    type State = S;

    ghost known = { known K.KeptKey V.alike A.KeptAction S.BuildHasher S.Hasher.Hasher };
}

// The row of a map with no pairs and no histories.
fn fresh_row<K: KeptKey + Drop, V: Kept + Drop, S: BuildHasher + Clone, A: KeptAction<K, V> + Drop>(
    alloc: Global,
    hasher: &S,
    amount: usize,
    callers: u32,
) -> Result<Vec<RecShard<K, V, S, A>>, AllocError>
    requires amount { IsAmount amount }
    requires alike { (s t : S) → S.is_clone s t → HashAlike ⟦<Shard<K, V, S> as Keyed>⟧.by s t }
    ensures len { IfOk result (λ row. length row.items ≡ amount) }
    ensures made { IfOk result (λ row.
        FreshRow ⟦<RecShard<K, V, S, A> as Recorded>⟧.known hasher.now amount callers row.items) }
{
    let mut row = Vec::with_capacity(alloc, amount)?;
    for number in 0..amount {
        row.push(RecShard::new(alloc, hasher.clone()?, number, amount, callers)?)?;
    }
    Ok(row)
}

// The logs of callers who did nothing yet.
fn fresh_logs<K: Drop, V: Drop, A: Drop>(
    alloc: Global,
    callers: u32,
) -> Result<Vec<CallerLog<K, V, A>>, AllocError>
    ensures { IfOk result (λ logs. logs.items ≡ fresh_logs callers) }
{
    let mut logs = Vec::with_capacity(alloc, callers as usize)?;
    for caller in 0..callers {
        logs.push(CallerLog::new(alloc, caller))?;
    }
    Ok(logs)
}

// Copies of the pairs of these shards.
fn copy_contents<K: KeptKey + Drop, V: Kept + Drop, S: BuildHasher, A: KeptAction<K, V> + Drop>(
    alloc: Global,
    row: &[RecShard<K, V, S, A>],
) -> Result<Vec<(K, V)>, AllocError>
    ensures { IfOk result (λ copies.
        IsTrue (alike_pairs K.alike V.alike (flat_map (λ s. pairs s.shard) row.now) copies.items)) }
{
    let mut count: usize = 0;
    for shard in row {
        count = count.saturating_add(shard.shard().len());
    }
    let mut copies = Vec::with_capacity(alloc, count)?;
    for idx in 0..row.len() {
        add_copies(&mut copies, row[idx].shard().iter())?;
    }
    Ok(copies)
}

impl<K: KeptKey + Drop, V: Kept + Drop, S: BuildHasher, A: KeptAction<K, V> + Drop> RecAlone<
    K,
    V,
    S,
    A,
> {
    /// A map of `amount` shards with no pairs, beside the logs of its callers, which are numbered from 0.
    ///
    /// It is refused where the amount is no power of two above 1 (5), then where there are not 1 to 65,536 callers (17), then
    /// where there is no memory (8). It clones the hasher for each shard.
    pub fn new(
        alloc: Global,
        hasher: S,
        amount: usize,
        callers: u32,
    ) -> Result<(RecAlone<K, V, S, A>, Vec<CallerLog<K, V, A>>), ConstructError>
    where
        S: Clone,
        requires { (s t : S) → S.is_clone s t → HashAlike ⟦<Self as Recorded>⟧.known.keys s t }
        ensures hasher { IfOk result (λ m. m.0.hasher ≡ hasher) }
        ensures callers { IfOk result (λ m. m.0.callers ≡ callers) }
        ensures amount { IfOk result (λ m. length m.0.row ≡ amount) }
        ensures fresh { IfOk result (λ m. EachAt m.0.row (λ _ s. IsFresh s)) }
        ensures logs { IfOk result (λ m. m.1.items ≡ fresh_logs callers) }
        ensures lawful { IfOk result (λ m. IsRecAlone ⟦<Self as Recorded>⟧.known m.0) }

        // In the order of the refusals' numbers.
        ensures bad_amount { IsErrOf result ShardAmount ↔ (IsAmount amount → ⊥) }
        ensures bad_callers { IsErrOf result Callers ↔ IsAmount amount × (IsCallers callers → ⊥) }
        ensures kinds { IfErr result (IsOneOf (ShardAmount ∷ Callers ∷ Memory ∷ [])) }
    {
        if !is_shard_amount(amount) {
            return Err(ConstructError::ShardAmount);
        }
        if callers == 0 || callers > 65_536 {
            return Err(ConstructError::Callers);
        }
        let Ok(row) = fresh_row(alloc, &hasher, amount, callers) else {
            return Err(ConstructError::Memory);
        };
        let Ok(row) = Row::of(alloc, row) else {
            return Err(ConstructError::Memory);
        };
        let Ok(logs) = fresh_logs(alloc, callers) else {
            return Err(ConstructError::Memory);
        };
        let alone = RecAlone {
            hasher,
            callers,
            row,
        };
        Ok((alone, logs))
    }

    /// How many callers the map has.
    #[inline]
    pub fn callers(&self) -> u32
        ensures callers { result ≡ self.now.callers }
        ensures lawful { IsRecAlone ⟦<Self as Recorded>⟧.known self.now }
    {
        self.callers
    }

    /// How many shards the map has.
    #[inline]
    pub fn shard_count(&self) -> usize
        ensures count { result ≡ length self.now.row }
        ensures lawful { IsRecAlone ⟦<Self as Recorded>⟧.known self.now }
    {
        self.row.len()
    }

    /// Takes a step on the step's shard, and adds one same record of it at the end of the shard's history and of the caller's
    /// log.
    ///
    /// It waits for nobody. Where it is refused (24, then 20, then 18, then 19), the step is handed back, and nothing changes.
    pub fn apply(
        &mut self,
        log: &mut CallerLog<K, V, A>,
        step: ShardStep<K, V, A>,
    ) -> Result<Reply<K, V>, (ShardStep<K, V, A>, RecordFault)>
        requires { log.old.caller < self.old.callers }
        ensures ok { IfOk result (λ reply.
            Applied ⟦<Self as Recorded>⟧.known self.old self.new log.old log.new step reply) }
        ensures lawful { IsRecAlone ⟦<Self as Recorded>⟧.known self.new }
        ensures refused { HandsBack step self.old self.new log.old log.new result }

        // In this order; else there was no memory.
        ensures part { RefusesPart step result }
        ensures no_such_shard { (result ≡ Err (step, NoSuchShard))
            ↔ (IsPart step → ⊥) × NoShard (kinds_in ⟦<Self as Recorded>⟧.known self.old) step }
        ensures last_stamp { (result ≡ Err (step, LastStamp))
            ↔ NoStampIn ⟦<Self as Recorded>⟧.known self.old log.old step }
        ensures locked { result ≡ Err (step, Locked) → ⊥ }
    {
        let amount = self.row.len();
        if step.is_part() {
            return Err((step, RecordFault::Part));
        }
        let (hash, idx) = step.route(&self.hasher, amount);
        if idx >= amount {
            return Err((step, RecordFault::NoSuchShard));
        }
        self.row[idx].record_hashed(log, hash, step)
    }

    // The records of a whole step of this map.
    fn plan(&self, log: &CallerLog<K, V, A>, kind: Whole) -> Result<Parts<K, V, A>, RecordFault>
        ensures planned { IfOk result (λ p. Planned ⟦<Self as Recorded>⟧.known (λ s. s)
            kind self.now.row log.now p.stamp p.kept.items p.logged.items) }
        ensures lawful { IsRecAlone ⟦<Self as Recorded>⟧.known self.now }
        ensures last_stamp { IsErrOf result LastStamp ↔ (top_of self.now log.now ≡ 2 ^ 64 - 1) }
        ensures kinds { IfErr result (IsOneOf (LastStamp ∷ fault.Memory ∷ [])) }
    {
        RecShard::plan_whole(self.row.items(), log, kind)
    }

    // Adds the records of a whole step to the shards and to the log, or changes nothing where there is no memory for them.
    fn record_parts(&mut self, log: &mut CallerLog<K, V, A>, parts: Parts<K, V, A>) -> bool
        requires caller { log.old.caller < self.old.callers }
        requires planned { (kind : Whole) × Planned ⟦<Self as Recorded>⟧.known (λ s. s)
            kind self.old.row log.old parts.stamp parts.kept.items parts.logged.items }
        ensures added { IsTrue result → (kind : Whole) → Planned ⟦<Self as Recorded>⟧.known (λ s. s) kind self.old.row log.old parts.stamp
            parts.kept.items parts.logged.items
            → AppliedWhole ⟦<Self as Recorded>⟧.known kind self.old self.new log.old log.new parts.logged.items }
        ensures lawful { IsRecAlone ⟦<Self as Recorded>⟧.known self.new }
        ensures refused { IsFalse result → (self.new ≡ self.old) × (log.new ≡ log.old) }
    {
        RecShard::record_whole(self.row.items_mut(), log, parts)
    }

    /// How many pairs the map has, saturating at 2^64 - 1: a whole step.
    ///
    /// Its part in each shard is recorded there, all at one stamp, and so in the caller's log. It waits for nobody, and takes memory
    /// for the records. Where it is refused (18, then 19), nothing changes.
    pub fn count_all(&mut self, log: &mut CallerLog<K, V, A>) -> Result<u64, RecordFault>
        requires { log.old.caller < self.old.callers }
        ensures ok { IfOk result (CountsAll ⟦<Self as Recorded>⟧.known self.old self.new log.old log.new) }
        ensures lawful { IsRecAlone ⟦<Self as Recorded>⟧.known self.new }
        ensures refused { OnErr result ((self.new ≡ self.old) × (log.new ≡ log.old)) }
        ensures last_stamp { IsErrOf result LastStamp ↔ (top_of self.old log.old ≡ 2 ^ 64 - 1) }
        ensures kinds { IfErr result (IsOneOf (LastStamp ∷ fault.Memory ∷ [])) }
    {
        let parts = self.plan(log, Whole::Count)?;
        let number = join_numbers(&parts.logged);
        if !self.record_parts(log, parts) {
            return Err(RecordFault::Memory);
        }
        Ok(number)
    }

    /// Copies of all pairs of the map: a whole step, as `count_all`. It takes memory for the copies too.
    pub fn clone_all(&mut self, log: &mut CallerLog<K, V, A>) -> Result<Vec<(K, V)>, RecordFault>
        requires { log.old.caller < self.old.callers }
        ensures ok { IfOk result (λ copies.
            ClonesAll ⟦<Self as Recorded>⟧.known self.old self.new log.old log.new copies.items) }
        ensures lawful { IsRecAlone ⟦<Self as Recorded>⟧.known self.new }
        ensures refused { OnErr result ((self.new ≡ self.old) × (log.new ≡ log.old)) }
        ensures last_stamp { IsErrOf result LastStamp ↔ (top_of self.old log.old ≡ 2 ^ 64 - 1) }
        ensures kinds { IfErr result (IsOneOf (LastStamp ∷ fault.Memory ∷ [])) }
    {
        let parts = self.plan(log, Whole::Read)?;
        let Ok(copies) = join_pairs(self.row.allocator(), &parts.logged) else {
            return Err(RecordFault::Memory);
        };
        if !self.record_parts(log, parts) {
            return Err(RecordFault::Memory);
        }
        Ok(copies)
    }

    /// The merge of the histories: the places of all records, first by stamp, and among equal stamps by shard.
    ///
    /// It takes memory for the answer, and as much again while it sorts (4).
    pub fn merged(&self) -> Result<Vec<At>, AllocError>
        ensures { IfOk result (λ ats. IsOneHistory ⟦<Self as Recorded>⟧.known self.now ats.items) }
    {
        merge(self.row.allocator(), self.row.items())
    }

    /// The one history of the map, where the logs match the histories of its shards.
    ///
    /// The logs may stand in any order. It compares each record of each history with its caller's log, by `Kept::same`. It is
    /// refused where the logs don't match (22), or where there is no memory (23), which says nothing of the logs.
    pub fn gather(&self, logs: &[CallerLog<K, V, A>]) -> Result<Vec<At>, GatherError>
        ensures { Gathers ⟦<Self as Recorded>⟧.known self.now logs.now result }
    {
        let alloc = self.row.allocator();
        let Ok(ats) = merge(alloc, self.row.items()) else {
            return Err(GatherError::Memory);
        };
        let index = match index_of(alloc, self.callers as usize, logs) {
            Ok(Some(index)) => index,
            Ok(None) => return Err(GatherError::Mismatch),
            Err(_) => return Err(GatherError::Memory),
        };
        match follows(alloc, self.row.items(), &ats, logs, &index) {
            Ok(true) => Ok(ats),
            Ok(false) => Err(GatherError::Mismatch),
            Err(_) => Err(GatherError::Memory),
        }
    }

    /// The record at a place: at the index `place` of the history of a shard, if it has so many.
    pub fn entry_at(&self, shard: usize, place: usize) -> Option<&Record<K, V, A>>
        requires { shard < length self.now.row }
        ensures { option_map (λ r. r.now) result ≡ record_at (histories self.now) shard place }
    {
        self.row[shard].history().get(place)
    }

    /// Copies of the pairs of all shards, each once (4).
    pub fn pairs(&self) -> Result<Vec<(K, V)>, AllocError>
        ensures { IfOk result (λ pairs.
            CopiesRecPairs ⟦<Self as Recorded>⟧.known self.now pairs.items) }
    {
        copy_contents(self.row.allocator(), self.row.items())
    }

    /// The stamp of the last step of a shard, 0 for none.
    pub fn last_of(&self, shard: usize) -> u64
        requires { shard < length self.now.row }
        ensures last { result ≡ last_at self.now shard }
        ensures own { IsSomeAnd (slice_get self.now.row shard) (λ s. s.last ≡ result) }
        ensures lawful { IsRecAlone ⟦<Self as Recorded>⟧.known self.now }
    {
        self.row[shard].last_stamp()
    }
}

/// A law, with no code: a step on a lawful map is stamped by the histories, one above the greater of the stamp of its shard's
/// last record and the log's last.
pub fn stamps_by_the_history<K, V, S, A>()
    ensures { (w : Known K V A S) (a a' : RecAloneState K V A S) (l l' : LogState K V A)
        (step : ShardStep K V A) (reply : Reply K V) → IsRecAlone w a
        → Applied w a a' l l' step reply → l'.last ≡ max (last_at a (shard_of (kinds_in w a) step)) l.last + 1 }
{}
