//! Whole steps on a row of recorded shards: a part in each, all at one stamp.
ghost use Rattle.std.specs.Prelude.{◌≡◌, ◌+◌, ◌-◌, ◌^◌, ◌<◌, ◌≤◌, [], ◌∷◌, ◌++◌, ◌↔◌, IsErrOf, IsFalse, IsTrue, IfErr, IfOk, Some, length, slice_get};
ghost use Rattle.dash_history.specs.Words.{EachAt, IsOneOf, IsRecorded, LastStamp, Memory, RecState, Record, Whole, and_record, greatest, known, last_or};
ghost use Rattle.dash_history.specs.inner.Parts.{AddedEach, HasOneMore, IsNext, Planned, SameEach, TakenBack, TellsTwice, ToldEach};

use super::{CallerLog, RecShard, Record, RecordFault, make_room};
use dash_steps::action::KeptAction;
use dash_steps::kept::{Kept, KeptKey};
use dash_steps::known::Recorded;
use dash_steps::step::{Reply, Whole};
use dash_steps::sweep::copy_pairs;
use std::alloc::{AllocError, Global};
use std::hash::BuildHasher;

// A recorded shard that takes its part of whole steps: of one owner, or held for writing.
pub(crate) trait Member<K: KeptKey, V: Kept, S: BuildHasher, A: KeptAction<K, V>>: Sized {
    // What contracts see of it.
    ghost state: { Self → RecState K V A S };

    // The stamp of the last record, 0 for none.
    fn last(&self) -> u64
        ensures last { result ≡ (state self.now).last }
        ensures legal { IsRecorded (known K.KeptKey V.alike A.KeptAction S.BuildHasher S.Hasher.Hasher) (state self.now) };

    // The record of its part at a stamp, once for its history and once for the log. It takes memory for copies.
    fn tell(
        &self,
        alloc: Global,
        kind: Whole,
        stamp: u64,
        caller: u32,
    ) -> Result<(Record<K, V, A>, Record<K, V, A>), AllocError>
        ensures { IfOk result (λ p. TellsTwice (known K.KeptKey V.alike A.KeptAction S.BuildHasher S.Hasher.Hasher) kind stamp caller
            (state self.now) p.0 p.1) };

    // Adds the record of its part at the end of the history, or changes nothing where there is no memory.
    fn add(&mut self, entry: Record<K, V, A>) -> bool
        requires { IsNext (known K.KeptKey V.alike A.KeptAction S.BuildHasher S.Hasher.Hasher) (state self.old) entry }
        ensures added { IsTrue result → state self.new ≡ and_record (state self.old) entry }
        ensures refused { IsFalse result → state self.new ≡ state self.old };

    // Takes the last record back.
    fn take_back(&mut self)
        requires { (s : RecState K V A S) × HasOneMore (known K.KeptKey V.alike A.KeptAction S.BuildHasher S.Hasher.Hasher) s (state self.old) }
        ensures { (s : RecState K V A S) → HasOneMore (known K.KeptKey V.alike A.KeptAction S.BuildHasher S.Hasher.Hasher) s (state self.old)
            → state self.new ≡ s };
}

impl<K: KeptKey + Drop, V: Kept + Drop, S: BuildHasher, A: KeptAction<K, V> + Drop> Member<
    K,
    V,
    S,
    A,
> for RecShard<K, V, S, A> {
    ghost state = { λ s. s };

    fn last(&self) -> u64 {
        self.last
    }

    fn tell(
        &self,
        alloc: Global,
        kind: Whole,
        stamp: u64,
        caller: u32,
    ) -> Result<(Record<K, V, A>, Record<K, V, A>), AllocError> {
        let number = self.shard.number();
        let reply = match kind {
            Whole::Count => Reply::Number(self.shard.len() as u64),
            Whole::Read => Reply::Pairs(copy_pairs(alloc, self.shard.iter())?),
        };
        let kept = Record {
            stamp,
            caller,
            shard: number,
            step: kind.part(number),
            reply,
        };
        let logged = kept.copy()?;
        Ok((kept, logged))
    }

    fn add(&mut self, entry: Record<K, V, A>) -> bool
        requires { IsNext ⟦<Self as Recorded>⟧.known self.old entry }
        ensures added { IsTrue result → self.new ≡ and_record self.old entry }
        ensures refused { IsFalse result → self.new ≡ self.old }
        ensures stays { (self.new.shard ≡ self.old.shard) × (self.new.callers ≡ self.old.callers) }
    {
        if !make_room(&mut self.history) {
            return false;
        }
        self.last = entry.stamp;
        self.history.push_reserved(entry);
        true
    }

    fn take_back(&mut self)
        requires { (s : RecState K V A S) × HasOneMore ⟦<Self as Recorded>⟧.known s self.old }
        ensures back { (s : RecState K V A S) → HasOneMore ⟦<Self as Recorded>⟧.known s self.old → self.new ≡ s }
        ensures stays { (self.new.shard ≡ self.old.shard) × (self.new.callers ≡ self.old.callers) }
    {
        drop(self.history.pop());
        self.last = last_of(&self.history);
    }
}

// The stamp of the last of these records, 0 for none.
fn last_of<K, V, A>(entries: &[Record<K, V, A>]) -> u64
    ensures { result ≡ last_or 0 entries.now }
{
    match entries.last() {
        Some(entry) => entry.stamp,
        None => 0,
    }
}

// The greatest of the lasts of these shards and of the log.
fn top<
    K: KeptKey + Drop,
    V: Kept + Drop,
    S: BuildHasher,
    A: KeptAction<K, V> + Drop,
    T: Member<K, V, S, A>,
>(row: &[T], log: &CallerLog<K, V, A>) -> u64
    ensures { result ≡ greatest (λ x. (T.state x).last) log.now.last row.now }
{
    let mut top = log.last;
    for shard in row {
        top = top.max(shard.last());
    }
    top
}

/// The records of a whole step before they are added anywhere: of each shard its part, once for its history and once for the log.
#[derive(Drop)]
pub struct Parts<K, V, A> {
    pub stamp: u64,
    pub kept: Vec<Record<K, V, A>>,
    pub logged: Vec<Record<K, V, A>>,
}

// The records of the parts at a stamp.
fn tell_each<
    K: KeptKey + Drop,
    V: Kept + Drop,
    S: BuildHasher,
    A: KeptAction<K, V> + Drop,
    T: Member<K, V, S, A>,
>(
    alloc: Global,
    row: &[T],
    kind: Whole,
    stamp: u64,
    caller: u32,
) -> Result<Parts<K, V, A>, AllocError>
    ensures stamp { IfOk result (λ p. p.stamp ≡ stamp) }
    ensures told { IfOk result (λ p. ToldEach (known K.KeptKey V.alike A.KeptAction S.BuildHasher S.Hasher.Hasher) T.state kind stamp caller
        row.now p.kept.items p.logged.items) }
{
    let mut kept = Vec::with_capacity(alloc, row.len())?;
    let mut logged = Vec::with_capacity(alloc, row.len())?;
    for idx in 0..row.len() {
        let (first, second) = row[idx].tell(alloc, kind, stamp, caller)?;
        kept.push_reserved(first);
        logged.push_reserved(second);
    }
    Ok(Parts {
        stamp,
        kept,
        logged,
    })
}

// The records of a whole step of this kind by the log's caller, at one stamp above all lasts.
pub(crate) fn plan_whole<
    K: KeptKey + Drop,
    V: Kept + Drop,
    S: BuildHasher,
    A: KeptAction<K, V> + Drop,
    T: Member<K, V, S, A>,
>(row: &[T], log: &CallerLog<K, V, A>, kind: Whole) -> Result<Parts<K, V, A>, RecordFault>
    ensures told { IfOk result (λ p. Planned (known K.KeptKey V.alike A.KeptAction S.BuildHasher S.Hasher.Hasher) T.state kind row.now log.now
        p.stamp p.kept.items p.logged.items) }
    ensures last_stamp { IsErrOf result LastStamp ↔ (greatest (λ x. (T.state x).last) log.now.last row.now ≡ 2 ^ 64 - 1) }
    ensures faults { IfErr result (IsOneOf (LastStamp ∷ Memory ∷ [])) }
{
    let top = top(row, log);
    if top == u64::MAX {
        return Err(RecordFault::LastStamp);
    }
    let alloc = *log.entries.allocator();
    match tell_each(alloc, row, kind, top + 1, log.caller) {
        Ok(parts) => Ok(parts),
        Err(_) => Err(RecordFault::Memory),
    }
}

// Takes back the last record of each shard from the index `from` on.
fn take_back_from<
    K: KeptKey + Drop,
    V: Kept + Drop,
    S: BuildHasher,
    A: KeptAction<K, V> + Drop,
    T: Member<K, V, S, A>,
>(row: &mut [T], from: usize)
    requires { EachAt row.old (λ i x. from ≤ i → (s : RecState K V A S)
        × HasOneMore (known K.KeptKey V.alike A.KeptAction S.BuildHasher S.Hasher.Hasher) s (T.state x)) }
    ensures { TakenBack (known K.KeptKey V.alike A.KeptAction S.BuildHasher S.Hasher.Hasher) T.state from row.old row.new }
{
    for idx in from..row.len() {
        row[idx].take_back();
    }
}

// Adds its record at the end of the history of each shard. Where there is no memory for one, those that were added are taken back.
fn add_each<
    K: KeptKey + Drop,
    V: Kept + Drop,
    S: BuildHasher,
    A: KeptAction<K, V> + Drop,
    T: Member<K, V, S, A>,
>(row: &mut [T], mut kept: Vec<Record<K, V, A>>) -> bool
    requires count { length kept.items ≡ length row.old }
    requires next { EachAt row.old (λ i x. (r : Record K V A) × (slice_get kept.items i ≡ Some r)
        × IsNext (known K.KeptKey V.alike A.KeptAction S.BuildHasher S.Hasher.Hasher) (T.state x) r) }
    requires legal { EachAt row.old (λ _ x. IsRecorded (known K.KeptKey V.alike A.KeptAction S.BuildHasher S.Hasher.Hasher) (T.state x)) }
    ensures added { IsTrue result → AddedEach T.state row.old row.new kept.items }
    ensures refused { IsFalse result → SameEach T.state row.old row.new }
{
    while let Some(entry) = kept.pop() {
        let idx = kept.len();
        if !row[idx].add(entry) {
            take_back_from(row, idx + 1);
            return false;
        }
    }
    true
}

// Adds the records of a whole step: to each shard its own at the end of its history, and all to the end of the log.
pub(crate) fn record_whole<
    K: KeptKey + Drop,
    V: Kept + Drop,
    S: BuildHasher,
    A: KeptAction<K, V> + Drop,
    T: Member<K, V, S, A>,
>(row: &mut [T], log: &mut CallerLog<K, V, A>, parts: Parts<K, V, A>) -> bool
    requires planned { (kind : Whole) × Planned (known K.KeptKey V.alike A.KeptAction S.BuildHasher S.Hasher.Hasher) T.state kind row.old log.old
        parts.stamp parts.kept.items parts.logged.items }
    requires numbers { EachAt row.old (λ i x. (T.state x).shard.number ≡ i) }
    requires callers { EachAt row.old (λ _ x. log.old.caller < (T.state x).callers) }
    requires legal { EachAt row.old (λ _ x. IsRecorded (known K.KeptKey V.alike A.KeptAction S.BuildHasher S.Hasher.Hasher) (T.state x)) }
    ensures added { IsTrue result → AddedEach T.state row.old row.new parts.kept.items }
    ensures log { IsTrue result → log.new ≡ record log.old { last = parts.stamp; entries = log.old.entries ++ parts.logged.items } }
    ensures refused { IsFalse result → SameEach T.state row.old row.new × (log.new ≡ log.old) }
{
    let Parts {
        stamp,
        kept,
        mut logged,
    } = parts;
    let Ok(()) = log.entries.reserve(logged.len()) else {
        return false;
    };
    if !add_each(row, kept) {
        return false;
    }
    let Ok(()) = log.entries.append(&mut logged) else {
        unreachable!();
    };
    log.last = stamp;
    true
}

impl<K: KeptKey + Drop, V: Kept + Drop, S: BuildHasher, A: KeptAction<K, V> + Drop> RecShard<
    K,
    V,
    S,
    A,
> {
    /// The records of a whole step of this kind by the log's caller on shards of one owner, at one stamp above all lasts.
    ///
    /// It is refused where there is no such stamp (18), then where there is no memory (19).
    pub(crate) fn plan_whole(
        row: &[Self],
        log: &CallerLog<K, V, A>,
        kind: Whole,
    ) -> Result<Parts<K, V, A>, RecordFault>
        ensures told { IfOk result (λ p. Planned ⟦<Self as Recorded>⟧.known (λ s. s)
            kind row.now log.now p.stamp p.kept.items p.logged.items) }
        ensures last_stamp { IsErrOf result LastStamp ↔ (greatest (λ s. s.last) log.now.last row.now ≡ 2 ^ 64 - 1) }
        ensures faults { IfErr result (IsOneOf (LastStamp ∷ Memory ∷ [])) }
    {
        plan_whole(row, log, kind)
    }

    /// Adds the records of a whole step: to each shard of one owner its own at the end of its history, and all to the end of the
    /// log.
    ///
    /// It takes memory for their places (19).
    pub(crate) fn record_whole(
        row: &mut [Self],
        log: &mut CallerLog<K, V, A>,
        parts: Parts<K, V, A>,
    ) -> bool
        requires planned { (kind : Whole) × Planned ⟦<Self as Recorded>⟧.known (λ s. s)
            kind row.old log.old parts.stamp parts.kept.items parts.logged.items }
        requires numbers { EachAt row.old (λ i s. s.shard.number ≡ i) }
        requires callers { EachAt row.old (λ _ s. log.old.caller < s.callers) }
        requires legal { EachAt row.old (λ _ s. IsRecorded ⟦<Self as Recorded>⟧.known s) }
        ensures added { IsTrue result → AddedEach (λ s. s) row.old row.new parts.kept.items }
        ensures log { IsTrue result
            → log.new ≡ record log.old { last = parts.stamp; entries = log.old.entries ++ parts.logged.items } }
        ensures refused { IsFalse result → SameEach (λ s. s) row.old row.new × (log.new ≡ log.old) }
    {
        record_whole(row, log, parts)
    }
}
