//! A recorded shard that is held for writing, changed in place behind its lock.
ghost use Rattle.std.specs.Prelude.{◌≡◌, [], ◌∷◌, ◌++◌, ◌-◌, ◌^◌, ◌<◌, ◌↔◌, IsErrOf, IsFalse, IsTrue, IfErr, IfOk};
ghost use Rattle.dash_history.specs.Words.{EachAt, FitsRecTag, GoesTo, IsOneOf, IsPart, IsRecorded, LastStamp, LeftBehind, Memory, RecState, Records, Routes, Whole, and_record, greatest, known};
ghost use Rattle.dash_history.specs.inner.Parts.{AddedEach, HasOneMore, IsNext, Planned, SameEach};
ghost use Rattle.dash_steps.specs.inner.Hashed.{HasHash};

pub use super::tag::RecTag;
use super::whole::{self, Member, Parts};
use super::{CallerLog, RecShard, Record, RecordFault};
use dash_shard::hash::FixedState;
use dash_shard::lock::hold::Hold;
use dash_shard::lock::{RwLock, RwLockWriteGuard};
use dash_steps::action::KeptAction;
use dash_steps::kept::{Kept, KeptKey};
use dash_steps::known::Recorded;
use dash_steps::step::{Reply, ShardStep, Whole};
use std::alloc::{AllocError, Global};
use std::hash::BuildHasher;
use std::marker::Model;
use std::mem;

/// A recorded shard that is held for writing: the hold ends when it is dropped. A contract sees it as the shard with its history.
#[must_use]
pub struct RecShardMut<
    'a,
    K: KeptKey,
    V: Kept,
    S: BuildHasher = FixedState,
    A: KeptAction<K, V> = (),
> {
    hold: Hold<'a, RecShard<K, V, S, A>>,
    lock: &'a RwLock<RecShard<K, V, S, A>>,
}

impl<'a, K: KeptKey, V: Kept, S: BuildHasher, A: KeptAction<K, V>> Model
    for RecShardMut<'a, K, V, S, A> {
    ghost use Rattle.std.specs.Prelude.{◌≡◌};
    ghost use Rattle.dash_shard.specs.Hashing.{key_hash};
    ghost use Rattle.dash_history.specs.Held.{FitsRecTag};
    ghost use Rattle.dash_history.specs.History.{RecState};

    ghost Value = { RecState K V A S };

    ghost view = { λ s. s.hold.value };

    ghost invariant = { λ s. (s.hold.right ≡ 2) × FitsRecTag (key_hash K.eq K.hash_input S.BuildHasher S.Hasher.Hasher) s.hold.tag s.hold.value };
}

impl<K: KeptKey, V: Kept, S: BuildHasher, A: KeptAction<K, V>> Recorded
    for RecShardMut<'_, K, V, S, A> {
    type Key = K;

    type Value = V;

    type Action = A;

    type State = S;

    ghost known = { known K.KeptKey V.alike A.KeptAction S.BuildHasher S.Hasher.Hasher };
}

impl<K: KeptKey, V: Kept, S: BuildHasher, A: KeptAction<K, V>> Drop
    for RecShardMut<'_, K, V, S, A> {
    #[inline]
    fn drop(self)
        ensures left { LeftBehind self.entry }
    {
        let Self { hold, lock } = self;
        drop(hold.guard(lock));
    }
}

impl<'a, K: KeptKey, V: Kept, S: BuildHasher, A: KeptAction<K, V>> RecShardMut<'a, K, V, S, A> {
    /// The recorded shard that a write guard holds.
    #[inline]
    pub fn of(guard: RwLockWriteGuard<'a, RecShard<K, V, S, A>>) -> RecShardMut<'a, K, V, S, A>
        ensures value { result ≡ guard.entry.value }
        ensures fits { FitsRecTag ⟦<Self as Recorded>⟧.known.keys guard.entry.tag result }
    {
        let (hold, lock) = Hold::of(guard);
        RecShardMut { hold, lock }
    }
}

impl<K: KeptKey + Drop, V: Kept + Drop, S: BuildHasher, A: KeptAction<K, V> + Drop> RecShardMut<
    '_,
    K,
    V,
    S,
    A,
> {
    /// The shard's number among the map's shards.
    #[inline]
    pub fn number(&self) -> usize
        ensures number { result ≡ self.now.shard.number }
        ensures legal { IsRecorded ⟦<Self as Recorded>⟧.known self.now }
    {
        self.hold.get().shard().number()
    }

    /// How many shards the map has.
    #[inline]
    pub fn amount(&self) -> usize
        ensures { result ≡ self.now.shard.amount }
    {
        self.hold.get().shard().amount()
    }

    /// How many callers the map has.
    #[inline]
    pub fn callers(&self) -> u32
        ensures { result ≡ self.now.callers }
    {
        self.hold.get().callers()
    }

    /// The stamp of the shard's last step, 0 for none.
    #[inline]
    pub fn last_stamp(&self) -> u64
        ensures { result ≡ self.now.last }
    {
        self.hold.get().last_stamp()
    }

    /// Whether the key goes to this shard.
    #[inline]
    pub fn routes(&self, key: &K) -> bool
        ensures { IsTrue result ↔ Routes ⟦<Self as Recorded>⟧.known.keys self.now.shard key.now }
    {
        self.hold.get().shard().routes(key)
    }

    /// Takes a step of this shard, and adds one same record of it at the end of its history and of the caller's log.
    ///
    /// Takes memory for the copies and the records, before anything changes. Where it is refused (24, then 18, then 19), the step
    /// is handed back, and nothing changes.
    pub fn record(
        &mut self,
        log: &mut CallerLog<K, V, A>,
        step: ShardStep<K, V, A>,
    ) -> Result<Reply<K, V>, (ShardStep<K, V, A>, RecordFault)>
        requires goes { GoesTo ⟦<Self as Recorded>⟧.known self.old.shard step }
        requires caller { log.old.caller < self.old.callers }
        ensures { Records ⟦<Self as Recorded>⟧.known self.old self.new log.old log.new step result }
    {
        if step.is_part() {
            return Err((step, RecordFault::Part));
        }
        let hash = self.hash_of(&step);
        self.record_hashed(log, hash, step)
    }

    // The hash of a step's key, or 0 where it has none.
    fn hash_of(&self, step: &ShardStep<K, V, A>) -> u64
        ensures { HasHash ⟦<Self as Recorded>⟧.known self.now.shard step.now result }
    {
        let shard = self.hold.get().shard();
        step.route(shard.hasher(), shard.amount()).0
    }

    /// As `record`, for a caller who has the hash of the step's key, and knows that it is no part.
    pub(crate) fn record_hashed(
        &mut self,
        log: &mut CallerLog<K, V, A>,
        hash: u64,
        step: ShardStep<K, V, A>,
    ) -> Result<Reply<K, V>, (ShardStep<K, V, A>, RecordFault)>
        requires goes { GoesTo ⟦<Self as Recorded>⟧.known self.old.shard step }
        requires hash { HasHash ⟦<Self as Recorded>⟧.known self.old.shard step hash }
        requires caller { log.old.caller < self.old.callers }
        requires own { IsPart step → ⊥ }
        ensures { Records ⟦<Self as Recorded>⟧.known self.old self.new log.old log.new step result }
    {
        // The closure takes the log and gives it back, and a log with no entries stands in its place meanwhile.
        let blank = CallerLog::new(log.allocator(), log.caller());
        let mine = mem::replace(log, blank);
        let (mine, answer) = self.hold.change(
            |shard: &mut RecShard<K, V, S, A>| -> (
                CallerLog<K, V, A>,
                Result<Reply<K, V>, (ShardStep<K, V, A>, RecordFault)>,
            )
                requires goes { GoesTo (known K.KeptKey V.alike A.KeptAction S.BuildHasher S.Hasher.Hasher) shard.old.shard step }
                requires hash { HasHash (known K.KeptKey V.alike A.KeptAction S.BuildHasher S.Hasher.Hasher) shard.old.shard step hash }
                requires caller { mine.caller < shard.old.callers }
                requires own { IsPart step → ⊥ }
                ensures { Records (known K.KeptKey V.alike A.KeptAction S.BuildHasher S.Hasher.Hasher) shard.old shard.new mine result.0 step result.1 }
            {
                let mut log = mine;
                let answer = shard.record_hashed(&mut log, hash, step);
                (log, answer)
            },
        );
        *log = mine;
        answer
    }

    /// The records of a whole step of this kind by the log's caller on shards that are held, at one stamp above all lasts.
    ///
    /// It is refused where there is no such stamp (18), then where there is no memory (19).
    pub(crate) fn plan_whole(
        row: &[Self],
        log: &CallerLog<K, V, A>,
        kind: Whole,
    ) -> Result<Parts<K, V, A>, RecordFault>
        ensures told { IfOk result (λ p. Planned ⟦<Self as Recorded>⟧.known (λ s. s)
            kind row.now log.now p.stamp p.kept.items p.logged.items) }
        ensures last_stamp { IsErrOf result LastStamp ↔ (greatest (λ s. s.last) log.now.last row.now ≡ 2 ^ 64 - 1) }
        ensures faults { IfErr result (IsOneOf (LastStamp ∷ Memory ∷ [])) }
    {
        whole::plan_whole(row, log, kind)
    }

    /// Adds the records of a whole step: to each shard that is held its own at the end of its history, and all to the end of the
    /// log.
    ///
    /// It takes memory for their places (19).
    pub(crate) fn record_whole(
        row: &mut [Self],
        log: &mut CallerLog<K, V, A>,
        parts: Parts<K, V, A>,
    ) -> bool
        requires planned { (kind : Whole) × Planned ⟦<Self as Recorded>⟧.known (λ s. s)
            kind row.old log.old parts.stamp parts.kept.items parts.logged.items }
        requires numbers { EachAt row.old (λ i s. s.shard.number ≡ i) }
        requires callers { EachAt row.old (λ _ s. log.old.caller < s.callers) }
        requires legal { EachAt row.old (λ _ s. IsRecorded ⟦<Self as Recorded>⟧.known s) }
        ensures added { IsTrue result → AddedEach (λ s. s) row.old row.new parts.kept.items }
        ensures log { IsTrue result
            → log.new ≡ record log.old { last = parts.stamp; entries = log.old.entries ++ parts.logged.items } }
        ensures refused { IsFalse result → SameEach (λ s. s) row.old row.new × (log.new ≡ log.old) }
    {
        whole::record_whole(row, log, parts)
    }
}

impl<K: KeptKey + Drop, V: Kept + Drop, S: BuildHasher, A: KeptAction<K, V> + Drop> Member<
    K,
    V,
    S,
    A,
> for RecShardMut<'_, K, V, S, A> {
    ghost state = { λ s. s };

    fn last(&self) -> u64 {
        self.hold.get().last_stamp()
    }

    fn tell(
        &self,
        alloc: Global,
        kind: Whole,
        stamp: u64,
        caller: u32,
    ) -> Result<(Record<K, V, A>, Record<K, V, A>), AllocError> {
        self.hold.get().tell(alloc, kind, stamp, caller)
    }

    fn add(&mut self, entry: Record<K, V, A>) -> bool
        requires { IsNext ⟦<Self as Recorded>⟧.known self.old entry }
        ensures added { IsTrue result → self.new ≡ and_record self.old entry }
        ensures refused { IsFalse result → self.new ≡ self.old }
    {
        self.hold.change(
            |shard: &mut RecShard<K, V, S, A>| -> bool
                requires { IsNext (known K.KeptKey V.alike A.KeptAction S.BuildHasher S.Hasher.Hasher) shard.old entry }
                ensures added { IsTrue result → shard.new ≡ and_record shard.old entry }
                ensures refused { IsFalse result → shard.new ≡ shard.old }
                ensures stays { (shard.new.shard ≡ shard.old.shard) × (shard.new.callers ≡ shard.old.callers) }
            { shard.add(entry) },
        )
    }

    fn take_back(&mut self)
        requires { (s : RecState K V A S) × HasOneMore ⟦<Self as Recorded>⟧.known s self.old }
        ensures { (s : RecState K V A S) → HasOneMore ⟦<Self as Recorded>⟧.known s self.old → self.new ≡ s }
    {
        self.hold.change(
            |shard: &mut RecShard<K, V, S, A>|
                requires { (s : RecState K V A S)
                    × HasOneMore (known K.KeptKey V.alike A.KeptAction S.BuildHasher S.Hasher.Hasher) s shard.old }
                ensures back { (s : RecState K V A S)
                    → HasOneMore (known K.KeptKey V.alike A.KeptAction S.BuildHasher S.Hasher.Hasher) s shard.old → shard.new ≡ s }
                ensures stays { (shard.new.shard ≡ shard.old.shard) × (shard.new.callers ≡ shard.old.callers) }
            { shard.take_back() },
        )
    }
}
