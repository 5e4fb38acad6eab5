//! Whole steps on a map that threads share: a count or a copy of all shards at one place of its history.
ghost use Rattle.std.specs.Prelude.{◌≡◌, ◌-◌, ◌^◌, [], ◌∷◌, ◌<◌, ◌↔◌, ◌⊎◌, IsFalse, IsTrue, IfErr, IfOk, IfSome, OnErr};
ghost use Rattle.dash_history.specs.Words.{AppliedWhole, ClonesAll, ClonesShared, CountsAll, CountsShared, EachAt, FaultsWhole, IsOneOf, IsRecAlone, IsRecFound, LastStamp, LeavesRecShards, LeftBehind, Locked, Memory, StepsWhole, Whole};
ghost use Rattle.dash_history.specs.inner.Locks.{of_holds};
ghost use Rattle.dash_history.specs.inner.Parts.{Planned};

use crate::joined::{join_numbers, join_pairs};
use crate::record::held::RecShardMut;
use crate::record::map::RecordedMap;
use crate::record::whole::Parts;
use crate::record::{CallerLog, RecordFault};
use dash_steps::action::KeptAction;
use dash_steps::kept::{Kept, KeptKey};
use dash_steps::known::Recorded;
use dash_steps::step::Whole;
use std::alloc::AllocError;
use std::hash::BuildHasher;
use std::rt::Clock;
use std::sync::Wait;

// Ends the holds.
fn end_all<K: KeptKey, V: Kept, S: BuildHasher, A: KeptAction<K, V>>(
    mut holds: Vec<RecShardMut<'_, K, V, S, A>>,
)
    ensures { EachAt holds.entry.items (λ _. LeftBehind) }
{
    while let Some(held) = holds.pop() {
        drop(held);
    }
}

// Why a whole step is refused for which there is no memory, where this is the greatest of the last stamps.
fn fault_at(top: u64) -> RecordFault
    ensures last_stamp { (result ≡ LastStamp) ↔ (top ≡ 2 ^ 64 - 1) }
    ensures kinds { IsOneOf (LastStamp ∷ Memory ∷ []) result }
{
    match top {
        u64::MAX => RecordFault::LastStamp,
        _ => RecordFault::Memory,
    }
}

impl<K: KeptKey + Drop, V: Kept + Drop, S: BuildHasher, A: KeptAction<K, V> + Drop> RecordedMap<
    K,
    V,
    S,
    A,
> {
    // Waits for all shards, in rising order, so that no two calls wait for each other, and holds them.
    fn hold_all<R: Wait + Clock>(
        &self,
        rt: &R,
    ) -> Result<Vec<RecShardMut<'_, K, V, S, A>>, AllocError>
        ensures { IfOk result (λ holds. IsRecFound ⟦<Self as Recorded>⟧.known self.now (of_holds self.now holds.items)) }
    {
        let amount = self.shard_count();
        // It says that the number of callers is lawful.
        let _ = self.callers();
        let mut holds = Vec::with_capacity(self.allocator(), amount)?;
        for idx in 0..amount {
            holds.push_reserved(self.held(rt, idx));
        }
        Ok(holds)
    }

    // As `hold_all`, where nobody has any of them.
    fn try_hold_all(&self) -> Result<Option<Vec<RecShardMut<'_, K, V, S, A>>>, AllocError>
        ensures { IfOk result (λ o. IfSome o (λ holds.
            IsRecFound ⟦<Self as Recorded>⟧.known self.now (of_holds self.now holds.items))) }
    {
        let amount = self.shard_count();
        let _ = self.callers();
        let mut holds = Vec::with_capacity(self.allocator(), amount)?;
        for idx in 0..amount {
            let Some(held) = self.try_held(idx) else {
                return Ok(None);
            };
            holds.push_reserved(held);
        }
        Ok(Some(holds))
    }

    // Why a whole step is refused that finds no memory for its holds. It holds each shard by itself.
    #[cold]
    fn fault_unheld<R: Wait + Clock>(&self, rt: &R, log: &CallerLog<K, V, A>) -> RecordFault
        ensures fault { LeavesRecShards ⟦<Self as Recorded>⟧.known self.now (FaultsWhole log.now result) }
        ensures kinds { IsOneOf (LastStamp ∷ Memory ∷ []) result }
    {
        let _ = self.callers();
        let mut top = log.last_stamp();
        for idx in 0..self.shard_count() {
            top = top.max(self.held(rt, idx).last_stamp());
        }
        fault_at(top)
    }

    // As `fault_unheld`, but first where somebody has a shard (21).
    #[cold]
    fn try_fault_unheld(&self, log: &CallerLog<K, V, A>) -> RecordFault
        ensures fault { (result ≡ Locked) ⊎ LeavesRecShards ⟦<Self as Recorded>⟧.known self.now (FaultsWhole log.now result) }
        ensures kinds { IsOneOf (Locked ∷ LastStamp ∷ Memory ∷ []) result }
    {
        let _ = self.callers();
        let mut top = log.last_stamp();
        for idx in 0..self.shard_count() {
            let Some(held) = self.try_held(idx) else {
                return RecordFault::Locked;
            };
            top = top.max(held.last_stamp());
        }
        fault_at(top)
    }

    // Adds the records of a whole step to the shards that are held and to the log, or changes nothing where there is no memory for them.
    fn record_held(
        &self,
        holds: &mut [RecShardMut<'_, K, V, S, A>],
        log: &mut CallerLog<K, V, A>,
        parts: Parts<K, V, A>,
    ) -> bool
        requires held { IsRecFound ⟦<Self as Recorded>⟧.known self.now (of_holds self.now holds.old) }
        requires caller { log.old.caller < self.now.callers }
        requires planned { (kind : Whole) × Planned ⟦<Self as Recorded>⟧.known (λ s. s)
            kind holds.old log.old parts.stamp parts.kept.items parts.logged.items }
        ensures added { IsTrue result → (kind : Whole) → Planned ⟦<Self as Recorded>⟧.known (λ s. s) kind holds.old log.old parts.stamp
            parts.kept.items parts.logged.items → AppliedWhole ⟦<Self as Recorded>⟧.known kind
            (of_holds self.now holds.old) (of_holds self.now holds.new) log.old log.new parts.logged.items }
        ensures lawful { IsRecAlone ⟦<Self as Recorded>⟧.known (of_holds self.now holds.new) }
        ensures refused { IsFalse result → (of_holds self.now holds.new ≡ of_holds self.now holds.old) × (log.new ≡ log.old) }
    {
        RecShardMut::record_whole(holds, log, parts)
    }

    // A count of the shards that are held.
    fn count_in(
        &self,
        holds: &mut [RecShardMut<'_, K, V, S, A>],
        log: &mut CallerLog<K, V, A>,
    ) -> Result<u64, RecordFault>
        requires held { IsRecFound ⟦<Self as Recorded>⟧.known self.now (of_holds self.now holds.old) }
        requires caller { log.old.caller < self.now.callers }
        ensures counts { StepsWhole (λ a b. CountsAll ⟦<Self as Recorded>⟧.known a b log.old log.new) log.old result
            (of_holds self.now holds.old) (of_holds self.now holds.new) }
        ensures lawful { IsRecAlone ⟦<Self as Recorded>⟧.known (of_holds self.now holds.new) }
        ensures refused { OnErr result (log.new ≡ log.old) }
        ensures kinds { IfErr result (IsOneOf (LastStamp ∷ Memory ∷ [])) }
    {
        let parts = RecShardMut::plan_whole(holds, log, Whole::Count)?;
        let number = join_numbers(&parts.logged);
        if !self.record_held(holds, log, parts) {
            return Err(RecordFault::Memory);
        }
        Ok(number)
    }

    // Copies of the pairs of the shards that are held.
    fn clone_in(
        &self,
        holds: &mut [RecShardMut<'_, K, V, S, A>],
        log: &mut CallerLog<K, V, A>,
    ) -> Result<Vec<(K, V)>, RecordFault>
        requires held { IsRecFound ⟦<Self as Recorded>⟧.known self.now (of_holds self.now holds.old) }
        requires caller { log.old.caller < self.now.callers }
        ensures clones { StepsWhole (λ a b copies. ClonesAll ⟦<Self as Recorded>⟧.known a b log.old log.new copies.items) log.old result
            (of_holds self.now holds.old) (of_holds self.now holds.new) }
        ensures lawful { IsRecAlone ⟦<Self as Recorded>⟧.known (of_holds self.now holds.new) }
        ensures refused { OnErr result (log.new ≡ log.old) }
        ensures kinds { IfErr result (IsOneOf (LastStamp ∷ Memory ∷ [])) }
    {
        let parts = RecShardMut::plan_whole(holds, log, Whole::Read)?;
        let Ok(copies) = join_pairs(self.allocator(), &parts.logged) else {
            return Err(RecordFault::Memory);
        };
        if !self.record_held(holds, log, parts) {
            return Err(RecordFault::Memory);
        }
        Ok(copies)
    }

    // A count of the shards that are held, whose holds it ends.
    fn count_held(
        &self,
        mut holds: Vec<RecShardMut<'_, K, V, S, A>>,
        log: &mut CallerLog<K, V, A>,
    ) -> Result<u64, RecordFault>
        requires held { IsRecFound ⟦<Self as Recorded>⟧.known self.now (of_holds self.now holds.items) }
        requires caller { log.old.caller < self.now.callers }
        ensures counts { CountsShared ⟦<Self as Recorded>⟧.known self.now log.old log.new result }
        ensures refused { OnErr result (log.new ≡ log.old) }
        ensures kinds { IfErr result (IsOneOf (LastStamp ∷ Memory ∷ [])) }
    {
        let answer = self.count_in(&mut holds, log);
        end_all(holds);
        answer
    }

    // Copies of the pairs of the shards that are held, whose holds it ends.
    fn clone_held(
        &self,
        mut holds: Vec<RecShardMut<'_, K, V, S, A>>,
        log: &mut CallerLog<K, V, A>,
    ) -> Result<Vec<(K, V)>, RecordFault>
        requires held { IsRecFound ⟦<Self as Recorded>⟧.known self.now (of_holds self.now holds.items) }
        requires caller { log.old.caller < self.now.callers }
        ensures clones { ClonesShared ⟦<Self as Recorded>⟧.known self.now log.old log.new result }
        ensures refused { OnErr result (log.new ≡ log.old) }
        ensures kinds { IfErr result (IsOneOf (LastStamp ∷ Memory ∷ [])) }
    {
        let answer = self.clone_in(&mut holds, log);
        end_all(holds);
        answer
    }

    /// How many pairs the map has, saturating at 2^64 - 1, at one place of its history.
    ///
    /// It waits for all shards, in rising order, and holds them at once. Its part in each is recorded there, all at one stamp, and so
    /// in the caller's log: `gather` shows the place. It takes memory for the holds and the records. Where it is refused (18, 19),
    /// pairs, histories and log stay as they were.
    pub fn count_all<R: Wait + Clock>(
        &self,
        rt: &R,
        log: &mut CallerLog<K, V, A>,
    ) -> Result<u64, RecordFault>
        requires { log.old.caller < self.now.callers }
        ensures counts { CountsShared ⟦<Self as Recorded>⟧.known self.now log.old log.new result }
        ensures refused { OnErr result (log.new ≡ log.old) }
        ensures kinds { IfErr result (IsOneOf (LastStamp ∷ Memory ∷ [])) }
    {
        match self.hold_all(rt) {
            Ok(holds) => self.count_held(holds, log),
            Err(_) => Err(self.fault_unheld(rt, log)),
        }
    }

    /// Copies of all pairs of the map, at one place of its history, as `count_all`. It takes memory for the copies too.
    pub fn clone_all<R: Wait + Clock>(
        &self,
        rt: &R,
        log: &mut CallerLog<K, V, A>,
    ) -> Result<Vec<(K, V)>, RecordFault>
        requires { log.old.caller < self.now.callers }
        ensures clones { ClonesShared ⟦<Self as Recorded>⟧.known self.now log.old log.new result }
        ensures refused { OnErr result (log.new ≡ log.old) }
        ensures kinds { IfErr result (IsOneOf (LastStamp ∷ Memory ∷ [])) }
    {
        match self.hold_all(rt) {
            Ok(holds) => self.clone_held(holds, log),
            Err(_) => Err(self.fault_unheld(rt, log)),
        }
    }

    /// As `count_all`, but it waits for nobody: where somebody holds a shard, it is refused (21, then 18, then 19).
    pub fn try_count_all(&self, log: &mut CallerLog<K, V, A>) -> Result<u64, RecordFault>
        requires { log.old.caller < self.now.callers }
        ensures counts { (result ≡ Err Locked) ⊎ CountsShared ⟦<Self as Recorded>⟧.known self.now log.old log.new result }
        ensures refused { OnErr result (log.new ≡ log.old) }
        ensures kinds { IfErr result (IsOneOf (Locked ∷ LastStamp ∷ Memory ∷ [])) }
    {
        match self.try_hold_all() {
            Ok(Some(holds)) => self.count_held(holds, log),
            Ok(None) => Err(RecordFault::Locked),
            Err(_) => Err(self.try_fault_unheld(log)),
        }
    }

    /// As `clone_all`, but it waits for nobody, as `try_count_all`.
    pub fn try_clone_all(&self, log: &mut CallerLog<K, V, A>) -> Result<Vec<(K, V)>, RecordFault>
        requires { log.old.caller < self.now.callers }
        ensures clones { (result ≡ Err Locked) ⊎ ClonesShared ⟦<Self as Recorded>⟧.known self.now log.old log.new result }
        ensures refused { OnErr result (log.new ≡ log.old) }
        ensures kinds { IfErr result (IsOneOf (Locked ∷ LastStamp ∷ Memory ∷ [])) }
    {
        match self.try_hold_all() {
            Ok(Some(holds)) => self.clone_held(holds, log),
            Ok(None) => Err(RecordFault::Locked),
            Err(_) => Err(self.try_fault_unheld(log)),
        }
    }
}
