//! A caller of a recorded map: its way to the map, and its log.
ghost use Rattle.std.specs.Prelude.{◌∷◌, [], ◌≡◌, ◌<◌, ◌⊎◌, Err, IfErr, OnErr};
ghost use Rattle.dash_history.specs.Words.{ClonesShared, CountsShared, IsOneOf, LastStamp, Locked, Logs, Memory, known};

use crate::record::map::RecordedMap;
use crate::record::{CallerLog, RecordFault};
use dash_steps::action::KeptAction;
use dash_steps::kept::{Kept, KeptKey};
use dash_steps::known::Recorded;
use dash_steps::step::{Reply, ShardStep};
use std::hash::BuildHasher;
use std::marker::Model;
use std::rt::Clock;
use std::sync::Wait;

/// A recorded map that threads share, with the right to wait for its locks and the log of one caller, so that no step goes to another
/// log. `RecordedMap::caller` makes it.
///
/// A contract sees the map and the log.
#[derive(Drop)]
pub struct RecCaller<
    'a,
    K: KeptKey,
    V: Kept,
    S: BuildHasher,
    A: KeptAction<K, V>,
    R: Wait + Clock,
> {
    map: &'a RecordedMap<K, V, S, A>,
    rt: &'a R,
    log: CallerLog<K, V, A>,
}

impl<'a, K: KeptKey, V: Kept, S: BuildHasher, A: KeptAction<K, V>, R: Wait + Clock> Model
    for RecCaller<'a, K, V, S, A, R> {
    ghost use Rattle.std.specs.Prelude.{◌<◌};
    ghost use Rattle.dash_history.specs.Caller.{RecCallerState};

    ghost Value = { RecCallerState K V A S };

    ghost view = { λ c. record { map = c.map.now; log = c.log } };

    ghost invariant = { λ c. c.log.caller < c.map.now.callers };
}

impl<K: KeptKey, V: Kept, S: BuildHasher, A: KeptAction<K, V>, R: Wait + Clock> Recorded
    for RecCaller<'_, K, V, S, A, R> {
    type Key = K;

    type Value = V;

    type Action = A;

    type State = S;

    ghost known = { known K.KeptKey V.alike A.KeptAction S.BuildHasher S.Hasher.Hasher };
}

impl<K: KeptKey, V: Kept, S: BuildHasher, A: KeptAction<K, V>> RecordedMap<K, V, S, A> {
    /// The caller of this log, which is one of the map's own. It waits for nobody.
    #[inline]
    pub fn caller<'a, R: Wait + Clock>(
        &'a self,
        rt: &'a R,
        log: CallerLog<K, V, A>,
    ) -> RecCaller<'a, K, V, S, A, R>
        requires { log.caller < self.now.callers }
        ensures { result ≡ record { map = self.now; log = log } }
    {
        RecCaller { map: self, rt, log }
    }
}

impl<
    K: KeptKey + Drop,
    V: Kept + Drop,
    S: BuildHasher,
    A: KeptAction<K, V> + Drop,
    R: Wait + Clock,
> RecCaller<'_, K, V, S, A, R> {
    /// As `RecordedMap::apply`.
    pub fn apply(
        &mut self,
        step: ShardStep<K, V, A>,
    ) -> Result<Reply<K, V>, (ShardStep<K, V, A>, RecordFault)>
        ensures logs { Logs ⟦<Self as Recorded>⟧.known self.old.map self.old.log self.new.log step result }
        ensures locked { result ≡ Err (step, Locked) → ⊥ }
        ensures same { self.new.map ≡ self.old.map }
    {
        self.map.apply(self.rt, &mut self.log, step)
    }

    /// As `RecordedMap::try_apply`.
    pub fn try_apply(
        &mut self,
        step: ShardStep<K, V, A>,
    ) -> Result<Reply<K, V>, (ShardStep<K, V, A>, RecordFault)>
        ensures logs { Logs ⟦<Self as Recorded>⟧.known self.old.map self.old.log self.new.log step result }
        ensures same { self.new.map ≡ self.old.map }
    {
        self.map.try_apply(&mut self.log, step)
    }

    /// As `RecordedMap::count_all`.
    pub fn count_all(&mut self) -> Result<u64, RecordFault>
        ensures counts { CountsShared ⟦<Self as Recorded>⟧.known self.old.map self.old.log self.new.log result }
        ensures refused { OnErr result (self.new ≡ self.old) }
        ensures kinds { IfErr result (IsOneOf (LastStamp ∷ Memory ∷ [])) }
        ensures same { self.new.map ≡ self.old.map }
    {
        self.map.count_all(self.rt, &mut self.log)
    }

    /// As `RecordedMap::clone_all`.
    pub fn clone_all(&mut self) -> Result<Vec<(K, V)>, RecordFault>
        ensures clones { ClonesShared ⟦<Self as Recorded>⟧.known self.old.map self.old.log self.new.log result }
        ensures refused { OnErr result (self.new ≡ self.old) }
        ensures kinds { IfErr result (IsOneOf (LastStamp ∷ Memory ∷ [])) }
        ensures same { self.new.map ≡ self.old.map }
    {
        self.map.clone_all(self.rt, &mut self.log)
    }

    /// The log so far.
    #[inline]
    pub fn log(&self) -> &CallerLog<K, V, A>
        ensures { result.now ≡ self.now.log }
    {
        &self.log
    }

    /// The log, for `gather`. It waits for nobody.
    #[inline]
    pub fn end(self) -> CallerLog<K, V, A>
        ensures log { result ≡ self.entry.log }
        ensures caller { result.caller < self.entry.map.callers }
    {
        self.log
    }
}
