//! The walks over a map that threads share, which hold one shard after the other.
ghost use Rattle.std.specs.Prelude.{◌≡◌, ◌+◌, ◌<◌, ◌↔◌, IsTrue, IsSome, None, OnOk, OnErr, IfOk, IfSome, IfNone, ⊤};
ghost use Rattle.std.specs.Iterator.{size};
ghost use Rattle.dash_map.specs.Words.{FoundBehind, IsDone, IsOver, IsTagged, IterState, StepsOn, at_start, by, steps_left};
ghost use Rattle.dash_map.specs.inner.Walking.{IsWalk, GivesHere};

use crate::map::DashMap;
use dash_ref::mapref::multiple::RefMulti;
use dash_shard::keyed::Keyed;
use dash_shard::lock::RwLockReadGuard;
use dash_shard::shard::{Cursor, Shard};
use std::alloc::AllocError;
use std::hash::{BuildHasher, Hash};
use std::marker::Model;
use std::rc::Rc;
use std::rt::Clock;
use std::sync::Wait;

/// A walk over the pairs of a map, by rising shard and in each by rising slot: the original's `Iter`. It holds one shard for reading.
///
/// A step that comes to the end of its shard waits until no writer has the next one, holds that, and gives up the old one. So between two
/// steps others may change every shard but the one that is held. A walk at its end holds the last shard until it is dropped. To enter a
/// shard takes memory, once; where there is none the step returns the refusal (4), the walk gives up its hold, and it has ended. So it is
/// where more references to one shard are kept than can be counted in 64 bits.
///
/// A contract sees the map, how many shards were entered, the one that is held, and the position in it where the walk goes on.
pub struct Iter<'a, K: Eq + Hash, V, S: BuildHasher, R> {
    rt: &'a R,
    map: &'a DashMap<K, V, S>,
    shard_i: usize,
    current: Option<Rc<RwLockReadGuard<'a, Shard<K, V, S>>>>,
    // Where the walk goes on in that shard.
    cursor: Cursor,
}

impl<'a, K: Eq + Hash, V, S: BuildHasher, R> Model for Iter<'a, K, V, S, R> {
    ghost use Rattle.std.specs.Option.{option_map};
    ghost use Rattle.std.specs.Prelude.{IfSome};
    ghost use Rattle.dash_shard.specs.Hashing.{key_hash};
    ghost use Rattle.dash_shard.specs.inner.Cursors.{IsSlotCursor};
    ghost use Rattle.dash_map.specs.Walking.{IterState};
    ghost use Rattle.dash_map.specs.inner.Walking.{IsWalk};

    ghost Value = { IterState K V S };

    ghost view = { λ w. record { base = w.map.now; entered = w.shard_i; held = option_map (λ rc. rc.value.value) w.current; position = w.cursor.position } };

    ghost invariant = { λ w. IsWalk (key_hash K.eq K.hash_input S.BuildHasher S.Hasher.Hasher)
        (record { base = w.map.now; entered = w.shard_i; held = option_map (λ rc. rc.value.value) w.current; position = w.cursor.position })
        × IfSome w.current (λ rc. IsSlotCursor rc.value.value.slots w.cursor) };
}

impl<K: Eq + Hash, V, S: BuildHasher, R> Keyed for Iter<'_, K, V, S, R> {
    type Key = K;

    type State = S;

    ghost by = { by K.Hash S.BuildHasher S.Hasher.Hasher };
}

impl<K: Eq + Hash, V, S: BuildHasher, R> Drop for Iter<'_, K, V, S, R> {
    #[inline]
    fn drop(self) {
        let Self {
            rt: _,
            map: _,
            shard_i: _,
            current,
            cursor: _,
        } = self;
        if let Some(guard) = current {
            drop(guard);
        }
    }
}

impl<'a, K: Eq + Hash, V, S: BuildHasher, R> Iter<'a, K, V, S, R> {
    #[inline]
    pub(crate) fn new(map: &'a DashMap<K, V, S>, rt: &'a R) -> Self
        ensures { result ≡ at_start map.now }
    {
        Iter {
            rt,
            map,
            shard_i: 0,
            current: None,
            cursor: Cursor::default(),
        }
    }

    // Ends the walk.
    fn stop(&mut self)
        ensures same { self.new.base ≡ self.old.base }
        ensures over { IsOver self.new }
    {
        self.current = None;
        self.shard_i = self.map.shard_count();
    }

    // The next pair of the shard that is held.
    #[inline(always)]
    fn here(&mut self) -> Option<Result<RefMulti<'a, K, V, S>, AllocError>>
        ensures same { self.new.base ≡ self.old.base }
        ensures pair { IfSome result (λ r. IfOk r (λ item. GivesHere ⟦<Self as Keyed>⟧.by self.old item self.new)) }
        ensures refused { IfSome result (λ r. OnErr r (IsOver self.new)) }
        ensures left { IsDone self.old → result ≡ None }
        ensures done { IfNone result ((self.new ≡ self.old) × IsDone self.old) }
        ensures nearer { IfSome result (λ _. size (steps_left self.new) < size (steps_left self.old)) }
    {
        let guard = self.current.as_ref()?;
        let position = guard.as_ref().advance(&mut self.cursor)?;
        match guard.clone() {
            Ok(guard) => Some(Ok(RefMulti::new(guard, position))),
            Err(refused) => {
                self.stop();
                Some(Err(refused))
            }
        }
    }

    // Whether there is no shard behind the one that is held.
    #[inline]
    fn is_last(&self) -> bool
        ensures last { IsTrue result ↔ (self.now.entered ≡ self.now.base.amount) }
        ensures walk { IsWalk ⟦<Self as Keyed>⟧.by self.now }
    {
        self.shard_i == self.map.shard_count()
    }
}

impl<'a, K: Eq + Hash, V, S: BuildHasher, R: Wait + Clock> Iter<'a, K, V, S, R> {
    // Holds the next shard, and gives up the one before.
    fn enter(&mut self) -> Result<(), AllocError>
        requires { self.old.entered < self.old.base.amount }
        ensures same { self.new.base ≡ self.old.base }
        ensures entered { OnOk result (self.new.entered ≡ self.old.entered + 1) }
        ensures first { OnOk result (self.new.position ≡ 0) }
        ensures held { OnOk result (IsSome self.new.held) }
        ensures found { OnOk result (IfSome self.new.held FoundBehind) }
        ensures refused { OnErr result (IsOver self.new) }
    {
        let map = self.map;
        let guard = map.read_shard(self.rt, self.shard_i);
        let cursor = guard.cursor();
        match Rc::new(map.row.allocator(), guard) {
            Ok(guard) => {
                self.current = Some(guard);
                self.shard_i += 1;
                self.cursor = cursor;
                Ok(())
            }
            Err(_) => {
                self.stop();
                Err(AllocError)
            }
        }
    }
}

impl<'a, K: Eq + Hash, V, S: BuildHasher, R: Wait + Clock> Iterator for Iter<'a, K, V, S, R> {
    type Item = Result<RefMulti<'a, K, V, S>, AllocError>;

    ghost next_gives = { StepsOn (by K.Hash S.BuildHasher S.Hasher.Hasher) };

    ghost remaining = { steps_left };

    #[inline]
    fn size_hint(&self) -> (usize, Option<usize>) {
        (0, None)
    }

    #[inline(always)]
    fn next(&mut self) -> Option<Result<RefMulti<'a, K, V, S>, AllocError>> {
        loop {
            if let Some(item) = self.here() {
                return Some(item);
            }
            if self.is_last() {
                return None;
            }
            if let Err(refused) = self.enter() {
                return Some(Err(refused));
            }
        }
    }
}

/// The copy starts from the beginning, as the original's does, and holds no shard. It takes no memory.
impl<'a, K: Eq + Hash, V, S: BuildHasher, R> Clone for Iter<'a, K, V, S, R> {
    ghost is_clone = { λ it copy. copy ≡ at_start it.base };

    ghost is_infallible = { λ _. ⊤ };

    #[inline]
    fn clone(&self) -> Result<Self, AllocError> {
        Ok(Iter::new(self.map, self.rt))
    }
}
