//! A set of one owner, without locks.
ghost use Rattle.std.specs.Prelude.{◌≡◌, ◌≤◌, ◌==◌, length, is_some, IfErr, IfOk, IfSome, OnErr};
ghost use Rattle.std.specs.Option.{option_map};
ghost use Rattle.std.specs.Fn.{FnOnceTakesAt};
ghost use Rattle.std.specs.Map.Calls.{CallableOnEachPair};
ghost use Rattle.dashmap.specs.Words.{AnsweredKey, AreBehind, AreEnded, CalledAtKey, ClearsAlone, HasNoRoom, Insert, IsAlone, LeftBehind, Old, RemoveIf, RemovesAlone, RemovesAloneBy, ReservesAlone, RetainsAlone, ShrinksAlone, TakesAlone, TakesKey, at_named, by, contents, keys_of, len_in, locked, member, room_in, stood};

use super::DashSet;
use crate::iter_set::OwningIter;
use dash_map::alone::Alone;
use dash_map::read_only::Keys;
use dash_shard::error::TryReserveError;
use dash_shard::hash::FixedState;
use dash_shard::keyed::Keyed;
use dash_shard::query::Query;
use std::hash::{BuildHasher, Hash};
use std::marker::Model;

/// A set of one owner: its shards without locks. The original lends the set by `&mut` for this.
///
/// A contract sees it as a map of one owner to unit.
#[derive(Drop)]
pub struct AloneSet<K: Eq + Hash, S: BuildHasher = FixedState> {
    pub(crate) inner: Alone<K, (), S>,
}

impl<K: Eq + Hash, S: BuildHasher> Model for AloneSet<K, S> {
    ghost use Rattle.dash_map.specs.Alone.{AloneState};

    ghost Value = { AloneState K (Unit {0}) S };

    ghost view = { λ s. s.inner };
}

impl<K: Eq + Hash, S: BuildHasher> Keyed for AloneSet<K, S> {
    type Key = K;

    type State = S;

    ghost by = { by K.Hash S.BuildHasher S.Hasher.Hasher };
}

impl<K: Eq + Hash + Drop, S: BuildHasher> AloneSet<K, S> {
    /// Puts the key, unless an equal one is there, which then stays. Says whether it is new.
    ///
    /// Takes memory for a new key where its shard is full, and only then is refused (16): the key comes back, and the set is as it was.
    #[inline]
    pub fn insert(&mut self, key: K) -> Result<bool, K>
        ensures taken { IfOk result (λ new. TakesAlone ⟦<Self as Keyed>⟧.by self.old self.new (Insert key tt) (Old (stood new))) }
        ensures refused { IfErr result (λ k. (k ≡ key) × (self.new ≡ self.old)) }
        ensures no_room { OnErr result (HasNoRoom ⟦<Self as Keyed>⟧.by key self.old) }
    {
        match self.inner.insert(key, ()) {
            Ok(old) => Ok(old.is_none()),
            Err(refused) => Err(refused.key),
        }
    }

    /// Takes the key that equals `key` out, and returns it. It takes no memory, and can't be refused.
    #[inline]
    pub fn remove<Q: Query<K>>(&mut self, key: Q) -> Option<K>
        ensures { RemovesAlone ⟦<Self as Keyed>⟧.by (Q.names key) self.old self.new (member result) }
    {
        let (key, _) = self.inner.remove(key)?;
        Some(key)
    }

    /// Takes the key that equals `key` out if `f` returns true on it, and returns it. It takes no memory, and can't be refused.
    #[inline]
    pub fn remove_if<Q: Query<K>, F: FnOnce(&K) -> bool>(&mut self, key: Q, f: F) -> Option<K>
        requires { IfSome (at_named (Q.names key) (contents self.old)) (λ p. FnOnceTakesAt F.FnOnce f p.0) }
        ensures { RemovesAloneBy ⟦<Self as Keyed>⟧.by (Q.names key) self.old self.new RemoveIf (member result) (AnsweredKey F.FnOnce f) }
    {
        let (key, _) = self.inner.remove_if(
            key,
            |found: &K, _: &()| -> bool
                requires { F.pre f found }
                ensures { F.post f found.entry result }
            { f(found) },
        )?;
        Some(key)
    }

    /// The key that equals `key`.
    #[inline]
    pub fn get<Q: Query<K>>(&self, key: Q) -> Option<&K>
        ensures key { member (option_map (λ k. k.now) result) ≡ at_named (Q.names key) (contents self.now) }
        ensures lawful { IsAlone ⟦<Self as Keyed>⟧.by self.now }
    {
        let (key, _) = self.inner.get(key)?;
        Some(key)
    }

    /// Whether there is a key that equals `key`.
    #[inline]
    pub fn contains<Q: Query<K>>(&self, key: Q) -> bool
        ensures found { result ≡ is_some (at_named (Q.names key) (contents self.now)) }
        ensures lawful { IsAlone ⟦<Self as Keyed>⟧.by self.now }
    {
        self.inner.contains_key(key)
    }

    /// Keeps the keys on which `f` returns true, and lets the others go.
    ///
    /// `f` is called once at each key, shard after shard. The room stays. It takes no memory, can't be refused, and waits for nobody.
    pub fn retain<F: FnMut(&K) -> bool>(&mut self, mut f: F)
        requires { CallableOnEachPair (CalledAtKey F.FnMut) (TakesKey F.FnMut) f (contents self.old) }
        ensures retains { RetainsAlone K.eq (CalledAtKey F.FnMut) f self.old self.new }
        ensures lawful { IsAlone ⟦<Self as Keyed>⟧.by self.new }
    {
        self.inner.retain(
            |key: &K, _: &mut ()| -> bool
                requires { F.pre f key }
                ensures { F.step f.entry key.entry result f.exit }
            { f(key) },
        );
    }

    /// Lets all keys go. The room stays, for keys that come later. It takes no memory, and waits for nobody.
    pub fn clear(&mut self)
        ensures clears { ClearsAlone self.old self.new }
        ensures lawful { IsAlone ⟦<Self as Keyed>⟧.by self.new }
    {
        self.inner.clear();
    }

    /// How many keys there are, saturating at 2^64 - 1. It asks each shard once.
    pub fn len(&self) -> usize
        ensures len { result ≡ len_in self.now }
        ensures lawful { IsAlone ⟦<Self as Keyed>⟧.by self.now }
    {
        self.inner.len()
    }

    /// Whether there are no keys.
    pub fn is_empty(&self) -> bool
        ensures empty { result ≡ (length (contents self.now) == 0) }
        ensures lawful { IsAlone ⟦<Self as Keyed>⟧.by self.now }
    {
        self.inner.is_empty()
    }

    /// How many keys there may be before some shard takes memory, if they spread as the shards' room does, saturating at 2^64 - 1. It
    /// asks each shard once.
    pub fn capacity(&self) -> usize
        ensures capacity { result ≡ room_in self.now }
        ensures holds { len_in self.now ≤ result }
        ensures lawful { IsAlone ⟦<Self as Keyed>⟧.by self.now }
    {
        self.inner.capacity()
    }

    /// Makes room in each shard for so many keys more, where there is less, and the keys stay.
    ///
    /// It asks the shards in their order, and is refused (11) at the first that finds no memory: those before it keep their room.
    pub fn try_reserve(&mut self, additional: usize) -> Result<(), TryReserveError>
        ensures reserves { ReservesAlone K.eq additional self.old self.new result }
        ensures lawful { IsAlone ⟦<Self as Keyed>⟧.by self.new }
    {
        self.inner.try_reserve(additional)
    }

    /// Moves each shard's keys to as few slots as hold them, which gives the rest of the memory back.
    ///
    /// A shard takes memory for its new slots, and keeps the old ones where there is none. It waits for nobody.
    pub fn shrink_to_fit(&mut self)
        ensures shrinks { ShrinksAlone K.eq self.old self.new }
        ensures lawful { IsAlone ⟦<Self as Keyed>⟧.by self.new }
    {
        self.inner.shrink_to_fit();
    }

    /// The keys, by rising shard and in each by rising slot.
    pub fn iter(&self) -> Keys<'_, K, (), S>
        ensures keys { result ≡ keys_of (contents self.now) }
        ensures lawful { IsAlone ⟦<Self as Keyed>⟧.by self.now }
    {
        self.inner.keys()
    }

    /// The set behind its locks again. It takes no memory.
    pub fn end(self) -> DashSet<K, S>
        ensures map { result ≡ locked self }
        ensures left { AreBehind ⟦<Self as Keyed>⟧.by LeftBehind result self }
    {
        DashSet {
            inner: self.inner.end(),
        }
    }
}

impl<K: Eq + Hash + Drop, S: BuildHasher + Drop> IntoIterator for AloneSet<K, S> {
    type Item = K;

    type IntoIter = OwningIter<K, S>;

    ghost into_iter_gives = { λ s keys. keys ≡ keys_of (contents s) };

    /// The keys, moved out. It takes no memory.
    fn into_iter(self) -> OwningIter<K, S> {
        OwningIter::new(self.inner.into_iter())
    }
}

impl<K: Eq + Hash, S: BuildHasher> DashSet<K, S> {
    /// The set without its locks. It takes no memory, and waits for nobody, even where a hold was leaked.
    pub fn alone(self) -> AloneSet<K, S>
        ensures { AreEnded ⟦<Self as Keyed>⟧.by self result }
    {
        AloneSet {
            inner: self.inner.alone(),
        }
    }
}
