//! Calls of threads on a map that they share, for a key and what stands there.
ghost use Rattle.dash_map.specs.Words.{IsGotEntry, UnlessLockedOut};

use crate::map::DashMap;
use dash_ref::held::IntoShard;
use dash_ref::mapref::entry::{Entry, EntryRefused, TryEntryRefused};
use dash_shard::keyed::Keyed;
use std::hash::{BuildHasher, Hash};
use std::rt::Clock;
use std::sync::Wait;

impl<K: Eq + Hash + Drop, V: Drop, S: BuildHasher> DashMap<K, V, S> {
    /// The pair whose key equals `key`, or room for one, with a hold of the key's shard for writing. Waits until nobody has the shard.
    ///
    /// Till the entry is dropped, whoever wants the shard waits, this thread too. It takes memory for a vacant key where its shard is
    /// full, and is refused (2) only for want of it.
    #[inline]
    pub fn entry<R: Wait + Clock>(
        &self,
        rt: &R,
        key: K,
    ) -> Result<Entry<'_, K, V, S>, EntryRefused<K>>
        ensures { IsGotEntry ⟦<Self as Keyed>⟧.by self.now key result }
    {
        let (hash, idx) = self.route_of(&key);
        Entry::find(self.lock_of(idx).write(rt).shard(), hash, key)
    }

    /// As `entry`, for a caller who waits for nobody: it is refused too where `RwLock::try_write` doesn't get the key's shard (9),
    /// which says nothing of who has it.
    #[inline]
    pub fn try_entry(&self, key: K) -> Result<Entry<'_, K, V, S>, TryEntryRefused<K>>
        ensures { UnlessLockedOut key result (IsGotEntry ⟦<Self as Keyed>⟧.by self.now key) }
    {
        let (hash, idx) = self.route_of(&key);
        let Some(shard) = self.try_shards_mut(idx) else {
            return Err(TryEntryRefused::Locked(key));
        };
        match Entry::find(shard, hash, key) {
            Ok(entry) => Ok(entry),
            Err(refused) => Err(TryEntryRefused::Memory(refused.key)),
        }
    }
}
