//! Copies of a map: of each shard, one allocation and what the copies of keys and values take.
ghost use Rattle.std.specs.Prelude.{IfOk};
ghost use Rattle.dash_map.specs.Words.{CopiesAlone, HashAlike, IsAlone, MadeShards, SawShards, by};

use crate::alone::Alone;
use crate::map::DashMap;
use dash_rows::copies::copy_shard;
use dash_shard::keyed::Keyed;
use dash_shard::row::Row;
use dash_steps::kept::{Kept, KeptKey};
use std::alloc::AllocError;
use std::hash::BuildHasher;
use std::rt::Clock;
use std::sync::Wait;

impl<K: KeptKey + Drop, V: Kept + Drop, S: BuildHasher + Clone + Drop> DashMap<K, V, S> {
    // A copy of the map without locks.
    fn copied<R: Wait + Clock>(&self, rt: &R) -> Result<Alone<K, V, S>, AllocError>
        requires { (s t : S) → S.is_clone s t → HashAlike ⟦<Self as Keyed>⟧.by s t }
        ensures saw { IfOk result (λ copy. SawShards ⟦<Self as Keyed>⟧.by self.now (λ a. CopiesAlone K.eq K.alike V.alike S.is_clone a copy)) }
        ensures lawful { IfOk result (IsAlone ⟦<Self as Keyed>⟧.by) }
    {
        let alloc = self.row.allocator();
        let hasher = self.hasher.clone()?;
        let mut copies = Vec::with_capacity(alloc, self.row.len())?;
        for idx in 0..self.row.len() {
            let shard = self.read_shard(rt, idx);
            copies.push_reserved(copy_shard(alloc, &shard)?);
        }
        let row = Row::of(alloc, copies)?;
        Ok(Alone { hasher, row })
    }

    /// A map with copies of the pairs, each alike its source, and a clone of the hasher.
    ///
    /// It waits until no writer has a shard and holds it for reading while it copies it, for one shard after the other: others may change
    /// those that it copied before. It takes memory once a shard and twice for its rows, and what the copies of keys and values take, and
    /// hashes each key once. Where there is none it is refused (4), and keeps nothing. Which slots the pairs have is left open.
    pub fn clone<R: Wait + Clock>(&self, rt: &R) -> Result<Self, AllocError>
        requires { (s t : S) → S.is_clone s t → HashAlike ⟦<Self as Keyed>⟧.by s t }
        ensures { IfOk result (λ copy. SawShards ⟦<Self as Keyed>⟧.by self.now
            (λ a. MadeShards ⟦<Self as Keyed>⟧.by copy (CopiesAlone K.eq K.alike V.alike S.is_clone a))) }
    {
        Ok(self.copied(rt)?.end())
    }
}
