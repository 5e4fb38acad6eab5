//! A table that takes memory, and one that gives it back: the pairs move to other slots.
ghost use Rattle.std.specs.Prelude.{ℕ, ◌≡◌, ◌⊎◌, ◌+◌, ◌*◌, ◌^◌, ◌<◌, ◌≤◌, [], None, IsOk, IfOk, OnOk, OnErr, length, replicate};
ghost use Rattle.dash_shard.specs.Words.{NoMemory, close_room, taken};
ghost use Rattle.dash_shard.specs.inner.Table.{IsTable, IsHashedBy, CarriesOnce, IsCarried, IsEnough, IsMoved, NoMemoryFor, TellsTaken, limit, slots_in, groups_in, pairs_in, hashes_in};
ghost use Rattle.dash_shard.specs.inner.Cursors.{ComesInGroups};
ghost use Rattle.dash_shard.specs.inner.SlotRows.Slots.{IsBlank};

use super::Table;
use super::cursor::Cursor;
use super::marks::EMPTY;
use crate::shard::table::slots::Slots;
use std::alloc::{AllocError, Global};
use std::hash::{BuildHasher, Hash};
use std::mem;

// Up to so many groups, which a processor's own cache holds, their number is a power of two.
const LARGE: usize = 4_096;

// Where more are needed, the next power of two may have more slots than can be counted.
const MOST: usize = 1 << 59;

// The least power of two of groups with room for so many pairs, if their slots can be counted.
fn power_for(pairs: usize) -> Result<usize, AllocError>
    requires { 0 < pairs }
    ensures enough { IfOk result (IsEnough pairs) }
    ensures many { OnErr result (14 * 2 ^ 59 < pairs) }
{
    let needed = (pairs - 1) / 14 + 1;
    if needed > MOST {
        return Err(AllocError);
    }
    Ok(needed.next_power_of_two())
}

// The least number of groups with room for so many pairs: a power of two or, where there are many, three times one.
fn groups_for(pairs: usize) -> Result<usize, AllocError>
    requires { 0 < pairs }
    ensures enough { IfOk result (IsEnough pairs) }
    ensures many { OnErr result (14 * 2 ^ 59 < pairs) }
{
    let power = power_for(pairs)?;
    let fewer = power / 4 * 3;
    Ok(if pairs > 14 * LARGE && pairs <= 14 * fewer {
        fewer
    } else {
        power
    })
}

// Moves the pairs to a table that has room for them.
fn move_pairs<K: Eq + Hash, V, S: BuildHasher>(
    slots: &mut Slots<(K, V)>,
    tags: &[u8],
    table: &mut Table<K, V>,
    hasher: &S,
)
    requires groups { ComesInGroups (length tags.now) }
    requires tells { TellsTaken 0 tags.now slots.old.values }
    requires table { IsTable table.old }
    requires empty { taken (pairs_in table.old) ≡ [] }
    requires room { length (taken slots.old.values) ≤ limit (slots_in table.old) }
    requires hashed { IsHashedBy K.hash_input S.BuildHasher S.Hasher.Hasher hasher.now slots.old }
    ensures once { CarriesOnce slots.old table.new.slots }
    ensures carried { IsCarried slots.old table.new.slots }
    ensures len { table.new.len ≡ length (taken slots.old.values) }
    ensures slots { slots_in table.new ≡ slots_in table.old }
    ensures table { IsTable table.new }
    ensures none { IsBlank slots.new }
{
    let mut cursor = Cursor::new();
    while let Some(slot) = cursor.next(tags) {
        let (key, value) = slots.take(slot);
        let hash = hasher.hash_one(&key);
        table.push(hash, key, value);
    }
}

impl<K, V> Table<K, V> {
    // An empty table of so many groups of slots. An error is a refusal of memory.
    fn with_groups(alloc: Global, count: usize) -> Result<Self, AllocError>
        requires { 16 * count < 2 ^ 64 }
        ensures table { IfOk result IsTable }
        ensures empty { IfOk result (λ t. taken (pairs_in t) ≡ []) }
        ensures slots { IfOk result (λ t. slots_in t ≡ 16 * count) }
        ensures err { OnErr result (NoMemoryFor count) }
    {
        let slots = 16 * count;
        let tags = vec![in alloc; EMPTY; slots]?;
        let counts = vec![in alloc; 0; count]?;
        let slots = Slots::with_len(alloc, slots)?;
        Ok(Table {
            slots,
            tags,
            counts,
            len: 0,
        })
    }

    /// An empty table with room for `capacity` pairs, of a power of two of groups, among which a hash's first group is found soonest.
    pub fn with_capacity(alloc: Global, capacity: usize) -> Result<Self, AllocError>
        ensures table { IfOk result IsTable }
        ensures empty { IfOk result (λ t. taken (pairs_in t) ≡ []) }
        ensures room { IfOk result (λ t. capacity ≤ limit (slots_in t)) }
        ensures free { capacity ≡ 0 → IsOk result }
    {
        if capacity == 0 {
            return Ok(Table::new(alloc));
        }
        Table::with_groups(alloc, power_for(capacity)?)
    }

    // Moves the pairs to a table of so many groups, which takes memory.
    fn rehash<S: BuildHasher>(&mut self, count: usize, hasher: &S) -> Result<(), AllocError>
    where
        K: Eq + Hash,
        requires table { IsTable self.old }
        requires hashed { IsHashedBy K.hash_input S.BuildHasher S.Hasher.Hasher hasher.now self.old.slots }
        requires room { self.old.len ≤ limit (16 * count) }
        requires counted { 16 * count < 2 ^ 64 }
        ensures moved { OnOk result (IsMoved self.old self.new) }
        ensures slots { OnOk result (slots_in self.new ≡ 16 * count) }
        ensures err { OnErr result (self.new ≡ self.old) }
        ensures memory { OnErr result (NoMemoryFor count) }
    {
        let mut table = Table::with_groups(self.allocator(), count)?;
        move_pairs(&mut self.slots, &self.tags, &mut table, hasher);
        mem::replace(self, table).end_blank();
        Ok(())
    }

    /// Makes room for so many pairs more, where there is less.
    pub fn reserve<S: BuildHasher>(
        &mut self,
        additional: usize,
        hasher: &S,
    ) -> Result<(), AllocError>
    where
        K: Eq + Hash,
        requires table { IsTable self.old }
        requires hashed { IsHashedBy K.hash_input S.BuildHasher S.Hasher.Hasher hasher.now self.old.slots }
        ensures moved { IsMoved self.old self.new }
        ensures ok { OnOk result (self.new.len + additional ≤ limit (slots_in self.new)) }
        ensures kept { self.old.len + additional ≤ limit (slots_in self.old) → self.new ≡ self.old }
        ensures err { OnErr result (self.new ≡ self.old) }
        ensures full { OnErr result (limit (slots_in self.old) < self.old.len + additional) }
    {
        let Some(wanted) = self.len.checked_add(additional) else {
            return Err(AllocError);
        };
        if wanted <= self.capacity() {
            return Ok(());
        }
        self.rehash(groups_for(wanted)?, hasher)
    }

    /// Makes room for one more pair in a full table.
    #[cold]
    #[inline(never)]
    pub fn grow<S: BuildHasher>(&mut self, hasher: &S) -> Result<(), AllocError>
    where
        K: Eq + Hash,
        requires table { IsTable self.old }
        requires hashed { IsHashedBy K.hash_input S.BuildHasher S.Hasher.Hasher hasher.now self.old.slots }
        ensures moved { OnOk result (IsMoved self.old self.new) }
        ensures ok { OnOk result (self.new.len < limit (slots_in self.new)) }
        ensures err { OnErr result (self.new ≡ self.old) }
    {
        self.rehash(groups_for(self.len + 1)?, hasher)
    }

    /// Moves the pairs to as few groups of slots as hold them, and to none for no pairs, where there is memory for these.
    pub fn shrink<S: BuildHasher>(&mut self, hasher: &S)
    where
        K: Eq + Hash,
        requires table { IsTable self.old }
        requires hashed { IsHashedBy K.hash_input S.BuildHasher S.Hasher.Hasher hasher.now self.old.slots }
        ensures moved { IsMoved self.old self.new }
        ensures slots { slots_in self.new ≤ slots_in self.old }
        ensures none { self.old.len ≡ 0 → slots_in self.new ≡ 0 }
        ensures close { (limit (slots_in self.new) ≤ close_room self.old.len) ⊎ ((self.new ≡ self.old) × NoMemory (close_room self.old.len)) }
    {
        if self.len == 0 {
            let blank = Table::new(self.allocator());
            mem::replace(self, blank).end_blank();
            return;
        }
        let Ok(count) = groups_for(self.len) else {
            return;
        };
        if count < self.groups() {
            let _ = self.rehash(count, hasher);
        }
    }
}
