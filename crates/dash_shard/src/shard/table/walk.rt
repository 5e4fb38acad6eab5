//! The iterators over the pairs of a table.
ghost use Rattle.std.specs.Prelude.{◌≡◌, [], length, ⊤};
ghost use Rattle.std.specs.Iterator.{at_most};
ghost use Rattle.std.specs.Map.Iter.{TakesFirst, deref_pair};
ghost use Rattle.dash_shard.specs.inner.Table.{IsTable, pairs_in};
ghost use Rattle.dash_shard.specs.Words.{taken};

use super::Table;
use super::cursor::Cursor;
use super::sweep::let_go;
use crate::shard::table::slots::Slots;
use std::alloc::AllocError;
use std::iter::FusedIterator;
use std::marker::Model;

/// The pairs of a shard, in rising order of slots. A contract sees it as the list of those that are left.
#[derive(Drop)]
pub struct Iter<'a, K, V> {
    // None where there are no slots.
    slots: Option<&'a Slots<(K, V)>>,
    tags: &'a [u8],
    cursor: Cursor,
    len: usize,
}

impl<'a, K, V> Model for Iter<'a, K, V> {
    ghost use Rattle.std.specs.Prelude.{List, length, ◌≡◌};
    ghost use Rattle.std.specs.Prelude.{drop};
    ghost use Rattle.dash_shard.specs.inner.Table.{TellsTaken, values_of};
    ghost use Rattle.dash_shard.specs.inner.Cursors.{IsTagCursor};
    ghost use Rattle.dash_shard.specs.Shard.{taken};

    ghost Value = { List (K × V) };

    ghost view = { λ it. taken (drop it.cursor.position (values_of it.slots)) };

    ghost invariant = { λ it. TellsTaken 0 it.tags.now (values_of it.slots) × IsTagCursor it.tags.now it.cursor
        × (it.len ≡ length (taken (drop it.cursor.position (values_of it.slots)))) };
}

impl<K, V> Table<K, V> {
    /// The pairs, in rising order of slots.
    #[inline]
    pub fn iter(&self) -> Iter<'_, K, V>
        requires { IsTable self.now }
        ensures { result ≡ taken (pairs_in self.now) }
    {
        Iter {
            slots: Some(&self.slots),
            tags: &self.tags,
            cursor: self.cursor(),
            len: self.len,
        }
    }
}

impl<'a, K, V> Iterator for Iter<'a, K, V> {
    type Item = (&'a K, &'a V);

    ghost next_gives = { TakesFirst deref_pair };

    ghost remaining = { λ s. at_most (length s) };

    #[inline(always)]
    fn next(&mut self) -> Option<(&'a K, &'a V)> {
        let slots = self.slots?;
        let slot = self.cursor.next(self.tags)?;
        self.len -= 1;
        let (key, value) = slots.get(slot);
        Some((key, value))
    }

    #[inline]
    fn size_hint(&self) -> (usize, Option<usize>) {
        (self.len, Some(self.len))
    }
}

impl<'a, K, V> ExactSizeIterator for Iter<'a, K, V> {
    #[inline]
    fn len(&self) -> usize {
        self.len
    }
}

impl<'a, K, V> FusedIterator for Iter<'a, K, V> {}

impl<'a, K, V> Clone for Iter<'a, K, V> {
    ghost is_clone = { λ it copy. copy ≡ it };

    ghost is_infallible = { λ _. ⊤ };

    fn clone(&self) -> Result<Self, AllocError> {
        Ok(Iter {
            slots: self.slots,
            tags: self.tags,
            cursor: self.cursor,
            len: self.len,
        })
    }
}

impl<'a, K, V> Default for Iter<'a, K, V> {
    ghost is_default = { λ it. it ≡ [] };

    // No pairs.
    #[inline]
    fn default() -> Self {
        Iter {
            slots: None,
            tags: Default::default(),
            cursor: Cursor::new(),
            len: 0,
        }
    }
}

/// The pairs of a shard that ended, in rising order of slots. A contract sees it as the list of those that are left.
pub struct IntoIter<K, V> {
    slots: Slots<(K, V)>,
    tags: Vec<u8>,
    cursor: Cursor,
}

impl<K, V> Model for IntoIter<K, V> {
    ghost use Rattle.std.specs.Prelude.{List};
    ghost use Rattle.dash_shard.specs.inner.Table.{TellsTaken};
    ghost use Rattle.dash_shard.specs.inner.Cursors.{IsTagCursor};
    ghost use Rattle.dash_shard.specs.Shard.{taken};

    ghost Value = { List (K × V) };

    ghost view = { λ it. taken it.slots.values };

    ghost invariant = { λ it. TellsTaken it.cursor.position it.tags.items it.slots.values × IsTagCursor it.tags.items it.cursor };
}

impl<K: Drop, V: Drop> Drop for IntoIter<K, V> {
    fn drop(self) {
        let IntoIter {
            mut slots,
            tags,
            cursor,
        } = self;
        let_go(&mut slots, &tags, cursor.position);
        slots.end();
    }
}

impl<K, V> Table<K, V> {
    /// The pairs, moved out in rising order of slots.
    #[inline]
    pub fn into_iter(self) -> IntoIter<K, V>
        requires { IsTable self }
        ensures { result ≡ taken (pairs_in self) }
    {
        let cursor = self.cursor();
        let (slots, tags) = self.into_slots();
        IntoIter {
            slots,
            tags,
            cursor,
        }
    }
}

impl<K: Drop, V: Drop> Iterator for IntoIter<K, V> {
    type Item = (K, V);

    ghost next_gives = { TakesFirst (λ p. p) };

    ghost remaining = { λ s. at_most (length s) };

    #[inline(always)]
    fn next(&mut self) -> Option<(K, V)> {
        let slot = self.cursor.next(&self.tags)?;
        Some(self.slots.take(slot))
    }
}

impl<K: Drop, V: Drop> FusedIterator for IntoIter<K, V> {}
