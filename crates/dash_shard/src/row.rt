//! A row of items that can turn into a row of another kind, and back, without memory.
ghost use Rattle.std.specs.Prelude.{◌≡◌, ℕ, ◌<◌, IfOk, IfErr, Some, slice_get, slice_set, slice_index_or, length};
ghost use Rattle.std.specs.Borrow.{Lends, Array, sem};
ghost use Rattle.dash_shard.specs.inner.Rows.{Moved, with_items};

use crate::keyed::Lender;
use std::alloc::{AllocError, Global};
use std::marker::Model;
use std::ops::{Index, IndexMut};

/// Items in order, with room for as many of another kind.
///
/// A contract sees the items.
#[derive(Drop)]
pub struct Row<A, B> {
    items: Vec<A>,
    // Empty, with room for all items.
    room: Vec<B>,
}

impl<A, B> Model for Row<A, B> {
    ghost use Rattle.std.specs.Prelude.{◌≡◌, ◌≤◌, List, [], vec_len, vec_capacity};

    ghost Value = { List A };

    ghost view = { λ r. r.items.items };

    ghost invariant = { λ r. (r.room.items ≡ []) × (vec_len r.items ≤ vec_capacity r.room) };
}

impl<A, B> Lender for Row<A, B> {
    ghost use Rattle.dash_shard.specs.contracts.row.Row.{the_row};

    ghost row = { the_row A.row B.row };
}

impl<A, B> Row<A, B> {
    /// These items, and room beside them, which takes memory.
    pub fn of(alloc: Global, items: Vec<A>) -> Result<Row<A, B>, AllocError>
    where
        A: Drop,
        ensures { IfOk result (λ row. row ≡ items.items) }
    {
        let room = Vec::with_capacity(alloc, items.len())?;
        Ok(Row { items, room })
    }

    /// As `of`, where the items come back if there is no memory.
    pub fn try_of(alloc: Global, items: Vec<A>) -> Result<Row<A, B>, Vec<A>>
        ensures row { IfOk result (λ row. row ≡ items.items) }
        ensures refused { IfErr result (λ back. back ≡ items) }
    {
        match Vec::with_capacity(alloc, items.len()) {
            Ok(room) => Ok(Row { items, room }),
            Err(_) => Err(items),
        }
    }

    /// The items, without the room beside them.
    pub fn into_items(self) -> Vec<A>
        ensures { result.items ≡ self }
    {
        let Row { items, room } = self;
        room.destroy_empty();
        items
    }

    /// How many items there are.
    #[inline]
    pub fn len(&self) -> usize
        ensures { result ≡ length self.now }
    {
        self.items.len()
    }

    /// The items.
    #[inline]
    pub fn items(&self) -> &[A]
        ensures { result.now ≡ self.now }
    {
        self.items.as_slice()
    }

    /// The items, to be changed.
    #[inline]
    pub fn items_mut(&mut self) -> &mut [A]
        ensures* writes_back { sem 𝓛 (Lends ⟦<Self as Lender>⟧.row (Array A.row 0) self.entry result (with_items self.old)) }
        ensures value { result.now ≡ self.old }
    {
        self.items.as_mut_slice()
    }

    /// The allocator of the items.
    #[inline]
    pub fn allocator(&self) -> Global {
        *self.items.allocator()
    }

    /// Each item through `f`, with its slot. The items keep their order. It takes no memory.
    pub fn turn<F: Fn(usize, A) -> B>(self, f: F) -> Row<B, A>
        requires { (i : ℕ) (x : A) → slice_get self i ≡ Some x → F.pre f i x }
        ensures { Moved (F.post f) 0 self result }
    {
        let Row {
            mut items,
            mut room,
        } = self;
        while let Some(item) = items.pop() {
            room.push_reserved(f(items.len(), item));
        }
        room.reverse();
        Row {
            items: room,
            room: items,
        }
    }
}

impl<A, B> Index<usize> for Row<A, B> {
    type Output = A;

    ghost can_index = { λ row slot. slot < length row };

    ghost index_gives = { λ row slot item. item ≡ slice_index_or row slot item };

    #[inline]
    fn index(&self, slot: usize) -> &A {
        &self.items[slot]
    }
}

impl<A, B> IndexMut<usize> for Row<A, B> {
    #[inline]
    fn index_mut(&mut self, slot: usize) -> &mut A
        requires { slot < length self.old }
        ensures* writes_back { sem 𝓛 (Lends ⟦<Self as Lender>⟧.row A.row self.entry result (slice_set self.old slot)) }
        ensures value { result.now ≡ slice_index_or self.old slot result.now }
    {
        &mut self.items[slot]
    }
}
