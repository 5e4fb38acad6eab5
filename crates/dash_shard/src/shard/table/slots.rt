//! A row of slots that a caller fills and empties one by one.
ghost use Rattle.std.specs.Prelude.{◌≡◌, ℕ, ◌<◌, ◌^◌, [], None, Some, Option, length, slice_set, IsOk, IfOk, IsSome};
ghost use Rattle.std.specs.Borrow.{sem};
ghost use Rattle.dash_shard.specs.inner.SlotRows.Slots.{value_at, blank, IsBlank};
ghost use Rattle.dash_shard.specs.inner.SlotRows.Lends.{lends_value};

use cells::{Cells, Deed, Start, allocate, deallocate, let_go, no_slots};
use std::alloc::{AllocError, Global};
use std::marker::Model;
use std_alloc::room::may_hold;

mod cells;

// Where a row of no slots begins. Nobody reads it.
static NOWHERE: u8 = 0;

/// A row of slots, each empty or with a value. The memory of an empty slot is not written.
///
/// Which slots have values a caller knows by marks of its own, and it takes each value out before the row ends.
pub struct Slots<T> {
    start: Start<T>,
    cells: Cells<T>,
    // None for no slots.
    deed: Option<Deed<T, Global>>,
    len: usize,
    alloc: Global,
}

impl<T> Model for Slots<T> {
    ghost use Rattle.dash_shard.specs.inner.SlotRows.Slots.{SlotsState, slots_code};
    ghost use Rattle.dash_shard.specs.inner.SlotRows.Row.{seen, IsRow};

    ghost Value = { SlotsState T };

    ghost coded = { slots_code T.code };

    ghost view = { λ s. seen s.cells };

    ghost invariant = { λ s. IsRow s.start s.cells s.deed s.len };
}

impl<T> Slots<T> {
    /// A row of no slots, which takes no memory.
    #[inline]
    pub fn new(alloc: Global) -> Self
        ensures { result ≡ blank 0 }
    {
        let (start, cells) = no_slots(&NOWHERE);
        Slots {
            start,
            cells,
            deed: None,
            len: 0,
            alloc,
        }
    }

    /// A row of `len` empty slots, which takes memory, but for a length of 0.
    pub fn with_len(alloc: Global, len: usize) -> Result<Self, AllocError>
        ensures row { IfOk result (λ s. s ≡ blank len) }
        ensures free { len ≡ 0 → IsOk result }
    {
        if len == 0 {
            return Ok(Slots::new(alloc));
        }
        if !may_hold::<T>(len) {
            return Err(AllocError);
        }
        let (start, cells, deed) = allocate(&alloc, len)?;
        Ok(Slots {
            start,
            cells,
            deed: Some(deed),
            len,
            alloc,
        })
    }

    /// Where the memory is taken from.
    #[inline]
    pub fn allocator(&self) -> Global {
        self.alloc
    }

    /// How many slots there are.
    #[inline(always)]
    pub fn len(&self) -> usize
        ensures { result ≡ length self.now.values }
    {
        self.len
    }

    /// Puts a value in an empty slot. Proofs know the slot by the label from then on, which costs nothing.
    #[inline(always)]
    pub fn put(&mut self, index: usize, label: u64, value: T)
        requires within { index < length self.old.values }
        requires empty { value_at self.old index ≡ None }
        ensures values { self.new.values ≡ slice_set self.old.values index (Some value) }
        ensures labels { self.new.labels ≡ slice_set self.old.labels index label }
    {
        self.cells.put(self.start, index, value);
        self.cells.set_label(index, label);
    }

    /// Puts a value in an empty slot, which keeps its label.
    #[inline(always)]
    pub fn put_back(&mut self, index: usize, value: T)
        requires within { index < length self.old.values }
        requires empty { value_at self.old index ≡ None }
        ensures values { self.new.values ≡ slice_set self.old.values index (Some value) }
        ensures labels { self.new.labels ≡ self.old.labels }
    {
        self.cells.put(self.start, index, value)
    }

    /// Takes the value out of a slot.
    #[inline(always)]
    pub fn take(&mut self, index: usize) -> T
        requires { IsSome (value_at self.old index) }
        ensures value { value_at self.old index ≡ Some result }
        ensures values { self.new.values ≡ slice_set self.old.values index None }
        ensures labels { self.new.labels ≡ self.old.labels }
    {
        self.cells.take(self.start, index)
    }

    /// The value of a slot that has one.
    #[inline(always)]
    pub fn get(&self, index: usize) -> &T
        requires { IsSome (value_at self.now index) }
        ensures { value_at self.now index ≡ Some result.now }
    {
        // By this test the compiler keeps a look-up that finds its pair apart from one that doesn't: without it, one among a million
        // pairs takes up to a fifth longer.
        match &self.deed {
            Some(_) => self.cells.get(self.start, index),
            None => unreachable!(),
        }
    }

    /// The value of a slot that has one, to be written.
    #[inline(always)]
    pub fn get_mut(&mut self, index: usize) -> &mut T
        requires { IsSome (value_at self.old index) }
        ensures* writes_back { sem 𝓛 (lends_value T.row self.entry index result) }
        ensures value { value_at self.old index ≡ Some result.now }
    {
        self.cells.get_mut(self.start, index)
    }

    /// Ends a row none of whose slots has a value, and gives its memory back.
    pub fn end(self)
        requires { IsBlank self }
    {
        let Slots {
            start,
            cells,
            deed,
            len,
            alloc,
        } = self;
        match deed {
            Some(deed) => deallocate(&alloc, start, len, cells, deed),
            None => let_go(cells),
        }
    }
}
