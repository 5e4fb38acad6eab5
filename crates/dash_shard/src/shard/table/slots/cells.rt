//! A block of memory as a row of slots: where it begins, the slots that it has, and the right to give it back.
ghost use Rattle.std.specs.Prelude.{◌≡◌, ℕ, ◌<◌, List, [], Option, None, Some, length, get_or, slice_set, replicate, IfOk, ⊤};
ghost use Rattle.std.specs.Borrow.{sem};
ghost use Rattle.std.specs.Vec.Ownership.{FitsInBlock};
ghost use base.Fml.{ftrue};
ghost use denote.RawPtr.{Ptr};
ghost use Rattle.circular_buffer.specs.Places.{IsFilled};
ghost use Rattle.circular_buffer.specs.Ownership.{cells_own, cells_lent, deed_owns};

use std::alloc::{AllocError, Allocator};
use std::marker::{Model, PhantomData, Send, Sync};
use std::mem::{align_of, size_of};

/// Where a block begins. It owns nothing.
pub struct Start<T> {
    ptr: *mut T,
}

impl<T> Clone for Start<T> {
    ghost is_clone = { λ x y. y ≡ x };

    ghost is_infallible = { λ _. ⊤ };

    fn clone(&self) -> Result<Start<T>, AllocError> {
        Ok(*self)
    }
}

impl<T> Copy for Start<T> {}

unsafe impl<T> Send for Start<T> {}

unsafe impl<T> Sync for Start<T> {}

/// The slots of a block, and for each the number that its last value was put with, which is known to proofs alone. It takes no space.
pub struct Cells<T> {
    mark: PhantomData<*const T>,
    ghost at: { Ptr },
    ghost slots: { List (Option T) },
    ghost labels: { List ℕ },
}

impl<T> Model for Cells<T> {
    ghost also_owns = { λ c. cells_own T.row c.at c.slots };

    ghost also_shares = { λ c _ κ. cells_lent T.row c.at c.slots κ };
}

unsafe impl<T: Send> Send for Cells<T> {}

unsafe impl<T: Sync> Sync for Cells<T> {}

/// The right to give a block of `len` slots back to its allocator. It takes no space.
pub struct Deed<T, A: Allocator> {
    mark: PhantomData<*const (T, A)>,
    ghost at: { Ptr },
    ghost len: { ℕ },
    ghost alloc: { A },
}

impl<T, A: Allocator> Model for Deed<T, A> {
    ghost also_owns = { λ d. deed_owns T.row (A.dealloc_token d.alloc) d.at d.len };

    ghost also_shares = { λ _ _ _. ftrue };
}

unsafe impl<T, A: Allocator + Send> Send for Deed<T, A> {}

// A `&` to it shows nothing.
unsafe impl<T, A: Allocator> Sync for Deed<T, A> {}

// The slots of a row that has none, at any place: they take no memory.
pub(crate) fn no_slots<T>(at: &u8) -> (Start<T>, Cells<T>)
    ensures { (result.1.at ≡ result.0.ptr) × (result.1.slots ≡ []) × (result.1.labels ≡ []) }
{
    let start = Start {
        ptr: at as *const u8 as *mut T,
    };
    (start, Cells { mark: PhantomData })
}

// Lets the slots of a row go that has none.
pub(crate) fn let_go<T>(cells: Cells<T>)
    requires { cells.slots ≡ [] }
{
    let Cells { mark: _ } = cells;
}

// A block of `len` empty slots.
pub(crate) fn allocate<T, A: Allocator>(
    alloc: &A,
    len: usize,
) -> Result<(Start<T>, Cells<T>, Deed<T, A>), AllocError>
    requires { FitsInBlock T.row len }
    ensures empty { IfOk result (λ r. (r.1.at ≡ r.0.ptr) × (r.1.slots ≡ replicate len None) × (r.1.labels ≡ replicate len 0)) }
    ensures deed { IfOk result (λ r. (r.2.at ≡ r.0.ptr) × (r.2.len ≡ len) × (r.2.alloc ≡ alloc.now)) }
{
    match alloc.allocate(len * size_of::<T>(), align_of::<T>()) {
        Ok(block) => {
            let start = Start {
                ptr: block as *mut T,
            };
            Ok((
                start,
                Cells { mark: PhantomData },
                Deed { mark: PhantomData },
            ))
        }
        Err(error) => Err(error),
    }
}

// Gives a block back, none of whose slots has a value.
pub(crate) fn deallocate<T, A: Allocator>(
    alloc: &A,
    start: Start<T>,
    len: usize,
    cells: Cells<T>,
    deed: Deed<T, A>,
)
    requires empty { (cells.at ≡ start.ptr) × (cells.slots ≡ replicate len None) }
    requires deed { (deed.at ≡ start.ptr) × (deed.len ≡ len) × (deed.alloc ≡ alloc.now) }
{
    let Cells { mark: _ } = cells;
    let Deed { mark: _ } = deed;
    unsafe {
        alloc.deallocate(start.ptr as *mut u8, len * size_of::<T>(), align_of::<T>());
    }
}

impl<T> Cells<T> {
    ghost use Rattle.dash_shard.specs.inner.SlotRows.Cells.{with_slot, with_label, lends_cell};

    // Puts a value in an empty slot.
    #[inline(always)]
    pub(crate) fn put(&mut self, start: Start<T>, index: usize, item: T)
        requires { (start.ptr ≡ self.old.at) × (index < length self.old.slots) × (get_or self.old.slots index None ≡ None) }
        ensures { self.new ≡ with_slot self.old index (Some item) }
    {
        unsafe { start.ptr.add(index).write(item) }
    }

    // Gives a slot another label. That is nothing but for proofs.
    #[inline(always)]
    pub(crate) fn set_label(&mut self, _index: usize, _label: u64)
        ensures { self.new ≡ with_label self.old _index _label }
    {}

    // Takes the value out of a slot.
    #[inline(always)]
    pub(crate) fn take(&mut self, start: Start<T>, index: usize) -> T
        requires { (start.ptr ≡ self.old.at) × IsFilled self.old.slots index }
        ensures value { get_or self.old.slots index None ≡ Some result }
        ensures slots { self.new ≡ with_slot self.old index None }
    {
        unsafe { start.ptr.add(index).read() }
    }

    // The value of a slot.
    #[inline(always)]
    pub(crate) fn get(&self, start: Start<T>, index: usize) -> &T
        requires { (start.ptr ≡ self.now.at) × IsFilled self.now.slots index }
        ensures { get_or self.now.slots index None ≡ Some result.now }
    {
        unsafe { &*start.ptr.add(index) }
    }

    // The value of a slot, to be written.
    #[inline(always)]
    pub(crate) fn get_mut(&mut self, start: Start<T>, index: usize) -> &mut T
        requires { (start.ptr ≡ self.old.at) × IsFilled self.old.slots index }
        ensures* writes_back { sem 𝓛 (lends_cell T.row self.entry index result) }
        ensures value { get_or self.old.slots index None ≡ Some result.now }
    {
        unsafe { &mut *start.ptr.add(index) }
    }
}
