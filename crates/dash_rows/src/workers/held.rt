//! Steps taken on parts that are held one at a time, as behind locks, by several workers.
ghost use Rattle.std.specs.Prelude.{◌≡◌, ℕ, ◌<◌, List, All, OnOk, false, length, get_or};
ghost use Rattle.std.specs.Thread.{IsSync};
ghost use Rattle.dash_rows.specs.Words.{steps_of};
ghost use Rattle.dash_rows.specs.inner.Lanes.{HasRoom, steps_in};
ghost use Rattle.dash_rows.specs.inner.Held.{HasRunHeld, IsReadyToHold};

use crate::workers::deal::deal;
use crate::workers::lane::Lane;
use crate::workers::run::outcome;
use dash_shard::part::Dealer;
use std::alloc::AllocError;
use std::thread::{Threads, for_each_mut};

/// Holds parts by their numbers, each while steps are taken on it. Others may change a part that is not held.
pub trait Holder<T>: Sync {
    /// There is a part of this number.
    ghost has: { Self → ℕ → Type 0 };

    /// The step with this mark goes to the part of this number.
    ghost fits: { Self → ℕ → T → ℕ → Type 0 };

    /// The part of this number took these steps in one hold.
    ghost took: { Self → ℕ → List T → Type 0 };

    /// Holds the part of this number, and takes a lane's steps on it, as `run_lane` does.
    fn run(&self, number: usize, lane: &mut Lane<T, ()>)
        requires has { has self.now number }
        requires fits { All (λ e. fits self.now number e.1 e.0) lane.old.steps.items }
        requires room { HasRoom lane.old }
        ensures { lane.new.refused ≡ false → took self.now number (steps_in lane.old.steps.items) };
}

// Takes a lane's steps in one hold of their part. Without steps there is no hold.
fn run_held<T: Drop, H: Holder<T>>(holder: &H, number: usize, lane: &mut Lane<T, ()>)
    requires { IsReadyToHold (H.has holder.now number) (H.fits holder.now number) lane.old }
    ensures { HasRunHeld (H.took holder.now number) lane.old lane.new }
{
    if !lane.steps.is_empty() {
        holder.run(number, lane);
    }
}

// Takes the steps of all lanes, those of each in one hold of its part.
fn hold_lanes<R: Threads + Sync, T: Send + Drop, H: Holder<T>>(
    rt: &R,
    holder: &H,
    workers: usize,
    lanes: &mut [Lane<T, ()>],
) -> Result<(), AllocError>
    requires { (s : ℕ) (d : _) → s < length lanes.old
        → IsReadyToHold (H.has holder.now s) (H.fits holder.now s) (get_or lanes.old s d) }
    ensures ran { (s : ℕ) (d : _) → s < length lanes.old
        → HasRunHeld (H.took holder.now s) (get_or lanes.old s d) (get_or lanes.new s d) }
    ensures whole { OnOk result (All (λ lane. lane.refused ≡ false) lanes.new) }
    ensures count { length lanes.new ≡ length lanes.old }
{
    for_each_mut(
        rt,
        lanes,
        workers.max(1),
        &|number: usize, lane: &mut Lane<T, ()>|
            requires { IsReadyToHold (H.has holder.now number) (H.fits holder.now number) lane.now }
            ensures { HasRunHeld (H.took holder.entry.now number) lane.entry.now lane.exit.now }
        { run_held(holder, number, lane) },
    );
    outcome(lanes)
}

/// Takes the steps, each on its part: each part's in their order and in one hold, those of different parts by so many workers. 0 workers
/// count as 1. A part to which no step goes is not held.
///
/// All memory that this takes itself it takes before the first hold: where that is refused, no step is taken. The first step that a part
/// refuses ends that part's run, and the others go on.
pub fn put_held<R: Threads + Sync, T: Send + Drop, D: Dealer<T>, H: Holder<T>>(
    rt: &R,
    holder: &H,
    dealer: &D,
    count: usize,
    workers: usize,
    steps: Vec<T>,
) -> Result<(), AllocError>
    requires some { 0 < count }
    requires within { All (λ t. D.goes dealer.now t < count) steps.items }
    requires has { (s : ℕ) → s < count → H.has holder.now s }
    requires fits { (t : T) (m : ℕ) → D.marks dealer.now t m → H.fits holder.now (D.goes dealer.now t) t m }
    ensures { OnOk result (All (λ t. H.took holder.now (D.goes dealer.now t)
        (steps_of (D.goes dealer.now) (D.goes dealer.now t) steps.items)) steps.items) }
{
    let mut dealt = deal(dealer, count, steps, false)?;
    hold_lanes(rt, holder, workers, dealt.lanes.as_mut_slice())
}
