//! A list of steps that is dealt to the lanes of its parts.
ghost use Rattle.std.specs.Prelude.{◌≡◌, ℕ, ◌≤◌, ◌<◌, [], All, IfOk, OnOk, IsTrue, length, map, reverse, vec_len, vec_capacity, get_or};
ghost use Rattle.dash_rows.specs.inner.Lanes.{AreDealt, AreEmpty, AreReady, HasRoom};

use crate::workers::lane::Lane;
use dash_shard::part::Dealer;
use std::alloc::{AllocError, Global};

/// The lanes of a list of steps, and the numbers of their parts, that of the last step first.
#[derive(Drop)]
pub struct Dealt<T, Y> {
    pub lanes: Vec<Lane<T, Y>>,
    pub places: Vec<usize>,
}

// So many lanes, each with room for so many steps.
fn fresh_lanes<T: Drop, Y: Drop>(
    alloc: Global,
    count: usize,
    room: usize,
) -> Result<Vec<Lane<T, Y>>, AllocError>
    ensures { IfOk result (λ lanes. AreEmpty count lanes.items) }
{
    let mut lanes = Vec::with_capacity(alloc, count)?;
    for _ in 0..count {
        lanes.push_reserved(Lane {
            steps: Vec::with_capacity(alloc, room)?,
            replies: Vec::new(alloc),
            refused: false,
        });
    }
    Ok(lanes)
}

// Deals each step to the lane of its part, the last first, and keeps the numbers of their parts where they are wanted.
fn deal_each<T: Drop, Y: Drop, D: Dealer<T>>(
    dealer: &D,
    mut steps: Vec<T>,
    lanes: &mut [Lane<T, Y>],
    keeps_places: bool,
    places: &mut Vec<usize>,
) -> Result<(), AllocError>
    requires within { All (λ t. D.goes dealer.now t < length lanes.old) steps.items }
    requires empty { AreEmpty (length lanes.old) lanes.old }
    requires none { places.old.items ≡ [] }
    requires room { IsTrue keeps_places → vec_len steps ≤ vec_capacity places.old }
    ensures count { length lanes.new ≡ length lanes.old }
    ensures lanes { OnOk result (AreDealt (D.goes dealer.now) (D.marks dealer.now) [] steps.items lanes.new) }
    ensures places { OnOk result (IsTrue keeps_places
        → reverse places.new.items ≡ map (D.goes dealer.now) steps.items) }
{
    while let Some(step) = steps.pop() {
        let (mark, part) = dealer.deal(&step);
        lanes[part].steps.push((mark, step))?;
        if keeps_places {
            places.push_reserved(part);
        }
    }
    Ok(())
}

// Makes room for the replies of each lane.
fn make_room<T: Drop, Y: Drop>(alloc: Global, lanes: &mut [Lane<T, Y>]) -> Result<(), AllocError>
    ensures count { length lanes.new ≡ length lanes.old }
    ensures same { (s : ℕ) (d : _) → s < length lanes.old
        → (get_or lanes.new s d).steps ≡ (get_or lanes.old s d).steps }
    ensures room { OnOk result ((s : ℕ) (d : _) → s < length lanes.old → HasRoom (get_or lanes.new s d)) }
{
    for lane in lanes {
        lane.replies = Vec::with_capacity(alloc, lane.steps.len())?;
    }
    Ok(())
}

/// Deals the steps to so many lanes: each gets the steps of its part, and room for their replies. The numbers of their parts are kept where
/// they are wanted.
///
/// A lane starts with room for its share of the steps and an eighth more.
pub fn deal<T: Drop, Y: Drop, D: Dealer<T>>(
    dealer: &D,
    count: usize,
    steps: Vec<T>,
    keeps_places: bool,
) -> Result<Dealt<T, Y>, AllocError>
    requires some { 0 < count }
    requires within { All (λ t. D.goes dealer.now t < count) steps.items }
    ensures lanes { IfOk result (λ dealt.
        AreReady (D.goes dealer.now) (D.marks dealer.now) count steps.items dealt.lanes.items) }
    ensures places { IfOk result (λ dealt. IsTrue keeps_places
        → reverse dealt.places.items ≡ map (D.goes dealer.now) steps.items) }
{
    let alloc = *steps.allocator();
    let kept = if keeps_places { steps.len() } else { 0 };
    let mut places = Vec::with_capacity(alloc, kept)?;
    let share = steps.len().div_ceil(count);
    let mut lanes = fresh_lanes(alloc, count, share.saturating_add(share / 8))?;
    deal_each(
        dealer,
        steps,
        lanes.as_mut_slice(),
        keeps_places,
        &mut places,
    )?;
    make_room(alloc, lanes.as_mut_slice())?;
    Ok(Dealt { lanes, places })
}
