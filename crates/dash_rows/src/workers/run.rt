//! Steps taken on a row of parts by several workers: each part's in their order, those of different parts at once.
ghost use Rattle.std.specs.Prelude.{◌≡◌, ℕ, ◌≤◌, ◌<◌, ◌+◌, ◌++◌, [], All, OnOk, OnErr, IsSome, None, true, false, length, replicate, reverse, vec_len, vec_capacity};
ghost use Rattle.std.specs.List.{Any};
ghost use Rattle.dash_rows.specs.Words.{EachPart, ParRan, RanFront, RanShort, RanWhole, SomePart};
ghost use Rattle.dash_rows.specs.inner.Halves.{AllBeside, EachBeside};
ghost use Rattle.dash_rows.specs.inner.Lanes.{handed, queues, HasRun, IsReady, FitsAll};

use crate::workers::deal::{Dealt, deal};
use crate::workers::gate::Gate;
use crate::workers::halves::{Work, by_halves};
use crate::workers::lane::{Lane, run_lane};
use dash_shard::part::{Dealer, Part};
use std::alloc::AllocError;
use std::thread::Threads;

// Each part takes the steps of its lane.
#[derive(Drop)]
struct Runner<'a, G> {
    gate: &'a G,
}

impl<'a, P: Part<T, Y>, T: Drop, Y: Drop, G: Gate> Work<P, Lane<T, Y>> for Runner<'a, G> {
    ghost can = { λ _ _. IsReady P.fits };

    ghost does = { λ _ _. HasRun P.takes };

    fn work(&self, number: usize, part: &mut P, lane: &mut Lane<T, Y>) {
        if !lane.steps.is_empty() {
            self.gate.pass(number);
        }
        run_lane(part, lane);
    }
}

// Refuses where a lane's step was refused.
pub(crate) fn outcome<T, Y>(lanes: &[Lane<T, Y>]) -> Result<(), AllocError>
    ensures whole { OnOk result (All (λ lane. lane.refused ≡ false) lanes.now) }
    ensures short { OnErr result (Any (λ lane. lane.refused ≡ true) lanes.now) }
{
    for lane in lanes {
        if lane.refused {
            return Err(AllocError);
        }
    }
    Ok(())
}

// Takes the steps of all lanes.
fn take_lanes<R: Threads + Sync, P: Part<T, Y> + Send, T: Send + Drop, Y: Send + Drop, G: Gate>(
    rt: &R,
    gate: &G,
    workers: usize,
    parts: &mut [P],
    lanes: &mut [Lane<T, Y>],
) -> Result<(), AllocError>
    requires some { 0 < length parts.old }
    requires count { length lanes.old ≡ length parts.old }
    requires ready { AllBeside (λ _. IsReady P.fits) 0 parts.old lanes.old }
    ensures ran { EachBeside (λ _. HasRun P.takes) 0 parts.old lanes.old parts.new lanes.new }
    ensures whole { OnOk result (All (λ lane. lane.refused ≡ false) lanes.new) }
    ensures short { OnErr result (Any (λ lane. lane.refused ≡ true) lanes.new) }
{
    let workers = workers.clamp(1, parts.len());
    by_halves(rt, &Runner { gate }, workers, 0, parts, lanes);
    outcome(lanes)
}

// Hands out the replies of the lanes: to each place the next reply of its lane, or none where there is no more. The last place comes first.
fn hand_out<T: Drop, Y: Drop>(
    mut places: Vec<usize>,
    lanes: &mut [Lane<T, Y>],
    replies: &mut Vec<Option<Y>>,
)
    requires room { vec_len replies.old + vec_len places ≤ vec_capacity replies.old }
    requires below { All (λ p. p < length lanes.old) places.items }
    ensures { replies.new.items ≡ replies.old.items ++ handed (reverse places.items) (queues lanes.old) }
{
    while let Some(place) = places.pop() {
        replies.push_reserved(lanes[place].replies.pop());
    }
}

/// No reply to each of so many steps.
pub fn no_replies<Y: Drop>(count: usize, replies: &mut Vec<Option<Y>>)
    requires none { replies.old.items ≡ [] }
    requires room { count ≤ vec_capacity replies.old }
    ensures { replies.new.items ≡ replicate count None }
{
    for _ in 0..count {
        replies.push_reserved(None);
    }
}

/// Takes the steps, each on its part: each part's in their order, those of different parts by so many workers. The reply to each step that was
/// taken is at the step's place. 0 workers count as 1, more than there are parts as so many.
///
/// The first step that a part refuses ends that part's run, and the others go on. All memory that this takes itself it takes before the
/// first step: where that is refused, no step is taken. It takes none for a list without steps.
pub fn run_apart<
    R: Threads + Sync,
    P: Part<T, Y> + Send,
    T: Send + Drop,
    Y: Send + Drop,
    D: Dealer<T>,
    G: Gate,
>(
    rt: &R,
    gate: &G,
    dealer: &D,
    workers: usize,
    steps: Vec<T>,
    parts: &mut [P],
    replies: &mut Vec<Option<Y>>,
) -> Result<(), AllocError>
    requires some { 0 < length parts.old }
    requires within { All (λ t. D.goes dealer.now t < length parts.old) steps.items }
    requires fits { FitsAll P.fits (D.goes dealer.now) (D.marks dealer.now) parts.old }
    requires none { replies.old.items ≡ [] }
    requires room { vec_len steps ≤ vec_capacity replies.old }
    ensures ran { ParRan P.takes (D.goes dealer.now) parts.old steps.items replies.new.items parts.new }
    ensures len { length replies.new.items ≡ length steps.items }
    ensures whole { OnOk result (All IsSome replies.new.items) }
    ensures short { OnErr result (Any (λ reply. reply ≡ None) replies.new.items) }
{
    if steps.is_empty() {
        return Ok(());
    }
    let count = steps.len();
    match deal(dealer, parts.len(), steps, true) {
        Ok(Dealt { mut lanes, places }) => {
            let lanes = lanes.as_mut_slice();
            let result = take_lanes(rt, gate, workers, parts, lanes);
            hand_out(places, lanes, replies);
            result
        }
        Err(error) => {
            no_replies(count, replies);
            Err(error)
        }
    }
}

/// Takes the steps as [`run_apart`] does, where no one wants their replies.
pub fn put_apart<R: Threads + Sync, P: Part<T, ()> + Send, T: Send + Drop, D: Dealer<T>, G: Gate>(
    rt: &R,
    gate: &G,
    dealer: &D,
    workers: usize,
    steps: Vec<T>,
    parts: &mut [P],
) -> Result<(), AllocError>
    requires some { 0 < length parts.old }
    requires within { All (λ t. D.goes dealer.now t < length parts.old) steps.items }
    requires fits { FitsAll P.fits (D.goes dealer.now) (D.marks dealer.now) parts.old }
    ensures len { length parts.new ≡ length parts.old }
    ensures each { EachPart (RanFront P.takes) (D.goes dealer.now) steps.items parts.old parts.new }
    ensures whole { OnOk result (
        EachPart (RanWhole P.takes) (D.goes dealer.now) steps.items parts.old parts.new) }
    ensures short { OnErr result (
        SomePart (RanShort P.takes) (D.goes dealer.now) steps.items parts.old parts.new) }
{
    if steps.is_empty() {
        return Ok(());
    }
    let mut dealt = deal(dealer, parts.len(), steps, false)?;
    take_lanes(rt, gate, workers, parts, dealt.lanes.as_mut_slice())
}
