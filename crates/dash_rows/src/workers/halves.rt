//! Work on a row of parts, each beside a lane, by workers that each have a stretch of the row.
ghost use Rattle.std.specs.Prelude.{◌≡◌, ℕ, ◌+◌, ◌<◌, ◌^◌, length};
ghost use Rattle.std.specs.Thread.{IsSync};
ghost use denote.Param.Send.{IsSend};
ghost use Rattle.dash_rows.specs.inner.Halves.{AllBeside, EachBeside};

use std::thread::{Threads, join_mut};

/// What is done with one part and its lane.
pub trait Work<P, L>: Sync {
    ghost can: { Self → ℕ → P → L → Type 0 };

    ghost does: { Self → ℕ → P → L → P → L → Type 0 };

    fn work(&self, number: usize, part: &mut P, lane: &mut L)
        requires { can self.now number part.old lane.old }
        ensures { does self.now number part.old lane.old part.new lane.new };
}

// Does the work at each part, in their order.
fn in_turn<P, L, W: Work<P, L>>(work: &W, base: usize, parts: &mut [P], lanes: &mut [L])
    requires same { length lanes.old ≡ length parts.old }
    requires room { base + length parts.old < 2 ^ 64 }
    requires can { AllBeside (W.can work.now) base parts.old lanes.old }
    ensures { EachBeside (W.does work.now) base parts.old lanes.old parts.new lanes.new }
{
    for k in 0..parts.len() {
        work.work(base + k, &mut parts[k], &mut lanes[k]);
    }
}

/// Does the work at each part. The row and the number of workers are both halved, the left half rounded down, until one worker is left,
/// who goes through its parts in their order.
#[cycle(halves)]
pub fn by_halves<R: Threads + Sync, P: Send, L: Send, W: Work<P, L>>(
    rt: &R,
    work: &W,
    workers: usize,
    base: usize,
    parts: &mut [P],
    lanes: &mut [L],
)
    requires same { length lanes.old ≡ length parts.old }
    requires room { base + length parts.old < 2 ^ 64 }
    requires can { AllBeside (W.can work.now) base parts.old lanes.old }
    ensures { EachBeside (W.does work.now) base parts.old lanes.old parts.new lanes.new }
{
    if workers < 2 {
        in_turn(work, base, parts, lanes);
        return;
    }
    let middle = parts.len() / 2;
    let few = workers / 2;
    let (left, right) = parts.split_at_mut(middle);
    let (near, far) = lanes.split_at_mut(middle);
    both_halves(
        rt,
        work,
        few,
        base,
        left,
        near,
        workers - few,
        base + middle,
        right,
        far,
    );
}

// What the closures require is what this function is given, so it stands apart from `by_halves`.
#[cycle(halves)]
fn both_halves<R: Threads + Sync, P: Send, L: Send, W: Work<P, L>>(
    rt: &R,
    work: &W,
    few: usize,
    base: usize,
    left: &mut [P],
    near: &mut [L],
    many: usize,
    up: usize,
    right: &mut [P],
    far: &mut [L],
)
    requires few { 0 < few }
    requires many { 0 < many }
    requires same_left { length near.old ≡ length left.old }
    requires same_right { length far.old ≡ length right.old }
    requires room_left { base + length left.old < 2 ^ 64 }
    requires room_right { up + length right.old < 2 ^ 64 }
    requires can_left { AllBeside (W.can work.now) base left.old near.old }
    requires can_right { AllBeside (W.can work.now) up right.old far.old }
    ensures left { EachBeside (W.does work.now) base left.old near.old left.new near.new }
    ensures right { EachBeside (W.does work.now) up right.old far.old right.new far.new }
{
    let mut front = ||
        requires { IsSync R.row × IsSync W.row × IsSend P.row × IsSend L.row
            × (length near.now ≡ length left.now) × (base + length left.now < 2 ^ 64)
            × AllBeside (W.can work.now) base left.now near.now }
        ensures { EachBeside (W.does work.entry.now) base left.entry.now near.entry.now left.exit.now near.exit.now }
    { by_halves(rt, work, few, base, left, near) };
    let mut back = ||
        requires { IsSync R.row × IsSync W.row × IsSend P.row × IsSend L.row
            × (length far.now ≡ length right.now) × (up + length right.now < 2 ^ 64)
            × AllBeside (W.can work.now) up right.now far.now }
        ensures { EachBeside (W.does work.entry.now) up right.entry.now far.entry.now right.exit.now far.exit.now }
    { by_halves(rt, work, many, up, right, far) };
    join_mut(rt, &mut front, &mut back);
}
