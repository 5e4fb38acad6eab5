//! The steps of one part, and what they reply.
ghost use Rattle.std.specs.Prelude.{◌≡◌, ◌≤◌, [], All, vec_len, vec_capacity};
ghost use Rattle.dash_rows.specs.inner.Lanes.{HasRun, IsReady, LaneRan, steps_in};

use dash_shard::part::Part;

/// The steps that go to one part, each with its mark, and then their replies. Both stand the last first.
#[derive(Drop)]
pub struct Lane<T, Y> {
    pub steps: Vec<(u64, T)>,
    pub replies: Vec<Y>,
    pub refused: bool,
}

// Takes the steps from the end, up to the first that is refused, and says whether one was.
fn take_steps<P: Part<T, Y>, T: Drop, Y: Drop>(
    part: &mut P,
    steps: &mut Vec<(u64, T)>,
    replies: &mut Vec<Y>,
) -> bool
    requires fits { All (λ e. P.fits part.old e.1 e.0) steps.old.items }
    requires none { replies.old.items ≡ [] }
    requires room { vec_len steps.old ≤ vec_capacity replies.old }
    ensures { LaneRan P.takes part.old (steps_in steps.old.items) part.new replies.new.items result }
{
    while let Some((mark, step)) = steps.pop() {
        match part.take(step, mark) {
            Ok(reply) => replies.push_reserved(reply),
            Err(_) => return true,
        }
    }
    false
}

/// Takes a lane's steps on its part in their order, up to the first that is refused.
pub fn run_lane<P: Part<T, Y>, T: Drop, Y: Drop>(part: &mut P, lane: &mut Lane<T, Y>)
    requires { IsReady P.fits part.old lane.old }
    ensures { HasRun P.takes part.old lane.old part.new lane.new }
{
    lane.refused = take_steps(part, &mut lane.steps, &mut lane.replies);
    lane.replies.reverse();
}
