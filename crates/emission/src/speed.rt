// The speed step: 20 log V is 10 log of the speed's square, V as counted.
ghost use Rattle.std.specs.Prelude.{◌≡◌};
ghost use Rattle.decibel.specs.Round.{nearest};
ghost use Rattle.figures.specs.Private.{Exactly};
ghost use Rattle.emission.specs.Speed.{counted_speed, speed_fence};

use crate::kept::Kept;
use figures::{Train, natural};

// Where the method's range of speeds begins, in km/h.
pub const LEAST_COUNTED: u64 = 20;

// A slower train counts as at that speed.
#[tactic(auto, unfolding(crate::specs::Speed::counted_speed))]
fn counted_speed(train: Train) -> u64
    ensures { result ≡ counted_speed train }
{
    LEAST_COUNTED.max(natural(train.speed))
}

pub(crate) fn speed_step(kept: Kept) -> i32
    ensures { Exactly (nearest (speed_fence kept.train)) result }
{
    312 + decibel::twenty_log(counted_speed(kept.train))
}
