// The vehicles step.
ghost use Rattle.decibel.specs.Round.{nearest};
ghost use Rattle.figures.specs.Private.{Exactly};
ghost use Rattle.emission.specs.Vehicles.{vehicles_fence};

use crate::kept::Kept;
use figures::natural;

pub(crate) fn vehicles_step(kept: Kept) -> i32
    ensures { Exactly (nearest (vehicles_fence kept.train)) result }
{
    decibel::count_log(natural(kept.train.vehicles))
}
