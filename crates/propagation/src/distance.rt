// The distance step, by the square of the slant distance.
ghost use Rattle.decibel.specs.Round.{nearest};
ghost use Rattle.figures.specs.Private.{Exactly};
ghost use Rattle.propagation.specs.Distance.{distance_fence};

use crate::kept::InRange;
use figures::slant_of;

pub(crate) fn distance_step(ranged: InRange) -> i32
    ensures { Exactly (nearest (distance_fence ranged.segment)) result }
{
    let s = ranged.segment;
    decibel::distance_tenths(slant_of(s.distance, s.height))
}
