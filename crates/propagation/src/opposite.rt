// The step of opposite facades.
ghost use Rattle.decibel.specs.Round.{nearest};
ghost use Rattle.figures.specs.Private.{Exactly};
ghost use Rattle.propagation.specs.Opposite.{opposite_fence};

use crate::kept::Kept;
use figures::natural;

pub(crate) fn opposite_step(kept: Kept) -> i32
    ensures { Exactly (nearest (opposite_fence kept.ranged.segment)) result }
{
    let s = kept.ranged.segment;
    let share = 1500000 * natural(s.opposite) / natural(s.view);
    ((share + 50000) / 100000) as i32
}
