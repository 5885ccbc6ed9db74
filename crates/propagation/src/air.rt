// The air step, decided over squares: no root is taken.
ghost use Rattle.decibel.specs.Round.{nearest};
ghost use Rattle.figures.specs.Private.{Exactly};
ghost use Rattle.propagation.specs.Air.{air_fence};

use crate::kept::InRange;
use figures::{natural, slant_of};

// How many ties the attenuation of 0.008 dB a metre has passed: at least as many as over the horizontal distance, a tenth in 1250 cm.
pub(crate) fn air_step(ranged: InRange) -> i32
    ensures { Exactly (nearest (air_fence ranged.segment)) result }
{
    let s = ranged.segment;
    let square = 6400 * slant_of(s.distance, s.height);
    let mut passed: u64 = natural(s.distance) / 1250;
    // what is asked is how many steps it takes: a `find` over a range would test the same numbers, its end made up
    while (100000 * passed + 50000) * (100000 * passed + 50000) < square {
        passed += 1;
    }
    2 - passed as i32
}
