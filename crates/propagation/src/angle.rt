// The angle step.
ghost use Rattle.std.specs.Prelude.{◌≤◌};
ghost use Rattle.decibel.specs.Round.{nearest};
ghost use Rattle.figures.specs.Private.{Exactly};
ghost use Rattle.propagation.specs.Angle.{angle_fence};
ghost use Rattle.propagation.specs.Private.{View};

use crate::kept::InRange;
use figures::natural;

// y in billionths.
fn y_of(view: u64, doubled: u64) -> i64
    requires { view ≤ 180 }
    ensures { View view doubled result }
{
    let turn = (3141592654 * view / 180) as i64;
    turn - decibel::sine(view) * decibel::cosine(doubled) / 1000000000
}

// 5 decibels less, and 90 because y is in billionths.
pub(crate) fn angle_step(ranged: InRange) -> i32
    ensures { Exactly (nearest (angle_fence ranged.segment)) result }
{
    let s = ranged.segment;
    let y = y_of(natural(s.view), natural(s.doubled));
    decibel::ten_log(u64::try_from(y).unwrap_or(0)) - 950
}
