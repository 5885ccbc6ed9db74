// The trains step of a period.
ghost use Rattle.std.specs.Prelude.{◌≡◌, ◌<◌, pos};
ghost use Rattle.decibel.specs.Round.{nearest};
ghost use Rattle.figures.specs.Private.{Exactly};
ghost use Rattle.emission.specs.Trains.{trains_in, hours_tenths, trains_fence, trains_level};
ghost use Rattle.emission.specs.Private.{Runs};

use crate::kept::Kept;
use decibel::Level;
use figures::{Period, Train, natural};

// The trains of a period. Not `Periods::of`: a train's figures have the names under which they are typed.
fn trains_in(train: Train, period: Period) -> u64
    ensures { result ≡ trains_in period train }
{
    match period {
        Period::Day => natural(train.day),
        Period::Night => natural(train.night),
    }
}

// What a period's hours take off, in tenths.
#[tactic(auto, unfolding(crate::specs::Trains::hours_tenths))]
fn hours(period: Period) -> i32
    ensures { result ≡ pos (hours_tenths period) }
{
    match period {
        Period::Day => 481,
        Period::Night => 433,
    }
}

fn trains_step(kept: Kept, period: Period) -> i32
    requires { 0 < trains_in period kept.train }
    ensures { Exactly (nearest (trains_fence period kept.train)) result }
{
    decibel::count_log(trains_in(kept.train, period)) - hours(period)
}

// The step, silent where no train runs.
pub(crate) fn trains_level(kept: Kept, period: Period) -> Level
    ensures { Runs (trains_level period kept.train) result }
{
    if trains_in(kept.train, period) == 0 {
        return Level::Silent;
    }
    Level::Figure(trains_step(kept, period))
}
