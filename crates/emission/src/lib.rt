// What a train adds to the level of its entry: speed, vehicles, its row's figure, and its trains in each period.
#![tactic(auto)]

mod kept;
mod rolling;
mod speed;
mod trains;
mod vehicles;

ghost use Rattle.figures.specs.Bounds.{Below};
ghost use Rattle.figures.specs.declared.Period.TheVariants.{Day, Night};
ghost use Rattle.emission.specs.Emission.{raised, train_parts_of, train_breakdown_of, emission_of};
ghost use Rattle.emission.specs.Results.{SmallLevel, TrainParted, Emits};

use decibel::Level;
use figures::ranges::train_check;
use figures::{Period, Periods, Train};
use kept::Kept;
pub use speed::LEAST_COUNTED;

// What each step of a train adds, in tenths: the trains step by period, silent where it does not run.
#[derive(Clone, Copy, Default)]
pub struct TrainBreakdown {
    pub speed: i32,
    pub vehicles: i32,
    pub rolling: i32,
    pub trains: Periods<Level>,
}

// The parts of an accepted train.
fn train_parts_of(kept: Kept) -> TrainBreakdown
    ensures { TrainParted (train_parts_of kept.train) result }
{
    TrainBreakdown {
        speed: speed::speed_step(kept),
        vehicles: vehicles::vehicles_step(kept),
        rolling: rolling::rolling_figure(kept),
        trains: Periods {
            day: trains::trains_level(kept, Period::Day),
            night: trains::trains_level(kept, Period::Night),
        },
    }
}

// The parts of a train; nothing of a refused one.
#[tactic(auto, using(crate::proofs::Emission::accepted_parts, crate::proofs::Emission::refused_parts))]
pub fn train_breakdown_of(train: Train) -> TrainBreakdown
    ensures { TrainParted (train_breakdown_of train) result }
{
    // no `map` and default: its closure would have to be told by a clause that the train keeps its lines
    match train_check(train) {
        Ok(()) => train_parts_of(Kept { train }),
        Err(_) => TrainBreakdown::default(),
    }
}

// A level so many tenths higher; silent stays silent.
fn raise(base: i32, level: Level) -> Level
    requires { Below 8000 base × SmallLevel 2000 level }
    ensures { Emits (raised base level) result }
{
    match level {
        Level::Silent => Level::Silent,
        Level::Figure(tenths) => Level::Figure(base + tenths),
    }
}

// The sum of a train's parts in each period: silent where it does not run, or is refused.
pub fn emissions_of(train: Train) -> Periods<Level>
    ensures { Emits (emission_of Day train) result.day × Emits (emission_of Night train) result.night }
{
    let parts = train_breakdown_of(train);
    let base = parts.speed + (parts.vehicles + parts.rolling);
    Periods {
        day: raise(base, parts.trains.day),
        night: raise(base, parts.trains.night),
    }
}
