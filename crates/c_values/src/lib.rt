// Values as C's structs hold them.
#![tactic(auto)]

ghost use Rattle.std.specs.Prelude.{◌≡◌};
ghost use Rattle.request.specs.Request.{silent_result};
ghost use Rattle.c_values.specs.Values.{level_value, line_value, exported_period};

use decibel::Level;
use request::PeriodResult;

// A level for C, which has no enum with a value: whether it is silent, and its tenths, 0 when silent.
#[derive(Clone, Copy)]
pub struct LevelValue {
    pub silent: bool,
    pub tenths: i32,
}

impl From<Level> for LevelValue {
    ghost from_gives = { λ level value. value ≡ level_value level };

    #[tactic(auto, unfolding(crate::specs::Values::level_value))]
    fn from(level: Level) -> Self {
        match level {
            Level::Silent => LevelValue {
                silent: true,
                tenths: 0,
            },
            Level::Figure(tenths) => LevelValue {
                silent: false,
                tenths,
            },
        }
    }
}

// A line's number, as far as 32 bits go.
pub fn line_value(line: usize) -> u32
    ensures { result ≡ line_value line }
{
    u32::try_from(line).unwrap_or(u32::MAX)
}

// C's `railnoise_period`, with a flag and numbers in place of an enum: the level in tenths, 0 when silent.
#[repr(C)]
#[derive(Clone, Copy)]
pub struct RailnoisePeriod {
    pub silent: bool,
    pub level: i32,
    pub close: u32,
    pub met: bool,
}

impl From<PeriodResult> for RailnoisePeriod {
    ghost from_gives = { λ period value. value ≡ exported_period period };

    #[tactic(auto, unfolding(crate::specs::Values::level_value, crate::specs::Values::exported_period), using(decibel::proofs::Words::back))]
    fn from(period: PeriodResult) -> Self {
        let level = LevelValue::from(period.level);
        RailnoisePeriod {
            silent: level.silent,
            level: level.tenths,
            close: period.close,
            met: period.met,
        }
    }
}

impl RailnoisePeriod {
    // What stands beside a refusal: a silent level that rests on no close mark and meets no limit.
    #[tactic(auto, unfolding(crate::specs::Values::exported_period))]
    pub fn silent() -> Self
        ensures { result ≡ exported_period silent_result }
    {
        RailnoisePeriod {
            silent: true,
            level: 0,
            close: 0,
            met: false,
        }
    }
}
