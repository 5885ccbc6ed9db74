// The one function for C: a study text and working cells in, both periods' results out.
#![tactic(auto)]

ghost use Rattle.std.specs.Prelude.{◌≡◌};
ghost use Rattle.railnoise_c.specs.Exported.{exported, Called};

use c_values::{RailnoisePeriod, line_value};
use figures::Periods;
use request::PeriodResult;
use text::Fault;

// C's `railnoise_answer`, with numbers in place of a `Result`: refusal 0 when answered; line 0 where none is at fault.
#[repr(C)]
#[derive(Clone, Copy)]
pub struct RailnoiseAnswer {
    pub refusal: u32,
    pub line: u32,
    pub day: RailnoisePeriod,
    pub night: RailnoisePeriod,
}

impl From<Result<Periods<PeriodResult>, Fault>> for RailnoiseAnswer {
    ghost from_gives = { λ told answer. answer ≡ exported told };

    #[tactic(auto, unfolding(crate::specs::Exported::exported))]
    fn from(told: Result<Periods<PeriodResult>, Fault>) -> Self {
        match told {
            Ok(results) => RailnoiseAnswer {
                refusal: 0,
                line: 0,
                day: results.day.into(),
                night: results.night.into(),
            },
            Err(fault) => RailnoiseAnswer {
                refusal: u32::from(fault.refusal),
                line: line_value(fault.line),
                day: RailnoisePeriod::silent(),
                night: RailnoisePeriod::silent(),
            },
        }
    }
}

// Reads the text and answers the request for levels over its study.
#[unsafe(no_mangle)]
pub extern "C" fn railnoise_levels(text: &[u8], cells: &mut [i32]) -> RailnoiseAnswer
    ensures { Called text.now cells.old cells.new result }
{
    text::text_levels(text, cells).into()
}
