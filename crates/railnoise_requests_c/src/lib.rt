// The later requests for C, over whole texts.
#![tactic(auto)]

ghost use Rattle.std.specs.Prelude.{◌≡◌, MatchResult, option_copied};
ghost use Rattle.railnoise_requests_c.specs.Entitlement.{exported_combined, exported_entitlement_period, exported_entitlement, exported_told, source, entitlement_in, EntitlementCalled};
ghost use Rattle.railnoise_requests_c.specs.Merged.{exported_merged, MergedCalled};
ghost use Rattle.railnoise_requests_c.specs.Speed.{period_by, exported_speed, SpeedCalled};
ghost use Rattle.railnoise_requests_c.specs.Private.{source_of, looked_at, TextGives, SourceRefused};

use c_values::{LevelValue, RailnoisePeriod, line_value};
use decibel::Level;
use drawings::merged_levels;
use energy::Total;
use entitlement::{Change, Entitlement, Levels, PeriodEntitlement, entitlement_by, reported};
use figures::{Period, Periods};
use request::{MOST_CELLS, PeriodResult};
use text::{Fault, TextFault, text_levels};
use text_speeds::text_speed;

// The structs of this file are C's, with flags and numbers in place of enums. C's `railnoise_combined`: the level in tenths, 0 when silent.
#[repr(C)]
#[derive(Clone, Copy)]
pub struct RailnoiseCombined {
    pub silent: bool,
    pub level: i32,
    pub close: bool,
}

// C's `railnoise_entitlement_period`.
#[repr(C)]
#[derive(Clone, Copy)]
pub struct RailnoiseEntitlementPeriod {
    pub prevailing: RailnoiseCombined,
    pub relevant: RailnoiseCombined,
    pub reaches: bool,
    pub rises: bool,
    pub contributes: bool,
    pub entitled: bool,
}

// C's `railnoise_entitlement_answer`: refusal, text and line 0 when answered; line 0 where none is at fault.
#[repr(C)]
#[derive(Clone, Copy)]
pub struct RailnoiseEntitlementAnswer {
    pub refusal: u32,
    pub text: u32,
    pub line: u32,
    pub day: RailnoiseEntitlementPeriod,
    pub night: RailnoiseEntitlementPeriod,
    pub entitled: bool,
}

// C's `railnoise_merged_answer`: refusal, text and line 0 when answered; text and line 0 where no text is at fault.
#[repr(C)]
#[derive(Clone, Copy)]
pub struct RailnoiseMergedAnswer {
    pub refusal: u32,
    pub text: u32,
    pub line: u32,
    pub day: RailnoisePeriod,
    pub night: RailnoisePeriod,
}

// C's `railnoise_speed_answer`: refusal 0 when answered; line 0 where none is at fault, speed 0 on a refusal.
#[repr(C)]
#[derive(Clone, Copy)]
pub struct RailnoiseSpeedAnswer {
    pub refusal: u32,
    pub line: u32,
    pub speed: u32,
}

impl From<Total> for RailnoiseCombined {
    ghost from_gives = { λ total combined. combined ≡ exported_combined total };

    #[tactic(auto, unfolding(c_values::specs::Values::level_value), using(decibel::proofs::Words::back))]
    fn from(total: Total) -> Self {
        let level = LevelValue::from(total.level);
        RailnoiseCombined {
            silent: level.silent,
            level: level.tenths,
            close: total.close,
        }
    }
}

impl From<PeriodEntitlement> for RailnoiseEntitlementPeriod {
    ghost from_gives = { λ shown period. period ≡ exported_entitlement_period shown };

    #[tactic(auto, unfolding(crate::specs::Entitlement::exported_entitlement_period))]
    fn from(shown: PeriodEntitlement) -> Self {
        RailnoiseEntitlementPeriod {
            prevailing: shown.prevailing.into(),
            relevant: shown.relevant.into(),
            reaches: shown.reaches,
            rises: shown.rises,
            contributes: shown.contributes,
            entitled: shown.entitled,
        }
    }
}

// The conditions, or the number of the refusal with its text and line, and no condition.
impl From<Result<Entitlement, TextFault>> for RailnoiseEntitlementAnswer {
    ghost from_gives = { λ told answer. answer ≡ exported_told told };

    #[tactic(auto, unfolding(crate::specs::Entitlement::exported_told, crate::specs::Entitlement::exported_entitlement, figures::specs::Refusal::check_of, figures::specs::Refusal::check_number))]
    fn from(told: Result<Entitlement, TextFault>) -> Self {
        match told {
            Ok(shown) => RailnoiseEntitlementAnswer {
                refusal: 0,
                text: 0,
                line: 0,
                day: shown.day.into(),
                night: shown.night.into(),
                entitled: shown.entitled,
            },
            Err(TextFault { text, fault }) => {
                let shown = Entitlement::silent();
                RailnoiseEntitlementAnswer {
                    refusal: u32::from(fault.refusal),
                    text,
                    line: line_value(fault.line),
                    day: shown.day.into(),
                    night: shown.night.into(),
                    entitled: shown.entitled,
                }
            }
        }
    }
}

// A text of C's, none where it is marked as empty.
fn looked_at(text: &[u8], empty: bool) -> Option<&[u8]>
    ensures { option_copied result ≡ looked_at (source empty text.now) }
{
    (!empty).then_some(text)
}

// The levels that a text's study reports, its place among the four counted from 1. Where there is none they are silent.
fn report_of(place: u32, text: Option<&[u8]>) -> Result<Periods<Level>, TextFault>
    ensures { MatchResult result (λ r. TextGives (source_of (option_copied text.entry)) r) (λ f. SourceRefused place (option_copied text.entry) f) }
{
    let Some(text) = text else {
        return Ok(reported(None));
    };
    let mut cells = [0i32; MOST_CELLS];
    let results = text_levels(text, &mut cells).map_err(|fault| TextFault { text: place, fault })?;
    Ok(reported(Some(results)))
}

// Whether the house is entitled, from the texts in the order of C's parameters; the first that is refused ends the request.
fn entitled(
    altered_before: Option<&[u8]>,
    altered_after: Option<&[u8]>,
    other_before: Option<&[u8]>,
    other_after: Option<&[u8]>,
) -> Result<Entitlement, TextFault>
    ensures { exported_told result ≡ entitlement_in (source_of (option_copied altered_before.entry)) (source_of (option_copied altered_after.entry)) (source_of (option_copied other_before.entry)) (source_of (option_copied other_after.entry)) }
{
    let first = report_of(1, altered_before)?;
    let second = report_of(2, altered_after)?;
    let third = report_of(3, other_before)?;
    let fourth = report_of(4, other_after)?;
    // A period's levels before the works and after them.
    let change = |period: Period| Change {
        before: Levels {
            altered: first.of(period),
            other: third.of(period),
        },
        after: Levels {
            altered: second.of(period),
            other: fourth.of(period),
        },
    };
    Ok(entitlement_by(change(Period::Day), change(Period::Night)))
}

// Whether a house is entitled, from the texts of the altered lines before and after the works and of the other lines before and after.
#[unsafe(no_mangle)]
pub extern "C" fn railnoise_entitlement(
    altered_before: &[u8],
    altered_before_empty: bool,
    altered_after: &[u8],
    altered_after_empty: bool,
    other_before: &[u8],
    other_before_empty: bool,
    other_after: &[u8],
    other_after_empty: bool,
) -> RailnoiseEntitlementAnswer
    ensures { EntitlementCalled (source altered_before_empty altered_before.now) (source altered_after_empty altered_after.now) (source other_before_empty other_before.now) (source other_after_empty other_after.now) result }
{
    RailnoiseEntitlementAnswer::from(entitled(
        looked_at(altered_before, altered_before_empty),
        looked_at(altered_after, altered_after_empty),
        looked_at(other_before, other_before_empty),
        looked_at(other_after, other_after_empty),
    ))
}

// Like the conversion of railnoise_c and not one with it: C's structs differ, and this one has the text's number.
impl From<Result<Periods<PeriodResult>, TextFault>> for RailnoiseMergedAnswer {
    ghost from_gives = { λ told answer. answer ≡ exported_merged told };

    #[tactic(auto, unfolding(crate::specs::Merged::exported_merged))]
    fn from(told: Result<Periods<PeriodResult>, TextFault>) -> Self {
        match told {
            Ok(results) => RailnoiseMergedAnswer {
                refusal: 0,
                text: 0,
                line: 0,
                day: results.day.into(),
                night: results.night.into(),
            },
            Err(TextFault { text, fault }) => RailnoiseMergedAnswer {
                refusal: u32::from(fault.refusal),
                line: line_value(fault.line),
                day: RailnoisePeriod::silent(),
                night: RailnoisePeriod::silent(),
                text,
            },
        }
    }
}

// The levels of two texts as one study.
#[unsafe(no_mangle)]
pub extern "C" fn railnoise_merged_levels(
    first: &[u8],
    second: &[u8],
    cells: &mut [i32],
) -> RailnoiseMergedAnswer
    ensures { MergedCalled first.now second.now cells.old cells.new result }
{
    merged_levels(first, second, cells).into()
}

// The period that C asks for.
#[tactic(auto, unfolding(crate::specs::Speed::period_by))]
fn period_by(night: bool) -> Period
    ensures { result ≡ period_by night }
{
    if night { Period::Night } else { Period::Day }
}

impl From<Result<u32, Fault>> for RailnoiseSpeedAnswer {
    ghost from_gives = { λ told answer. answer ≡ exported_speed told };

    #[tactic(auto, unfolding(crate::specs::Speed::exported_speed, text::specs::Answer::check_at, text::specs::Answer::line_at, speeds::specs::Speeds::speed_of, figures::specs::Refusal::check_number))]
    fn from(told: Result<u32, Fault>) -> Self {
        match told {
            Ok(speed) => RailnoiseSpeedAnswer {
                refusal: 0,
                line: 0,
                speed,
            },
            Err(fault) => RailnoiseSpeedAnswer {
                refusal: u32::from(fault.refusal),
                line: line_value(fault.line),
                speed: 0,
            },
        }
    }
}

// How fast the trains of a text's entry may pass.
#[unsafe(no_mangle)]
pub extern "C" fn railnoise_highest_speed(
    text: &[u8],
    entry: u32,
    night: bool,
    limit: i32,
) -> RailnoiseSpeedAnswer
    ensures { SpeedCalled text.now entry night limit result }
{
    let period = period_by(night);
    // `as`, since std has no `From` of `u32` for `usize`.
    text_speed(text, entry as usize, period, limit).into()
}
