// Entitlement to insulation (memorandum, paragraph 7): from four studies the prevailing and the relevant level of each period, and the
// three conditions.
#![tactic(auto)]

ghost use Rattle.std.specs.Prelude.{◌≡◌, option_copied};
ghost use Rattle.figures.specs.Refusal.{check_number, check_of};
ghost use Rattle.request.specs.Levels.{cell_of};
ghost use Rattle.entitlement.specs.Conditions.{combined, exceeds, period_of};
ghost use Rattle.entitlement.specs.Entitlement.{plans_of, reported, held, held_change, silent_entitlement, EntitlementAnsweredBy, EntitlementAnswered, entitlement_number};
ghost use Rattle.entitlement.specs.Private.{Few, LayoutFew, report, layout_report};

use decibel::Level;
use energy::{LEAST_LEVEL, MOST_LEVEL, SILENT_CELL, Total};
use figures::{Period, Periods, Refusal};
use request::{MOST_CELLS, PeriodResult};
use study::Study;

// 1.0 dB in tenths.
const DECIBEL: i64 = 10;

// What there is of all lines at a window at one time: of those that the works alter, and of the others.
#[derive(Clone, Copy)]
pub struct Layout<T> {
    pub altered: T,
    pub other: T,
}

// Their studies. Lines that are marked as empty have none.
pub type Studies<'a> = Layout<Option<&'a Study>>;

// The levels that their studies report in a period.
pub type Levels = Layout<Level>;

// The same before the works and after them.
#[derive(Clone, Copy)]
pub struct Change {
    pub before: Levels,
    pub after: Levels,
}

// A period's two levels with their marks, its three conditions, and whether all hold.
#[derive(Clone, Copy)]
pub struct PeriodEntitlement {
    pub prevailing: Total,
    pub relevant: Total,
    pub reaches: bool,
    pub rises: bool,
    pub contributes: bool,
    pub entitled: bool,
}

// Both periods, and whether the house is entitled in either. By name, here and as what is asked, not `Periods`: as C's answer has them.
#[derive(Clone, Copy)]
pub struct Entitlement {
    pub day: PeriodEntitlement,
    pub night: PeriodEntitlement,
    pub entitled: bool,
}

impl Entitlement {
    // What is shown beside a refusal: every level silent and unmarked, no condition, nothing entitled. By name and field by field: a derived
    // `Default` would leave unsaid that a refused request holds no condition.
    pub fn silent() -> Self
        ensures { result ≡ silent_entitlement }
    {
        let silent = Total::default();
        let period = PeriodEntitlement {
            prevailing: silent,
            relevant: silent,
            reaches: false,
            rises: false,
            contributes: false,
            entitled: false,
        };
        Entitlement {
            day: period,
            night: period,
            entitled: false,
        }
    }
}

// A level as its working cell holds it. No `From`: a cell is an i32 as any other.
#[tactic(auto, unfolding(request::specs::Levels::cell_of))]
fn cell_of(level: Level) -> i32
    ensures { result ≡ cell_of level }
{
    match level {
        Level::Silent => SILENT_CELL,
        Level::Figure(tenths) => tenths,
    }
}

// A level as the total hears it from its cell.
fn held_level(level: Level) -> Level
    ensures { result ≡ held level }
{
    match level {
        Level::Figure(tenths) if LEAST_LEVEL <= tenths => Level::Figure(tenths.min(MOST_LEVEL)),
        _ => Level::Silent,
    }
}

// Two levels combined by Chart 9.
#[tactic(auto, using(decibel::proofs::Words::back, crate::proofs::Combined::total_held))]
fn combine(levels: Levels) -> Total
    ensures { result ≡ combined (held levels.altered) (held levels.other) }
{
    energy::total_of(&[cell_of(levels.altered), cell_of(levels.other)])
}

// Whether a level exceeds another by at least 1.0 dB; silent exceeds nothing, and every figure exceeds silent. In 64 bits, where no figure
// is too large to be raised.
#[tactic(auto, unfolding(crate::specs::Conditions::exceeds))]
fn is_above(level: Level, other: Level) -> bool
    ensures { result ≡ exceeds level other }
{
    match (level, other) {
        (Level::Silent, _) => false,
        (Level::Figure(_), Level::Silent) => true,
        (Level::Figure(tenths), Level::Figure(below)) => {
            i64::from(below) + DECIBEL <= i64::from(tenths)
        }
    }
}

// A period's two levels and its conditions.
#[tactic(auto, using(crate::proofs::Periods::period_is))]
fn period_of(period: Period, change: Change) -> PeriodEntitlement
    ensures { result ≡ period_of period (held_change change) }
{
    let prevailing = combine(change.before);
    let relevant = combine(change.after);
    let reaches = request::is_met(period, relevant.level);
    let rises = is_above(relevant.level, prevailing.level);
    let contributes = is_above(relevant.level, held_level(change.after.other));
    PeriodEntitlement {
        prevailing,
        relevant,
        reaches,
        rises,
        contributes,
        entitled: reaches && rises && contributes,
    }
}

// Whether the house is entitled, from the levels that the four studies report by day and by night. A level below -200 dB counts as
// silent and one above 200 dB as that; no study reports such.
#[tactic(auto, unfolding(crate::specs::Entitlement::entitlement_by), using(crate::proofs::Answers::house_is))]
pub fn entitlement_by(day: Change, night: Change) -> Entitlement
    ensures { EntitlementAnsweredBy day night result }
{
    let by_day = period_of(Period::Day, day);
    let by_night = period_of(Period::Night, night);
    Entitlement {
        day: by_day,
        night: by_night,
        entitled: by_day.entitled || by_night.entitled,
    }
}

// The levels that lines report, from what is answered of their study; silence where they have none.
pub fn reported(results: Option<Periods<PeriodResult>>) -> Periods<Level>
    ensures { result ≡ reported results }
{
    match results {
        Some(results) => Periods {
            day: results.day.level,
            night: results.night.level,
        },
        None => Periods::default(),
    }
}

// What lines report: 23, or the level of each period. Lines that are marked as empty are silent. The C function has the like of texts, which
// tells the text at fault too; what both share is `reported`.
#[tactic(auto, using(crate::proofs::Reports::empty_reports))]
fn report_of(lines: Option<&Study>) -> Result<Periods<Level>, Refusal>
    ensures answer { result ≡ report (option_copied lines.entry) }
    ensures few { Few (option_copied lines.entry) }
{
    let Some(study) = lines else {
        return Ok(reported(None));
    };
    // As many cells as the entries need, of fixed memory: there is no heap.
    let mut cells = [0i32; MOST_CELLS];
    let total = study.entries().len();
    let answer = request::levels(study, &mut cells[..total + total])?;
    Ok(reported(Some(answer)))
}

// What both lines of a layout report. Each is asked before a refusal of either ends it: what is promised of marks holds of all four studies.
#[tactic(auto, unfolding(crate::specs::Private::layout_report))]
fn layout_report_of(layout: Studies) -> Result<Periods<Levels>, Refusal>
    ensures answer { result ≡ layout_report (plans_of layout.entry) }
    ensures few { LayoutFew (plans_of layout.entry) }
{
    let altered = report_of(layout.altered);
    let other = report_of(layout.other);
    let (altered, other) = (altered?, other?);
    Ok(Periods {
        day: Levels {
            altered: altered.day,
            other: other.day,
        },
        night: Levels {
            altered: altered.night,
            other: other.night,
        },
    })
}

// Whether the house is entitled, from the lines before the works and after them.
pub fn entitlement_of(before: Studies, after: Studies) -> Result<Entitlement, Refusal>
    ensures answered { EntitlementAnswered (plans_of before.entry) (plans_of after.entry) result }
    ensures number { check_number (check_of result) ≡ entitlement_number (plans_of before.entry) (plans_of after.entry) }
{
    let old = layout_report_of(before);
    let new = layout_report_of(after);
    let (old, new) = (old?, new?);
    Ok(entitlement_by(
        Change {
            before: old.day,
            after: new.day,
        },
        Change {
            before: old.night,
            after: new.night,
        },
    ))
}
