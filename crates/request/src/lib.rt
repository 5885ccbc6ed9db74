// The request for levels: each entry's level in the working cells, and both periods' results.
#![tactic(auto)]

ghost use Rattle.std.specs.Prelude.{◌≡◌, ◌+◌, ◌*◌, ◌-◌, ◌≤◌, false, pos, length, get_or, take};
ghost use Rattle.std.specs.List.{list_any};
ghost use Rattle.emission.specs.Emission.{raised};
ghost use Rattle.emission.specs.Results.{SmallLevel};
ghost use Rattle.energy.specs.Total.{heard};
ghost use Rattle.energy.specs.Mark.{total_of};
ghost use Rattle.figures.specs.declared.Period.TheVariants.{Day, Night};
ghost use Rattle.figures.specs.Refusal.{check_number, check_of};
ghost use Rattle.study.specs.Add.{ours};
ghost use Rattle.request.specs.Levels.{cell_of, limit_of, met_by, result_from};
ghost use Rattle.request.specs.Request.{Answered, AnsweredFrom, cells_needed, cells_from, request_number, levels_number, entry_cells, places_of, tenths_of, marks_of, period_from, TotalAllowed, first_cell, written};
ghost use Rattle.request.specs.Private.{CloseSegments, SegmentsHeard, marked_by};

use arrayvec::ArrayVec;
use decibel::Level;
use energy::{LEAST_LEVEL, SILENT_CELL};
use figures::{Period, Periods, Refusal, Train};
use propagation::Propagation;
use study::{Entry, MOST_ENTRIES, MOST_SEGMENTS, Study};

// The working cells that the entries of any study need.
pub const MOST_CELLS: usize = 2 * MOST_ENTRIES;

// The tenths from which a level, to the nearest whole decibel, is 68 dB by day and 63 dB by night or more.
const DAY_LIMIT: i32 = 675;

const NIGHT_LIMIT: i32 = 625;

// A period's result: its total level, how many close marks it rests on, and whether its limit is met.
#[derive(Clone, Copy)]
pub struct PeriodResult {
    pub level: Level,
    pub close: u32,
    pub met: bool,
}

// An entry's level as its working cell holds it, from what its segment adds and what its train emits. Not emission's `raise` and then
// entitlement's `cell_of`: this adds on the way, and keeps to 32 bits by its `requires`, while that of entitlement takes any level.
fn cell_of(tenths: i16, emission: Level) -> i32
    requires { SmallLevel 10000 emission }
    ensures { result ≡ cell_of (raised tenths emission) }
{
    match emission {
        Level::Silent => SILENT_CELL,
        Level::Figure(r) => i32::from(tenths) + r,
    }
}

// Both levels of an entry as its working cells hold them: the train's speed, vehicles and row serve both.
pub fn entry_cells(tenths: i16, train: Train) -> Periods<i32>
    ensures { result ≡ entry_cells tenths train }
{
    let emissions = emission::emissions_of(train);
    Periods {
        day: cell_of(tenths, emissions.day),
        night: cell_of(tenths, emissions.night),
    }
}

// What the segment at a place adds; nothing where there is none. It looks it up, where `tenths_at` of speeds computes it of the segment.
fn tenths_at(added: &[Propagation], place: usize) -> i16
    ensures { result ≡ get_or (tenths_of added.now) place (pos 0) }
{
    added.get(place).map_or(0, |part| part.tenths)
}

// Whether the mark at a place is set; not past the last.
fn is_marked(marks: &[bool], k: usize) -> bool
    ensures { result ≡ get_or marks.now k false }
{
    marks.get(k).copied().unwrap_or(false)
}

// Marks the segment at a place as heard, if it sounds.
fn mark(heard: &mut [bool], k: usize, sounds: bool)
    ensures { heard.new ≡ marked_by heard.old k sounds }
{
    if k < heard.len() {
        heard[k] = heard[k] | sounds;
    }
}

// Which segments have an entry with a level. All at once: a search for each close segment looks through up to 96 entries 24 times.
fn heard_segments(entries: &[Entry], levels: &[i32]) -> [bool; MOST_SEGMENTS]
    ensures { SegmentsHeard (places_of entries.now) levels.now result }
{
    let mut heard = [false; MOST_SEGMENTS];
    for i in 0..entries.len().min(levels.len()) {
        mark(&mut heard, entries[i].segment, LEAST_LEVEL <= levels[i]);
    }
    heard
}

// Which have one, by the places of the entries' segments.
fn heard_among(places: &[usize], levels: &[i32]) -> [bool; MOST_SEGMENTS]
    ensures { SegmentsHeard places.now levels.now result }
{
    let mut heard = [false; MOST_SEGMENTS];
    for i in 0..places.len().min(levels.len()) {
        mark(&mut heard, places[i], LEAST_LEVEL <= levels[i]);
    }
    heard
}

// Whether any segment is close. Few are, and where none is, nobody needs to know which are heard.
fn any_close(added: &[Propagation]) -> bool
    ensures { result ≡ list_any (λ a. a.close) added.now }
{
    added.iter().any(|part| part.close)
}

// Whether any is, by the segments' close marks.
fn any_marked(close: &[bool]) -> bool
    ensures { result ≡ list_any (λ marked. marked) close.now }
{
    close.iter().any(|marked| *marked)
}

// How many segments are marked as close and heard in the levels of a period.
fn close_segments(levels: &[i32], entries: &[Entry], added: &[Propagation]) -> u32
    ensures { CloseSegments levels.now (places_of entries.now) (marks_of added.now) result }
{
    if !any_close(added) {
        return 0;
    }
    let heard = heard_segments(entries, levels);
    added
        .iter()
        .enumerate()
        .take(MOST_SEGMENTS)
        .filter(|(k, part)| part.close && is_marked(&heard, *k))
        .count() as u32
}

// How many are, by the places of the entries' segments and the segments' close marks.
fn close_among(levels: &[i32], places: &[usize], close: &[bool]) -> u32
    ensures { CloseSegments levels.now places.now close.now result }
{
    if !any_marked(close) {
        return 0;
    }
    let heard = heard_among(places, levels);
    close
        .iter()
        .enumerate()
        .take(MOST_SEGMENTS)
        .filter(|(k, marked)| **marked && is_marked(&heard, *k))
        .count() as u32
}

// The tenths from which a level meets the period's limit.
#[tactic(auto, unfolding(crate::specs::Levels::limit_of))]
fn limit_tenths(period: Period) -> i32
    ensures { result ≡ pos (10 * limit_of period - 5) }
{
    match period {
        Period::Day => DAY_LIMIT,
        Period::Night => NIGHT_LIMIT,
    }
}

// Whether a level meets the period's limit; silent never does.
pub fn is_met(period: Period, level: Level) -> bool
    ensures { result ≡ met_by period level }
{
    match level {
        Level::Silent => false,
        Level::Figure(r) => limit_tenths(period) <= r,
    }
}

// A period's result from its levels, of which no more than 96 are heard, and how many close segments are heard in them.
fn result_from(period: Period, levels: &[i32], close: u32) -> PeriodResult
    requires { close ≤ ours.segments }
    ensures { result ≡ result_from period (total_of (heard (take ours.entries levels.now))) close }
{
    let total = energy::total_of(levels);
    PeriodResult {
        level: total.level,
        close: close + u32::from(total.close),
        met: is_met(period, total.level),
    }
}

// A period's result from levels as computed, the entries, and what their segments add, for any lists.
pub fn period_of(
    period: Period,
    levels: &[i32],
    entries: &[Entry],
    added: &[Propagation],
) -> PeriodResult
    ensures is { result ≡ period_from period levels.now (places_of entries.now) (marks_of added.now) }
    ensures allowed { TotalAllowed levels.now }
{
    let heard = &levels[..levels.len().min(MOST_ENTRIES)];
    result_from(period, heard, close_segments(heard, entries, added))
}

// A period's result from levels as computed, the places of their entries' segments, and the segments' close marks.
fn period_among(period: Period, levels: &[i32], places: &[usize], close: &[bool]) -> PeriodResult
    ensures { result ≡ period_from period levels.now places.now close.now }
{
    let heard = &levels[..levels.len().min(MOST_ENTRIES)];
    result_from(period, heard, close_among(heard, places, close))
}

// Writes the levels into the cells from a place on; without room for all of them the cells stay as they were.
pub fn write_levels(levels: &[i32], cells: &mut [i32], at: usize)
    ensures { cells.new ≡ written levels.now cells.old at }
{
    if cells.len() < at {
        return;
    }
    if cells.len() - at < levels.len() {
        return;
    }
    // A cell at a time and not by `copy_from_slice`, for which the archives would need memmove of the C library.
    for (i, level) in levels.iter().enumerate() {
        cells[at + i] = *level;
    }
}

// Where a period's levels begin among the cells of so many entries: the day's come first.
#[tactic(auto, unfolding(crate::specs::Request::first_cell))]
pub fn first_cell(period: Period, entries: usize) -> usize
    ensures { result ≡ first_cell period entries }
{
    match period {
        Period::Day => 0,
        Period::Night => entries,
    }
}

// Both periods' results from levels as computed: each entry's by day and by night, the place of its segment, and the segments' close
// marks. The levels are written into the first cells; on a refusal the cells are as they were.
pub fn levels_from(
    day: &[i32],
    night: &[i32],
    places: &[usize],
    close: &[bool],
    cells: &mut [i32],
) -> Result<Periods<PeriodResult>, Refusal>
    ensures answered { AnsweredFrom day.now night.now places.now close.now cells.old cells.new result }
    ensures number { check_number (check_of result) ≡ request_number (length day.now) (length day.now + length night.now) (length cells.old) }
{
    if day.is_empty() {
        return Err(Refusal::NoEntry);
    }
    if cells.len() < day.len() {
        return Err(Refusal::FewCells);
    }
    if cells.len() - day.len() < night.len() {
        return Err(Refusal::FewCells);
    }
    write_levels(day, cells, 0);
    write_levels(night, cells, day.len());
    Ok(Periods {
        day: period_among(Period::Day, day, places, close),
        night: period_among(Period::Night, night, places, close),
    })
}

// Both periods' results from what each segment adds and the entries, whose levels are written into the first cells; on a refusal the
// cells are as they were. The two are lists and no struct of them, as both callers hold them: a struct would be made for this call alone.
pub fn levels_by(
    added: &[Propagation],
    entries: &[Entry],
    cells: &mut [i32],
) -> Result<Periods<PeriodResult>, Refusal>
    ensures answered { AnsweredFrom (cells_from Day added.now entries.now) (cells_from Night added.now entries.now) (places_of entries.now) (marks_of added.now) cells.old cells.new result }
    ensures number { check_number (check_of result) ≡ request_number (length entries.now) (cells_needed (length entries.now)) (length cells.old) }
{
    let total = entries.len();
    if total == 0 {
        return Err(Refusal::NoEntry);
    }
    if cells.len() / 2 < total {
        return Err(Refusal::FewCells);
    }
    for (at, entry) in entries.iter().enumerate() {
        let levels = entry_cells(tenths_at(added, entry.segment), entry.train);
        cells[at] = levels.day;
        cells[total + at] = levels.night;
    }
    Ok(Periods {
        day: period_of(Period::Day, &cells[..total], entries, added),
        night: period_of(Period::Night, &cells[total..total + total], entries, added),
    })
}

// Both periods' results, with the entries' levels in the first cells; on a refusal the cells are as they were.
pub fn levels(study: &Study, cells: &mut [i32]) -> Result<Periods<PeriodResult>, Refusal>
    ensures answered { Answered study.now cells.old cells.new result }
    ensures number { check_number (check_of result) ≡ levels_number study.now (length cells.old) }
{
    let mut added: ArrayVec<Propagation, MOST_SEGMENTS> = ArrayVec::new();
    for segment in study.segments() {
        added.push(propagation::propagation_of(*segment));
    }
    levels_by(added.as_slice(), study.entries(), cells)
}
