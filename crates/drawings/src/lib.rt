// From the texts of two drawings of one window to the levels of both as one study (document 02, L5).
#![tactic(auto)]

ghost use Rattle.std.specs.Prelude.{◌≡◌, ◌+◌, ◌-◌, ◌≤◌, length, sum, MatchOption, MatchResult};
ghost use Rattle.figures.specs.Refusal.{check_number};
ghost use Rattle.study.specs.Add.{ours};
ghost use Rattle.request.specs.Request.{cells_needed};
ghost use Rattle.text.specs.Private.{TextRefused};
ghost use Rattle.drawings.specs.Drawings.{check_told, merged_answer_number, MergedAnswered};
ghost use Rattle.drawings.specs.Private.{most_close, total_marks, Announced, Unannounced, PartOf, TextGives, PeriodLaid, Small, Together};

use figures::{Period, Periods, Refusal};
use lines::contents::contents_of;
use lines::split_line;
use merging::limits_check;
use request::{MOST_CELLS, PeriodResult, is_met, write_levels};
use study::{MOST_ENTRIES, MOST_SEGMENTS};
use text::{TextFault, text_levels};

// How many segments and entries a text has.
#[derive(Clone, Copy)]
struct Sizes {
    segments: usize,
    entries: usize,
}

// A period of a text: its entries' levels as their cells hold them, and how many segments with trains are marked as close.
#[derive(Clone, Copy)]
struct Part<'a> {
    levels: &'a [i32],
    close: u32,
}

// What a text gives: how many segments it has, and both periods, each with the levels of all its entries.
#[derive(Clone, Copy)]
struct Drawing<'a> {
    segments: usize,
    parts: Periods<Part<'a>>,
}

// The entry counts, added.
fn sum_of(counts: &[usize]) -> usize
    requires { sum counts.now ≤ ours.entries }
    ensures { result ≡ sum counts.now }
{
    counts.iter().sum()
}

// The sizes that a text's first line announces, where it is not refused.
fn sizes_of(text: &[u8]) -> Option<Sizes>
    ensures { MatchOption result (Unannounced text.now) (λ r. Announced text.now r) }
{
    let (line, _) = split_line(text)?;
    let counts = contents_of::<MOST_SEGMENTS>(line, MOST_ENTRIES).ok()?;
    Some(Sizes {
        segments: counts.len(),
        entries: sum_of(counts.as_slice()),
    })
}

// A period's close count without the total's own mark, which is a function of the levels.
#[tactic(auto, using(request::proofs::Results::byte_is))]
fn marked_segments(close: u32, levels: &[i32]) -> u32
    ensures { result ≡ close - total_marks levels.now }
{
    // For speed: then the total has no mark, and need not be made.
    if close == 0 {
        return 0;
    }
    close - u32::from(energy::total_of(levels).close)
}

// A period of a text from its levels and its close count in the text's answer.
fn part_of(close: u32, levels: &[i32]) -> Part<'_>
    ensures { PartOf close levels.now result }
{
    Part {
        levels,
        close: marked_segments(close, levels),
    }
}

// What a text gives, its levels in the cells; or why it is turned back, as the text at its place.
fn drawing_in<'a>(place: u32, text: &[u8], cells: &'a mut [i32]) -> Result<Drawing<'a>, TextFault>
    requires { length cells.old ≡ cells_needed ours.entries }
    ensures { MatchResult result (λ r. TextGives text.now r) (λ f. TextRefused place text.now f) }
{
    let answer = text_levels(text, cells).map_err(|fault| TextFault { text: place, fault })?;
    // An accepted text has a first line, whose counts are in range.
    let sizes = sizes_of(text).unwrap();
    let end = sizes.entries + sizes.entries;
    Ok(Drawing {
        segments: sizes.segments,
        parts: Periods {
            day: part_of(answer.day.close, &cells[..sizes.entries]),
            night: part_of(answer.night.close, &cells[sizes.entries..end]),
        },
    })
}

// A period of both texts: its levels in the cells from a place on, the first text's before the second's, and its result. Not by request's
// `period_of`, which counts the close segments of entries: here they are counted already, of each text.
fn period_in(
    period: Period,
    one: Part<'_>,
    two: Part<'_>,
    cells: &mut [i32],
    at: usize,
) -> PeriodResult
    requires { (at + (length one.levels.now + length two.levels.now) ≤ length cells.old) × (one.close + two.close ≤ most_close) }
    ensures { PeriodLaid period one.entry two.entry at cells.old cells.new result }
{
    write_levels(one.levels, cells, at);
    let next = at + one.levels.len();
    write_levels(two.levels, cells, next);
    let end = next + two.levels.len();
    let total = energy::total_of(&cells[at..end]);
    PeriodResult {
        level: total.level,
        close: one.close + two.close + u32::from(total.close),
        met: is_met(period, total.level),
    }
}

// Both periods of both texts, the levels in the first cells, those by day and then those by night; or why both together are turned back.
fn together(
    one: &Drawing<'_>,
    two: &Drawing<'_>,
    cells: &mut [i32],
) -> Result<Periods<PeriodResult>, Refusal>
    requires { Small one.now × Small two.now }
    ensures { Together one.now two.now cells.old cells.new result }
{
    let entries = one.parts.day.levels.len() + two.parts.day.levels.len();
    limits_check(one.segments + two.segments, entries)?;
    if cells.len() < entries + entries {
        return Err(Refusal::FewCells);
    }
    Ok(Periods {
        day: period_in(Period::Day, one.parts.day, two.parts.day, cells, 0),
        night: period_in(
            Period::Night,
            one.parts.night,
            two.parts.night,
            cells,
            entries,
        ),
    })
}

// From two texts to the levels of both together. On a refusal the cells are as they were.
pub fn merged_levels(
    first: &[u8],
    second: &[u8],
    cells: &mut [i32],
) -> Result<Periods<PeriodResult>, TextFault>
    ensures answered { MergedAnswered first.now second.now cells.old cells.new result }
    ensures number { check_number (check_told result) ≡ merged_answer_number first.now second.now (length cells.old) }
{
    // Arrays of fixed size, since there is no heap; what is handed on of them are the slices that a text fills.
    let mut own = [0i32; MOST_CELLS];
    let one = drawing_in(1, first, &mut own)?;
    let mut others = [0i32; MOST_CELLS];
    let two = drawing_in(2, second, &mut others)?;
    together(&one, &two, cells).map_err(TextFault::from)
}
