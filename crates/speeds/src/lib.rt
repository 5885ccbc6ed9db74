// The highest speed at which the trains of an entry may pass the window (document 02, L6).
#![tactic(auto)]

ghost use Rattle.std.specs.Prelude.{◌≡◌, ◌≤◌, ◌<◌, length, get_or, take};
ghost use Rattle.figures.specs.Refusal.{check_number, check_of};
ghost use Rattle.figures.specs.Rules.{most_speed};
ghost use Rattle.propagation.specs.Propagation.{propagation_of};
ghost use Rattle.study.specs.Plan.{no_segment};
ghost use Rattle.study.specs.Add.{ours};
ghost use Rattle.request.specs.Request.{cell_in};
ghost use Rattle.speeds.specs.Speeds.{at_speed, stays_below, highest_below, speed_number, highest_in, highest_from, SpeedAnswered, SpeedAnsweredFrom};
ghost use Rattle.speeds.specs.Private.{total_at, speed_found};

use decibel::Level;
use figures::{Period, Refusal, Segment, Train};
use request::{MOST_CELLS, entry_cells, first_cell, levels};
use study::{MOST_ENTRIES, Study};

// The speeds that may be answered, in km/h: from the least that a train counts with to the most that can be typed.
const LEAST_COUNTED: u32 = emission::LEAST_COUNTED as u32;

const MOST_SPEED: u32 = figures::ranges::MOST_SPEED as u32;

// Whether a level, to the nearest whole decibel, stays below the limit; silent does. Ten times the limit may need more than 32 bits.
#[tactic(auto, unfolding(crate::specs::Speeds::stays_below), using(crate::proofs::Below::figure_below))]
fn is_below(level: Level, limit: i32) -> bool
    ensures { result ≡ stays_below limit level }
{
    match level {
        Level::Silent => true,
        Level::Figure(tenths) => i64::from(tenths) < 10 * i64::from(limit) - 5,
    }
}

// What is asked: of a period's levels as computed, the place of the entry in question, what its segment adds, its train, and the limit.
#[derive(Clone, Copy)]
struct Asked<'a> {
    cells: &'a [i32],
    place: usize,
    tenths: i16,
    train: Train,
    period: Period,
    limit: i32,
    ghost few: { length cells.now ≤ ours.entries },
    ghost within: { place < length cells.now },
}

impl Asked<'_> {
    // The entry's level at a speed, as its working cell holds it.
    fn cell_at(&self, speed: u32) -> i32
        requires { speed ≤ most_speed }
        ensures { result ≡ cell_in self.now.period self.now.tenths (at_speed speed self.now.train) }
    {
        let passing = Train {
            speed: speed as i32,
            ..self.train
        };
        entry_cells(self.tenths, passing).of(self.period)
    }

    // Whether the total, with the entry at a speed, stays below the limit.
    fn is_below_at(&self, speed: u32) -> bool
        requires { speed ≤ most_speed }
        ensures { result ≡ stays_below self.now.limit (total_at self.now.period self.now.cells.now self.now.place self.now.tenths self.now.train speed) }
    {
        // For speed an array and a part of it: an `ArrayVec` by `try_from` proves too, but takes a quarter more instructions of a short request.
        let mut changed = [0i32; MOST_ENTRIES];
        let changed = &mut changed[..self.cells.len()];
        changed.copy_from_slice(self.cells);
        changed[self.place] = self.cell_at(speed);
        is_below(energy::total_of(changed).level, self.limit)
    }

    // By halves, since a total never falls where a speed rises: at `low` it stays below the limit, unless no speed is found yet, and at
    // no speed above `high` it does. A loop, for std searches by halves in slices alone, and a chain over the speeds would take 281 totals.
    fn highest(&self) -> Option<u32>
        ensures { result ≡ speed_found (highest_below self.now.limit (total_at self.now.period self.now.cells.now self.now.place self.now.tenths self.now.train)) }
    {
        let mut low = LEAST_COUNTED - 1;
        let mut high = MOST_SPEED;
        while low < high {
            let middle = (low + high + 1) / 2;
            if self.is_below_at(middle) {
                low = middle;
            } else {
                high = middle - 1;
            }
        }
        (LEAST_COUNTED <= low).then_some(low)
    }
}

// The highest speed from levels as computed: the cells of a period's entries, which entry is asked for, counted from 1, what its segment
// adds, and its train; the entry's own cell makes no difference. Cells past the 96th are not read, and an entry there is 25. An entry, a
// period and a limit stay parameters, here and of text_speeds, as C hands them over.
pub fn highest_speed_from(
    cells: &[i32],
    entry: usize,
    tenths: i16,
    train: Train,
    period: Period,
    limit: i32,
) -> Result<u32, Refusal>
    ensures answered { SpeedAnsweredFrom (take ours.entries cells.now) entry tenths train period limit result }
    ensures number { check_number (check_of result) ≡ speed_number entry (length (take ours.entries cells.now)) (highest_from (take ours.entries cells.now) entry tenths train period limit) }
{
    let rows = MOST_ENTRIES.min(cells.len());
    if entry == 0 || rows < entry {
        return Err(Refusal::EntryNumber);
    }
    let asked = Asked {
        cells: &cells[..rows],
        place: entry - 1,
        tenths,
        train,
        period,
        limit,
    };
    asked.highest().ok_or(Refusal::NoSpeed)
}

// What the segment at a place adds to a level; nothing where there is none. Not request's, which reads what was worked out of each segment:
// this works out the one that is asked for.
#[tactic(auto, using(crate::proofs::Trials::none_at))]
fn tenths_at(segments: &[Segment], place: usize) -> i16
    ensures { result ≡ (propagation_of (get_or segments.now place no_segment)).tenths }
{
    segments
        .get(place)
        .map_or(0, |segment| propagation::propagation_of(*segment).tenths)
}

// The highest speed from 20 to 300 km/h at which the period's total, with the entry at that speed, stays below the limit in whole decibels.
// Entries are counted from 1.
#[tactic(auto, using(request::proofs::Laid::first_most))]
pub fn highest_speed(
    study: &Study,
    entry: usize,
    period: Period,
    limit: i32,
) -> Result<u32, Refusal>
    ensures answered { SpeedAnswered study.now entry period limit result }
    ensures number { check_number (check_of result) ≡ speed_number entry (length study.now.entries) (highest_in study.now entry period limit) }
{
    // A study without entries is refused so too, in place of 23. `highest_speed_from` asks the same of cells: here it spares working them out.
    let outside = Refusal::EntryNumber;
    let entries = study.entries();
    let total = entries.len();
    if entry == 0 || total < entry {
        return Err(outside);
    }
    // Fixed memory, since there is no heap; a period's part of it is handed on.
    let mut cells = [0i32; MOST_CELLS];
    // Never refused: the study has an entry, and the cells are as many as any study needs.
    let _ = levels(study, &mut cells);
    let asked = entries[entry - 1];
    let tenths = tenths_at(study.segments(), asked.segment);
    let from = first_cell(period, total);
    highest_speed_from(
        &cells[from..from + total],
        entry,
        tenths,
        asked.train,
        period,
        limit,
    )
}
