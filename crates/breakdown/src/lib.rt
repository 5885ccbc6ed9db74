// A study's breakdown: the parts of each segment, and those of each train entry beside its levels, a line for each.
#![tactic(auto)]

ghost use Rattle.std.specs.Prelude.{◌≡◌, ◌≤◌, ◌+◌, ◌++◌, length, pos, get_or, cond, Some};
ghost use Rattle.figures.specs.Rules.{unscreened};
ghost use Rattle.writing.specs.Bytes.{ascii};
ghost use Rattle.breakdown.specs.Lines.{close_part, cell_level, place_number};
ghost use Rattle.breakdown.specs.Private.{segment_bytes, entry_bytes};
ghost use Rattle.breakdown.specs.Breakdown.{segments_bytes, entries_bytes, study_bytes, text_bytes, StudyBrokenDown, BrokenDown};

use arrayvec::ArrayString;
use decibel::Level;
use energy::LEAST_LEVEL;
use figures::{Periods, Segment, Train};
use itoa::Buffer;
use report::{Decibels, Outcome, REPORT_BYTES};
use request::MOST_CELLS;
use std::fmt;
use study::{MOST_ENTRIES, MOST_SEGMENTS, Study};
use writing::{Tenths, concatenated};

// No line has more bytes than this.
const LINE_BYTES: usize = 256;

// The lines of a study's segments have no more bytes than this.
const SEGMENTS_BYTES: usize = MOST_SEGMENTS * LINE_BYTES;

// The lines of a study's train entries have no more bytes than this.
const ENTRIES_BYTES: usize = MOST_ENTRIES * LINE_BYTES;

// No study's breakdown has more bytes than this.
pub const STUDY_BYTES: usize = SEGMENTS_BYTES + ENTRIES_BYTES;

// No text's breakdown, which ends with the report, has more bytes than this.
pub const TEXT_BYTES: usize = STUDY_BYTES + REPORT_BYTES;

// The level that a working cell holds. No From: a cell is an i32 as any other.
#[tactic(auto, unfolding(crate::specs::Lines::cell_level))]
fn level_of(cell: i32) -> Level
    ensures { result ≡ cell_level cell }
{
    if cell < LEAST_LEVEL {
        return Level::Silent;
    }
    Level::Figure(cell)
}

// The cell at a place; 0 past the last.
fn cell_at(cells: &[i32], k: usize) -> i32
    ensures { result ≡ get_or cells.now k (pos 0) }
{
    cells.get(k).copied().unwrap_or(0)
}

// The number of the segment at a place; places count from 0, and there are no more than a study holds.
#[tactic(auto, unfolding(crate::specs::Lines::place_number))]
fn number_of(k: usize) -> usize
    ensures { result ≡ place_number k }
{
    k.min(MOST_SEGMENTS - 1) + 1
}

// The name of the ground step, or of the screen's instead of it.
fn path_name(s: Segment) -> &'static str
    ensures { result.now ≡ cond (unscreened s) (ascii " ground ") (ascii " screen ") }
{
    if figures::is_unscreened(s) {
        " ground "
    } else {
        " screen "
    }
}

// The ground's close mark, at the end of a segment's line.
#[tactic(auto, unfolding(crate::specs::Lines::close_part))]
fn closing(close: bool) -> &'static str
    ensures { result.now ≡ close_part close }
{
    if close { " close yes\n" } else { " close no\n" }
}

// The line of a segment with its number: first the steps from the source to the window, then the readings that the planner enters, then
// the reflections and the close mark.
fn segment_line(number: usize, segment: Segment) -> ArrayString<LINE_BYTES>
    ensures { result.bytes ≡ segment_bytes number segment }
{
    let parts = propagation::segment_breakdown_of(segment);
    let mut digits = Buffer::new();
    let distance = Tenths(parts.distance).text();
    let air = Tenths(parts.air).text();
    let path = Tenths(parts.path).text();
    let angle = Tenths(parts.angle).text();
    let chart = Tenths(parts.chart).text();
    let track = Tenths(parts.track).text();
    let ballast = Tenths(parts.ballast).text();
    let facade = Tenths(parts.facade).text();
    let opposite = Tenths(parts.opposite).text();
    concatenated(&[
        "segment ",
        digits.format(number),
        " distance ",
        distance.as_str(),
        " air ",
        air.as_str(),
        path_name(segment),
        path.as_str(),
        " angle ",
        angle.as_str(),
        " chart ",
        chart.as_str(),
        " track ",
        track.as_str(),
        " ballast ",
        ballast.as_str(),
        " facade ",
        facade.as_str(),
        " opposite ",
        opposite.as_str(),
        closing(parts.close),
    ])
}

// A train entry with its number, its segment's and its two working cells.
#[derive(Clone, Copy)]
struct EntryLine {
    number: usize,
    segment: usize,
    train: Train,
    cells: Periods<i32>,
}

impl EntryLine {
    // Its line: first its steps, then the trains step and the level of each period.
    fn text(self) -> ArrayString<LINE_BYTES>
        ensures { result.bytes ≡ entry_bytes self.number self.segment self.train self.cells.day self.cells.night }
    {
        let (mut number, mut segment) = (Buffer::new(), Buffer::new());
        let parts = emission::train_breakdown_of(self.train);
        let speed = Tenths(parts.speed).text();
        let rolling = Tenths(parts.rolling).text();
        let vehicles = Tenths(parts.vehicles).text();
        let by_day = Decibels(parts.trains.day);
        let by_night = Decibels(parts.trains.night);
        let (by_day, by_night) = (by_day.text(), by_night.text());
        let day = Decibels(level_of(self.cells.day)).text();
        let night = Decibels(level_of(self.cells.night)).text();
        concatenated(&[
            "train ",
            number.format(self.number),
            " segment ",
            segment.format(self.segment),
            " speed ",
            speed.as_str(),
            " rolling ",
            rolling.as_str(),
            " vehicles ",
            vehicles.as_str(),
            " trains by day ",
            by_day.as_str(),
            " trains by night ",
            by_night.as_str(),
            " level by day ",
            day.as_str(),
            " level by night ",
            night.as_str(),
            "\n",
        ])
    }
}

// A line for each segment, after what is written already. All lines go into one text, which is lent: a text of each kind of lines, put
// together afterwards, would be filled and copied each time, 30 kB or more for the shortest study.
fn segment_lines(study: &Study, lines: &mut ArrayString<TEXT_BYTES>)
    requires { length lines.old.bytes + SEGMENTS_BYTES ≤ TEXT_BYTES }
    ensures is { lines.new.bytes ≡ lines.old.bytes ++ segments_bytes study.now }
    ensures room { length lines.new.bytes ≤ length lines.old.bytes + SEGMENTS_BYTES }
{
    for (k, segment) in study.segments().iter().enumerate() {
        let number = k + 1;
        lines.push_str(segment_line(number, *segment).as_str());
    }
}

// A line for each train entry, from the cells that the request for levels leaves, likewise.
fn entry_lines(study: &Study, cells: &[i32], lines: &mut ArrayString<TEXT_BYTES>)
    requires { length lines.old.bytes + ENTRIES_BYTES ≤ TEXT_BYTES }
    ensures is { lines.new.bytes ≡ lines.old.bytes ++ entries_bytes study.now cells.now }
    ensures room { length lines.new.bytes ≤ length lines.old.bytes + ENTRIES_BYTES }
{
    let entries = study.entries();
    let count = entries.len();
    for (k, entry) in entries.iter().enumerate() {
        let (day, night) = (cell_at(cells, k), cell_at(cells, count + k));
        let line = EntryLine {
            number: k + 1,
            segment: number_of(entry.segment),
            train: entry.train,
            cells: Periods { day, night },
        };
        lines.push_str(line.text().as_str());
    }
}

// A study with the cells that the request for its levels leaves: it is written as a line for each segment, and one for each train entry.
#[derive(Drop)]
pub struct StudyBreakdown<'a> {
    study: &'a Study,
    cells: [i32; MOST_CELLS],
}

impl StudyBreakdown<'_> {
    // Writes it into a text that is lent, over what that has. So one text serves for many, where `text` fills and copies one each time.
    pub fn write(&self, lines: &mut ArrayString<TEXT_BYTES>)
        ensures is { lines.new.bytes ≡ study_bytes self.now }
        ensures room { length lines.new.bytes ≤ STUDY_BYTES }
    {
        lines.clear();
        segment_lines(self.study, lines);
        entry_lines(self.study, &self.cells, lines);
    }

    // What is written of it.
    pub fn text(&self) -> ArrayString<STUDY_BYTES>
        ensures { result.bytes ≡ study_bytes self.now }
    {
        let mut lines = ArrayString::new();
        self.write(&mut lines);
        concatenated(&[lines.as_str()])
    }
}

// The breakdown of a study.
pub fn study_breakdown(study: &Study) -> StudyBreakdown<'_>
    ensures { StudyBrokenDown study.now result }
{
    let mut cells = [0i32; MOST_CELLS];
    // Its answer is not looked at: a study without entries, the only one that is refused here, has no levels to show.
    let _ = request::levels(study, &mut cells);
    StudyBreakdown { study, cells }
}

// A text's study and report: it is written as the lines of the study, none where the text is refused, and the report.
#[derive(Drop)]
pub struct TextBreakdown {
    study: Study,
    outcome: Outcome,
}

impl TextBreakdown {
    // Writes it into a text that is lent, over what that has, as a study's breakdown.
    pub fn write(&self, lines: &mut ArrayString<TEXT_BYTES>)
        ensures { lines.new.bytes ≡ text_bytes self.now }
    {
        study_breakdown(&self.study).write(lines);
        lines.push_str(self.outcome.text().as_str());
    }

    // What is written of it.
    pub fn text(&self) -> ArrayString<TEXT_BYTES>
        ensures { result.bytes ≡ text_bytes self.now }
    {
        let mut lines = ArrayString::new();
        self.write(&mut lines);
        lines
    }
}

// For whoever writes it with `{}`; the programs write `text`, as of words' `Notice`.
impl fmt::Display for TextBreakdown {
    ghost output = { λ b. Some (text_bytes b) };

    fn fmt<W: fmt::Write>(&self, f: &mut fmt::Formatter<W>) -> fmt::Result {
        f.write_str(self.text().as_str())
    }
}

// The breakdown of a text.
pub fn text_breakdown(text: &[u8]) -> TextBreakdown
    ensures { BrokenDown text.now result }
{
    TextBreakdown {
        study: text::study_of(text),
        outcome: report::report(text),
    }
}
