// Refusals in words: the notice that tells a planner which figure to mend.
#![tactic(auto)]

ghost use Rattle.std.specs.Prelude.{◌≡◌, Some};
ghost use Rattle.words.specs.Words.{words_of, refused_of, notice_of};

use arrayvec::ArrayString;
use figures::Refusal;
use itoa::Buffer;
use std::fmt;
use text::Fault;
use writing::concatenated;

// No notice has more bytes than this.
pub const NOTICE_BYTES: usize = 450;

// The rule that was not kept.
#[tactic(auto, unfolding(crate::specs::Words::words_of))]
fn words(refusal: Refusal) -> &'static str
    ensures { result.now ≡ words_of refusal }
{
    match refusal {
        Refusal::Distance => "distance to the source line must be 1000 to 30000 cm",
        Refusal::Height =>
            "window height must be -5000 to 5000 cm above the railhead, and mean height of propagation 0 to 5000 cm",
        Refusal::Ground => "share of soft ground must be 0 to 10 tenths",
        Refusal::Angle =>
            "angle of view must be 5 to 180 degrees, and twice the angle alpha of Figure 9 from the angle of view to 180 degrees",
        Refusal::Screen =>
            "screen must be 0, 1 or 2; source to screen 100 cm to 100 cm less than the distance; screen top -2000 to 5000 cm; Chart 6(c) reading 0 to 100 tenths, and 0 unless the screen is reflective (2); far wall's height 0 to 100 dm; the last four must be 0 without a screen, and ballast 0 with one",
        Refusal::Shadow =>
            "window is in the screen's shadow and the path over the screen is more than 2.5 m longer than the straight one, beyond the chart",
        Refusal::Reading =>
            "Table 1 reading must be 0 to 150 tenths, ballast reading -30 to 0 tenths, facade 0 or 1, and angle of opposite facades 0 degrees to the angle of view",
        Refusal::Row =>
            "vehicle row must be 1 to 34: the row of Table A1.1, not its category number",
        Refusal::Speed => "speed must be 1 to 300 km/h",
        Refusal::Vehicles => "vehicles of a train must be 1 to 60",
        Refusal::Trains => "day trains and night trains must each be 0 to 2000",
        Refusal::Form =>
            "out of form: a number has 1 to 5 digits, no decimal point and no spare zero, as 0, 75 or -30; one space between two numbers, no tab, second space or carriage return; a line feed ends every line, the last too; a segment has 15 numbers, a train 5, line 1 one more than segments; at most 16384 bytes",
        Refusal::Contents =>
            "line 1 must give 1 to 24 segments, then each segment's number of train lines, 0 to 96 and 1 to 96 in all; every line that it promises must be there, and no other",
        Refusal::NoSegment => "a train entry needs a segment before it",
        Refusal::SegmentLimit => "a study has at most 24 segments",
        Refusal::EntryLimit => "a study has at most 96 train entries",
        Refusal::NoEntry => "levels need at least 1 train entry",
        Refusal::FewCells => "working cells must be at least 2 for each train entry",
        Refusal::EntryNumber => "train entry must be 1 to the number of train entries in the study",
        Refusal::NoSpeed => "no speed from 20 to 300 km/h keeps the total below the limit",
    }
}

// What was refused at which line of the text: it is written as `refused 9 line 3`.
#[derive(Clone, Copy)]
pub struct Refused(pub Fault);

impl Refused {
    // What is written of it: the number has at most two digits, and the line 20.
    pub fn text(self) -> ArrayString<36>
        ensures { result.bytes ≡ refused_of self.0.refusal self.0.line }
    {
        let number = u32::from(self.0.refusal);
        let line = self.0.line;
        let (mut before, mut after) = (Buffer::new(), Buffer::new());
        concatenated(&[
            "refused ",
            before.format(number),
            " line ",
            after.format(line),
        ])
    }
}

// The same for a reader: it is written with the program's name in front and the rule behind.
#[derive(Clone, Copy)]
pub struct Notice(pub Fault);

impl Notice {
    // What is written of it.
    pub fn text(self) -> ArrayString<NOTICE_BYTES>
        ensures { result.bytes ≡ notice_of self.0.refusal self.0.line }
    {
        let refused = Refused(self.0).text();
        let words = words(self.0.refusal);
        concatenated(&["railnoise: ", refused.as_str(), ": ", words, "\n"])
    }
}

// For whoever writes it with `{}`. What std promises of it holds only where `fmt` answers `Ok`, so the programs write `text`.
impl fmt::Display for Notice {
    ghost output = { λ n. Some (notice_of n.0.refusal n.0.line) };

    fn fmt<W: fmt::Write>(&self, f: &mut fmt::Formatter<W>) -> fmt::Result {
        f.write_str(self.text().as_str())
    }
}
