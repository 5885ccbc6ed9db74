// The report of a study text: what the program writes, and the notice of a refusal beside it.
#![tactic(auto)]

ghost use Rattle.std.specs.Prelude.{◌≡◌, Some};
ghost use Rattle.report.specs.Bytes.{level, verdict};
ghost use Rattle.report.specs.Private.{result_line};
ghost use Rattle.report.specs.Report.{written, noticed, Reported};

use arrayvec::ArrayString;
use decibel::Level;
use figures::Periods;
use itoa::Buffer;
use request::{MOST_CELLS, PeriodResult};
use std::fmt;
use text::Fault;
use words::{NOTICE_BYTES, Notice, Refused};
use writing::{Tenths, concatenated};

// No report has more bytes than this.
pub const REPORT_BYTES: usize = 96;

// A level: it is written as its figure, or as `silent`.
#[derive(Clone, Copy)]
pub struct Decibels(pub Level);

impl Decibels {
    // What is written of it.
    pub fn text(self) -> ArrayString<12>
        ensures { result.bytes ≡ level self.0 }
    {
        match self.0 {
            Level::Silent => concatenated(&["silent"]),
            Level::Figure(tenths) => Tenths(tenths).text(),
        }
    }
}

#[tactic(auto, unfolding(crate::specs::Bytes::verdict))]
fn verdict(met: bool) -> &'static str
    ensures { result.now ≡ verdict met }
{
    if met { "yes" } else { "no" }
}

// A period's level, close count and verdict, in at most 12 bytes for the level, 10 for the count, 3 for the verdict and a space before the
// count and the verdict.
fn result_text(period: PeriodResult) -> ArrayString<27>
    ensures { result.bytes ≡ result_line period }
{
    let level = Decibels(period.level).text();
    let mut close = Buffer::new();
    concatenated(&[
        level.as_str(),
        " ",
        close.format(period.close),
        " ",
        verdict(period.met),
    ])
}

// What a text comes to: it is written as the results' lines, or as what was refused at which line.
#[derive(Clone, Copy)]
pub struct Outcome(pub Result<Periods<PeriodResult>, Fault>);

impl Outcome {
    // What is written of it.
    pub fn text(self) -> ArrayString<REPORT_BYTES>
        ensures { result.bytes ≡ written self }
    {
        match self.0 {
            Ok(results) => {
                let day = result_text(results.day);
                let night = result_text(results.night);
                concatenated(&[
                    "period level close met\nday ",
                    day.as_str(),
                    "\nnight ",
                    night.as_str(),
                    "\n",
                ])
            }
            Err(fault) => {
                let refused = Refused(fault).text();
                concatenated(&[refused.as_str(), "\n"])
            }
        }
    }

    // The notice beside it: nothing of an answer.
    #[tactic(auto, unfolding(crate::specs::Report::noticed))]
    pub fn notice(self) -> ArrayString<NOTICE_BYTES>
        ensures { result.bytes ≡ noticed self }
    {
        match self.0 {
            Ok(_) => ArrayString::new(),
            Err(fault) => Notice(fault).text(),
        }
    }
}

// For whoever writes it with `{}`; the programs write `text`, as of words' `Notice`.
impl fmt::Display for Outcome {
    ghost output = { λ r. Some (written r) };

    fn fmt<W: fmt::Write>(&self, f: &mut fmt::Formatter<W>) -> fmt::Result {
        f.write_str(self.text().as_str())
    }
}

// What a text comes to.
pub fn report(text: &[u8]) -> Outcome
    ensures { Reported text.now result }
{
    let mut cells = [0i32; MOST_CELLS];
    // By cases, because a proof reads what a value's type holds from its parts.
    match text::text_levels(text, &mut cells) {
        Ok(results) => Outcome(Ok(results)),
        Err(fault) => Outcome(Err(fault)),
    }
}
