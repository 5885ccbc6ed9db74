// Reading a whole study text (document 01, "The text"): the contents first, then one line a segment or a train entry.
#![tactic(auto)]

ghost use Rattle.std.specs.Prelude.{◌≡◌, length, MatchResult};
ghost use Rattle.figures.specs.Refusal.{check_number};
ghost use Rattle.study.specs.Add.{ours};
ghost use Rattle.text.specs.Text.{segment_kind, train_kind, refused_at, lines_of, read_from, read_text};
ghost use Rattle.text.specs.Answer.{reading_of, plan_in, check_at, text_number, text_answer_number, TextAnswered};
ghost use Rattle.text.specs.Private.{body_reading, NextLine, NoLine, LineRefused, Took, SegmentTaken, SegmentFault, TrainTaken, TrainFault, Answers};

use arrayvec::ArrayVec;
use figures::{Periods, Refusal, Train};
use lines::contents::contents_of;
use lines::fields::{segment_of, train_of};
use lines::split_line;
use propagation::Propagation;
use request::{PeriodResult, levels_by};
use study::{Entry, MOST_ENTRIES, MOST_SEGMENTS, Study, segment_judgement, train_answer};

// How many bytes a text may have.
const MOST_BYTES: usize = 16384;

// The number of the first line after the contents.
const SECOND_LINE: usize = 2;

// Why a text is turned back, and the line at fault, 0 where none is, as C is told it.
#[derive(Clone, Copy)]
pub struct Fault {
    pub refusal: Refusal,
    pub line: usize,
}

// A refusal for which no line is at fault.
impl From<Refusal> for Fault {
    ghost from_gives = { λ refusal fault. fault ≡ record { refusal = refusal; line = 0 } };

    fn from(refusal: Refusal) -> Fault {
        Fault { refusal, line: 0 }
    }
}

// Why one of several texts is turned back: its number among them, from 1, and its fault; number and line are 0 where no text is at fault.
// The C interface tells them by these numbers.
#[derive(Clone, Copy)]
pub struct TextFault {
    pub text: u32,
    pub fault: Fault,
}

// A refusal for which no text is at fault.
impl From<Refusal> for TextFault {
    ghost from_gives = { λ refusal told. told ≡ record { text = 0; fault = record { refusal = refusal; line = 0 } } };

    fn from(refusal: Refusal) -> TextFault {
        TextFault {
            text: 0,
            fault: Fault::from(refusal),
        }
    }
}

// The next line of what is left of a text and what follows it, or why there is none: nothing is left, or no line feed ends it.
fn next_line(text: &[u8]) -> Result<(&[u8], &[u8]), Refusal>
    ensures { MatchResult result (λ r. NextLine text.now r.0.now r.1.now) (λ f. NoLine text.now f) }
{
    if text.is_empty() {
        return Err(Refusal::Contents);
    }
    split_line(text).ok_or(Refusal::Form)
}

// The next line is a segment's: it is added to the study, and what follows is left.
#[tactic(auto, using(crate::proofs::Steps::segment_malformed, crate::proofs::Steps::segment_added, crate::proofs::Steps::segment_turned))]
fn add_segment_line<'a>(text: &'a [u8], study: &mut Study) -> Result<&'a [u8], Refusal>
    ensures { MatchResult result (λ r. Took segment_kind study.old text.now r.now study.new) (λ f. LineRefused segment_kind study.old text.now f) }
{
    let (line, rest) = next_line(text)?;
    let segment = segment_of(line).ok_or(Refusal::Form)?;
    study.add_segment(segment)?;
    Ok(rest)
}

// The next line is a train's, likewise. Not one function over both: each makes another addition, by another law.
#[tactic(auto, using(crate::proofs::Steps::train_malformed, crate::proofs::Steps::train_added, crate::proofs::Steps::train_turned))]
fn add_train_line<'a>(text: &'a [u8], study: &mut Study) -> Result<&'a [u8], Refusal>
    ensures { MatchResult result (λ r. Took train_kind study.old text.now r.now study.new) (λ f. LineRefused train_kind study.old text.now f) }
{
    let (line, rest) = next_line(text)?;
    let train = train_of(line).ok_or(Refusal::Form)?;
    study.add_train(train)?;
    Ok(rest)
}

// The lines after the contents, each added to the study in turn. The loops are left from the inside by a label, here and in `answer_lines`:
// the form that the project's scope asks for.
fn read_lines(text: &[u8], counts: &[usize]) -> Result<Study, Fault>
    ensures { reading_of result ≡ body_reading counts.now text.now }
{
    let mut study = Study::new();
    let mut rest = text;
    let mut line = SECOND_LINE;
    'reading: {
        for count in counts {
            match add_segment_line(rest, &mut study) {
                Ok(next) => rest = next,
                Err(refusal) => break 'reading Err(Fault { refusal, line }),
            }
            line += 1;
            for _ in 0..*count {
                match add_train_line(rest, &mut study) {
                    Ok(next) => rest = next,
                    Err(refusal) => break 'reading Err(Fault { refusal, line }),
                }
                line += 1;
            }
        }
        if rest.is_empty() {
            Ok(study)
        } else {
            Err(Fault {
                refusal: Refusal::Contents,
                line,
            })
        }
    }
}

// The contents and the lines after them, or why line 1 is refused.
fn read_contents(text: &[u8]) -> Result<(ArrayVec<usize, MOST_SEGMENTS>, &[u8]), Refusal>
    ensures { MatchResult result (λ r. read_from ours (lines_of text.now) ≡ body_reading r.0.items r.1.now) (λ f. read_from ours (lines_of text.now) ≡ refused_at f 1) }
{
    let (line, rest) = next_line(text)?;
    let counts = contents_of(line, MOST_ENTRIES)?;
    Ok((counts, rest))
}

// The same, and before it the text's size.
fn read_opening(text: &[u8]) -> Result<(ArrayVec<usize, MOST_SEGMENTS>, &[u8]), Fault>
    ensures { MatchResult result (λ r. read_text ours text.now ≡ body_reading r.0.items r.1.now) (λ e. read_text ours text.now ≡ refused_at e.refusal e.line) }
{
    if MOST_BYTES < text.len() {
        // By hand, for speed: by `From` a short text takes some hundred instructions more.
        return Err(Fault {
            refusal: Refusal::Form,
            line: 0,
        });
    }
    read_contents(text).map_err(|refusal| Fault { refusal, line: 1 })
}

// A whole text: its study, or the first line at fault.
#[tactic(auto, unfolding(crate::specs::Answer::reading_of), using(crate::proofs::TextAnswers::text_numbered))]
pub fn read_text(text: &[u8]) -> Result<Study, Fault>
    ensures is { reading_of result ≡ read_text ours text.now }
    ensures number { check_number (check_at result) ≡ text_number text.now }
{
    let (counts, rest) = read_opening(text)?;
    read_lines(rest, counts.as_slice())
}

// The study that is read from a text: the empty one where it is refused.
#[tactic(auto, unfolding(crate::specs::Answer::reading_of, crate::specs::Text::accepted_with, crate::specs::Text::refused_at))]
pub fn study_of(text: &[u8]) -> Study
    ensures { result ≡ plan_in text.now }
{
    read_text(text).unwrap_or_else(|_| Study::new())
}

// The next line is a segment's, after so many segments: what the segment adds to the level of its entries, and what follows.
// Not one function with `train_at`, which asks other counts and keeps another value.
#[tactic(auto, using(crate::proofs::Steps::segment_malformed, crate::proofs::Steps::judged_segment, crate::proofs::Steps::judged_fault))]
fn segment_at(text: &[u8], count: usize) -> Result<(Propagation, &[u8]), Refusal>
    ensures { MatchResult result (λ r. SegmentTaken count text.now r.0 r.1.now) (λ f. SegmentFault count text.now f) }
{
    let (line, rest) = next_line(text)?;
    let segment = segment_of(line).ok_or(Refusal::Form)?;
    let adds = segment_judgement(count, segment)?;
    Ok((adds, rest))
}

// The next line is a train's, after so many segments and entries: the train, and what follows.
#[tactic(auto, using(crate::proofs::Steps::train_malformed, crate::proofs::Steps::answered_train, crate::proofs::Steps::answered_fault))]
fn train_at(text: &[u8], count: usize, total: usize) -> Result<(Train, &[u8]), Refusal>
    ensures { MatchResult result (λ r. TrainTaken count total text.now r.0 r.1.now) (λ f. TrainFault count total text.now f) }
{
    let (line, rest) = next_line(text)?;
    let train = train_of(line).ok_or(Refusal::Form)?;
    train_answer(count, total, train)?;
    Ok((train, rest))
}

// The lines after the contents: what each segment adds is worked out as its line is read, the entries' levels when no line is at fault.
// No study is made on this way. Not one nest with `read_lines`, over a trait of both: each of its two steps would need a law of its own
// stated in the trait, and the loops would no longer read as 01 says them. `line` is counted by hand in both: lines are of two kinds.
fn answer_lines(
    text: &[u8],
    counts: &[usize],
    cells: &mut [i32],
) -> Result<Periods<PeriodResult>, Fault>
    ensures { Answers (body_reading counts.now text.now) cells.old cells.new result }
{
    let mut added: ArrayVec<Propagation, MOST_SEGMENTS> = ArrayVec::new();
    let mut entries: ArrayVec<Entry, MOST_ENTRIES> = ArrayVec::new();
    let mut rest = text;
    let mut line = SECOND_LINE;
    'reading: {
        for (segment, count) in counts.iter().enumerate() {
            match segment_at(rest, segment) {
                Err(refusal) => break 'reading Err(Fault { refusal, line }),
                Ok((adds, next)) => {
                    added.push(adds);
                    rest = next;
                }
            }
            line += 1;
            for _ in 0..*count {
                match train_at(rest, segment + 1, entries.len()) {
                    Err(refusal) => break 'reading Err(Fault { refusal, line }),
                    Ok((train, next)) => {
                        entries.push(Entry { segment, train });
                        rest = next;
                    }
                }
                line += 1;
            }
        }
        if !rest.is_empty() {
            break 'reading Err(Fault {
                refusal: Refusal::Contents,
                line,
            });
        }
        levels_by(added.as_slice(), entries.as_slice(), cells).map_err(Fault::from)
    }
}

// From a text to its levels: the reading's refusal first, then the request's, else the levels in the cells and both results.
// On a refusal the cells are as they were.
#[tactic(auto, using(crate::proofs::TextAnswers::text_answered, crate::proofs::TextAnswers::answer_number, crate::proofs::TextAnswers::refused_answers))]
pub fn text_levels(text: &[u8], cells: &mut [i32]) -> Result<Periods<PeriodResult>, Fault>
    ensures answered { TextAnswered text.now cells.old cells.new result }
    ensures number { check_number (check_at result) ≡ text_answer_number text.now (length cells.old) }
{
    let (counts, rest) = read_opening(text)?;
    answer_lines(rest, counts.as_slice(), cells)
}
