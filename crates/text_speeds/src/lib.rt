// From a text to the highest speed at which the trains of one of its entries may pass the window (document 02, L6).
#![tactic(auto)]

ghost use Rattle.std.specs.Prelude.{◌≡◌};
ghost use Rattle.figures.specs.Refusal.{check_number};
ghost use Rattle.text.specs.Answer.{check_at};
ghost use Rattle.text_speeds.specs.TextSpeeds.{text_speed_number, TextSpeedAnswered};
ghost use Rattle.text_speeds.specs.Private.{TrainIn, Emitted, Regained};

use decibel::Level;
use emission::emissions_of;
use figures::{Period, Refusal, Train};
use lines::fields::train_of;
use lines::split_line;
use request::{MOST_CELLS, first_cell};
use speeds::highest_speed_from;
use text::{Fault, text_levels};

// How many train lines an accepted text has, and the train of one of them, counted from 0. Each line after the first that reads as a
// train is one: no segment's line does, for it has more numbers.
#[tactic(auto, using(text::proofs::Places::past_shorter, crate::proofs::Passed::passed_torn, crate::proofs::Passed::passed_first, crate::proofs::Passed::passed_other, crate::proofs::Passed::passed_asked, crate::proofs::Passed::passed_train))]
fn train_in(text: &[u8], place: usize) -> (usize, Option<Train>)
    ensures { TrainIn text.now place result }
{
    let mut total: usize = 0;
    let mut train = None;
    let Some((_, mut rest)) = split_line(text) else {
        return (total, train);
    };
    // Where no line feed ends it, or none is left, an accepted text has no more lines. For speed one walk tells both, how many there are and
    // the one: a chain over std's `split` would read the lines twice.
    while let Some((line, next)) = split_line(rest) {
        if let Some(read) = train_of(line) {
            if total == place {
                train = Some(read);
            }
            total += 1;
        }
        rest = next;
    }
    (total, train)
}

// What the segment adds to the level of an entry, from that level and its train: the rest of it. Where the entry is silent nothing is
// added, whatever the segment would add.
fn added_to(cell: i32, train: Train, period: Period) -> i16
    requires { Emitted period train cell }
    ensures { Regained period train cell result }
{
    match emissions_of(train).of(period) {
        Level::Silent => 0,
        Level::Figure(tenths) => (cell - tenths) as i16,
    }
}

// The highest speed from 20 to 300 km/h of an entry, counted from 1 over all segments, at which the period's total stays below the limit.
pub fn text_speed(text: &[u8], entry: usize, period: Period, limit: i32) -> Result<u32, Fault>
    ensures answered { TextSpeedAnswered text.now entry period limit result }
    ensures number { check_number (check_at result) ≡ text_speed_number text.now entry period limit }
{
    // Fixed memory, since there is no heap; a period's part of it is handed on.
    let mut cells = [0i32; MOST_CELLS];
    let _ = text_levels(text, &mut cells)?;
    // The text is accepted, so no line is at fault. As in speeds, but of lines, which are not counted before the entry is looked for.
    let outside = Fault::from(Refusal::EntryNumber);
    if entry == 0 {
        return Err(outside);
    }
    let (total, Some(train)) = train_in(text, entry - 1) else {
        return Err(outside);
    };
    let from = first_cell(period, total);
    let own = &cells[from..from + total];
    let tenths = added_to(own[entry - 1], train, period);
    highest_speed_from(own, entry, tenths, train, period, limit).map_err(Fault::from)
}
