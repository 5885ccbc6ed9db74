// The ranges of the figures, each bound once, and one small function for each line of document 01 that a bound decides.
ghost use Rattle.std.specs.Prelude.{◌≡◌, ◌&&◌, pos, ◌+ℤ◌};
ghost use Rattle.std.specs.Int.Signed.{le_z};
ghost use Rattle.figures.specs.Rules.{least_gap, distance_kept, heights_kept, soft_kept, angles_kept, unscreened_kept, screened_kept, screen_kept, range_check, readings_kept, trains_kept, train_check, lowest_number, range_lines, train_lines};
ghost use Rattle.figures.specs.Refusal.{check_number};

use crate::{Refusal, Segment, Train, in_range, is_unscreened};

// Lengths in centimetres.
const LEAST_DISTANCE: i32 = 1000;

const MOST_DISTANCE: i32 = 30000;

const LOWEST_WINDOW: i32 = -5000;

const HIGHEST_WINDOW: i32 = 5000;

const HIGHEST_MEAN: i32 = 5000;

// From the screen to the source and to the window.
const LEAST_GAP: i32 = 100;

const LOWEST_TOP: i32 = -2000;

const HIGHEST_TOP: i32 = 5000;

// In decimetres.
const HIGHEST_WALL: i32 = 100;

// Tenths of the ground.
const MOST_SOFT: i32 = 10;

// Angles in degrees.
const LEAST_VIEW: i32 = 5;

const WIDEST_ANGLE: i32 = 180;

// Readings in tenths of a decibel.
const MOST_CHART: i32 = 100;

const MOST_TRACK: i32 = 150;

const LOWEST_BALLAST: i32 = -30;

// Rows of Table A1.1.
const MOST_ROW: i32 = 34;

// Speeds in km/h.
const LEAST_SPEED: i32 = 1;

pub const MOST_SPEED: i32 = 300;

// Vehicles of a train.
const MOST_VEHICLES: i32 = 60;

// Trains of a period.
const MOST_TRAINS: i32 = 2000;

fn distance_kept(s: Segment) -> bool
    ensures { result ≡ distance_kept s }
{
    in_range(LEAST_DISTANCE, MOST_DISTANCE, s.distance)
}

fn heights_kept(s: Segment) -> bool
    ensures { result ≡ heights_kept s }
{
    in_range(LOWEST_WINDOW, HIGHEST_WINDOW, s.height) & in_range(0, HIGHEST_MEAN, s.mean)
}

fn soft_kept(s: Segment) -> bool
    ensures { result ≡ soft_kept s }
{
    in_range(0, MOST_SOFT, s.soft)
}

fn angles_kept(s: Segment) -> bool
    ensures { result ≡ angles_kept s }
{
    in_range(LEAST_VIEW, WIDEST_ANGLE, s.view) & in_range(s.view, WIDEST_ANGLE, s.doubled)
}

fn unscreened_kept(s: Segment) -> bool
    ensures { result ≡ unscreened_kept s }
{
    (s.setback == 0) & ((s.top == 0) & ((s.chart == 0) & (s.wall == 0)))
}

// A number and the gap more, in 64 bits.
fn plus_gap(a: i32) -> i64
    ensures { result ≡ a +ℤ pos least_gap }
{
    i64::from(a) + i64::from(LEAST_GAP)
}

// The screen stands off source and window.
fn stands_between(s: Segment) -> bool
    ensures { result ≡ (le_z (pos least_gap) s.setback && le_z (s.setback +ℤ pos least_gap) s.distance) }
{
    let near = LEAST_GAP <= s.setback;
    near & (plus_gap(s.setback) <= i64::from(s.distance))
}

fn screened_kept(s: Segment, most: i32) -> bool
    ensures { result ≡ screened_kept s most }
{
    stands_between(s)
        & (in_range(LOWEST_TOP, HIGHEST_TOP, s.top)
            & (in_range(0, most, s.chart) & (in_range(0, HIGHEST_WALL, s.wall) & (s.ballast == 0))))
}

// The screen stays the number that was typed: a type of three kinds would ask more of whoever fills in a segment.
fn screen_kept(s: Segment) -> bool
    ensures { result ≡ screen_kept s }
{
    let none = is_unscreened(s) & unscreened_kept(s);
    let absorbent = (s.screen == 1) & screened_kept(s, 0);
    let reflective = (s.screen == 2) & screened_kept(s, MOST_CHART);
    none | (absorbent | reflective)
}

// The first of lines 1 to 5 that a segment does not keep. Line 6 needs lengths, and lines 1 to 5 for them.
#[tactic(auto, unfolding(crate::specs::Rules::range_check, crate::specs::Rules::ranges_then, crate::specs::Rules::range_lines, crate::specs::Rules::lowest_number, crate::specs::Refusal::unless, crate::specs::Refusal::check_number, crate::specs::Refusal::number_of))]
pub fn range_check(s: Segment) -> Result<(), Refusal>
    ensures is { result ≡ range_check s }
    ensures number { check_number result ≡ lowest_number (range_lines s) }
{
    if !distance_kept(s) {
        return Err(Refusal::Distance);
    }
    if !heights_kept(s) {
        return Err(Refusal::Height);
    }
    if !soft_kept(s) {
        return Err(Refusal::Ground);
    }
    if !angles_kept(s) {
        return Err(Refusal::Angle);
    }
    if !screen_kept(s) {
        return Err(Refusal::Screen);
    }
    Ok(())
}

// Line 7.
pub fn readings_kept(s: Segment) -> bool
    ensures { result ≡ readings_kept s }
{
    in_range(0, MOST_TRACK, s.track)
        & (in_range(LOWEST_BALLAST, 0, s.ballast)
            & (in_range(0, 1, s.facade) & in_range(0, s.view, s.opposite)))
}

fn trains_kept(t: Train) -> bool
    ensures { result ≡ trains_kept t }
{
    in_range(0, MOST_TRAINS, t.day) & in_range(0, MOST_TRAINS, t.night)
}

// The first line that a train entry does not keep.
#[tactic(auto, unfolding(crate::specs::Rules::train_check, crate::specs::Rules::train_lines, crate::specs::Rules::row_kept, crate::specs::Rules::speed_kept, crate::specs::Rules::vehicles_kept, crate::specs::Rules::lowest_number, crate::specs::Refusal::unless, crate::specs::Refusal::check_number, crate::specs::Refusal::number_of))]
pub fn train_check(t: Train) -> Result<(), Refusal>
    ensures is { result ≡ train_check t }
    ensures number { check_number result ≡ lowest_number (train_lines t) }
{
    if !in_range(1, MOST_ROW, t.row) {
        return Err(Refusal::Row);
    }
    if !in_range(LEAST_SPEED, MOST_SPEED, t.speed) {
        return Err(Refusal::Speed);
    }
    if !in_range(1, MOST_VEHICLES, t.vehicles) {
        return Err(Refusal::Vehicles);
    }
    if !trains_kept(t) {
        return Err(Refusal::Trains);
    }
    Ok(())
}
