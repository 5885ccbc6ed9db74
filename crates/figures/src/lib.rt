// The figures of a segment and of a train entry, what turns them back, and the signed lengths that the steps take of them.
#![tactic(auto)]

pub mod ranges;

ghost use Rattle.std.specs.Prelude.{◌≡◌, ◌*ℤ◌};
ghost use Rattle.decibel.specs.Ints.{up};
ghost use Rattle.figures.specs.Geometry.{slant, in_shadow};
ghost use Rattle.figures.specs.Private.{Square};
ghost use Rattle.figures.specs.Refusal.{number_of, check_number};
ghost use Rattle.figures.specs.Rules.{within, unscreened};

// One length of track as document 01 and request L1 number its fields: lengths in centimetres but for the last, angles in degrees, readings in tenths.
#[derive(Clone, Copy, Default)]
pub struct Segment {
    // d, horizontal distance to the source line
    pub distance: i32,
    // h, window height above the railhead, negative below it
    pub height: i32,
    // H, mean height of propagation
    pub mean: i32,
    // I, share of soft ground in tenths
    pub soft: i32,
    // θ, angle of view
    pub view: i32,
    // a, twice the angle α of Figure 9
    pub doubled: i32,
    // 0 none, 1 absorbent, 2 reflective: the number as typed, since a type of its own would ask more of callers
    pub screen: i32,
    // D, source to screen
    pub setback: i32,
    // b, screen top above the railhead
    pub top: i32,
    // Chart 6(c) reading
    pub chart: i32,
    // Table 1 reading
    pub track: i32,
    // ballast reading
    pub ballast: i32,
    // 1 with a facade correction; the number as typed, likewise
    pub facade: i32,
    // θ', angle of opposite reflecting facades
    pub opposite: i32,
    // reflecting wall on the far side of the track, its height above the railhead in decimetres
    pub wall: i32,
}

// A train entry as document 01 numbers its fields: row of Table A1.1, speed in km/h, vehicles, and trains by day and by night.
#[derive(Clone, Copy, Default)]
pub struct Train {
    pub row: i32,
    pub speed: i32,
    pub vehicles: i32,
    pub day: i32,
    pub night: i32,
}

// Day is 0600 to midnight, night is midnight to 0600.
#[derive(Clone, Copy)]
pub enum Period {
    Day,
    Night,
}

// What there is of each period.
#[derive(Clone, Copy, Default)]
pub struct Periods<T> {
    pub day: T,
    pub night: T,
}

impl<T: Copy> Periods<T> {
    ghost use Rattle.figures.specs.Periods.{in_period};

    // That of one of them.
    #[tactic(auto, unfolding(crate::specs::Periods::in_period))]
    pub fn of(self, period: Period) -> T
        ensures { result ≡ in_period period self }
    {
        match period {
            Period::Day => self.day,
            Period::Night => self.night,
        }
    }
}

// Why something is turned back, each with the documents' number.
#[derive(Clone, Copy)]
pub enum Refusal {
    Distance = 1,
    // window height or mean height of propagation
    Height = 2,
    // share of soft ground
    Ground = 3,
    // angle of view or the doubled angle
    Angle = 4,
    // screen, its place, its top, Chart 6(c), far wall, or ballast with a screen
    Screen = 5,
    // in shadow, path difference above 2.5 m
    Shadow = 6,
    // Table 1, ballast, facade or opposite angle
    Reading = 7,
    // vehicle row
    Row = 8,
    Speed = 9,
    Vehicles = 10,
    Trains = 11,
    // a text out of form
    Form = 12,
    // contents out of range, a line missing or extra
    Contents = 13,
    // a train before any segment
    NoSegment = 20,
    // too many segments
    SegmentLimit = 21,
    // too many entries
    EntryLimit = 22,
    // levels asked without an entry
    NoEntry = 23,
    // levels asked with too few working cells
    FewCells = 24,
    // the highest speed asked of an entry that is not there
    EntryNumber = 25,
    // the highest speed asked where none stays below the limit
    NoSpeed = 26,
}

// The documents' number of a refusal.
impl From<Refusal> for u32 {
    ghost from_gives = { λ refusal number. number ≡ number_of refusal };

    #[tactic(auto, unfolding(crate::specs::Refusal::number_of))]
    fn from(refusal: Refusal) -> u32 {
        refusal as u32
    }
}

// The number of a check, 0 where nothing is refused.
#[tactic(auto, unfolding(crate::specs::Refusal::check_number))]
pub fn check_number(check: Result<(), Refusal>) -> u32
    ensures { result ≡ check_number check }
{
    match check {
        Ok(()) => 0,
        Err(refusal) => u32::from(refusal),
    }
}

// Whether x is from low to high: `contains` of std, promised in the word of the rules.
pub fn in_range(low: i32, high: i32, x: i32) -> bool
    ensures { result ≡ within low high x }
{
    (low..=high).contains(&x)
}

// The number, 0 where it is below zero.
pub fn natural(a: i32) -> u64
    ensures { result ≡ up a }
{
    u64::try_from(a).unwrap_or(0)
}

// The whole product of two numbers.
fn product(a: i32, b: i32) -> i64
    ensures { result ≡ a *ℤ b }
{
    i64::from(a) * i64::from(b)
}

fn square(a: i32) -> u64
    ensures { Square a result }
{
    product(a, a) as u64
}

// The square of a length with legs x and y.
pub fn slant_of(x: i32, y: i32) -> u64
    ensures { result ≡ slant x y }
{
    square(x) + square(y)
}

// The shadow test, on signed products.
pub fn in_shadow(s: Segment) -> bool
    ensures { result ≡ in_shadow s }
{
    product(s.height, s.setback) <= product(s.top, s.distance)
}

// There is no screen.
#[tactic(auto, using(crate::proofs::Same::screen_none))]
pub fn is_unscreened(s: Segment) -> bool
    ensures { result ≡ unscreened s }
{
    s.screen == 0
}
