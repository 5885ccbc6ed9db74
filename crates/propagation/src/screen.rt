// The screen step: the path difference over the screen's top, its formulas, and the loss by a wall on the far side.
ghost use Rattle.std.specs.Prelude.{◌≡◌, true, ◌≤◌, ◌-ℤ◌};
ghost use Rattle.decibel.specs.Round.{nearest};
ghost use Rattle.figures.specs.Geometry.{slant, slant_square};
ghost use Rattle.figures.specs.Private.{Exactly};
ghost use Rattle.propagation.specs.Screen.{difference_of, most_shadow, path_difference, screen_formula, wall_metres};
ghost use Rattle.propagation.specs.Private.{Screens, Length};

use crate::kept::{InRange, Kept};
use figures::{in_shadow, natural, slant_of};

// 2.5 m in ten-millionths of a metre, the most in shadow.
pub(crate) const MOST_SHADOW: u64 = 25000000;

// In decimetres, the least far wall that counts.
const LEAST_WALL: u64 = 15;

// A length from its square, in hundred-thousandths of a centimetre.
fn length_of(n: u64) -> u64
    requires { n ≤ 1800000000 }
    ensures { Length n result }
{
    decibel::root(10000000000 * n)
}

// Source to screen top.
fn to_top(ranged: InRange) -> u64
    ensures { Length (slant ranged.segment.setback ranged.segment.top) result }
{
    let s = ranged.segment;
    length_of(slant_of(s.setback, s.top))
}

// Screen top to window.
fn from_top(ranged: InRange) -> u64
    ensures { Length (slant (ranged.segment.distance -ℤ ranged.segment.setback) (ranged.segment.height -ℤ ranged.segment.top)) result }
{
    let s = ranged.segment;
    length_of(slant_of(s.distance - s.setback, s.height - s.top))
}

// Source to window.
fn direct(ranged: InRange) -> u64
    ensures { Length (slant_square ranged.segment) result }
{
    let s = ranged.segment;
    length_of(slant_of(s.distance, s.height))
}

// How much longer the way over the screen's top is than the direct one.
fn path_difference(ranged: InRange) -> u64
    ensures { result ≡ path_difference ranged.segment }
{
    let over = to_top(ranged) + from_top(ranged);
    over.saturating_sub(direct(ranged))
}

// The same, taken only where there is a screen.
#[tactic(auto, unfolding(crate::specs::Screen::difference_of))]
pub(crate) fn difference_of(ranged: InRange) -> Option<u64>
    ensures { result ≡ difference_of ranged.segment }
{
    (!figures::is_unscreened(ranged.segment)).then(|| path_difference(ranged))
}

// The formulas, for a path difference of m.
fn screen_by(shaded: bool, m: u64) -> i32
    requires { shaded ≡ true → m ≤ most_shadow }
    ensures { Exactly (nearest (screen_formula shaded m)) result }
{
    if shaded {
        return decibel::shadow_tenths(52000000 + 203 * m);
    }
    if m <= 4000000 {
        return decibel::illuminated_tenths(m + 10000);
    }
    0
}

// The far wall's height in metres; a lower one than LEAST_WALL does nothing, as 0 metres do in the formula.
fn wall_metres(ranged: InRange) -> u64
    ensures { result ≡ wall_metres ranged.segment }
{
    let height = natural(ranged.segment.wall);
    if height < LEAST_WALL {
        return 0;
    }
    (height + 5) / 10
}

// The screen where there is one, in shadow or illuminated, with the far wall's loss of 5 tenths a metre. Only a step with a loss is cut at zero.
pub(crate) fn screen_step(kept: Kept) -> Option<i32>
    ensures { Screens kept.ranged.segment result }
{
    let difference = kept.difference?;
    let ranged = kept.ranged;
    let step = screen_by(in_shadow(ranged.segment), difference);
    let metres = wall_metres(ranged);
    if metres < 1 {
        return Some(step);
    }
    Some((step + (5 * metres) as i32).min(0))
}
