// The ground step and its close mark.
ghost use Rattle.std.specs.Prelude.{◌≡◌, true, ◌+◌, ◌/◌, ◌≤◌, ◌<◌, pos, neg_ℤ};
ghost use Rattle.decibel.specs.Lookup.{Whole};
ghost use Rattle.figures.specs.Rules.{unscreened};
ghost use Rattle.propagation.specs.Ground.{ground_factor, attenuation, is_close};
ghost use Rattle.propagation.specs.Private.{PathTenths};

use crate::kept::InRange;
use figures::natural;

// Ground, or the screen instead of it, in tenths, and the ground's close mark.
#[derive(Clone, Copy, Default)]
pub(crate) struct Path {
    pub(crate) tenths: i32,
    pub(crate) close: bool,
}

// The factor, in microdecibels to the tenfold.
fn ground_factor(ranged: InRange) -> u64
    ensures { (result ≡ ground_factor ranged.segment) × (result ≤ 3000000) }
{
    let s = ranged.segment;
    600 * natural(s.soft) * (600 - natural(s.mean).clamp(100, 600))
}

// The attenuation in microdecibels: 10 log(d / 2500) is 10 log(4 d) less 40 decibels. Nearer than 25 m there is none.
fn attenuation_of(ranged: InRange) -> u64
    ensures { Whole 20000000 (attenuation ranged.segment) result }
{
    let s = ranged.segment;
    let whole = decibel::fine_log(4 * natural(s.distance));
    whole.saturating_sub(40000000) * ground_factor(ranged) / 10000000
}

// The tenths: the nearest, and the louder up to 0.0015 dB past a tie.
fn ground_tenths(a: u64) -> i32
    requires { a < 20000000 }
    ensures { result ≡ neg_ℤ (pos ((a + 48499) / 100000)) }
{
    -(((a + 48499) / 100000) as i32)
}

// The close mark: at most 0.0015 dB from a tie.
fn is_close(a: u64) -> bool
    ensures { result ≡ is_close a }
{
    (48500..=51500).contains(&(a % 100000))
}

// Ground, where no screen stands.
pub(crate) fn ground_step(ranged: InRange) -> Path
    requires { unscreened ranged.segment ≡ true }
    ensures { PathTenths ranged.segment result }
{
    let s = ranged.segment;
    if natural(s.distance) <= 2500 {
        return Path::default();
    }
    let a = attenuation_of(ranged);
    Path {
        tenths: ground_tenths(a),
        close: is_close(a),
    }
}
