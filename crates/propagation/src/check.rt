// The chain of refusals of a segment: its ranges, then the shadow, then the readings.
ghost use Rattle.std.specs.Prelude.{◌≡◌};
ghost use Rattle.propagation.specs.Screen.{difference_of, shadow_kept};
ghost use Rattle.propagation.specs.Private.{Judges};

use crate::kept::{InRange, Kept};
use crate::screen;
use figures::ranges::{range_check, readings_kept};
use figures::{Refusal, Segment};

// Line 6, by the path difference.
#[tactic(auto, using(crate::proofs::Chain::shadow_is, crate::proofs::Chain::no_shadow))]
fn shadow_kept(s: Segment, difference: Option<u64>) -> bool
    requires { difference ≡ difference_of s }
    ensures { result ≡ shadow_kept s }
{
    match difference {
        Some(m) => !figures::in_shadow(s) | (m <= screen::MOST_SHADOW),
        None => true,
    }
}

// The segment with its path difference, or the first line that it does not keep.
#[tactic(auto, unfolding(crate::specs::Private::Judges), using(crate::proofs::Chain::range_refused, crate::proofs::Chain::shadowed, crate::proofs::Chain::unread, crate::proofs::Chain::all_kept))]
pub(crate) fn judge(s: Segment) -> Result<Kept, Refusal>
    ensures { Judges s result }
{
    range_check(s)?;
    let ranged = InRange { segment: s };
    let difference = screen::difference_of(ranged);
    if !shadow_kept(s, difference) {
        return Err(Refusal::Shadow);
    }
    if !readings_kept(s) {
        return Err(Refusal::Reading);
    }
    Ok(Kept { ranged, difference })
}
