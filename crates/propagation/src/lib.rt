// What a segment adds to the level of each of its entries: five steps, the facade and the entered readings; and what turns a segment back.
#![tactic(auto)]

mod air;
mod angle;
mod check;
mod distance;
mod facade;
mod ground;
mod kept;
mod opposite;
mod screen;

ghost use Rattle.std.specs.Prelude.{◌≡◌, IfOk};
ghost use Rattle.figures.specs.Refusal.{check_number, check_of};
ghost use Rattle.figures.specs.Rules.{lowest_number};
ghost use Rattle.propagation.specs.Check.{segment_check, segment_lines};
ghost use Rattle.propagation.specs.Ground.{ground_mark, SegmentMark};
ghost use Rattle.propagation.specs.Propagation.{segment_parts_by, segment_breakdown_of, propagation_of, judgement_of};
ghost use Rattle.propagation.specs.Results.{PartsBelow, SegmentParted};
ghost use Rattle.propagation.specs.Private.{PathTenths, FourAdded, sum_of};

use figures::{Refusal, Segment};
use ground::Path;
use kept::Kept;

// What each step of a segment adds, in tenths, and the ground's close mark.
#[derive(Clone, Copy, Default)]
pub struct SegmentBreakdown {
    pub distance: i32,
    pub air: i32,
    pub angle: i32,
    pub opposite: i32,
    // ground, or the screen instead of it after what a far wall takes off
    pub path: i32,
    pub close: bool,
    pub facade: i32,
    pub chart: i32,
    pub track: i32,
    pub ballast: i32,
}

// What a segment adds to the level of each of its entries, and whether its ground step is marked as close to a tie.
#[derive(Clone, Copy, Default)]
pub struct Propagation {
    // 16 bits hold it, so that 24 of them are small
    pub tenths: i16,
    pub close: bool,
}

// The first line that a segment does not keep.
#[tactic(auto, unfolding(crate::specs::Private::Judges), using(crate::proofs::Chain::segment_checked))]
pub fn segment_check(s: Segment) -> Result<(), Refusal>
    ensures is { result ≡ segment_check s }
    ensures number { check_number result ≡ lowest_number (segment_lines s) }
{
    check::judge(s)?;
    Ok(())
}

// Ground, or the screen instead of it.
fn path_step(kept: Kept) -> Path
    ensures { PathTenths kept.ranged.segment result }
{
    match screen::screen_step(kept) {
        Some(tenths) => Path {
            tenths,
            close: false,
        },
        None => ground::ground_step(kept.ranged),
    }
}

// The parts of an accepted segment.
fn parts_of(kept: Kept) -> SegmentBreakdown
    ensures { SegmentParted (segment_parts_by kept.ranged.segment (ground_mark kept.ranged.segment)) result }
{
    let path = path_step(kept);
    let ranged = kept.ranged;
    let s = ranged.segment;
    SegmentBreakdown {
        distance: distance::distance_step(ranged),
        air: air::air_step(ranged),
        angle: angle::angle_step(ranged),
        opposite: opposite::opposite_step(kept),
        path: path.tenths,
        close: path.close,
        facade: facade::facade_figure(s),
        chart: s.chart,
        track: s.track,
        ballast: s.ballast,
    }
}

// The parts of a segment; nothing of a refused one.
pub fn segment_breakdown_of(s: Segment) -> SegmentBreakdown
    ensures is { SegmentParted (segment_breakdown_of s) result }
    ensures allowed { SegmentMark s result.close }
{
    check::judge(s).map(parts_of).unwrap_or_default()
}

// The facade and the readings of Chart 6(c), Table 1 and ballast.
fn readings_of(b: SegmentBreakdown) -> i32
    requires { PartsBelow b }
    ensures { FourAdded 8000 b.facade b.chart b.track b.ballast result }
{
    b.facade + (b.chart + (b.track + b.ballast))
}

// The sum of a segment's parts, and the ground's close mark.
fn sum_of(b: SegmentBreakdown) -> Propagation
    requires { PartsBelow b }
    ensures { result ≡ sum_of b }
{
    let readings = readings_of(b);
    let across = b.angle + (b.opposite + (b.path + readings));
    Propagation {
        tenths: (b.distance + (b.air + across)) as i16,
        close: b.close,
    }
}

// What a segment adds, or the first line that it does not keep.
#[tactic(auto, unfolding(crate::specs::Private::Judges, crate::specs::Propagation::judgement_of, figures::specs::Refusal::answered), using(crate::proofs::SegmentSum::judged_kept, crate::proofs::SegmentSum::judged_allowed, crate::proofs::SegmentSum::judged_number))]
pub fn judged(s: Segment) -> Result<Propagation, Refusal>
    ensures is { result ≡ judgement_of s }
    ensures allowed { IfOk result (λ added. SegmentMark s added.close) }
    ensures number { check_number (check_of result) ≡ lowest_number (segment_lines s) }
{
    let kept = check::judge(s)?;
    Ok(sum_of(parts_of(kept)))
}

// What a segment adds; nothing of a refused one.
pub fn propagation_of(s: Segment) -> Propagation
    ensures is { result ≡ propagation_of s }
    ensures allowed { SegmentMark s result.close }
{
    judged(s).unwrap_or_default()
}
