// Segments that keep their lines: whoever holds one need not be told so again.
ghost use Rattle.std.specs.Prelude.{◌≡◌, Ok};
ghost use Rattle.figures.specs.Rules.{range_check};
ghost use Rattle.propagation.specs.Check.{segment_check};
ghost use Rattle.propagation.specs.Screen.{difference_of};

use figures::Segment;

// One that keeps lines 1 to 5, so that its lengths fit.
#[derive(Clone, Copy)]
pub(crate) struct InRange {
    pub(crate) segment: Segment,
    ghost kept: { range_check segment ≡ Ok tt },
}

// One that keeps all its lines, with the path difference where there is a screen.
#[derive(Clone, Copy)]
pub(crate) struct Kept {
    pub(crate) ranged: InRange,
    pub(crate) difference: Option<u64>,
    ghost kept: { segment_check ranged.segment ≡ Ok tt },
    ghost differs: { difference ≡ difference_of ranged.segment },
}
