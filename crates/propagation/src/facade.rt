// The facade, in tenths.
ghost use Rattle.std.specs.Prelude.{◌≡◌};
ghost use Rattle.propagation.specs.Propagation.{facade_tenths};

use figures::Segment;

pub(crate) fn facade_figure(s: Segment) -> i32
    ensures { result ≡ facade_tenths s }
{
    if s.facade == 1 {
        return 25;
    }
    0
}
