// Table A1.1's rolling figures.
ghost use Rattle.std.specs.Prelude.{◌≡◌, ◌-◌, ◌≤◌, pos, get_or};
ghost use Rattle.figures.specs.Private.{Exactly};
ghost use Rattle.emission.specs.Rolling.{rollings, rolling_tenths};

use crate::kept::Kept;
use figures::natural;

// In tenths, in the table's order.
const ROLLINGS: [u8; 34] = [
    148, 148, 167, 108, 108, 129, 71, 60, 60, 113, 84, 84, 70, 70, 158, 149, 120, 150, 80, 75, 148,
    166, 148, 166, 180, 166, 166, 166, 166, 148, 148, 148, 148, 148,
];

// The figure of a row; rows count from 1.
fn rolling_at(row: u64) -> i32
    requires { (1 ≤ row) × (row ≤ 34) }
    ensures { result ≡ pos (get_or rollings (row - 1) 0) }
{
    i32::from(ROLLINGS[(row - 1) as usize])
}

pub(crate) fn rolling_figure(kept: Kept) -> i32
    ensures { Exactly (rolling_tenths kept.train) result }
{
    rolling_at(natural(kept.train.row))
}
