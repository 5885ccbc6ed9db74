// What stands at a place of a table, and 0 past its last.
// Written by tools/tables.py from the formulas, in whole numbers.

ghost use Rattle.std.specs.Prelude.{◌≡◌, get_or};
ghost use Rattle.energy_tables.specs.Lists.{weight_list, power_list, mark_begin_list, mark_end_list};

use crate::{MARK_BEGIN, MARK_END, POWER, WEIGHT};

// The weight of a level 0 to 99 tenths below the loudest; 0 past the last.
#[tactic(auto, using(crate::proofs::Arrays::weight_is))]
pub fn weight(i: usize) -> u64
    ensures { result ≡ get_or weight_list i 0 }
{
    WEIGHT.get(i).copied().unwrap_or(0)
}

// The powers of ten from 1 to 10^15; 0 past the last.
#[tactic(auto, using(crate::proofs::Arrays::power_is))]
pub fn power(i: usize) -> u64
    ensures { result ≡ get_or power_list i 0 }
{
    POWER.get(i).copied().unwrap_or(0)
}

// Where the mark at each tie of a total begins, the 0th none; 0 past the last.
#[tactic(auto, using(crate::proofs::Arrays::mark_begin_is))]
pub fn mark_begin(i: usize) -> u64
    ensures { result ≡ get_or mark_begin_list i 0 }
{
    MARK_BEGIN.get(i).copied().unwrap_or(0)
}

// Where the mark at each tie of a total ends, the 0th none; 0 past the last.
#[tactic(auto, using(crate::proofs::Arrays::mark_end_is))]
pub fn mark_end(i: usize) -> u64
    ensures { result ≡ get_or mark_end_list i 0 }
{
    MARK_END.get(i).copied().unwrap_or(0)
}
