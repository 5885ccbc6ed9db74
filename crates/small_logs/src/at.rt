// What stands at a place of a table, and 0 past its last.
// Written by tools/tables.py from the formulas, in whole numbers.

ghost use Rattle.std.specs.Prelude.{◌≡◌, get_or};
ghost use Rattle.small_logs.specs.Lists.{small_log_list, twenty_log_lower_list, twenty_log_middle_list, twenty_log_upper_list};

use crate::{SMALL_LOG, TWENTY_LOG};

// 10 log n in tenths for n below 200, of 0 that of 1; 0 past the last.
#[tactic(auto, using(crate::proofs::Arrays::small_log_is))]
pub fn small_log(i: usize) -> u32
    ensures { result ≡ get_or small_log_list i 0 }
{
    u32::from(SMALL_LOG.get(i).copied().unwrap_or(0))
}

// 20 log v in tenths for v below 101, of 0 that of 1; 0 past the last.
#[tactic(auto, using(crate::proofs::Arrays::twenty_log_is), unfolding(crate::specs::Lists::twenty_log_lower_list))]
pub fn twenty_log_lower(i: usize) -> u32
    ensures { result ≡ get_or twenty_log_lower_list i 0 }
{
    u32::from(TWENTY_LOG[..101].get(i).copied().unwrap_or(0))
}

// 20 log v in tenths for v from 101 to 200, counted from 101; 0 past the last.
#[tactic(auto, using(crate::proofs::Arrays::twenty_log_is), unfolding(crate::specs::Lists::twenty_log_middle_list))]
pub fn twenty_log_middle(i: usize) -> u32
    ensures { result ≡ get_or twenty_log_middle_list i 0 }
{
    u32::from(TWENTY_LOG[101..201].get(i).copied().unwrap_or(0))
}

// 20 log v in tenths for v from 201 to 300, counted from 201; 0 past the last.
#[tactic(auto, using(crate::proofs::Arrays::twenty_log_is), unfolding(crate::specs::Lists::twenty_log_upper_list))]
pub fn twenty_log_upper(i: usize) -> u32
    ensures { result ≡ get_or twenty_log_upper_list i 0 }
{
    u32::from(TWENTY_LOG[201..301].get(i).copied().unwrap_or(0))
}
