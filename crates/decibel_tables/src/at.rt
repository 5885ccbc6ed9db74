// What stands at a place of a table, and 0 past its last.
// Written by tools/tables.py from the formulas, in whole numbers.

ghost use Rattle.std.specs.Prelude.{◌≡◌, get_or};
ghost use Rattle.decibel_tables.specs.Lists.{decade_list, shadow_list, distance_list, illuminated_list, fine_list, sine_list, list_of};

use crate::{DECADE, DISTANCE, FINE, ILLUMINATED, SHADOW, SINE};

// Where each tenth of 10 log n begins, from 85.1 to 95.2 dB; 0 past the last.
#[tactic(auto, using(crate::proofs::Arrays::decade_is))]
pub fn decade(i: usize) -> u64
    ensures { result ≡ get_or decade_list i 0 }
{
    DECADE.get(i).copied().unwrap_or(0)
}

// Where each tenth of the shadow formula begins; 0 past the last.
#[tactic(auto, using(crate::proofs::Arrays::shadow_is))]
pub fn shadow(i: usize) -> u64
    ensures { result ≡ get_or shadow_list i 0 }
{
    SHADOW.get(i).copied().unwrap_or(0)
}

// Where each tenth of the distance formula begins; 0 past the last.
#[tactic(auto, using(crate::proofs::Arrays::distance_is))]
pub fn distance(i: usize) -> u64
    ensures { result ≡ get_or distance_list i 0 }
{
    DISTANCE.get(i).copied().unwrap_or(0)
}

// Where each tenth of the illuminated formula begins; 0 past the last.
#[tactic(auto, using(crate::proofs::Arrays::illuminated_is))]
pub fn illuminated(i: usize) -> u64
    ensures { result ≡ get_or illuminated_list i 0 }
{
    ILLUMINATED.get(i).copied().unwrap_or(0)
}

// Where each step of 500 microdecibels begins, from 10^9 on; 0 past the last.
#[tactic(auto, using(crate::proofs::Arrays::fine_is))]
pub fn fine(i: usize) -> u64
    ensures { result ≡ get_or fine_list i 0 }
{
    FINE.get(i).copied().unwrap_or(0)
}

// The sine of 0 to 90 degrees in billionths; 0 past the last.
#[tactic(auto, using(crate::proofs::Arrays::sine_is))]
pub fn sine(i: usize) -> u64
    ensures { result ≡ get_or sine_list i 0 }
{
    u64::from(SINE.get(i).copied().unwrap_or(0))
}

// Entry i of a table by its number, as the arms say; 0 of any other.
pub fn entry(table: usize, i: usize) -> u64
    ensures { result ≡ get_or (list_of table) i 0 }
{
    match table {
        0 => decade(i),
        1 => shadow(i),
        2 => distance(i),
        3 => illuminated(i),
        4 => fine(i),
        _ => 0,
    }
}
