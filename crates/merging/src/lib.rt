// Two drawings of one window in one study (document 02, L5).
#![tactic(auto)]

ghost use Rattle.std.specs.Prelude.{◌≡◌};
ghost use Rattle.figures.specs.Refusal.{check_number, check_of};
ghost use Rattle.study.specs.Add.{ours};
ghost use Rattle.merging.specs.Merge.{limits_check, limits_number, merge_number, merge_answer};

use figures::Refusal;
use study::{MOST_ENTRIES, MOST_SEGMENTS, Study};

// Whether a study may hold so many segments and so many train entries: 21, then 22.
#[tactic(auto, using(crate::proofs::Checks::segments_over, crate::proofs::Checks::entries_over, crate::proofs::Checks::both_within, crate::proofs::Checks::segments_over_number, crate::proofs::Checks::entries_over_number, crate::proofs::Checks::both_within_number))]
pub fn limits_check(segments: usize, entries: usize) -> Result<(), Refusal>
    ensures is { result ≡ limits_check ours segments entries }
    ensures number { check_number result ≡ limits_number ours segments entries }
{
    if MOST_SEGMENTS < segments {
        return Err(Refusal::SegmentLimit);
    }
    if MOST_ENTRIES < entries {
        return Err(Refusal::EntryLimit);
    }
    Ok(())
}

// A study with the first's segments and entries and after them the second's, or the refusal; both studies stay as they are.
#[tactic(auto, unfolding(crate::specs::Merge::merge_answer, crate::specs::Merge::merged, crate::specs::Merge::merge_check, crate::specs::Merge::merge_number, study::specs::Add::answer, figures::specs::Refusal::answered, figures::specs::Refusal::check_of))]
pub fn merge(first: &Study, second: &Study) -> Result<Study, Refusal>
    ensures is { result ≡ merge_answer ours first.now second.now }
    ensures number { check_number (check_of result) ≡ merge_number ours first.now second.now }
{
    limits_check(
        first.segments().len() + second.segments().len(),
        first.entries().len() + second.entries().len(),
    )?;
    let mut both = first.clone().unwrap();
    both.append(second);
    Ok(both)
}
