// A study: segments and train entries, added one after another and refused where document 01 says so.
#![tactic(auto)]

ghost use Rattle.std.specs.Prelude.{◌≡◌, ◌≤◌, length, ⊤};
ghost use Rattle.std.proofs.Common.{arith, length-take-le};
ghost use Rattle.figures.specs.Refusal.{check_number, check_of};
ghost use Rattle.study.specs.Plan.{Plan, empty_plan, no_segment, no_entry};
ghost use Rattle.study.specs.Held.{Held, held_by, laid_out};
ghost use Rattle.study.specs.Add.{ours, segment_limit, segment_number, segment_judgement, SegmentMarked, train_limit, train_answer, train_number, added, add_segment, add_train};
ghost use Rattle.study.specs.Run.{run_from, listed};

use figures::{Refusal, Segment, Train};
use propagation::Propagation;
use std::alloc::AllocError;
use std::marker::Model;

// How many segments, and how many train entries in all, a study may hold.
pub const MOST_SEGMENTS: usize = 24;

pub const MOST_ENTRIES: usize = 96;

// A train entry with the place of its segment, from 0. Memory is fixed: lists of entries within the segments would need room for 96 in each
// of the 24.
#[derive(Clone, Copy, Default)]
pub struct Entry {
    pub segment: usize,
    pub train: Train,
}

// Whether so many segments leave room for one more.
#[tactic(auto, using(crate::proofs::Additions::segments_full, crate::proofs::Additions::segments_room))]
fn segment_limit(count: usize) -> Result<(), Refusal>
    ensures { result ≡ segment_limit ours count }
{
    if MOST_SEGMENTS <= count {
        return Err(Refusal::SegmentLimit);
    }
    Ok(())
}

// Whether a segment may be added to so many, 21 at the limit and then its own lines, and what it adds to the level of each of its entries.
#[tactic(auto, unfolding(crate::specs::Add::segment_judgement, crate::specs::Add::segment_answer, figures::specs::Refusal::first_refused, figures::specs::Refusal::answered, propagation::specs::Propagation::judgement_of), using(crate::proofs::Additions::judgement_number))]
pub fn segment_judgement(count: usize, segment: Segment) -> Result<Propagation, Refusal>
    ensures is { result ≡ segment_judgement ours count segment }
    ensures allowed { SegmentMarked segment result }
    ensures number { check_number (check_of result) ≡ segment_number ours count segment }
{
    segment_limit(count)?;
    propagation::judged(segment)
}

// Whether there is a segment, and so many entries leave room for one more.
#[tactic(auto, using(crate::proofs::Additions::no_segment_lem, crate::proofs::Additions::entries_full, crate::proofs::Additions::entries_room))]
fn train_limit(count: usize, total: usize) -> Result<(), Refusal>
    ensures { result ≡ train_limit ours count total }
{
    if count == 0 {
        return Err(Refusal::NoSegment);
    }
    if MOST_ENTRIES <= total {
        return Err(Refusal::EntryLimit);
    }
    Ok(())
}

// Whether a train may be added to so many segments and entries: 20 without a segment, 22 at the limit, then its own lines.
#[tactic(auto, unfolding(crate::specs::Add::train_answer, figures::specs::Refusal::first_refused), using(crate::proofs::Additions::train_answered))]
pub fn train_answer(count: usize, total: usize, train: Train) -> Result<(), Refusal>
    ensures is { result ≡ train_answer ours count total train }
    ensures number { check_number result ≡ train_number ours count total train }
{
    train_limit(count, total)?;
    figures::ranges::train_check(train)
}

// Segments and train entries, up to so many, seen as its plan. Nothing but this crate makes or changes one. Two arrays, each with how many of
// its places are taken, and no lists of fixed capacity as the kit's `ArrayVec`, since a study can be copied and those can't. A place not
// taken holds zeros, so that a plan gives its study back.
pub struct Study {
    segments: [Segment; MOST_SEGMENTS],
    count: usize,
    entries: [Entry; MOST_ENTRIES],
    total: usize,
}

impl Model for Study {
    ghost Value = { Plan };

    ghost view = { λ s. record { segments = held_by s.count s.segments; entries = held_by s.total s.entries } };

    ghost invariant = { λ s. Held ours.segments no_segment s.count s.segments × Held ours.entries no_entry s.total s.entries };

    ghost inverse = { λ p. record { segments = laid_out ours.segments no_segment p.segments; count = length p.segments; entries = laid_out ours.entries no_entry p.entries; total = length p.entries } };

    ghost inverse_ok = { λ s held i. record {
      segments = held.0.rest i;
      count = length-take-le s.count s.segments (omega (arith, held.0.room, held.0.whole)) i;
      entries = held.1.rest i;
      total = length-take-le s.total s.entries (omega (arith, held.1.room, held.1.whole)) i;
    } };
}

impl Copy for Study {}

// A copy is the same plan, and making one never fails. Not derived: the contract of a derived `clone` would speak of the private fields.
impl Clone for Study {
    ghost is_clone = { λ study copy. copy ≡ study };

    ghost is_infallible = { λ _. ⊤ };

    fn clone(&self) -> Result<Self, AllocError> {
        Ok(*self)
    }
}

impl Study {
    // The study with nothing in it.
    pub fn new() -> Self
        ensures { result ≡ empty_plan }
    {
        Study {
            segments: [Segment::default(); MOST_SEGMENTS],
            count: 0,
            entries: [Entry::default(); MOST_ENTRIES],
            total: 0,
        }
    }

    // Its segments in order.
    pub fn segments(&self) -> &[Segment]
        ensures is { result.now ≡ self.now.segments }
        ensures most { length result.now ≤ ours.segments }
    {
        &self.segments[..self.count]
    }

    // Its train entries in order, each with the place of its segment.
    pub fn entries(&self) -> &[Entry]
        ensures is { result.now ≡ self.now.entries }
        ensures most { length result.now ≤ ours.entries }
    {
        &self.entries[..self.total]
    }

    // Adds the segment after the last, or refuses it and leaves the study as it was.
    #[tactic(auto, unfolding(crate::specs::Add::add_segment, crate::specs::Add::segment_answer, crate::specs::Add::answer, figures::specs::Refusal::first_refused), using(crate::proofs::Additions::segments_below, crate::proofs::Additions::segment_answered, crate::proofs::Held::held_length, crate::proofs::Held::one_more, crate::proofs::Held::more_held))]
    pub fn add_segment(&mut self, segment: Segment) -> Result<(), Refusal>
        ensures is { added result self.new ≡ add_segment ours self.old segment }
        ensures number { check_number result ≡ segment_number ours (length self.old.segments) segment }
    {
        let at = self.count;
        segment_limit(at)?;
        propagation::segment_check(segment)?;
        self.segments[at] = segment;
        self.count = at + 1;
        Ok(())
    }

    // Adds the train at the last segment, or refuses it and leaves the study as it was.
    #[tactic(auto, unfolding(crate::specs::Add::add_train, crate::specs::Add::answer), using(crate::proofs::Additions::train_taken, crate::proofs::Held::held_length, crate::proofs::Held::one_more, crate::proofs::Held::more_held))]
    pub fn add_train(&mut self, train: Train) -> Result<(), Refusal>
        ensures is { added result self.new ≡ add_train ours self.old train }
        ensures number { check_number result ≡ train_number ours (length self.old.segments) (length self.old.entries) train }
    {
        let count = self.count;
        let at = self.total;
        train_answer(count, at, train)?;
        self.entries[at] = Entry {
            segment: count - 1,
            train,
        };
        self.total = at + 1;
        Ok(())
    }

    // Adds what lists hold after what the study has: each segment, then the trains of its entries. What is refused adds nothing, and an entry
    // at no segment of the lists is left out.
    pub fn extend(&mut self, segments: &[Segment], entries: &[Entry])
        ensures { self.new ≡ run_from ours self.old (listed (record { segments = segments.now; entries = entries.now })) }
    {
        for (k, segment) in segments.iter().enumerate() {
            let _ = self.add_segment(*segment);
            for entry in entries {
                if entry.segment == k {
                    let _ = self.add_train(entry.train);
                }
            }
        }
    }

    // Likewise what another study holds.
    pub fn append(&mut self, other: &Study)
        ensures { self.new ≡ run_from ours self.old (listed other.now) }
    {
        self.extend(other.segments(), other.entries());
    }
}

// The study with the additions of these lists after its own.
pub fn extended(start: Study, segments: &[Segment], entries: &[Entry]) -> Study
    ensures { result ≡ run_from ours start (listed (record { segments = segments.now; entries = entries.now })) }
{
    let mut study = start;
    study.extend(segments, entries);
    study
}
