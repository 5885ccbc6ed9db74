// The contents, a text's first line: the segment count, then each segment's entry count.
ghost use Rattle.std.specs.Prelude.{◌≡◌, ◌+◌, length, take};
ghost use Rattle.lines.specs.Contents.{limits, contents_of, counts_of, ContentsRead};
ghost use Rattle.lines.specs.Private.{Counted};

use crate::numbers::Numbers;
use arrayvec::ArrayVec;
use figures::Refusal;

// The sum of the entry counts with one more, which is kept; none where any is out of range, or the sum.
fn with_count<const N: usize>(
    sum: Option<usize>,
    value: i32,
    entries: usize,
    counts: &mut ArrayVec<usize, N>,
) -> Option<usize>
    ensures { Counted (limits N entries) value counts.old.items sum counts.new.items result }
{
    let before = sum?;
    let count = usize::try_from(value).ok()?;
    if counts.is_full() || entries < count || entries - count < before {
        return None;
    }
    counts.push(count);
    Some(before + count)
}

// The entry counts of the contents line, at most so many segments and entries. Every number's form comes before any range, so a count out of range is told at the line's end.
pub fn contents_of<const N: usize>(
    line: &[u8],
    entries: usize,
) -> Result<ArrayVec<usize, N>, Refusal>
    ensures { counts_of result ≡ contents_of (limits N entries) line.now }
{
    let mut numbers = Numbers::new(line);
    let first = numbers.next_number().ok_or(Refusal::Form)?;
    let announced = usize::try_from(first).map_err(|_| Refusal::Form)?;
    let mut counts = ArrayVec::new();
    let mut sum = Some(0);
    let mut others = 0;
    // No iterator: where the numbers end, it is asked whether a word is left.
    while let Some(value) = numbers.next_number() {
        sum = with_count(sum, value, entries, &mut counts);
        others += 1;
    }
    if !numbers.is_empty() || announced != others {
        return Err(Refusal::Form);
    }
    // One refusal for counts out of range and for no entry in all; the arms of a match lose that the sum is not 0.
    if sum.unwrap_or(0) == 0 {
        return Err(Refusal::Contents);
    }
    Ok(counts)
}

// The same for counts that are lent, after n of them.
fn with_lent(
    sum: Option<usize>,
    n: usize,
    value: i32,
    entries: usize,
    counts: &mut [usize],
) -> Option<usize>
    ensures size { length counts.new ≡ length counts.old }
    ensures next { Counted (limits (length counts.old) entries) value (take n counts.old) sum (take (n + 1) counts.new) result }
{
    let before = sum?;
    let count = usize::try_from(value).ok()?;
    if counts.len() <= n || entries < count || entries - count < before {
        return None;
    }
    counts[n] = count;
    Some(before + count)
}

// The same where the number of segments is known at run time alone: as many as counts are lent. How many there are; they stand first.
// A loop of its own: one for both kinds of counts would take a closure, and with it a premise.
pub fn contents_into(line: &[u8], entries: usize, counts: &mut [usize]) -> Result<usize, Refusal>
    ensures { ContentsRead entries line.now counts.old counts.new result }
{
    let mut numbers = Numbers::new(line);
    let first = numbers.next_number().ok_or(Refusal::Form)?;
    let announced = usize::try_from(first).map_err(|_| Refusal::Form)?;
    let mut sum = Some(0);
    let mut others = 0;
    while let Some(value) = numbers.next_number() {
        sum = with_lent(sum, others, value, entries, counts);
        others += 1;
    }
    if !numbers.is_empty() || others != announced {
        return Err(Refusal::Form);
    }
    if sum.unwrap_or(0) == 0 {
        return Err(Refusal::Contents);
    }
    Ok(others)
}
