// A single line of a study text (document 01, "The text"): where it ends, its numbers, and what it is read as.
#![tactic(auto)]

pub mod contents;
pub mod fields;
pub mod numbers;

ghost use Rattle.std.specs.Prelude.{◌≡◌, MatchOption, None, Some};
ghost use Rattle.lines.specs.Bytes.{until, past};

use memchr::memchr;

// The first line of a text, a part of the text itself without its line feed, and what stands behind the line feed; none where no line feed ends it.
pub fn split_line(text: &[u8]) -> Option<(&[u8], &[u8])>
    ensures { MatchOption result (past 10 text.now ≡ None) (λ r. (r.0.now ≡ until 10 text.now) × (past 10 text.now ≡ Some r.1.now)) }
{
    let end = memchr(b'\n', text)?;
    Some((&text[..end], &text[end + 1..]))
}
