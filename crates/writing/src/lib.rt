// How numbers are written, parts of a text put together, and bytes put at a place.
#![tactic(auto)]

ghost use Rattle.std.specs.Prelude.{◌≡◌, map};
ghost use Rattle.writing.specs.Bytes.{fitting, sign, signed_of, figure_of};
ghost use Rattle.writing.specs.Pages.{Put};

use arrayvec::ArrayString;
use itoa::Buffer;

#[tactic(auto, unfolding(crate::specs::Bytes::sign))]
fn sign(n: i32) -> &'static str
    ensures { result.now ≡ sign n }
{
    if n < 0 { "-" } else { "" }
}

// Parts one after another, in at most `N` bytes. One that has no room for all of it is left out, and then nothing follows it, however short.
pub fn concatenated<const N: usize>(parts: &[&str]) -> ArrayString<N>
    ensures { result.bytes ≡ fitting N (map (λ part. part.now) parts.now) }
{
    let mut text = ArrayString::new();
    for part in parts {
        if text.remaining_capacity() < part.len() {
            return text;
        }
        text.push_str(part);
    }
    text
}

// Bytes at a place of `out`: answers the place after them. Where there is no room for all of them, `out` stays as it is and its end is
// answered, so that nothing shorter follows what was left out.
pub fn put(out: &mut [u8], at: usize, bytes: &[u8]) -> usize
    ensures { Put out.old at bytes.now out.new result }
{
    if out.len() < at {
        return at;
    }
    if out.len() - at < bytes.len() {
        return out.len();
    }
    let next = at + bytes.len();
    out[at..next].copy_from_slice(bytes);
    next
}

// A number in decimal, with a minus if below zero: an i32 takes a sign and ten digits at most.
pub fn signed(n: i32) -> ArrayString<11>
    ensures { result.bytes ≡ signed_of n }
{
    let mut size = Buffer::new();
    concatenated(&[sign(n), size.format(n.unsigned_abs())])
}

// Tenths: they are written with one decimal, and a minus if below zero.
#[derive(Clone, Copy)]
pub struct Tenths(pub i32);

impl Tenths {
    // What is written of it: an i32 takes a sign, nine digits, the point and one digit at most.
    pub fn text(self) -> ArrayString<12>
        ensures { result.bytes ≡ figure_of self.0 }
    {
        let size = self.0.unsigned_abs();
        let whole = size / 10;
        let tenth = size % 10;
        let (mut before, mut after) = (Buffer::new(), Buffer::new());
        concatenated(&[sign(self.0), before.format(whole), ".", after.format(tenth)])
    }
}
