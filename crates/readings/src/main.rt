// Writes the breakdown of each study text of a list under its title, then what additions to a study are refused with, and entitlement,
// merges and highest speeds over studies.
//
// The list is standard input. A title is a line that begins with `#`; the study text after it ends at the next `#`.
#![tactic(auto)]

mod additions;
mod entitlements;
mod highest_speeds;
mod merges;

ghost use Rattle.std.specs.Prelude.{◌≤◌, length, IfOk};

use arrayvec::ArrayString;
use breakdown::TEXT_BYTES;
use memchr::memchr;
use std::io;
use std::io::Read;

// Writes the breakdown of a text, at once, by way of the lines.
fn show(rt: &impl Print, text: &[u8], lines: &mut ArrayString<TEXT_BYTES>) -> io::Result<()> {
    breakdown::text_breakdown(text).write(lines);
    rt.write_all(lines.as_str().as_bytes())
}

// Writes each text of a list under its title.
fn show_each(rt: &impl Print, list: &[u8]) -> io::Result<()> {
    let mut lines = ArrayString::new();
    let mut rest = list;
    while let Some(end) = memchr(b'\n', rest) {
        let (title, after) = rest.split_at(end + 1);
        let next = memchr(b'#', after).unwrap_or(after.len());
        rt.write_all(title)?;
        show(rt, &after[..next], &mut lines)?;
        rest = &after[next..];
    }
    Ok(())
}

// Reads until the list is full or the input ends: where no room is left, a read takes nothing.
// The loop counts by hand, into fixed memory: std's `read_to_end` allocates. The program railnoise has such a loop too: it is private and has
// ten lines, and a crate for both would be one more to check.
fn read_list(input: &mut impl Read, list: &mut [u8]) -> io::Result<usize>
    ensures { IfOk result (λ n. n ≤ length list.new) }
{
    let mut length = 0;
    loop {
        let more = input.read(&mut list[length..])?;
        if more == 0 {
            return Ok(length);
        }
        length += more;
    }
}

fn main(rt: HostRuntime) -> io::Result<()> {
    let mut list = [0u8; 65536];
    let length = read_list(&mut rt.stdin(), &mut list)?;
    show_each(&rt, &list[..length])?;
    additions::show_each(&rt)?;
    entitlements::show_each(&rt)?;
    merges::show_each(&rt)?;
    highest_speeds::show_each(&rt)
}
