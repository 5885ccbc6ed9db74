// Reads a study text from standard input, writes its report to standard output and the notice of a refusal to standard error.
#![tactic(auto)]

ghost use Rattle.std.specs.Prelude.{◌≤◌, length, IfOk};

use std::io;
use std::io::Read;

// The system's number for a read where nothing is open.
const EBADF: i32 = 9;

// Reads until the buffer is full or the input ends, and answers how much was read. The loop counts by hand, since std's `read_to_end`
// allocates and the program has no heap, and `read_exact` refuses a text shorter than the buffer. The program readings has such a loop too,
// and says why no crate has it for both.
fn read_full(input: &mut impl Read, buffer: &mut [u8]) -> io::Result<usize>
    ensures { IfOk result (λ n. n ≤ length buffer.new) }
{
    let mut done = 0;
    while done < buffer.len() {
        let count = input.read(&mut buffer[done..])?;
        if count == 0 {
            break;
        }
        done += count;
    }
    Ok(done)
}

fn main(rt: HostRuntime) -> io::Result<()> {
    // One byte more than a text may have, 16384, so that a longer one is refused and not cut.
    let mut text = [0u8; 16385];
    let length = match read_full(&mut rt.stdin(), &mut text) {
        // A closed standard input is an empty text.
        Err(error) if error.raw_os_error() == Some(EBADF) => 0,
        read => read?,
    };
    let outcome = report::report(&text[..length]);
    // The notice is written even where the report could not be.
    let shown = rt.stdout().write_all(outcome.text().as_str().as_bytes());
    rt.stderr().write_all(outcome.notice().as_str().as_bytes())?;
    shown
}
