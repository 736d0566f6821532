// Reading standard input, or another reader.
ghost use Rattle.std.specs.Prelude.{◌≡◌, ◌≤◌, true, length};
ghost use Rattle.lines.specs.Lines.{Read, First};

use crate::line::{Moved, Stop, Stopped, UNASKED, number_of, try_again};
use std::io;
use std::time::Clock;

// Reads what is ready into the buffer, and waits for that. Into no buffer the system would read nothing and answer 0, as at the end of the
// input: it is not asked then.
pub fn read_ready(
    input: &mut impl io::Read,
    clock: &impl Clock,
    buf: &mut [u8],
) -> Result<Moved, Stopped>
    ensures { Read (length buf.new) result }
{
    let mut moved = UNASKED;
    if buf.is_empty() {
        return Err(Stopped {
            why: Stop::NoRoom,
            moved,
        });
    }
    for tries in 0..u64::MAX {
        match input.read(buf) {
            Ok(0) => {
                moved.answer = 0;
                return Err(Stopped {
                    why: Stop::Over,
                    moved,
                });
            }
            Ok(bytes) => {
                moved.bytes = bytes;
                moved.answer = bytes as isize;
                return Ok(moved);
            }
            Err(failed) => {
                moved.answer = -1;
                moved.failure = number_of(failed);
                if !try_again(clock, moved.failure) {
                    return Err(Stopped {
                        why: Stop::Over,
                        moved,
                    });
                }
            }
        }
        moved.tries = tries + 1;
    }
    Err(Stopped {
        why: Stop::OutOfTries,
        moved,
    })
}

// Reads until `wanted` bytes are there; more may come with them. Says how many bytes are in the buffer, also where it was full or the input
// over before that.
pub fn read_first(
    input: &mut impl io::Read,
    clock: &impl Clock,
    buf: &mut [u8],
    wanted: usize,
) -> Result<Moved, Stopped>
    ensures { First wanted (length buf.new) result }
{
    let mut moved = UNASKED;
    while moved.bytes < wanted {
        let n = moved.bytes;
        moved = read_ready(input, clock, &mut buf[n..]).map_err(|stopped| Stopped {
            moved: Moved {
                bytes: n,
                ..stopped.moved
            },
            ..stopped
        })?;
        moved.bytes += n;
    }
    Ok(moved)
}

// Reads the next n bytes to the front of the buffer; no, where they do not fit or the reader's own `read_exact` fails, as where the input ends
// before. Unlike in the two above, what is tried again is that reader's choice, and of a failure no more is told than this no.
pub fn came(reader: &mut impl io::Read, buf: &mut [u8], n: usize) -> bool
    ensures { result ≡ true → n ≤ length buf.new }
{
    n <= buf.len() && reader.read_exact(&mut buf[..n]).is_ok()
}
