// Writing to standard output, or to another writer.
ghost use Rattle.std.specs.Prelude.{length};
ghost use Rattle.lines.specs.Lines.{Written};

use crate::line::{Moved, Stop, Stopped, UNASKED, number_of, try_again};
use std::io;
use std::time::Clock;

// Writes bytes, all of them, and waits for that.
pub fn write_all(
    output: &mut impl io::Write,
    clock: &impl Clock,
    bytes: &[u8],
) -> Result<Moved, Stopped>
    ensures { Written (length bytes.now) result }
{
    let mut moved = UNASKED;
    for tries in 0..u64::MAX {
        if moved.bytes == bytes.len() {
            return Ok(moved);
        }
        match output.write(&bytes[moved.bytes..]) {
            Ok(0) => {
                moved.answer = 0;
                return Err(Stopped {
                    why: Stop::Over,
                    moved,
                });
            }
            Ok(taken) => {
                moved.answer = taken as isize;
                moved.bytes += taken;
            }
            Err(failed) => {
                moved.answer = -1;
                moved.failure = number_of(failed);
                if !try_again(clock, moved.failure) {
                    return Err(Stopped {
                        why: Stop::Over,
                        moved,
                    });
                }
            }
        }
        moved.tries = tries + 1;
    }
    Err(Stopped {
        why: Stop::OutOfTries,
        moved,
    })
}
