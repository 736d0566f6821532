// What becomes of a line, and which failures pass.
ghost use Rattle.std.specs.Prelude.{◌≡◌, pos, MatchOption};
ghost use Rattle.std.specs.IoError.{raw_os_error};
ghost use Rattle.lines.specs.Lines.{passes};

use std::io;
use std::thread::sleep;
use std::time::{Clock, Duration};

// The system's numbers of the failures that pass: a line that has nothing ready or can take nothing now, and a call that was interrupted.
pub const EAGAIN: i32 = 11;

pub const EINTR: i32 = 4;

// How many bytes went over a line, the tries before the last, what the system answered to the last call, and the last failure.
#[derive(Clone, Copy, Debug, PartialEq, Eq)]
pub struct Moved {
    pub bytes: usize,
    pub tries: u64,
    pub answer: isize,
    pub failure: i32,
}

// Before any call the answer is 1 and the failure EAGAIN, at which no line is over.
pub(crate) const UNASKED: Moved = Moved {
    bytes: 0,
    tries: 0,
    answer: 1,
    failure: EAGAIN,
};

// Why a line is not open: it has ended or failed; it was tried so often that no count can hold more; or there was no room for what it would
// bring.
#[derive(Clone, Copy, Debug, PartialEq, Eq)]
pub enum Stop {
    Over,
    OutOfTries,
    NoRoom,
}

// A line that is not open, and what went over it before.
#[derive(Clone, Copy, Debug, PartialEq, Eq)]
pub struct Stopped {
    pub why: Stop,
    pub moved: Moved,
}

// The number of a failure, or 0, which does not pass, where it has none: the system's failures have one.
pub(crate) fn number_of(failed: io::Error) -> i32
    ensures { MatchOption (raw_os_error failed) (result ≡ pos 0) (λ number. result ≡ number) }
{
    failed.raw_os_error().unwrap_or(0)
}

// Waits two milliseconds: short beside a cycle's 40.
fn pause(clock: &impl Clock) {
    sleep(clock, Duration::from_millis(2));
}

// Whether a failure passes, so that the call is made again: at once where it was only interrupted, after a pause where the line was not
// ready.
pub(crate) fn try_again(clock: &impl Clock, failure: i32) -> bool
    ensures { result ≡ passes failure }
{
    if failure == EAGAIN {
        pause(clock);
        return true;
    }
    failure == EINTR
}
