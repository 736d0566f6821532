// Why a program ends that reads and writes in turns.
ghost use Rattle.std.specs.Prelude.{◌≡◌};
ghost use Rattle.lines.specs.Ending.{ended_at};

use crate::line::{Moved, Stop, Stopped};

// Why the program has ended.
#[derive(Clone, Copy, Debug, PartialEq, Eq)]
pub enum Why {
    InputOver,
    OutputOver,
    OutOfTurns,
    OutOfTries,
}

// Why, after how many turns, and for the line that ended it how many tries, the system's last answer and its last failure.
#[derive(Clone, Copy, Debug, PartialEq, Eq)]
pub struct Ended {
    pub why: Why,
    pub turns: u64,
    pub tries: u64,
    pub answer: isize,
    pub failure: i32,
}

// The program ends at a line, by what was answered of it: for want of tries, or else because the line is over, as `over` says.
pub fn ended_at(over: Why, turns: u64, answered: Result<Moved, Stopped>) -> Ended
    ensures { result ≡ ended_at over turns answered }
{
    let (why, moved) = match answered {
        Ok(moved) => (over, moved),
        Err(stopped) => match stopped.why {
            Stop::OutOfTries => (Why::OutOfTries, stopped.moved),
            Stop::Over | Stop::NoRoom => (over, stopped.moved),
        },
    };
    Ended {
        why,
        turns,
        tries: moved.tries,
        answer: moved.answer,
        failure: moved.failure,
    }
}
