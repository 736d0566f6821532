// Lines that answer what a test tells them to: what is made again, what gives a line up, and what is told of that.
ghost use Rattle.std.specs.Prelude.{◌≤◌, IfOk};

use crate::line::{EAGAIN, EINTR, Moved, Stop, Stopped};
use crate::read::{came, read_first, read_ready};
use crate::write::write_all;
use std::cell::Cell;
use std::io;
use std::time::{Clock, Duration};

const EIO: i32 = 5;

// What a call answers.
#[derive(Clone, Copy)]
enum Says {
    Moves(usize),
    Fails(i32),
    FailsWithoutNumber,
}

// The calls' answers in turn, and the end behind them.
#[derive(Drop)]
struct Scripted<'a> {
    answers: &'a [Says],
    at: usize,
}

impl Scripted<'_> {
    fn next(&mut self, room: usize) -> io::Result<usize>
        ensures { IfOk result (λ n. n ≤ room) }
    {
        if self.at >= self.answers.len() {
            return Ok(0);
        }
        let says = self.answers[self.at];
        self.at += 1;
        match says {
            Says::Moves(n) => Ok(n.min(room)),
            Says::Fails(number) => Err(io::Error::from_raw_os_error(number)),
            Says::FailsWithoutNumber => Err(io::Error::other("no number")),
        }
    }
}

impl io::Read for Scripted<'_> {
    fn read(&mut self, buf: &mut [u8]) -> io::Result<usize> {
        self.next(buf.len())
    }
}

impl io::Write for Scripted<'_> {
    fn write(&mut self, buf: &[u8]) -> io::Result<usize> {
        self.next(buf.len())
    }

    fn flush(&mut self) -> io::Result<()> {
        Ok(())
    }
}

// Counts the pauses, and the milliseconds of the last.
#[derive(Drop)]
struct Pauses {
    count: Cell<u32>,
    millis: Cell<u128>,
}

impl Clock for Pauses {
    fn monotonic(&self) -> io::Result<Duration> {
        Ok(Duration::from_millis(0))
    }

    fn since_1970(&self) -> io::Result<Duration> {
        Ok(Duration::from_millis(0))
    }

    fn sleep(&self, duration: Duration) {
        self.count.set(self.count.get().wrapping_add(1));
        self.millis.set(duration.as_millis());
    }
}

fn no_pauses() -> Pauses {
    Pauses {
        count: Cell::new(0),
        millis: Cell::new(0),
    }
}

// What went over a line, open or not.
fn moved_of(answer: Result<Moved, Stopped>) -> Moved {
    match answer {
        Ok(moved) => moved,
        Err(stopped) => stopped.moved,
    }
}

fn is_over(answer: Result<Moved, Stopped>) -> bool {
    matches!(&answer, Err(stopped) if stopped.why == Stop::Over)
}

#[test]
fn passing_failures_are_tried_again(rt: HostRuntime) {
    let answers = [
        Says::Fails(EINTR),
        Says::Fails(EAGAIN),
        Says::Fails(EAGAIN),
        Says::Moves(3),
        Says::Fails(EINTR),
        Says::Moves(9),
    ];
    let mut buf = [0u8; 16];
    let clock = no_pauses();
    let mut input = Scripted {
        answers: &answers,
        at: 0,
    };
    let got = read_first(&mut input, &clock, &mut buf, 8);
    assert!(rt; got.is_ok());
    let got = moved_of(got);
    assert_eq!(rt; got.bytes, 12);
    assert_eq!(rt; got.tries, 1);
    assert_eq!(rt; got.answer, 9);
    assert_eq!(rt; got.failure, EINTR);
    assert_eq!(rt; clock.count.get(), 2);
    assert_eq!(rt; clock.millis.get(), 2);

    let clock = no_pauses();
    let mut output = Scripted {
        answers: &answers,
        at: 0,
    };
    let put = write_all(&mut output, &clock, &buf[..12]);
    assert!(rt; put.is_ok());
    let put = moved_of(put);
    assert_eq!(rt; put.bytes, 12);
    assert_eq!(rt; put.tries, 6);
    assert_eq!(rt; put.answer, 9);
    assert_eq!(rt; put.failure, EINTR);
    assert_eq!(rt; clock.count.get(), 2);
}

#[test]
fn other_answers_give_a_line_up(rt: HostRuntime) {
    let ends = [
        (Says::Fails(EIO), -1, EIO),
        (Says::FailsWithoutNumber, -1, 0),
        (Says::Moves(0), 0, EAGAIN),
    ];
    for (end, answer, failure) in ends {
        let answers = [Says::Fails(EAGAIN), end, Says::Moves(4)];
        let mut buf = [0u8; 16];
        let clock = no_pauses();
        let mut input = Scripted {
            answers: &answers,
            at: 0,
        };
        let got = read_ready(&mut input, &clock, &mut buf);
        assert!(rt; is_over(got));
        let got = moved_of(got);
        assert_eq!(rt; got.bytes, 0);
        assert_eq!(rt; got.tries, 1);
        assert_eq!(rt; got.answer, answer);
        assert_eq!(rt; got.failure, failure);

        let answers = [Says::Moves(5), end, Says::Moves(11)];
        let mut output = Scripted {
            answers: &answers,
            at: 0,
        };
        let put = write_all(&mut output, &clock, &buf);
        assert!(rt; is_over(put));
        let put = moved_of(put);
        assert_eq!(rt; put.bytes, 5);
        assert_eq!(rt; put.tries, 1);
        assert_eq!(rt; put.answer, answer);
        assert_eq!(rt; put.failure, failure);
    }
}

#[test]
fn with_no_room_nothing_is_asked(rt: HostRuntime) {
    let answers = [Says::Fails(EIO)];
    let clock = no_pauses();
    let mut line = Scripted {
        answers: &answers,
        at: 0,
    };
    let got = read_ready(&mut line, &clock, &mut []);
    assert!(rt; matches!(&got, Err(stopped) if stopped.why == Stop::NoRoom));
    assert_eq!(rt; moved_of(got).failure, EAGAIN);
    assert!(rt; write_all(&mut line, &clock, &[]).is_ok());
    assert_eq!(rt; line.at, 0);
}

#[test]
fn what_came_is_told_where_the_input_ends(rt: HostRuntime) {
    let answers = [Says::Moves(5), Says::Fails(EINTR)];
    let mut buf = [0u8; 16];
    let clock = no_pauses();
    let mut input = Scripted {
        answers: &answers,
        at: 0,
    };
    let got = read_first(&mut input, &clock, &mut buf, 8);
    let told = moved_of(got);
    assert!(rt; is_over(got));
    assert_eq!(rt; told.bytes, 5);
    assert_eq!(rt; told.tries, 1);
    assert_eq!(rt; told.answer, 0);
}

#[test]
fn what_fits_comes(rt: HostRuntime) {
    let answers = [Says::Moves(9), Says::Moves(7)];
    let mut buf = [0u8; 16];
    let mut input = Scripted {
        answers: &answers,
        at: 0,
    };
    assert!(rt; came(&mut input, &mut buf, 16));
    assert!(rt; !came(&mut input, &mut buf, 1));
    assert!(rt; !came(&mut input, &mut buf, 17));
}

#[test]
fn no_more_comes_than_is_asked_for(rt: HostRuntime) {
    let answers = [Says::Moves(9), Says::Moves(7)];
    let mut buf = [0u8; 16];
    let mut input = Scripted {
        answers: &answers,
        at: 0,
    };
    assert!(rt; came(&mut input, &mut buf, 9));
    assert!(rt; came(&mut input, &mut buf, 7));
    assert!(rt; !came(&mut input, &mut buf, 1));
}
