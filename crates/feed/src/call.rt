// The monitor and its call; and the run that hands a piece on until it is used up.
ghost use Rattle.std.specs.Prelude.{◌≡◌, ◌≤◌, true, None, length, take};
ghost use Rattle.feed.specs.Size.{store_length, most_held, outbox_needed};
ghost use Rattle.feed.specs.Reader.{store};
ghost use Rattle.feed.specs.Step.{is_whole, step_of};
ghost use Rattle.feed.specs.Call.{call, started_over, runs, RanBy};
ghost use Rattle.feed.specs.Masks.{started_from};
ghost use Rattle.feed.specs.Inside.Turn.{FitsIn, found_in, left_count, left_bytes, Turn};

use crate::calm::{Calm, calm_after, calm_major, calm_turn, stretch};
use crate::format::length_of;
use crate::masks::masks_of;
use crate::reader::{find, held_count, shift};
use crate::report::write_report;
use crate::size::{MAJOR_LENGTH, MAP, MINOR_LENGTH, OUTBOX_NEEDED, REPORT, STORE};
use crate::step::step_whole;
use cycle::answer::Answer;
use cycle::hall::{Hall, Stepped, start};
use cycle::map::Masks;
use cycle::size::STRINGS;

// The hall, and the tail of the feed: only the first `count` bytes of `held` count.
#[derive(Clone, Copy)]
pub struct Monitor {
    pub hall: Hall,
    pub held: [u8; STORE],
    pub count: usize,
}

// What a call gives back, to this monitor or to another.
#[derive(Clone, Copy)]
pub struct Outcome<M> {
    pub answer: Answer,
    pub used: usize,
    pub monitor: M,
}

// What a run over a piece gives back: the bytes of the piece used and of the outbox written, and whether there is more to come out.
#[derive(Clone, Copy)]
pub struct Ran {
    pub used: usize,
    pub written: usize,
    pub more: bool,
    pub monitor: Monitor,
}

// What one turn leaves: the answer, if a record was settled, the hall, the bytes held and the bytes of the piece used.
#[derive(Clone, Copy)]
pub struct Turned {
    pub answer: Option<Answer>,
    pub hall: Hall,
    pub count: usize,
    pub used: usize,
}

// The bytes of the record found: in the piece from `at` on, or else in the store.
pub(crate) fn found_bytes<'a>(
    b: &'a [u8],
    piece: &'a [u8],
    at: Option<usize>,
    long: usize,
) -> &'a [u8]
    requires { FitsIn at long b.now piece.now }
    ensures { result.now ≡ found_in at long b.now piece.now }
{
    match at {
        None => &b[..long],
        Some(place) => &piece[place..place + long],
    }
}

// The record found steps the hall.
fn step_found<'a>(
    hall: Hall,
    b: &'a [u8],
    piece: &'a [u8],
    at: Option<usize>,
    long: usize,
) -> Stepped<Hall>
    requires long_in_bounds { FitsIn at long b.now piece.now }
    requires piece_value { is_whole (found_in at long b.now piece.now) ≡ true }
    ensures { result ≡ step_of (found_in at long b.now piece.now) hall }
{
    step_whole(hall, found_bytes(b, piece, at, long))
}

// The settled record leaves the store, if it is there.
pub(crate) fn removed(b: &mut [u8], at: Option<usize>, count: usize, long: usize) -> usize
    requires count_in_bounds { count ≤ length b.old }
    requires long_le_count { at ≡ None → long ≤ count }
    ensures { (result ≡ left_count at long count) × (b.new ≡ left_bytes at long count b.old) }
{
    if at.is_some() {
        return count;
    }
    shift(&mut b[..count], long);
    count - long
}

// One record settled, answered and reported, or none: a call on a store that is in order, with bytes of the piece from `from` on.
fn turn(hall: Hall, b: &mut [u8], count: usize, piece: &[u8], from: usize, out: &mut [u8]) -> Turned
    requires b_len { length b.old ≡ store_length }
    requires count_le_most_held { (count ≤ most_held) × (b.old ≡ store (take count b.old)) }
    requires from_in_bounds { (from ≤ length piece.now) × (outbox_needed ≤ length out.old) }
    ensures { Turn hall count from b.old piece.now out.old result b.new out.new }
{
    let f = find(b, count, piece, from);
    let Some(kind) = f.settled else {
        return Turned {
            answer: None,
            hall,
            count: f.count,
            used: f.used,
        };
    };
    let long = length_of(kind);
    let x = step_found(hall, b, piece, f.at, long);
    write_report(out, x.answer, x.hall);
    let left = removed(b, f.at, f.count, long);
    Turned {
        answer: Some(x.answer),
        hall: x.hall,
        count: left,
        used: f.used,
    }
}

impl Monitor {
    // A fresh monitor over a map.
    pub fn start(masks: [Masks; STRINGS]) -> Outcome<Monitor>
        ensures { result ≡ started_over masks }
    {
        let s = start(masks);
        let monitor = Monitor {
            hall: s.hall,
            held: [0; STORE],
            count: 0,
        };
        Outcome {
            answer: s.answer,
            used: 0,
            monitor,
        }
    }

    // A fresh monitor over the map that 128 bytes give; bytes of another number are no map, and settle nothing.
    pub fn start_from(bytes: &[u8]) -> Outcome<Monitor>
        ensures { result ≡ started_from bytes.now }
    {
        if bytes.len() == MAP {
            Monitor::start(masks_of(bytes))
        } else {
            let monitor = Monitor {
                hall: Hall::fresh([Masks::none(); STRINGS]),
                held: [0; STORE],
                count: 0,
            };
            Outcome {
                answer: Answer::NothingSettled,
                used: 0,
                monitor,
            }
        }
    }

    // One call.
    pub fn call(self, piece: &[u8], out: &mut [u8]) -> Outcome<Monitor>
        ensures value { result ≡ (call self piece.now out.old).outcome }
        ensures out_after { out.new ≡ (call self piece.now out.old).outbox }
    {
        if out.len() < OUTBOX_NEEDED {
            return Outcome {
                answer: Answer::OutboxShort,
                used: 0,
                monitor: self,
            };
        }
        let mut b = self.held;
        let n = held_count(self.count);
        b[n..].fill(0);
        let t = turn(self.hall, &mut b[..], n, piece, 0, out);
        let monitor = Monitor {
            hall: t.hall,
            held: b,
            count: t.count,
        };
        Outcome {
            answer: t.answer.unwrap_or(Answer::NothingSettled),
            used: t.used,
            monitor,
        }
    }

    // Calls, one after the other, each with the rest of the outbox, until one settles nothing or there is no room for a call. Where nothing
    // is under way, first a stretch of calm minor records, then a calm major one; any other goes the long way.
    pub fn run(self, piece: &[u8], out: &mut [u8]) -> Ran
        ensures { RanBy (runs (length out.old) self piece.now) out.old result out.new }
    {
        if out.len() < OUTBOX_NEEDED {
            return Ran {
                used: 0,
                written: 0,
                more: true,
                monitor: self,
            };
        }
        let mut hall = self.hall;
        let mut b = self.held;
        let mut count = held_count(self.count);
        b[count..].fill(0);
        let mut used: usize = 0;
        let mut written: usize = 0;
        let mut calm: Option<Calm> = None;
        while written + OUTBOX_NEEDED <= out.len() {
            if let Some(jets) = calm {
                let mut left = stretch(hall.n, piece.len() - used, out.len() - written);
                while 0 < left {
                    if calm_turn(hall, jets.turned, piece, used, &mut out[written - REPORT..]) {
                        hall.n += 1;
                        used += MINOR_LENGTH;
                        written += REPORT;
                        left -= 1;
                        continue;
                    }
                    // And no `break`: so the loop has one way out.
                    left = 0;
                }
                let kept = calm_major(hall, jets, piece, used, &mut out[written - REPORT..]);
                if let Some(next) = kept {
                    hall = next;
                    used += MAJOR_LENGTH;
                    written += REPORT;
                    continue;
                }
            }
            let t = turn(hall, &mut b[..], count, piece, used, &mut out[written..]);
            hall = t.hall;
            count = t.count;
            used = t.used;
            let Some(answer) = t.answer else {
                let monitor = Monitor {
                    hall,
                    held: b,
                    count,
                };
                return Ran {
                    used,
                    written,
                    more: false,
                    monitor,
                };
            };
            calm = calm_after(answer, count, hall);
            written += REPORT;
        }
        let monitor = Monitor {
            hall,
            held: b,
            count,
        };
        Ran {
            used,
            written,
            more: true,
            monitor,
        }
    }
}
