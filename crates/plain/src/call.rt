// The monitor over the plain engine: the same reader, the same call and the same report as `feed`'s over the packed one.
ghost use Rattle.std.specs.Prelude.{◌≡◌, Some, slice_index};
ghost use Rattle.feed.specs.Format.{mark_of};
ghost use Rattle.feed.specs.Values.{values_of};
ghost use Rattle.plain.specs.Hall.{stepped};
ghost use Rattle.plain.specs.Call.{started_over, call};

use crate::hall::{Plain, start};
use cycle::answer::Answer;
use cycle::hall::Stepped;
use cycle::map::Masks;
use cycle::size::STRINGS;
use feed::call::Outcome;
use feed::format::Kind;
use feed::hand::Reader;
use feed::report::put_shown;
use feed::size::OUTBOX_NEEDED;
use feed::values::{read_major, read_minor};

#[derive(Clone, Copy)]
pub struct PlainMonitor {
    pub plain: Plain,
    pub reader: Reader,
}

// The step by a settled record of this kind, whose bytes stand in front.
fn step_by(plain: Plain, kind: Kind, s: &[u8]) -> Stepped<Plain>
    requires { mark_of (slice_index s.now 1) ≡ Some kind }
    ensures { result ≡ stepped (values_of s.now) plain }
{
    match kind {
        Kind::Minor => plain.minor(read_minor(s)),
        Kind::Major => plain.major(read_major(s)),
    }
}

impl PlainMonitor {
    // A fresh monitor over a map.
    pub fn start(masks: [Masks; STRINGS]) -> Outcome<PlainMonitor>
        ensures { result ≡ started_over masks }
    {
        let started = start(masks);
        Outcome {
            answer: started.answer,
            used: 0,
            monitor: PlainMonitor {
                plain: started.hall,
                reader: Reader::empty(),
            },
        }
    }

    // One call.
    pub fn call(self, piece: &[u8], out: &mut [u8]) -> Outcome<PlainMonitor>
        ensures value { result ≡ (call self piece.now out.old).outcome }
        ensures out_after { out.new ≡ (call self piece.now out.old).outbox }
    {
        if out.len() < OUTBOX_NEEDED {
            return Outcome {
                answer: Answer::OutboxShort,
                used: 0,
                monitor: self,
            };
        }
        let x = self.reader.next(piece);
        let Some(kind) = x.settled else {
            return Outcome {
                answer: Answer::NothingSettled,
                used: x.used,
                monitor: PlainMonitor {
                    plain: self.plain,
                    reader: x.reader,
                },
            };
        };
        let y = step_by(self.plain, kind, &x.bytes[..]);
        put_shown(out, y.answer, y.hall.shown());
        Outcome {
            answer: y.answer,
            used: x.used,
            monitor: PlainMonitor {
                plain: y.hall,
                reader: x.reader,
            },
        }
    }
}
