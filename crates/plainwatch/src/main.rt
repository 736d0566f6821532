// The night monitor by the plain engine, for audits: the job of `watch`, the map (128 bytes) and then a feed from standard input, the
// reports to standard output, with the reader and the report of `feed`, the lines of `lines` and the engine of `plain`. It makes one call
// after the other and writes each report by itself: it is meant to be read, not to be fast.
#![tactic(auto)]

ghost use Rattle.std.specs.Prelude.{◌≡◌, ◌≤◌, length, take, if◌then◌else◌};
ghost use Rattle.cycle.specs.Answers.{writes_report};
ghost use Rattle.feed.specs.Size.{map_length, report_length, outbox_needed};
ghost use Rattle.lines.specs.Lines.{Written};
ghost use Rattle.lines.specs.Ending.{EndedBy};
ghost use Rattle.plainwatch.specs.Watched.{Fresh, ReportedFor};

use cycle::answer::Answer;
use feed::masks::masks_of;
use feed::size::{MAP, REPORT};
use lines::ending::{Ended, Why, ended_at};
use lines::line::{EAGAIN, Moved, Stopped};
use lines::read::{read_first, read_ready};
use lines::write::write_all;
use plain::call::PlainMonitor;
use std::io;
use std::time::Clock;

// The sizes of the buffers: for what is read, and for a report.
const INPUT: usize = 65536;

const OUTBOX: usize = 4096;

// How many bytes of its outbox a call with this answer has written.
fn written(answer: Answer) -> usize
    ensures { result ≡ (if writes_report answer then report_length else 0) }
{
    match answer {
        Answer::Taken => REPORT,
        Answer::Stale => REPORT,
        Answer::Repeat => REPORT,
        Answer::CountEnded => REPORT,
        Answer::WrongKind => REPORT,
        Answer::OutboxShort => 0,
        Answer::MapRefused => 0,
        Answer::BothWays => REPORT,
        Answer::NothingSettled => 0,
    }
}

// Writes a report, all of it: that of the monitor m's call with this piece, where it has one. Nothing else is ever written. Of the other
// parameters those from `start` to `told` are for the `requires` alone: the monitor at the start, the calls made, the feed bytes read and
// the report bytes written before.
fn write_report(
    writer: &mut impl io::Write,
    clock: &impl Clock,
    start: PlainMonitor,
    m: PlainMonitor,
    turns: u64,
    fed: usize,
    told: usize,
    piece: &[u8],
    report: &[u8],
) -> Result<Moved, Stopped>
    requires { ReportedFor start m turns fed told piece.now report.now }
    ensures { Written (length report.now) result }
{
    write_all(writer, clock, report)
}

// Watches: calls the monitor with what has been read, writes its report, and where there is none reads on, from a buffer that holds the map
// and perhaps feed bytes behind it, and the monitor that is fresh over that map. `fed` and `told` count feed bytes read and report bytes
// written, round in a word: so no turn can leave any out.
fn watched(
    reader: &mut impl io::Read,
    writer: &mut impl io::Write,
    clock: &impl Clock,
    start: PlainMonitor,
    input: &mut [u8],
    read: usize,
    out: &mut [u8],
) -> Ended
    requires fresh { Fresh start (take map_length input.old) }
    requires map_length_le_read { (map_length ≤ read) × (read ≤ length input.old) }
    requires outbox_needed_in_bounds { outbox_needed ≤ length out.old }
    ensures { EndedBy result }
{
    let mut m = start;
    let mut at: usize = MAP;
    let mut n = read;
    let mut fed: usize = read - MAP;
    let mut told: usize = 0;
    let mut made: u64 = 0;
    for turns in 0..u64::MAX {
        let r = m.call(&input[at..n], out);
        let w = written(r.answer);
        let put = match write_report(
            writer,
            clock,
            start,
            m,
            turns,
            fed,
            told,
            &input[at..n],
            &out[..w],
        ) {
            Ok(put) => put,
            Err(stopped) => return ended_at(Why::OutputOver, turns, Err(stopped)),
        };
        told = told.wrapping_add(put.bytes);
        m = r.monitor;
        at += r.used;
        if w == 0 {
            let got = match read_ready(reader, clock, input) {
                Ok(got) => got,
                Err(stopped) => return ended_at(Why::InputOver, turns, Err(stopped)),
            };
            n = got.bytes;
            at = 0;
            fed = fed.wrapping_add(n);
        }
        made = turns + 1;
    }
    Ended {
        why: Why::OutOfTurns,
        turns: made,
        tries: 0,
        answer: 1,
        failure: EAGAIN,
    }
}

fn main(rt: HostRuntime) {
    let mut reader = rt.stdin();
    let mut writer = rt.stdout();
    let mut input = [0u8; INPUT];
    let mut out = [0u8; OUTBOX];
    let Ok(got) = read_first(&mut reader, &rt, &mut input, MAP) else {
        return;
    };
    let s = PlainMonitor::start(masks_of(&input[..MAP]));
    if s.answer == Answer::MapRefused {
        return;
    }
    watched(
        &mut reader,
        &mut writer,
        &rt,
        s.monitor,
        &mut input,
        got.bytes,
        &mut out,
    );
}
