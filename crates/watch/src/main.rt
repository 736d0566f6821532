// The night monitor as a program: the map (128 bytes) and then a feed from standard input, the reports to standard output. Short or refused
// masks: it writes nothing at all. It takes what the input has ready, writes the reports of that, and only then reads again, so that no
// report waits for bytes that have not arrived. Memory is fixed. All that matters is in `feed`, and what is done at a line in `lines`.
#![tactic(auto)]

ghost use Rattle.std.specs.Prelude.{◌≤◌, length, take};
ghost use Rattle.feed.specs.Size.{map_length, outbox_needed};
ghost use Rattle.lines.specs.Lines.{Written};
ghost use Rattle.lines.specs.Ending.{EndedBy};
ghost use Rattle.watch.specs.Watched.{Fresh, ReportedFor};

use cycle::answer::Answer;
use feed::call::Monitor;
use feed::size::MAP;
use lines::ending::{Ended, Why, ended_at};
use lines::line::{EAGAIN, Moved, Stopped};
use lines::read::{read_first, read_ready};
use lines::write::write_all;
use std::io;
use std::time::Clock;

// The size of each buffer: for what is read, and for the reports of a turn.
const BUFFER: usize = 65536;

// Writes reports, all of them: those of the monitor m for this piece. Nothing else is ever written. Of the other parameters those from
// `start` to `told` are for the `requires` alone: the monitor at the start, the turns made, the feed bytes read and the report bytes written
// before.
fn write_reports(
    writer: &mut impl io::Write,
    clock: &impl Clock,
    start: Monitor,
    m: Monitor,
    turns: u64,
    fed: usize,
    told: usize,
    piece: &[u8],
    reports: &[u8],
) -> Result<Moved, Stopped>
    requires { ReportedFor start m turns fed told piece.now reports.now }
    ensures { Written (length reports.now) result }
{
    write_all(writer, clock, reports)
}

// Watches: runs the monitor over what has been read, writes its reports, and reads on, from a buffer that holds the map and perhaps feed
// bytes behind it, and the monitor that is fresh over that map. `fed` and `told` count feed bytes read and report bytes written, round in a
// word: so no turn can leave any out.
fn watched(
    reader: &mut impl io::Read,
    writer: &mut impl io::Write,
    clock: &impl Clock,
    start: Monitor,
    input: &mut [u8],
    read: usize,
    out: &mut [u8],
) -> Ended
    requires fresh { Fresh start (take map_length input.old) }
    requires map_length_le_read { (map_length ≤ read) × (read ≤ length input.old) }
    requires outbox_needed_in_bounds { outbox_needed ≤ length out.old }
    ensures { EndedBy result }
{
    let mut m = start;
    let mut at: usize = MAP;
    let mut n = read;
    let mut fed: usize = read - MAP;
    let mut told: usize = 0;
    let mut made: u64 = 0;
    for turns in 0..u64::MAX {
        let r = m.run(&input[at..n], out);
        let put = match write_reports(
            writer,
            clock,
            start,
            m,
            turns,
            fed,
            told,
            &input[at..n],
            &out[..r.written],
        ) {
            Ok(put) => put,
            Err(stopped) => return ended_at(Why::OutputOver, turns, Err(stopped)),
        };
        told = told.wrapping_add(put.bytes);
        m = r.monitor;
        at += r.used;
        if !r.more {
            let got = match read_ready(reader, clock, input) {
                Ok(got) => got,
                Err(stopped) => return ended_at(Why::InputOver, turns, Err(stopped)),
            };
            n = got.bytes;
            at = 0;
            fed = fed.wrapping_add(n);
        }
        made = turns + 1;
    }
    Ended {
        why: Why::OutOfTurns,
        turns: made,
        tries: 0,
        answer: 1,
        failure: EAGAIN,
    }
}

fn main(rt: HostRuntime) {
    let mut reader = rt.stdin();
    let mut writer = rt.stdout();
    let mut input = [0u8; BUFFER];
    let mut out = [0u8; BUFFER];
    let Ok(got) = read_first(&mut reader, &rt, &mut input, MAP) else {
        return;
    };
    let s = Monitor::start_from(&input[..MAP]);
    if s.answer == Answer::MapRefused {
        return;
    }
    watched(
        &mut reader,
        &mut writer,
        &rt,
        s.monitor,
        &mut input,
        got.bytes,
        &mut out,
    );
}
