// Plays scripts of single calls, so that nights and comparisons run at the level of calls and see all that a call gives back. It is a
// tool for tests: a user's program hands on whole pieces. Numbers have the high byte first.
//
// Standard input has any number of scripts, one after the other. A script: its kind (1 byte); a hall (618, src/layout.rt has its places);
// the claimed count of held bytes (2) and the store (619); the number of calls (2); and for each call the piece's length (2, at most
// 4,096), the piece, the outbox's length (1) and its contents. Where the kind is 0, the calls begin with what the start over the hall's
// masks gives, and of the hall's other values n alone is handed in. Any other kind hands in the whole hall as it stands.
//
// Standard output has for each script the number of the start's answer to the hall's masks (1 byte), whatever the kind, and for each call
// the answer's number (1), the bytes used (2), the whole outbox, the whole hall (618), the low 16 bits of the count (2) and the whole store
// (619). At the end of its input, at a script that breaks off and at a piece that is too long the program stops silently.
#![tactic(auto)]

ghost use Rattle.std.specs.Prelude.{◌≡◌, true, ◌∷◌, ◌%◌, ◌<◌, ◌≤◌, length, IfSome};
ghost use Rattle.cycle.specs.Answers.{number_of};
ghost use Rattle.feed.specs.Bytes.{two, in_two};
ghost use Rattle.feed.specs.Call.{call};
ghost use Rattle.feed.specs.Masks.{started_from};
ghost use Rattle.calls.specs.Handed.{masks_given, kind_of, handed, handed_in, OneCall};

mod layout;
#[cfg(test)]
mod tests;

use crate::layout::{HALL, MASKS_FROM, STRINGS_FROM, hall_bytes, hall_in};
use cycle::answer::Answer;
use cycle::hall::Hall;
use feed::call::{Monitor, Outcome};
use feed::size::STORE;
use std::io::{Read, Write};

// The longest piece, and the longest outbox that one byte can name.
const PIECE: usize = 4096;

const OUTBOX: usize = 255;

// What a script hands in: the state that the start over its hall's masks gives, or its whole hall as it stands.
#[derive(Clone, Copy, Debug, PartialEq, Eq)]
enum Kind {
    Started,
    Whole,
}

impl From<u8> for Kind {
    ghost from_gives = { λ byte kind. kind ≡ kind_of byte };

    fn from(byte: u8) -> Kind {
        match byte {
            0 => Kind::Started,
            _ => Kind::Whole,
        }
    }
}

// A script's header.
#[derive(Clone, Copy)]
struct Header {
    kind: Kind,
    hall: [u8; HALL],
    count: usize,
    held: [u8; STORE],
    calls: usize,
}

fn two_of(b: &[u8; 2]) -> usize
    ensures { (result ≡ two b.now 0) × (result < 65536) }
{
    usize::from(u16::from_be_bytes(*b))
}

// The low 16 bits.
fn low_two(x: usize) -> u16
    ensures { result ≡ x % 65536 }
{
    (x % 65536) as u16
}

// The answer's number and the bytes used.
fn front(answer: Answer, used: usize) -> [u8; 3]
    ensures { result ≡ number_of answer ∷ in_two used }
{
    let [high, low] = low_two(used).to_be_bytes();
    [answer.number(), high, low]
}

// The low 16 bits of the count.
fn count_bytes(count: usize) -> [u8; 2]
    ensures { result ≡ in_two count }
{
    low_two(count).to_be_bytes()
}

// Reads the next n bytes to the front of the buffer; no, where they do not fit or the input ends before.
fn came(reader: &mut impl Read, buf: &mut [u8], n: usize) -> bool
    ensures { result ≡ true → n ≤ length buf.new }
{
    n <= buf.len() && reader.read_exact(&mut buf[..n]).is_ok()
}

// The next bytes; none, where the input ends before.
fn next_bytes<const N: usize>(reader: &mut impl Read) -> Option<[u8; N]> {
    let mut bytes = [0u8; N];
    came(reader, &mut bytes, N).then_some(bytes)
}

// The next script's header.
fn next_header(reader: &mut impl Read) -> Option<Header>
    ensures { IfSome result (λ h. (h.count < 65536) × (h.calls < 65536)) }
{
    let [kind] = next_bytes::<1>(reader)?;
    Some(Header {
        kind: Kind::from(kind),
        hall: next_bytes(reader)?,
        count: two_of(&next_bytes(reader)?),
        held: next_bytes(reader)?,
        calls: two_of(&next_bytes(reader)?),
    })
}

// The hall that is handed in: the started one but for its cycle number, or the given one.
fn handed(kind: Kind, started: Hall, given: Hall) -> Hall
    ensures { result ≡ handed kind started given }
{
    match kind {
        Kind::Started => Hall {
            n: given.n,
            ..started
        },
        Kind::Whole => given,
    }
}

// The start over the header's masks, and its state handed in.
fn started(h: Header) -> Outcome<Monitor>
    ensures answer_value { result.answer ≡ (started_from (masks_given h.hall)).answer }
    ensures monitor_value { result.monitor ≡ handed_in h.kind h.hall h.held h.count }
{
    let start = Monitor::start_from(&h.hall[MASKS_FROM..STRINGS_FROM]);
    Outcome {
        answer: start.answer,
        used: 0,
        monitor: Monitor {
            hall: handed(h.kind, start.monitor.hall, hall_in(&h.hall)),
            held: h.held,
            count: h.count,
        },
    }
}

// Writes all that a call gave back, and hands on its monitor; none, where that fails. The outbox is lent.
fn said(writer: &mut impl Write, o: Outcome<Monitor>, outbox: &[u8]) -> Option<Monitor>
    ensures { IfSome result (λ m. m ≡ o.monitor) }
{
    writer.write_all(&front(o.answer, o.used)).ok()?;
    writer.write_all(outbox).ok()?;
    writer.write_all(&hall_bytes(o.monitor.hall)).ok()?;
    writer.write_all(&count_bytes(o.monitor.count)).ok()?;
    writer.write_all(&o.monitor.held).ok()?;
    Some(o.monitor)
}

// One call, and all that it gives back written.
fn one_call(writer: &mut impl Write, m: Monitor, piece: &[u8], outbox: &mut [u8]) -> Option<Monitor>
    ensures monitor_value { IfSome result (λ x. x ≡ (call m piece.now outbox.old).outcome.monitor) }
    ensures outbox_after { outbox.new ≡ (call m piece.now outbox.old).outbox }
{
    let o = m.call(piece, outbox);
    said(writer, o, outbox)
}

// The script's next call; none, where it did not come whole, or what it gave could not be written.
fn next_call(reader: &mut impl Read, writer: &mut impl Write, m: Monitor) -> Option<Monitor>
    ensures { IfSome result (OneCall m) }
{
    let mut piece = [0u8; PIECE];
    let mut outbox = [0u8; OUTBOX];
    let n = two_of(&next_bytes(reader)?);
    if !came(reader, &mut piece, n) {
        return None;
    }
    let [room] = next_bytes::<1>(reader)?;
    let k = usize::from(room);
    if !came(reader, &mut outbox, k) {
        return None;
    }
    one_call(writer, m, &piece[..n], &mut outbox[..k])
}

// Plays so many calls, and answers how many it got through.
fn played(reader: &mut impl Read, writer: &mut impl Write, m: Monitor, calls: usize) -> usize
    ensures { result ≤ calls }
{
    let mut monitor = m;
    for done in 0..calls {
        let Some(next) = next_call(reader, writer, monitor) else {
            return done;
        };
        monitor = next;
    }
    calls
}

fn main(rt: HostRuntime) {
    let mut reader = rt.stdin();
    let mut writer = rt.stdout();
    for _ in 0..u64::MAX {
        let Some(header) = next_header(&mut reader) else {
            return;
        };
        let s = started(header);
        if writer.write_all(&[s.answer.number()]).is_err() {
            return;
        }
        if played(&mut reader, &mut writer, s.monitor, header.calls) < header.calls {
            return;
        }
    }
}
