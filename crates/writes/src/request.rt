// A request and the reply to it, as bytes in memory.
ghost use Rattle.std.specs.Prelude.{◌≡◌, ◌∷◌, ◌+◌, length};
ghost use Rattle.writer.specs.Write.{wrote, write};
ghost use Rattle.writes.specs.Request.{kind_of, header_in, allowed, values_length, record_of, reply};

use feed::bytes::read_two;
use feed::format::Kind;
use feed::size::{MAJOR_LENGTH, MAJOR_SUMMED, MARK_LENGTH, MINOR_SUMMED};
use feed::values::{read_major, read_minor};
use writer::answer::{Refused, number};
use writer::write::{write_major, write_minor};

// The longest outbox.
const LONGEST: usize = 1024;

// Where the parts of a header stand: the kind, the outbox's length in two bytes, and what fills it.
const ROOM_AT: usize = 1;

const FILL_AT: usize = 3;

pub(crate) const HEADER_LENGTH: usize = 4;

// What a record has between mark and sum.
const MINOR_VALUES: usize = MINOR_SUMMED - MARK_LENGTH;

const MAJOR_VALUES: usize = MAJOR_SUMMED - MARK_LENGTH;

// The longest reply: a number and an outbox.
pub(crate) const REPLY_LENGTH: usize = 1 + LONGEST;

// What a request says before the values; `room` is the outbox's length.
#[derive(Clone, Copy)]
pub(crate) struct Header {
    pub kind: Kind,
    pub room: usize,
    pub fill: u8,
}

// A request, all of which came. The values are in the places that a record has them in.
#[derive(Clone, Copy)]
pub(crate) struct Request {
    pub header: Header,
    pub values: [u8; MAJOR_LENGTH],
}

// The kind that the byte stands for.
fn kind_of(b: u8) -> Option<Kind>
    ensures { result ≡ kind_of b }
{
    match b {
        0 => Some(Kind::Minor),
        1 => Some(Kind::Major),
        _ => None,
    }
}

pub(crate) fn header_in(b: &[u8; HEADER_LENGTH]) -> Option<Header>
    ensures { result ≡ header_in b.now }
{
    let kind = kind_of(b[0])?;
    Some(Header {
        kind,
        room: read_two(b, ROOM_AT) as usize,
        fill: b[FILL_AT],
    })
}

// Is the outbox not too long?
pub(crate) fn allowed(h: Header) -> bool
    ensures { result ≡ allowed h }
{
    h.room <= LONGEST
}

// How many bytes of values a request of the kind has.
pub(crate) fn values_length(kind: Kind) -> usize
    ensures { result ≡ values_length kind }
{
    match kind {
        Kind::Minor => MINOR_VALUES,
        Kind::Major => MAJOR_VALUES,
    }
}

// The record that the request is for, written.
fn write_record(kind: Kind, values: &[u8], out: &mut [u8]) -> Result<(), Refused>
    ensures { wrote result out.new ≡ write (record_of kind values.now) out.old }
{
    match kind {
        Kind::Minor => write_minor(read_minor(values), out),
        Kind::Major => write_major(read_major(values), out),
    }
}

// The answer's number. The outbox, which has the length that the request says, then holds what the writer leaves there.
#[tactic(auto, unfolding(crate::specs::Request::reply))]
fn answered(h: Header, values: &[u8], out: &mut [u8]) -> u8
    requires { length out.old ≡ h.room }
    ensures { result ∷ out.new ≡ reply h values.now }
{
    out.fill(h.fill);
    number(write_record(h.kind, values, out))
}

// The reply to a request: the number and behind it the outbox.
pub(crate) fn put_reply(b: &mut [u8], h: Header, values: &[u8])
    requires { length b.old ≡ 1 + h.room }
    ensures { b.new ≡ reply h values.now }
{
    b[0] = answered(h, values, &mut b[1..]);
}
