// Has the writer write what its input asks for, so that nights and comparisons see all that the writer gives back. It is a tool for tests:
// a controller calls the writer itself. Numbers have the high byte first.
//
// Standard input has any number of requests, one after the other. A request: its kind (1 byte: 0 a minor record, 1 a major one), the
// outbox's length (2, at most 1,024), the byte that the outbox is filled with beforehand (1), and the values in the record's order, without
// mark and sum (55, or 615 for a major).
//
// Standard output has for each request the number of the writer's answer (1 byte) and the whole outbox. At the end of its input, at a
// request that breaks off, at another kind and at a longer outbox the program stops silently.
#![tactic(auto)]

ghost use Rattle.std.specs.Prelude.{◌≡◌, true, ◌+◌, ◌≤◌, length, IfSome};
ghost use Rattle.writes.specs.Request.{allowed, reply};

mod request;
#[cfg(test)]
mod tests;

use crate::request::{
    HEADER_LENGTH, Header, REPLY_LENGTH, Request, allowed, header_in, put_reply, values_length,
};
use feed::size::{MAJOR_LENGTH, MARK_LENGTH};
use std::io::{Read, Write};

// Reads the next n bytes to the front of the buffer; no, where they do not fit or the input ends before.
fn came(reader: &mut impl Read, buf: &mut [u8], n: usize) -> bool
    ensures { result ≡ true → n ≤ length buf.new }
{
    n <= buf.len() && reader.read_exact(&mut buf[..n]).is_ok()
}

// The next request; none at another kind, at a longer outbox and where the input ends before. Its values come to the places that they have
// in a record, behind those of a mark.
fn next_request(reader: &mut impl Read) -> Option<Request>
    ensures { IfSome result (λ q. allowed q.header ≡ true) }
{
    let mut head = [0u8; HEADER_LENGTH];
    if !came(reader, &mut head, HEADER_LENGTH) {
        return None;
    }
    let header = header_in(&head)?;
    if !allowed(header) {
        return None;
    }
    let mut values = [0u8; MAJOR_LENGTH];
    if !came(
        reader,
        &mut values[MARK_LENGTH..],
        values_length(header.kind),
    ) {
        return None;
    }
    Some(Request { header, values })
}

// The one function that writes: the reply to a request and nothing else; no, where that fails.
fn write_reply(writer: &mut impl Write, b: &[u8], h: Header, values: &[u8]) -> bool
    requires { b.now ≡ reply h values.now }
{
    writer.write_all(b).is_ok()
}

// Makes the reply in the bytes lent, and writes it.
fn sent(writer: &mut impl Write, b: &mut [u8], h: Header, values: &[u8]) -> bool
    requires { length b.old ≡ 1 + h.room }
    ensures { b.new ≡ reply h values.now }
{
    put_reply(b, h, values);
    write_reply(writer, b, h, values)
}

// The same, with bytes that have room for the reply to any request that is allowed.
fn replied(writer: &mut impl Write, q: Request) -> bool
    requires { allowed q.header ≡ true }
{
    let mut b = [0u8; REPLY_LENGTH];
    sent(writer, &mut b[..1 + q.header.room], q.header, &q.values)
}

fn main(rt: HostRuntime) {
    let mut reader = rt.stdin();
    let mut writer = rt.stdout();
    for _ in 0..u64::MAX {
        let Some(q) = next_request(&mut reader) else {
            return;
        };
        if !replied(&mut writer, q) {
            return;
        }
    }
}
