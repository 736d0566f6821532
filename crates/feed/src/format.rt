// The record format: marks, lengths, sum, reserved bits, quantities; and what the bytes at the front of the reader are.
ghost use Rattle.std.specs.Prelude.{◌≡◌, ◌+◌, ◌≤◌, length, if◌then◌else◌};
ghost use Rattle.feed.specs.Size.{minor_length, major_length, quantities_length};
ghost use Rattle.feed.specs.Format.{mark_of, length_of, length_marked, sum_of, reserved_zero, two_right, quantities_right};
ghost use Rattle.feed.specs.Format.{good_minor, good_major, good_kind, full_look, look};
ghost use Rattle.feed.specs.declared.format.Look.TheVariants.{Loses, Settles};

use crate::bytes::two_at;
use crate::size::{
    MAJOR_LENGTH, MAJOR_MARK, MAJOR_SUMMED, MARK, MINOR_LENGTH, MINOR_MARK, MINOR_SUMMED,
    MOST_QUANTITY, PATH_AT, QUANTITIES_FROM, QUANTITIES_LENGTH, QUANTITY_LENGTH, RESERVED_FROM,
};
use cycle::size::MODULES;

// The kinds of records. Their rows: `mark_of`, `length_of` and `good`.
#[derive(Clone, Copy, Debug, PartialEq, Eq)]
pub enum Kind {
    Minor,
    Major,
}

// What the oldest byte held is: it cannot begin a mark and is dropped; it begins a mark, or a record that is not complete; it begins a full
// record that is not good and loses its first byte; or it begins a good record, which is settled.
#[derive(Clone, Copy)]
pub enum Look {
    Drops,
    Waits,
    Loses,
    Settles(Kind),
}

// A record's sum is taken by spans: the compiler adds 16, 32 or 64 bytes by a few wide instructions, as long as it does not join them with
// others. So the last span is taken off what the record says its sum is, and a branch or a loop parts the spans before it; of a minor record
// nine bytes are left, and are added as they are.
const SPAN: usize = 32;

const LONG_SPAN: usize = 2 * SPAN;

// Where the last span begins; and in a minor record the one before it, which is half as long.
const MINOR_LAST: usize = MINOR_SUMMED - SPAN;

const MINOR_MIDDLE: usize = MINOR_LAST - SPAN / 2;

const MAJOR_LAST: usize = MAJOR_SUMMED - SPAN;

// What this second byte makes of a mark: that of a kind, or none.
pub(crate) fn mark_of(b: u8) -> Option<Kind>
    ensures { result ≡ mark_of b }
{
    match b {
        MINOR_MARK => Some(Kind::Minor),
        MAJOR_MARK => Some(Kind::Major),
        _ => None,
    }
}

// A record's length by its kind.
pub(crate) fn length_of(k: Kind) -> usize
    ensures { result ≡ length_of k }
{
    match k {
        Kind::Minor => MINOR_LENGTH,
        Kind::Major => MAJOR_LENGTH,
    }
}

// The length that a mark announces, 0 where there is none.
pub(crate) fn length_marked(m: Option<Kind>) -> usize
    ensures { result ≡ length_marked m }
{
    match m {
        None => 0,
        Some(k) => length_of(k),
    }
}

// The bytes added modulo 65,536.
pub fn sum(s: &[u8]) -> u16
    ensures { result ≡ sum_of s.now }
{
    let mut t: u16 = 0;
    for byte in s {
        t = t.wrapping_add(u16::from(*byte));
    }
    t
}

// The same, by long spans.
fn sum_by_spans(s: &[u8]) -> u16
    ensures { result ≡ sum_of s.now }
{
    let spans = s.chunks_exact(LONG_SPAN);
    let rest = spans.remainder();
    let mut t: u16 = 0;
    for span in spans {
        t = t.wrapping_add(sum(span));
    }
    t.wrapping_add(sum(rest))
}

// Are the reserved bits of the path byte zero?
fn reserved_zero(s: &[u8]) -> bool
    requires { minor_length ≤ length s.now }
    ensures { result ≡ reserved_zero s.now }
{
    s[PATH_AT] < RESERVED_FROM
}

// Are the two quantities from `i` on at most 1,000?
fn module_right(s: &[u8], i: usize) -> bool
    requires { i + quantities_length ≤ length s.now }
    ensures { result ≡ two_right s.now i }
{
    (two_at(s, i) <= MOST_QUANTITY) & (two_at(s, i + QUANTITY_LENGTH) <= MOST_QUANTITY)
}

// Are every module's quantities at most 1,000?
fn quantities_right(s: &[u8]) -> bool
    requires { major_length ≤ length s.now }
    ensures { result ≡ quantities_right s.now }
{
    let mut right = true;
    for m in 0..MODULES {
        right &= module_right(s, QUANTITIES_FROM + QUANTITIES_LENGTH * m);
    }
    right
}

// Is the full minor record at the front good?
pub(crate) fn good_minor(s: &[u8]) -> bool
    requires { minor_length ≤ length s.now }
    ensures { result ≡ good_minor s.now }
{
    let rest = two_at(s, MINOR_SUMMED).wrapping_sub(sum(&s[MINOR_LAST..MINOR_SUMMED]));
    let middle = sum(&s[MINOR_MIDDLE..MINOR_LAST]);
    // The sum of the bytes before the last span does not wrap, so less than that of the middle one is wrong; and the branch parts the two.
    if rest < middle {
        return false;
    }
    if rest.wrapping_sub(middle) != sum(&s[..MINOR_MIDDLE]) {
        return false;
    }
    reserved_zero(s)
}

// Is the full major record at the front good?
pub(crate) fn good_major(s: &[u8]) -> bool
    requires { major_length ≤ length s.now }
    ensures { result ≡ good_major s.now }
{
    // The cheaper test first: a false mark seldom passes it.
    if !reserved_zero(s) {
        return false;
    }
    let rest = two_at(s, MAJOR_SUMMED).wrapping_sub(sum(&s[MAJOR_LAST..MAJOR_SUMMED]));
    if rest != sum_by_spans(&s[..MAJOR_LAST]) {
        return false;
    }
    quantities_right(s)
}

// Is the full record of this kind at the front good?
pub(crate) fn good(k: Kind, s: &[u8]) -> bool
    requires { length_of k ≤ length s.now }
    ensures { result ≡ good_kind k s.now }
{
    match k {
        Kind::Minor => good_minor(s),
        Kind::Major => good_major(s),
    }
}

// What a full record of this kind shows.
fn judged(k: Kind, right: bool) -> Look
    ensures { result ≡ (if right then Settles k else Loses) }
{
    if right { Look::Settles(k) } else { Look::Loses }
}

// What a mark of this kind at the front shows. Its own match instead of `good`: the tests then have two callers each, `good` stays small,
// and the search for records in a piece has it inlined.
fn full_look(k: Kind, s: &[u8]) -> Look
    ensures { result ≡ full_look k s.now }
{
    if s.len() < length_of(k) {
        return Look::Waits;
    }
    match k {
        Kind::Minor => judged(k, good_minor(s)),
        Kind::Major => judged(k, good_major(s)),
    }
}

// What the bytes at the front show.
pub(crate) fn look_at(s: &[u8]) -> Look
    ensures { result ≡ look s.now }
{
    if s.len() == 0 {
        return Look::Waits;
    }
    if s[0] != MARK {
        return Look::Drops;
    }
    if s.len() == 1 {
        return Look::Waits;
    }
    let mark = mark_of(s[1]);
    match mark {
        None => Look::Drops,
        Some(k) => full_look(k, s),
    }
}
