// The step: from a hall and the bytes of one record to the answer and the next hall.
ghost use Rattle.std.specs.Prelude.{◌≡◌, ◌+◌, ◌*◌, ◌<◌, ◌≤◌, true, length};
ghost use Rattle.bits.specs.Bit.{any};
ghost use Rattle.cycle.specs.Size.{string_count};
ghost use Rattle.cycle.specs.Hall.{record_both_ways};
ghost use Rattle.cycle.specs.Calm.{some_leak, quiet_major};
ghost use Rattle.feed.specs.Size.{temperature_length, temperatures_length, major_length};
ghost use Rattle.feed.specs.Values.{temperatures_at, major_of, values_of};
ghost use Rattle.feed.specs.Inside.Calm.{cold_among, some_cold, all_mapped, leak_at, none_found};
ghost use Rattle.feed.specs.Step.{is_whole, step_of};

use crate::bytes::{low_two_at, pair_at, two_at};
use crate::format::{Look, length_of, look_at};
use crate::size::{
    DROPS_FROM, MAJOR_MARK, PATH_AT, REQUESTS_FROM, REQUESTS_LENGTH, SAMPLE_LENGTH, SAMPLES_FROM,
    TEMPERATURE_LENGTH, TEMPERATURES_FROM, TEMPERATURES_LENGTH, WIRE_AT,
};
use crate::values::{major_of, minor_of, quantities_of, requests_at, requests_of, sample_at};
use cycle::answer::Answer;
use cycle::calm::finds_none;
use cycle::hall::{Hall, Stepped};
use cycle::map::{Masks, mapped_words};
use cycle::number::judged;
use cycle::requests::both_ways;
use cycle::size::{ALL_JETS, BELOW_ZERO_FROM, LEAK_MOST, STRINGS, TEMPERATURES};
use cycle::slots::OnSlots;

// Are the bytes one whole record and nothing else?
fn is_whole(s: &[u8]) -> bool
    ensures { result ≡ is_whole s.now }
{
    match look_at(s) {
        Look::Settles(k) => length_of(k) == s.len(),
        _ => false,
    }
}

// The hall's own step by a whole record's values: its mark tells its kind.
fn step_values(hall: Hall, s: &[u8]) -> Stepped<Hall>
    requires { is_whole s.now ≡ true }
    ensures { result ≡ step_of s.now hall }
{
    let r = minor_of(s);
    if s[1] == MAJOR_MARK {
        hall.major(major_of(s, r))
    } else {
        hall.minor(r)
    }
}

// The step by any bytes: those that are no whole record settle nothing and leave the hall as it was.
pub fn step(hall: Hall, s: &[u8]) -> Stepped<Hall>
    ensures { result ≡ step_of s.now hall }
{
    if is_whole(s) {
        step_values(hall, s)
    } else {
        Stepped {
            answer: Answer::NothingSettled,
            hall,
        }
    }
}

// Does a whole record name a jet of the map both ways? Only a major one has requests to be read.
fn record_both_ways(masks: [Masks; STRINGS], s: &[u8]) -> bool
    requires { is_whole s.now ≡ true }
    ensures { result ≡ record_both_ways masks (values_of s.now) }
{
    if s[1] != MAJOR_MARK {
        return false;
    }
    both_ways(masks, requests_of(s))
}

// Is one of the `n` temperature words from `i` on at most 63 as a signed number? No word is turned: it is below zero if its first byte is
// 128 or more, and small if that is 0 and its second at most 63. The two are gathered apart: so the compiler takes eight words at a time,
// and looks at all their signs at once.
fn cold_among(s: &[u8], i: usize, n: usize) -> bool
    requires { i + temperature_length * n ≤ length s.now }
    ensures { result ≡ cold_among n s.now i }
{
    let mut small = false;
    let mut below_zero = false;
    for k in 0..n {
        let w = low_two_at(s, i + TEMPERATURE_LENGTH * k);
        small |= (w % 256 == 0) & (w / 256 <= LEAK_MOST);
        below_zero |= BELOW_ZERO_FROM / 256 <= w % 256;
    }
    small | below_zero
}

// Is one of a string's, which begin at `i`?
fn some_cold(s: &[u8], i: usize) -> bool
    requires { i + temperatures_length ≤ length s.now }
    ensures { result ≡ some_cold s.now i }
{
    cold_among(s, i, TEMPERATURES)
}

// Both temperature words of a jet as one, fuel high: the sign bits of the two, and in each the least that is no leak.
const SIGNS: u32 = 65537 * (BELOW_ZERO_FROM as u32);

const LEAST_WARM: u32 = 65537 * (LEAK_MOST as u32 + 1);

// Does one of these jets leak, of the string whose temperatures begin at `i`? One after the other is visited, lowest first, and no other.
// Both words of a jet are told at once: one below zero has its sign bit, and a small one gets it when the least warm is taken away. (A
// small oxidizer word then borrows from the fuel word, but the jet leaks anyway.)
fn leak_among(jets: u32, s: &[u8], i: usize) -> bool
    requires { i + temperatures_length ≤ length s.now }
    ensures { result ≡ some_leak jets (temperatures_at s.now i) }
{
    let mut below_zero: u32 = 0;
    let mut small: u32 = 0;
    let mut rest = jets;
    while rest != 0 {
        let j = rest.trailing_zeros() as usize;
        let w = pair_at(s, i + 2 * TEMPERATURE_LENGTH * j);
        below_zero |= w;
        small |= w.wrapping_sub(LEAST_WARM);
        rest &= rest - 1;
    }
    bits::meets(below_zero | small, SIGNS)
}

// Does a mapped jet of the string whose temperatures begin at `i` leak? Where all are mapped, no jet has to be told from the next.
fn some_leak(mapped: u32, s: &[u8], i: usize) -> bool
    requires { i + temperatures_length ≤ length s.now }
    ensures { result ≡ some_leak mapped (temperatures_at s.now i) }
{
    if mapped == ALL_JETS {
        some_cold(s, i)
    } else {
        leak_among(mapped, s, i)
    }
}

// Are all jets of all strings mapped? Written out: there is nothing to loop for.
fn all_mapped(mapped: [u32; STRINGS]) -> bool
    ensures { result ≡ all_mapped mapped }
{
    (mapped[0] == ALL_JETS)
        & (mapped[1] == ALL_JETS)
        & (mapped[2] == ALL_JETS)
        & (mapped[3] == ALL_JETS)
}

// Does one of any string? Where all jets are mapped, no string has to be told from the next either.
pub(crate) fn some_leaks(mapped: [u32; STRINGS], s: &[u8]) -> bool
    requires { major_length ≤ length s.now }
    ensures { result ≡ any string_count (leak_at s.now mapped) }
{
    if all_mapped(mapped) {
        return cold_among(s, TEMPERATURES_FROM, STRINGS * TEMPERATURES);
    }
    let mut found = false;
    for k in 0..STRINGS {
        found |= some_leak(mapped[k], s, TEMPERATURES_FROM + TEMPERATURES_LENGTH * k);
    }
    found
}

// Do steps 5 to 8 find nothing in string k but what its temperatures say?
fn none_found(on: OnSlots<u32>, close: u32, mapped: u32, s: &[u8], k: usize) -> bool
    requires { (major_length ≤ length s.now) × (k < string_count) }
    ensures { result ≡ none_found s.now mapped on close k }
{
    let sample = sample_at(s, SAMPLES_FROM + SAMPLE_LENGTH * k);
    let q = requests_at(s, REQUESTS_FROM + REQUESTS_LENGTH * k, DROPS_FROM + k);
    finds_none(on, close, mapped, sample, q)
}

// Do steps 5 to 8 of a major record find nothing at all? The strings are written out, so that they stay in their places.
fn quiet_major(hall: Hall, s: &[u8]) -> bool
    requires { major_length ≤ length s.now }
    ensures { result ≡ quiet_major (major_of s.now) hall }
{
    if s[PATH_AT] != 0 {
        return false;
    }
    let jets = mapped_words(hall.masks);
    let a = hall.strings[0];
    let b = hall.strings[1];
    let c = hall.strings[2];
    let d = hall.strings[3];
    let first = none_found(a.on, a.close, jets[0], s, 0) & none_found(b.on, b.close, jets[1], s, 1);
    let none = first
        & none_found(c.on, c.close, jets[2], s, 2)
        & none_found(d.on, d.close, jets[3], s, 3);
    if none { !some_leaks(jets, s) } else { false }
}

// The same step in the halves of the hall's own, for the run: a hall that takes one way through is changed in place, and of a refused
// record at most the requests are read. (By the hall's own step a record of clean feed costs two and a half times as much.)
pub(crate) fn step_whole(hall: Hall, s: &[u8]) -> Stepped<Hall>
    requires { is_whole s.now ≡ true }
    ensures { result ≡ step_of s.now hall }
{
    let major = s[1] == MAJOR_MARK;
    let v = judged(hall.n, two_at(s, WIRE_AT), major);
    match v {
        Ok(next) => {
            if record_both_ways(hall.masks, s) {
                return Stepped {
                    answer: Answer::BothWays,
                    hall,
                };
            }
            let r = minor_of(s);
            let h = hall.minor_taken(r, next);
            if major {
                if quiet_major(h, s) {
                    return Stepped {
                        answer: Answer::Taken,
                        hall: h.kept_all(quantities_of(s)),
                    };
                }
                let q = major_of(s, r);
                Stepped {
                    answer: Answer::Taken,
                    hall: h.major_taken(q),
                }
            } else {
                Stepped {
                    answer: Answer::Taken,
                    hall: h,
                }
            }
        }
        Err(answer) => Stepped { answer, hall },
    }
}
