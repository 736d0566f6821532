// The values of a record: its bytes as the cycle rules take them.
ghost use Rattle.std.specs.Prelude.{◌≡◌, ◌+◌, ◌<◌, ◌≤◌, length};
ghost use Rattle.feed.specs.Size.{sample_length, temperatures_length, requests_length, quantities_length, minor_length, major_length};
ghost use Rattle.feed.specs.Values.{sample_at, samples_of, minor_of, temperatures_at, temperatures_of, requests_at, requests_of};
ghost use Rattle.feed.specs.Values.{quantities_at, quantities_of, major_of};
ghost use Rattle.feed.specs.Reader.{store};

use crate::bytes::{four_at, two_at};
use crate::size::{
    DROPS_FROM, MAJOR_LENGTH, MINOR_LENGTH, PATH_AT, QUANTITIES_FROM, QUANTITIES_LENGTH,
    QUANTITY_LENGTH, REQUESTS_FROM, REQUESTS_LENGTH, SAMPLE_LENGTH, SAMPLES_FROM,
    TEMPERATURE_LENGTH, TEMPERATURES_FROM, TEMPERATURES_LENGTH, VALVES_IN, WIRE_AT, WORD_LENGTH,
};
use cycle::size::{MODULES, STRINGS, TEMPERATURES};
use cycle::values::{Major, Minor, Quantities, Requests, Sample, Temperatures};
use std::array;

// One string's sample, from `i` on.
pub(crate) fn sample_at(s: &[u8], i: usize) -> Sample
    requires { i + sample_length ≤ length s.now }
    ensures { result ≡ sample_at s.now i }
{
    Sample {
        commanded: four_at(s, i),
        pressure: four_at(s, i + WORD_LENGTH),
        driver: four_at(s, i + 2 * WORD_LENGTH),
        valves: s[i + VALVES_IN],
    }
}

fn samples_of(s: &[u8]) -> [Sample; STRINGS]
    requires { minor_length ≤ length s.now }
    ensures { result ≡ samples_of s.now }
{
    array::from_fn(|k| sample_at(s, SAMPLES_FROM + SAMPLE_LENGTH * k))
}

// What a minor record says, and a major one in the bytes that both have.
pub(crate) fn minor_of(s: &[u8]) -> Minor
    requires { minor_length ≤ length s.now }
    ensures { result ≡ minor_of s.now }
{
    Minor {
        wire: two_at(s, WIRE_AT),
        path: s[PATH_AT],
        samples: samples_of(s),
    }
}

// One string's temperature words, from `i` on.
pub(crate) fn temperatures_at(s: &[u8], i: usize) -> Temperatures
    requires { i + temperatures_length ≤ length s.now }
    ensures { result ≡ temperatures_at s.now i }
{
    let words = array::from_fn(|k| two_at(s, i + TEMPERATURE_LENGTH * k));
    Temperatures { words }
}

fn temperatures_of(s: &[u8]) -> [Temperatures; STRINGS]
    requires { major_length ≤ length s.now }
    ensures { result ≡ temperatures_of s.now }
{
    array::from_fn(|k| temperatures_at(s, TEMPERATURES_FROM + TEMPERATURES_LENGTH * k))
}

// One string's request words, from `i` on, and its drop byte, at `k`.
pub(crate) fn requests_at(s: &[u8], i: usize, k: usize) -> Requests
    requires { (i + requests_length ≤ length s.now) × (k < length s.now) }
    ensures { result ≡ requests_at s.now i k }
{
    Requests {
        inhibit: four_at(s, i),
        reenable: four_at(s, i + WORD_LENGTH),
        drop: s[k],
    }
}

pub(crate) fn requests_of(s: &[u8]) -> [Requests; STRINGS]
    requires { major_length ≤ length s.now }
    ensures { result ≡ requests_of s.now }
{
    array::from_fn(|k| requests_at(s, REQUESTS_FROM + REQUESTS_LENGTH * k, DROPS_FROM + k))
}

fn quantities_at(s: &[u8], i: usize) -> Quantities
    requires { i + quantities_length ≤ length s.now }
    ensures { result ≡ quantities_at s.now i }
{
    Quantities {
        fuel: two_at(s, i),
        oxidizer: two_at(s, i + QUANTITY_LENGTH),
    }
}

pub(crate) fn quantities_of(s: &[u8]) -> [Quantities; MODULES]
    requires { major_length ≤ length s.now }
    ensures { result ≡ quantities_of s.now }
{
    array::from_fn(|m| quantities_at(s, QUANTITIES_FROM + QUANTITIES_LENGTH * m))
}

// What a major record says, given what the bytes that both have do.
pub(crate) fn major_of(s: &[u8], minor: Minor) -> Major
    requires { (major_length ≤ length s.now) × (minor ≡ minor_of s.now) }
    ensures { result ≡ major_of s.now }
{
    Major {
        minor,
        temperatures: temperatures_of(s),
        requests: requests_of(s),
        quantities: quantities_of(s),
    }
}

// Bytes that are no more than a major record's, and 0 in the places behind them.
pub(crate) fn padded(s: &[u8]) -> [u8; MAJOR_LENGTH]
    requires { length s.now ≤ major_length }
    ensures { result ≡ store s.now }
{
    let mut whole = [0u8; MAJOR_LENGTH];
    whole[..s.len()].copy_from_slice(s);
    whole
}

// The same values of any bytes, also of fewer than a record's: those past the end are 0. Mark, sum and limits are not looked at.
pub fn read_minor(s: &[u8]) -> Minor
    ensures { result ≡ minor_of s.now }
{
    if s.len() < MINOR_LENGTH {
        minor_of(&padded(s))
    } else {
        minor_of(s)
    }
}

pub fn read_major(s: &[u8]) -> Major
    ensures { result ≡ major_of s.now }
{
    if s.len() < MAJOR_LENGTH {
        let whole = padded(s);
        major_of(&whole, minor_of(&whole))
    } else {
        major_of(s, minor_of(s))
    }
}
