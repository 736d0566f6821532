// A record's bytes, part by part: each part of the outbox is lent to one small writer, which fills it.
ghost use Rattle.std.specs.Prelude.{◌≡◌, ◌-◌, ◌≤◌, length, take};
ghost use Rattle.cycle.specs.Size.{string_count};
ghost use Rattle.cycle.specs.Records.{minor, major};
ghost use Rattle.feed.specs.Size.{sample_length, samples_from, minor_summed, minor_length, temperature_length, temperatures_length};
ghost use Rattle.feed.specs.Size.{requests_length, quantities_length, major_length, sum_length};
ghost use Rattle.feed.specs.Bytes.{in_two};
ghost use Rattle.writer.specs.RecordBytes.{head_bytes, sample_bytes, common_bytes, words_bytes, request_bytes, drops_bytes};
ghost use Rattle.writer.specs.RecordBytes.{quantity_bytes, summed, bytes_of};

use crate::part::{Part, put_each};
use cycle::size::STRINGS;
use cycle::values::{Major, Minor, Quantities, Requests, Sample, Temperatures};
use feed::bytes::{put_four, put_two};
use feed::format::sum;
use feed::size::{
    DROPS_FROM, MAJOR_MARK, MAJOR_SUMMED, MARK, MINOR_MARK, MINOR_SUMMED, PATH_AT, QUANTITIES_FROM,
    QUANTITIES_LENGTH, QUANTITY_LENGTH, REQUESTS_FROM, REQUESTS_LENGTH, SAMPLE_LENGTH,
    SAMPLES_FROM, SUM_LENGTH, TEMPERATURE_LENGTH, TEMPERATURES_FROM, TEMPERATURES_LENGTH,
    VALVES_IN, WIRE_AT, WORD_LENGTH,
};

// Mark, wire cycle and path byte.
fn put_head(b: &mut [u8], mark: u8, wire: u16, path: u8)
    requires { length b.old ≡ samples_from }
    ensures { b.new ≡ head_bytes mark wire path }
{
    b[0] = MARK;
    b[1] = mark;
    put_two(&mut b[WIRE_AT..PATH_AT], wire);
    b[PATH_AT] = path;
}

// One string's sample.
impl Part for Sample {
    ghost LENGTH = { sample_length };

    ghost bytes = { sample_bytes };

    const LENGTH: usize = SAMPLE_LENGTH;

    fn put(self, b: &mut [u8]) {
        put_four(&mut b[..WORD_LENGTH], self.commanded);
        put_four(&mut b[WORD_LENGTH..2 * WORD_LENGTH], self.pressure);
        put_four(&mut b[2 * WORD_LENGTH..VALVES_IN], self.driver);
        b[VALVES_IN] = self.valves;
    }
}

// What records of both kinds have before the sum.
fn put_common(b: &mut [u8], mark: u8, r: Minor)
    requires { length b.old ≡ minor_summed }
    ensures { b.new ≡ common_bytes mark r }
{
    put_head(&mut b[..SAMPLES_FROM], mark, r.wire, r.path);
    put_each(&mut b[SAMPLES_FROM..], &r.samples);
}

// A temperature word.
impl Part for u16 {
    ghost LENGTH = { temperature_length };

    ghost bytes = { in_two };

    const LENGTH: usize = TEMPERATURE_LENGTH;

    fn put(self, b: &mut [u8]) {
        put_two(b, self);
    }
}

// One string's temperature words.
impl Part for Temperatures {
    ghost LENGTH = { temperatures_length };

    ghost bytes = { words_bytes };

    const LENGTH: usize = TEMPERATURES_LENGTH;

    fn put(self, b: &mut [u8]) {
        put_each(b, &self.words);
    }
}

// One string's requests.
impl Part for Requests {
    ghost LENGTH = { requests_length };

    ghost bytes = { request_bytes };

    const LENGTH: usize = REQUESTS_LENGTH;

    fn put(self, b: &mut [u8]) {
        put_four(&mut b[..WORD_LENGTH], self.inhibit);
        put_four(&mut b[WORD_LENGTH..], self.reenable);
    }
}

// One module's quantities.
impl Part for Quantities {
    ghost LENGTH = { quantities_length };

    ghost bytes = { quantity_bytes };

    const LENGTH: usize = QUANTITIES_LENGTH;

    fn put(self, b: &mut [u8]) {
        put_two(&mut b[..QUANTITY_LENGTH], self.fuel);
        put_two(&mut b[QUANTITY_LENGTH..], self.oxidizer);
    }
}

// The drop byte of each string.
fn put_drops(b: &mut [u8], requests: [Requests; STRINGS])
    requires { length b.old ≡ string_count }
    ensures { b.new ≡ drops_bytes requests }
{
    b.copy_from_slice(&requests.map(|x| x.drop));
}

// The reader's own sum, over all bytes before it.
fn put_sum(b: &mut [u8])
    requires { sum_length ≤ length b.old }
    ensures { b.new ≡ summed (take (length b.old - sum_length) b.old) }
{
    let n = b.len() - SUM_LENGTH;
    let s = sum(&b[..n]);
    put_two(&mut b[n..], s);
}

// A whole minor record.
pub(crate) fn put_minor(b: &mut [u8], r: Minor)
    requires { length b.old ≡ minor_length }
    ensures { b.new ≡ bytes_of (minor r) }
{
    put_common(&mut b[..MINOR_SUMMED], MINOR_MARK, r);
    put_sum(b);
}

// A whole major record.
pub(crate) fn put_major(b: &mut [u8], r: Major)
    requires { length b.old ≡ major_length }
    ensures { b.new ≡ bytes_of (major r) }
{
    put_common(&mut b[..MINOR_SUMMED], MAJOR_MARK, r.minor);
    put_each(&mut b[TEMPERATURES_FROM..REQUESTS_FROM], &r.temperatures);
    put_each(&mut b[REQUESTS_FROM..DROPS_FROM], &r.requests);
    put_drops(&mut b[DROPS_FROM..QUANTITIES_FROM], r.requests);
    put_each(&mut b[QUANTITIES_FROM..MAJOR_SUMMED], &r.quantities);
    put_sum(b);
}
