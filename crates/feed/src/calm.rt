// Calm records: where nothing is under way, a minor record of the next cycle that finds nothing changes the number alone, and a major one
// that asks for nothing either the number, the good copies and the banks. They are told apart by their bytes, where they lie; no string is
// stepped, and the report is the one before with another number, and other banks. Minor ones come in stretches, from one major to the next.
ghost use Rattle.std.specs.Prelude.{◌≡◌, ◌+◌, ◌^◌, ◌<◌, ◌≤◌, true, false, ◌&&◌, ◌++◌, length, take, if◌then◌else◌, ◌==◌, slice_index, IfSome};
ghost use Rattle.bits.specs.Bit.{word_bits};
ghost use Rattle.cycle.specs.Size.{last_count};
ghost use Rattle.cycle.specs.Numbers.{is_major};
ghost use Rattle.cycle.specs.Calm.{mapped_words, all_quiet};
ghost use Rattle.feed.specs.Size.{mark_byte, minor_mark, minor_length, major_length, report_length};
ghost use Rattle.feed.specs.Values.{minor_of};
ghost use Rattle.feed.specs.Inside.Calm.{Words, turned_sample, turned_words, TurnedJets, CalmOf, passes, passes_at, renumbered, told_again, calm_after};
ghost use Rattle.feed.specs.Inside.Calm.{minors_ahead, stretch};
ghost use Rattle.feed.specs.Inside.Calm.{none_asked, all_still, major_passes, major_passes_at, rebanked, kept_by, told_by};

use crate::bytes::{low_two_at, put_four, turned32, two_at};
use crate::format::{good_major, good_minor};
use crate::report::put_banks;
use crate::size::{
    COUNT_AT, MAJOR_LENGTH, MAJOR_MARK, MARK, MINOR_LENGTH, MINOR_MARKS, OUTBOX_NEEDED, PATH_AT,
    QUANTITIES_FROM, REPORT, REQUESTS_FROM, SAMPLE_LENGTH, SAMPLES_FROM, STRINGS_FROM, WIRE_AT,
};
use crate::step::some_leaks;
use crate::values::{quantities_of, sample_at};
use cycle::answer::Answer;
use cycle::banks::Bank;
use cycle::calm::{all_calm, finds_none};
use cycle::hall::Hall;
use cycle::map::mapped_words;
use cycle::number::follows;
use cycle::size::{LAST_COUNT, MAJOR_EVERY, MODULES, STRINGS};
use cycle::values::{Requests, Sample};

// What is carried on while calm records can follow: each string's mapped jets, as numbers and with the bytes in the order of a record.
#[derive(Clone, Copy)]
pub struct Calm {
    pub jets: [u32; STRINGS],
    pub turned: [u32; STRINGS],
}

// The words with their bytes in the other order.
fn turned_words(words: [u32; STRINGS]) -> [u32; STRINGS]
    ensures { (result ≡ turned_words words) × Words words }
{
    words.map(|w| turned32(w))
}

// The sample with its commanded and pressure words as they stand in the record: so the compiler need not turn them.
fn turned_sample(x: Sample) -> Sample
    ensures { (result ≡ turned_sample x) × (x.commanded < 2 ^ word_bits) × (x.pressure < 2 ^ word_bits) }
{
    Sample {
        commanded: turned32(x.commanded),
        pressure: turned32(x.pressure),
        driver: x.driver,
        valves: x.valves,
    }
}

// After a record with this answer, that left `count` bytes in the store and this hall: none where no calm one can follow.
pub(crate) fn calm_after(answer: Answer, count: usize, hall: Hall) -> Option<Calm>
    ensures { (result ≡ calm_after answer count hall) × IfSome result (CalmOf hall) }
{
    if answer.is_taken() & ((count == 0) & all_calm(hall.strings)) {
        let jets = mapped_words(hall.masks);
        let turned = turned_words(jets);
        Some(Calm { jets, turned })
    } else {
        None
    }
}

// Do the record's samples find nothing?
fn all_quiet(hall: Hall, turned: [u32; STRINGS], s: &[u8]) -> bool
    requires s_len { length s.now ≡ minor_length }
    requires turned_jets { TurnedJets hall turned }
    ensures { result ≡ all_quiet (minor_of s.now) hall }
{
    let mut found = true;
    for k in 0..STRINGS {
        let sample = sample_at(s, SAMPLES_FROM + SAMPLE_LENGTH * k);
        found &= hall.strings[k].is_quiet(turned[k], turned_sample(sample));
    }
    (s[PATH_AT] == 0) & found
}

// How many minor cycles come after number n, before the next major one; none where the count may end among them.
fn minors_ahead(n: u32) -> usize
    ensures { result ≡ minors_ahead n }
{
    if LAST_COUNT - n < MAJOR_EVERY {
        return 0;
    }
    (MAJOR_EVERY - 1 - n % MAJOR_EVERY) as usize
}

// How many calm minor records a stretch has at the most: by the number, by the bytes of the piece that are left, and by the room in the
// outbox, which keeps that of one report more, for the record behind the stretch. So no record of it needs to be asked for these.
pub(crate) fn stretch(n: u32, fed: usize, room: usize) -> usize
    ensures { result ≡ stretch n fed room }
{
    if room < OUTBOX_NEEDED {
        return 0;
    }
    let reports = (room - OUTBOX_NEEDED) / REPORT;
    minors_ahead(n).min((fed / MINOR_LENGTH).min(reports))
}

// Is the mark at the front a minor record's? Both bytes at once.
fn minor_marked(s: &[u8]) -> bool
    requires { 1 < length s.now }
    ensures { result ≡ (slice_index s.now 0 == mark_byte && slice_index s.now 1 == minor_mark) }
{
    low_two_at(s, 0) == MINOR_MARKS
}

// Are the bytes a good minor record that finds nothing, of the next cycle, which is a minor one? The sum comes last, the dearest test.
fn passes(hall: Hall, turned: [u32; STRINGS], s: &[u8]) -> bool
    requires s_len { length s.now ≡ minor_length }
    requires n_lt_last_count { (hall.n < last_count) × (is_major (hall.n + 1) ≡ false) }
    requires turned_jets { TurnedJets hall turned }
    ensures { result ≡ passes hall s.now }
{
    if !minor_marked(s) {
        return false;
    }
    if two_at(s, WIRE_AT) != ((hall.n + 1) % 65536) as u16 {
        return false;
    }
    if !all_quiet(hall, turned, s) {
        return false;
    }
    good_minor(s)
}

// The report in the first half is written again into the second.
fn repeat(s: &mut [u8])
    requires { length s.old ≡ report_length + report_length }
    ensures { s.new ≡ take report_length s.old ++ take report_length s.old }
{
    s.copy_within(..REPORT, REPORT);
}

// And there with another number.
fn tell_again(s: &mut [u8], n: u32)
    requires { length s.old ≡ report_length + report_length }
    ensures { s.new ≡ take report_length s.old ++ renumbered n (take report_length s.old) }
{
    repeat(s);
    put_four(&mut s[REPORT + COUNT_AT..REPORT + STRINGS_FROM], n);
}

// Do the bytes of the piece from `from` on begin with a record that passes? Then its report is written behind the one before, with which
// the outbox begins.
pub(crate) fn calm_turn(
    hall: Hall,
    turned: [u32; STRINGS],
    piece: &[u8],
    from: usize,
    out: &mut [u8],
) -> bool
    requires minor_length_in_bounds { (from + minor_length ≤ length piece.now) × (report_length + report_length ≤ length out.old) }
    requires turned_jets { TurnedJets hall turned }
    requires n_lt_last_count { (hall.n < last_count) × (is_major (hall.n + 1) ≡ false) }
    ensures value { result ≡ passes_at hall from piece.now }
    ensures out_after { out.new ≡ (if passes_at hall from piece.now then told_again (hall.n + 1) out.old else out.old) }
{
    if !passes(hall, turned, &piece[from..from + MINOR_LENGTH]) {
        return false;
    }
    tell_again(&mut out[..REPORT + REPORT], hall.n + 1);
    true
}

// ---- major records

// Is none of the requests and drops of a major record asked for, of any jet or manifold?
fn none_asked(s: &[u8]) -> bool
    requires { major_length ≤ length s.now }
    ensures { result ≡ none_asked s.now }
{
    let mut none = true;
    for b in &s[REQUESTS_FROM..QUANTITIES_FROM] {
        none &= *b == 0;
    }
    none
}

// Does no string find anything in any step, where the record asks for nothing, but what its temperatures say? One loop for all steps, and
// none shared with minor records: each has a single caller, so that the compiler leaves the hall where it is.
fn all_still(hall: Hall, calm: Calm, s: &[u8]) -> bool
    requires major_length_in_bounds { (major_length ≤ length s.now) × (none_asked s.now ≡ true) }
    requires jets_value { CalmOf hall calm }
    ensures { result ≡ all_still hall s.now }
{
    let none = Requests::default();
    let mut quiet = true;
    let mut still = true;
    for k in 0..STRINGS {
        let string = hall.strings[k];
        let sample = sample_at(s, SAMPLES_FROM + SAMPLE_LENGTH * k);
        quiet &= string.is_quiet(calm.turned[k], turned_sample(sample));
        still &= finds_none(string.on, string.close, calm.jets[k], sample, none);
    }
    (s[PATH_AT] == 0) & quiet & still
}

// Are the bytes a good major record of the next cycle that finds nothing and asks for nothing?
fn major_passes(hall: Hall, calm: Calm, s: &[u8]) -> bool
    requires s_len { length s.now ≡ major_length }
    requires jets_value { CalmOf hall calm }
    ensures { result ≡ major_passes hall s.now }
{
    if s[0] != MARK {
        return false;
    }
    if s[1] != MAJOR_MARK {
        return false;
    }
    if !follows(hall.n, two_at(s, WIRE_AT), true) {
        return false;
    }
    if !none_asked(s) {
        return false;
    }
    if !all_still(hall, calm, s) {
        return false;
    }
    if some_leaks(calm.jets, s) {
        return false;
    }
    good_major(s)
}

// The report in the first half is written again into the second, with another number and other banks.
fn tell_banks(s: &mut [u8], n: u32, banks: [Bank; MODULES])
    requires { length s.old ≡ report_length + report_length }
    ensures { s.new ≡ take report_length s.old ++ rebanked banks (renumbered n (take report_length s.old)) }
{
    tell_again(s, n);
    put_banks(&mut s[REPORT..], banks);
}

// Do the bytes of the piece from `from` on begin with a major record that passes? Then the number, the good copies and the banks are new,
// and its report is written behind the one before, with which the outbox begins.
pub(crate) fn calm_major(
    hall: Hall,
    calm: Calm,
    piece: &[u8],
    from: usize,
    out: &mut [u8],
) -> Option<Hall>
    requires from_in_bounds { (from ≤ length piece.now) × (report_length + report_length ≤ length out.old) }
    requires jets_value { CalmOf hall calm }
    ensures value { result ≡ kept_by (major_passes_at hall from piece.now) hall from piece.now }
    ensures out_after { out.new ≡ told_by result out.old }
{
    if piece.len() - from < MAJOR_LENGTH {
        return None;
    }
    let s = &piece[from..from + MAJOR_LENGTH];
    if !major_passes(hall, calm, s) {
        return None;
    }
    let mut next = hall.kept_all(quantities_of(s));
    next.n += 1;
    tell_banks(&mut out[..REPORT + REPORT], next.n, next.banks);
    Some(next)
}
