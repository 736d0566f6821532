// The report, written into the outbox part by part.
ghost use Rattle.std.specs.Prelude.{◌≡◌, ◌+◌, ◌*◌, ◌≤◌, ◌++◌, length, take, drop, slice_index};
ghost use Rattle.cycle.specs.Size.{module_count};
ghost use Rattle.feed.specs.Bytes.{in_two, parts};
ghost use Rattle.feed.specs.Size.{strings_from, string_part, balance_at, lesser_from, differences_from, quantity_length, report_length};
ghost use Rattle.feed.specs.Report.{head_of, string_bytes, strings_bytes, balance_of, lesser_bytes, differences_bytes, banks_bytes};
ghost use Rattle.feed.specs.Inside.Showing.{shown_of};
ghost use Rattle.feed.specs.Report.{fail_shown, close_shown, report_of, report_shown, fits_in, into_outbox, report_over};

use crate::bytes::{put_four, put_two};
use crate::size::{
    ANSWER_AT, BALANCE_AT, COUNT_AT, DIFFERENCES_FROM, LESSER_FROM, MARK, OXIDIZER_FROM,
    QUANTITY_LENGTH, REPORT, STRING_PART, STRINGS_FROM, WORD_LENGTH,
};
use bits::with_bit;
use cycle::answer::Answer;
use cycle::banks::Bank;
use cycle::hall::Hall;
use cycle::size::{MODULES, STRINGS};
use std::array;

// What a report shows of a string: its fail word and close bits.
#[derive(Clone, Copy)]
pub struct StringShown {
    pub fail: u32,
    pub close: u32,
}

// What a report shows: n, each string, and the banks.
#[derive(Clone, Copy)]
pub struct Shown {
    pub n: u32,
    pub strings: [StringShown; STRINGS],
    pub banks: [Bank; MODULES],
}

// Mark, answer and cycle number.
fn put_head(s: &mut [u8], answer: u8, n: u32)
    requires { length s.old ≡ strings_from }
    ensures { s.new ≡ head_of answer n }
{
    s[0] = MARK;
    s[1] = MARK;
    s[ANSWER_AT] = answer;
    put_four(&mut s[COUNT_AT..STRINGS_FROM], n);
}

// A string's five bytes, into their own part of the outbox.
fn put_string(s: &mut [u8], x: StringShown)
    requires { length s.old ≡ string_part }
    ensures { s.new ≡ string_bytes x.fail x.close }
{
    put_four(&mut s[0..WORD_LENGTH], x.fail);
    s[WORD_LENGTH] = (x.close % 256) as u8;
}

// The balance byte's bits.
fn balance_of(banks: [Bank; MODULES]) -> u32
    ensures { result ≡ balance_of module_count banks }
{
    let mut w: u32 = 0;
    for m in 0..MODULES {
        w = with_bit(w, m, banks[m].unbalanced);
        w = with_bit(w, OXIDIZER_FROM + m, banks[m].oxidizer);
    }
    w
}

// The parts of all strings.
fn put_strings(out: &mut [u8], strings: [StringShown; STRINGS])
    requires { report_length ≤ length out.old }
    ensures { out.new ≡ take strings_from out.old ++ (strings_bytes (fail_shown strings) (close_shown strings) ++ drop balance_at out.old) }
{
    for s in 0..STRINGS {
        let a = STRINGS_FROM + STRING_PART * s;
        put_string(&mut out[a..a + STRING_PART], strings[s]);
    }
}

// A number of two bytes for each module, from place `from` on.
fn put_words(out: &mut [u8], from: usize, words: [u16; MODULES])
    requires { from + quantity_length * module_count ≤ length out.old }
    ensures { out.new ≡ take from out.old
        ++ (parts module_count (λ m. in_two (slice_index words m)) ++ drop (from + quantity_length * module_count) out.old) }
{
    for m in 0..MODULES {
        let a = from + QUANTITY_LENGTH * m;
        put_two(&mut out[a..a + QUANTITY_LENGTH], words[m]);
    }
}

// The lesser quantities of all modules.
fn put_lesser(out: &mut [u8], banks: [Bank; MODULES])
    requires { report_length ≤ length out.old }
    ensures { out.new ≡ take lesser_from out.old ++ (lesser_bytes banks ++ drop differences_from out.old) }
{
    put_words(out, LESSER_FROM, banks.map(|b| b.lesser));
}

// The differences of all modules.
fn put_differences(out: &mut [u8], banks: [Bank; MODULES])
    requires { report_length ≤ length out.old }
    ensures { out.new ≡ take differences_from out.old ++ (differences_bytes banks ++ drop report_length out.old) }
{
    put_words(out, DIFFERENCES_FROM, banks.map(|b| b.difference));
}

// The balance byte, the lesser quantities and the differences.
pub(crate) fn put_banks(out: &mut [u8], banks: [Bank; MODULES])
    requires { report_length ≤ length out.old }
    ensures { out.new ≡ take balance_at out.old ++ (banks_bytes banks ++ drop report_length out.old) }
{
    out[BALANCE_AT] = (balance_of(banks) % 256) as u8;
    put_lesser(out, banks);
    put_differences(out, banks);
}

// The report of answer and shown values; the bytes after it keep their values.
fn write_shown(out: &mut [u8], answer: Answer, x: Shown)
    requires { report_length ≤ length out.old }
    ensures { out.new ≡ report_shown answer x ++ drop report_length out.old }
{
    put_head(&mut out[0..STRINGS_FROM], answer.number(), x.n);
    put_strings(out, x.strings);
    put_banks(out, x.banks);
}

// What a report shows of a hall.
fn shown_of(h: Hall) -> Shown
    ensures { result ≡ shown_of h }
{
    Shown {
        n: h.n,
        strings: array::from_fn(|s| StringShown {
            fail: h.masks[s].mapped() & h.strings[s].standing.fail,
            close: h.strings[s].close,
        }),
        banks: h.banks,
    }
}

// The report of answer and hall.
pub(crate) fn write_report(out: &mut [u8], answer: Answer, h: Hall)
    requires { report_length ≤ length out.old }
    ensures { out.new ≡ report_of answer h ++ drop report_length out.old }
{
    write_shown(out, answer, shown_of(h));
}

// The report of shown values, into an outbox of any length: one that is too short keeps its bytes, and the answer is no.
pub fn put_shown(out: &mut [u8], answer: Answer, x: Shown) -> bool
    ensures { (result ≡ fits_in out.old) × (out.new ≡ into_outbox (report_shown answer x) out.old) }
{
    if out.len() < REPORT {
        return false;
    }
    write_shown(out, answer, x);
    true
}

// The same of a hall.
pub fn put_report(out: &mut [u8], answer: Answer, h: Hall) -> bool
    ensures { (result ≡ fits_in out.old) × (out.new ≡ report_over answer h out.old) }
{
    put_shown(out, answer, shown_of(h))
}
