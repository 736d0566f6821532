// A whole hall in 618 bytes: the fields in the order of the structs that declare them, each at its full width, the high byte first. A yes
// or no is one byte, written as 1 or 0; any byte but 0 is read as yes.
//
// n (4); for each string its masks (a word for each manifold); for each string its standing and good copy (each the fail word, the valves
// and a saved set for each manifold), off slots (newest, older, oldest), on slots (newest, older) and recheck word, inhibits, re-enables
// and close word, and whether its path is lost; for each module whether it is out of balance, whether the oxidizer is the lesser, the
// lesser quantity (2) and the difference (2).
ghost use Rattle.std.specs.Prelude.{◌≡◌, ℕ, ◌+◌, ◌*◌, ◌<◌, ◌≤◌, List, length, flat_map};
ghost use Rattle.cycle.specs.Size.{manifold_count};
ghost use Rattle.feed.specs.Size.{word_length, masks_length};
ghost use Rattle.feed.specs.Bytes.{in_four};
ghost use Rattle.calls.specs.Layout.{standing_words, string_words, standing_length, string_length, bank_length, hall_length};
ghost use Rattle.calls.specs.Layout.{flag_in, word_in, per_manifold, standing_in, string_in, masks_in, bank_in, hall_in};
ghost use Rattle.calls.specs.Layout.{in_words, words_of, other_words_of, in_string, in_bank, in_hall};

use cycle::banks::Bank;
use cycle::hall::Hall;
use cycle::map::Masks;
use cycle::size::{MANIFOLDS, MODULES, STRINGS};
use cycle::slots::{OffSlots, OnSlots, Overrides};
use cycle::string::{Standing, StringState};
use feed::bytes::{put_four, put_two, read_four, read_two};
use feed::size::{MAP, MASKS_LENGTH, QUANTITY_LENGTH, WORD_LENGTH};
use std::array;

// Lengths and places; specs/Layout says the same.
const STANDING_WORDS: usize = 2 + MANIFOLDS;

const OFF_FROM: usize = 2 * STANDING_WORDS;

const ON_FROM: usize = OFF_FROM + 3;

const OVER_FROM: usize = ON_FROM + 3;

const CLOSE_AT: usize = OVER_FROM + 2;

const STRING_WORDS: usize = CLOSE_AT + 1;

const OTHER_WORDS: usize = STRING_WORDS - OFF_FROM;

// In bytes: a standing and the saved sets in it, and the words behind the good copy.
const STANDING_LENGTH: usize = WORD_LENGTH * STANDING_WORDS;

const SAVED_FROM: usize = WORD_LENGTH * 2;

const OTHERS_FROM: usize = WORD_LENGTH * OFF_FROM;

const WORDS_LENGTH: usize = WORD_LENGTH * STRING_WORDS;

const STRING_LENGTH: usize = WORDS_LENGTH + 1;

// Behind two flags the lesser quantity and the difference.
const LESSER_AT: usize = 2;

const DIFFERENCE_AT: usize = LESSER_AT + QUANTITY_LENGTH;

const BANK_LENGTH: usize = DIFFERENCE_AT + QUANTITY_LENGTH;

pub(crate) const MASKS_FROM: usize = WORD_LENGTH;

pub(crate) const STRINGS_FROM: usize = MASKS_FROM + MAP;

const BANKS_FROM: usize = STRINGS_FROM + STRING_LENGTH * STRINGS;

pub(crate) const HALL: usize = BANKS_FROM + BANK_LENGTH * MODULES;

fn flag_in(b: &[u8; HALL], i: usize) -> bool
    requires { i < hall_length }
    ensures { result ≡ flag_in b.now i }
{
    b[i] != 0
}

// The k-th word of the part that begins at place i.
fn word_in(b: &[u8; HALL], i: usize, k: usize) -> u32
    requires { (i ≤ hall_length) × (k < string_words) }
    ensures { result ≡ word_in b.now i k }
{
    read_four(b, i + WORD_LENGTH * k)
}

// The words from the k-th on, one for each manifold.
fn per_manifold(b: &[u8; HALL], i: usize, k: usize) -> [u32; MANIFOLDS]
    requires { (i ≤ hall_length) × (k + manifold_count ≤ string_words) }
    ensures { result ≡ per_manifold b.now i k }
{
    array::from_fn(|m| word_in(b, i, k + m))
}

// A standing from the k-th word on.
fn standing_in(b: &[u8; HALL], i: usize, k: usize) -> Standing
    requires { (i ≤ hall_length) × (k + standing_words ≤ string_words) }
    ensures { result ≡ standing_in b.now i k }
{
    Standing {
        fail: word_in(b, i, k),
        valves: word_in(b, i, k + 1),
        saved: per_manifold(b, i, k + 2),
    }
}

fn string_in(b: &[u8; HALL], i: usize) -> StringState
    requires { i + string_length ≤ hall_length }
    ensures { result ≡ string_in b.now i }
{
    StringState {
        standing: standing_in(b, i, 0),
        good: standing_in(b, i, STANDING_WORDS),
        off: OffSlots {
            newest: word_in(b, i, OFF_FROM),
            older: word_in(b, i, OFF_FROM + 1),
            oldest: word_in(b, i, OFF_FROM + 2),
        },
        on: OnSlots {
            newest: word_in(b, i, ON_FROM),
            older: word_in(b, i, ON_FROM + 1),
            recheck: word_in(b, i, ON_FROM + 2),
        },
        over: Overrides {
            inhibit: word_in(b, i, OVER_FROM),
            reenable: word_in(b, i, OVER_FROM + 1),
        },
        close: word_in(b, i, CLOSE_AT),
        lost: flag_in(b, i + WORDS_LENGTH),
    }
}

fn masks_in(b: &[u8; HALL], i: usize) -> Masks
    requires { i ≤ hall_length }
    ensures { result ≡ masks_in b.now i }
{
    Masks {
        words: per_manifold(b, i, 0),
    }
}

fn bank_in(b: &[u8; HALL], i: usize) -> Bank
    requires { i + bank_length ≤ hall_length }
    ensures { result ≡ bank_in b.now i }
{
    Bank {
        unbalanced: flag_in(b, i),
        oxidizer: flag_in(b, i + 1),
        lesser: read_two(b, i + LESSER_AT),
        difference: read_two(b, i + DIFFERENCE_AT),
    }
}

// The hall that its bytes give.
pub(crate) fn hall_in(b: &[u8; HALL]) -> Hall
    ensures { result ≡ hall_in b.now }
{
    Hall {
        n: read_four(b, 0),
        masks: array::from_fn(|s| masks_in(b, MASKS_FROM + MASKS_LENGTH * s)),
        strings: array::from_fn(|s| string_in(b, STRINGS_FROM + STRING_LENGTH * s)),
        banks: array::from_fn(|m| bank_in(b, BANKS_FROM + BANK_LENGTH * m)),
    }
}

// A value with its bytes, of which each value of the type has as many.
trait Part {
    ghost LENGTH: { ℕ };

    ghost bytes: { Self → List ℕ };

    const LENGTH: usize;

    fn put(self, b: &mut [u8])
        requires { length b.old ≡ LENGTH }
        ensures { b.new ≡ bytes self };
}

// Each into its place.
fn put_each<P: Part + Copy>(b: &mut [u8], each: &[P])
    requires { length b.old ≡ P.LENGTH * length each.now }
    ensures { b.new ≡ flat_map P.bytes each.now }
{
    for (i, part) in each.iter().enumerate() {
        let at = P::LENGTH * i;
        part.put(&mut b[at..at + P::LENGTH]);
    }
}

impl Part for u32 {
    ghost LENGTH = { word_length };

    ghost bytes = { in_four };

    const LENGTH: usize = WORD_LENGTH;

    fn put(self, b: &mut [u8]) {
        put_four(b, self);
    }
}

// That a standing has a saved set for each manifold says where the next part's words stand.
fn put_standing(b: &mut [u8], x: Standing)
    requires { length b.old ≡ standing_length }
    ensures b_after { b.new ≡ in_words standing_words (words_of x) }
    ensures saved_len { length x.saved ≡ manifold_count }
{
    put_each(&mut b[..SAVED_FROM], &[x.fail, x.valves]);
    put_each(&mut b[SAVED_FROM..STANDING_LENGTH], &x.saved);
}

// The words of a string behind its standing and its good copy.
fn other_words(x: StringState) -> [u32; OTHER_WORDS]
    ensures { result ≡ other_words_of x }
{
    [
        x.off.newest,
        x.off.older,
        x.off.oldest,
        x.on.newest,
        x.on.older,
        x.on.recheck,
        x.over.inhibit,
        x.over.reenable,
        x.close,
    ]
}

impl Part for StringState {
    ghost LENGTH = { string_length };

    ghost bytes = { in_string };

    const LENGTH: usize = STRING_LENGTH;

    fn put(self, b: &mut [u8]) {
        put_standing(&mut b[..STANDING_LENGTH], self.standing);
        put_standing(&mut b[STANDING_LENGTH..OTHERS_FROM], self.good);
        put_each(&mut b[OTHERS_FROM..WORDS_LENGTH], &other_words(self));
        b[WORDS_LENGTH] = u8::from(self.lost);
    }
}

impl Part for Masks {
    ghost LENGTH = { masks_length };

    ghost bytes = { λ m. in_words manifold_count m.words };

    const LENGTH: usize = MASKS_LENGTH;

    fn put(self, b: &mut [u8]) {
        put_each(b, &self.words);
    }
}

impl Part for Bank {
    ghost LENGTH = { bank_length };

    ghost bytes = { in_bank };

    const LENGTH: usize = BANK_LENGTH;

    fn put(self, b: &mut [u8]) {
        b[0] = u8::from(self.unbalanced);
        b[1] = u8::from(self.oxidizer);
        put_two(&mut b[LESSER_AT..DIFFERENCE_AT], self.lesser);
        put_two(&mut b[DIFFERENCE_AT..BANK_LENGTH], self.difference);
    }
}

fn put_hall(b: &mut [u8], h: Hall)
    requires { length b.old ≡ hall_length }
    ensures { b.new ≡ in_hall h }
{
    put_four(&mut b[..MASKS_FROM], h.n);
    put_each(&mut b[MASKS_FROM..STRINGS_FROM], &h.masks);
    put_each(&mut b[STRINGS_FROM..BANKS_FROM], &h.strings);
    put_each(&mut b[BANKS_FROM..HALL], &h.banks);
}

// The bytes of a hall.
pub(crate) fn hall_bytes(h: Hall) -> [u8; HALL]
    ensures { result ≡ in_hall h }
{
    let mut b = [0u8; HALL];
    put_hall(&mut b, h);
    b
}
