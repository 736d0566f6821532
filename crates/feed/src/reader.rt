// The reader: what is held, and bytes of the piece taken one by one up to the first record settled. The piece is looked at where it lies as
// far as that can be.
ghost use Rattle.std.specs.Prelude.{◌≡◌, ◌+◌, ◌-◌, ◌≤◌, [], ◌++◌, length, take, drop, replicate};
ghost use Rattle.feed.specs.Size.{store_length, most_held};
ghost use Rattle.feed.specs.Reader.{store, held_count};
ghost use Rattle.feed.specs.Settled.{front_of};
ghost use Rattle.feed.specs.Inside.Finding.{calm_of, noise, all_noise, filled, held_from, Searched, Finds};

use crate::format::{Kind, Look, good, length_marked, length_of, look_at, mark_of};
use crate::size::{MARK, MARK_LENGTH, MOST_HELD};

// The first byte that is not dropped, and the kind of the record settled there, if there is one.
#[derive(Clone, Copy)]
pub struct Front {
    pub at: usize,
    pub settled: Option<Kind>,
}

// Of which kind the next record is, if one was settled, and where it stands, or what is left: in the piece from `at` on, or, where there is no
// such place, in the store from its first byte on; how many bytes the store then holds, and how many bytes of the piece are used.
#[derive(Clone, Copy)]
pub struct Found {
    pub settled: Option<Kind>,
    pub at: Option<usize>,
    pub count: usize,
    pub used: usize,
}

// So many bytes are passed over at once where none of them can begin a mark.
const STRIDE: usize = 16;

// Looks from the front until nothing more is dropped.
pub fn find_front(s: &[u8]) -> Front
    ensures { result ≡ front_of s.now }
{
    for at in 0..s.len() {
        match look_at(&s[at..]) {
            Look::Drops => {}
            Look::Loses => {} // only the first byte: a record may begin at the next
            Look::Waits => {
                return Front { at, settled: None };
            }
            Look::Settles(k) => {
                return Front {
                    at,
                    settled: Some(k),
                };
            }
        }
    }
    Front {
        at: s.len(),
        settled: None,
    }
}

// The first `k` bytes go, the rest comes to the front, and 0 stands behind it.
pub(crate) fn shift(s: &mut [u8], k: usize)
    requires { k ≤ length s.old }
    ensures { s.new ≡ drop k s.old ++ replicate k 0 }
{
    s.copy_within(k.., 0);
    let m = s.len() - k;
    s[m..].fill(0);
}

// How many of the next `left` bytes can be taken with no look: those that a mark at the front waits for, but the last.
fn calm(s: &[u8], left: usize) -> usize
    ensures { result ≡ calm_of s.now left }
{
    if s.len() < MARK_LENGTH {
        return 0;
    }
    if s[0] != MARK {
        return 0;
    }
    let n = length_marked(mark_of(s[1]));
    if n <= s.len() {
        return 0;
    }
    left.min(n - s.len() - 1)
}

// How many bytes a state that claims `count` holds.
pub(crate) fn held_count(count: usize) -> usize
    ensures { result ≡ held_count count }
{
    if MOST_HELD < count { 0 } else { count }
}

// Can none of these bytes begin a mark? The loop has no way out before its end, so that the compiler compares many bytes at once.
fn all_noise(s: &[u8]) -> bool
    ensures { result ≡ all_noise s.now }
{
    let mut noise = true;
    for b in s {
        noise &= *b != MARK;
    }
    noise
}

// The first place from `from` on whose byte can begin a mark, or the end of the piece.
fn next_mark(piece: &[u8], from: usize) -> usize
    requires { from ≤ length piece.now }
    ensures { result ≡ from + noise (drop from piece.now) }
{
    let mut at = from;
    while STRIDE <= piece.len() - at && all_noise(&piece[at..at + STRIDE]) {
        at += STRIDE;
    }
    while at < piece.len() && piece[at] != MARK {
        at += 1;
    }
    at
}

// By way of the store, as long as it holds a byte that came before the piece: settles what it holds, then takes bytes of the piece from
// `from` on. Where it holds none any more, what it holds stands in the piece from `at` on as well, and no record is found yet.
fn fill(b: &mut [u8], count: usize, piece: &[u8], from: usize) -> Found
    requires b_len { length b.old ≡ store_length }
    requires count_le_most_held { (count ≤ most_held) × (b.old ≡ store (take count b.old)) × (from ≤ length piece.now) }
    ensures value { result ≡ (filled (take count b.old) piece.now from).found }
    ensures b_after { b.new ≡ (filled (take count b.old) piece.now from).kept }
{
    let mut n = count;
    let mut used = from;
    loop {
        let f = find_front(&b[..n]);
        if 0 < f.at {
            shift(&mut b[..n], f.at);
            n -= f.at;
        }
        if n <= used - from {
            return Found {
                settled: None,
                at: Some(used - n),
                count: n,
                used,
            };
        }
        if f.settled.is_some() | (used == piece.len()) {
            return Found {
                settled: f.settled,
                at: None,
                count: n,
                used,
            };
        }
        b[n] = piece[used];
        n += 1;
        used += 1;
        let k = calm(&b[..n], piece.len() - used);
        b[n..n + k].copy_from_slice(&piece[used..used + k]);
        n += k;
        used += k;
    }
}

// The bytes of the piece from `at` to `end` are those held, a record of this kind at their front, or none: they go to the store, which is
// empty.
fn hold(b: &mut [u8], piece: &[u8], at: usize, end: usize, settled: Option<Kind>) -> Found
    requires b_value { b.old ≡ store [] }
    requires at_le_end { (at ≤ end) × (end ≤ length piece.now) × (end - at ≤ store_length) }
    ensures value { result ≡ held_from at end settled }
    ensures b_after { b.new ≡ store (take (end - at) (drop at piece.now)) }
{
    let n = end - at;
    b[..n].copy_from_slice(&piece[at..end]);
    Found {
        settled,
        at: None,
        count: n,
        used: end,
    }
}

// In the piece itself, where the bytes held are those from `from` to `taken` and the store is empty: what is dropped, with a lost record or
// by itself, is passed over.
fn search(b: &mut [u8], piece: &[u8], from: usize, taken: usize) -> Found
    requires b_value { b.old ≡ store [] }
    requires from_le_taken { (from ≤ taken) × (taken ≤ length piece.now) × (taken - from ≤ store_length) }
    ensures { Searched piece.now from taken result b.new }
{
    let mut at = from;
    let mut high = taken; // no byte from here on is taken yet
    while at < piece.len() {
        if piece[at] != MARK {
            at = next_mark(piece, at + 1);
            continue;
        }
        if piece.len() - at < MARK_LENGTH {
            break;
        }
        match mark_of(piece[at + 1]) {
            None => {
                at += 1;
            }
            Some(k) => {
                let long = length_of(k);
                if piece.len() - at < long {
                    break;
                }
                let end = at + long;
                high = high.max(end);
                if good(k, &piece[at..end]) {
                    if end < high {
                        return hold(b, piece, at, high, Some(k));
                    }
                    return Found {
                        settled: Some(k),
                        at: Some(at),
                        count: 0,
                        used: end,
                    };
                }
                at += 1; // a record may begin at the next byte
            }
        }
    }
    hold(b, piece, at, piece.len(), None)
}

// The next record. Bytes are copied only where they have to wait for the next piece, where some came with an earlier one, or where bytes
// behind the record are taken already. Not a part of the run's code: there its loops would want for registers.
#[inline(never)]
pub(crate) fn find(b: &mut [u8], count: usize, piece: &[u8], from: usize) -> Found
    requires b_len { length b.old ≡ store_length }
    requires count_le_most_held { (count ≤ most_held) × (b.old ≡ store (take count b.old)) × (from ≤ length piece.now) }
    ensures { Finds (take count b.old) piece.now from result b.new }
{
    let mut at = from;
    let mut taken = from;
    if 0 < count {
        let f = fill(b, count, piece, from);
        let Some(place) = f.at else {
            return f;
        };
        b[..f.count].fill(0);
        at = place;
        taken = f.used;
    }
    search(b, piece, at, taken)
}
