// Sets as words, a bit for each jet or for each manifold: what steps 1, 5 and 6 of a string choose and find.
ghost use Rattle.std.specs.Prelude.{◌≡◌, if◌then◌else◌};
ghost use Rattle.cycle.specs.Size.{manifold_count};
ghost use Rattle.cycle.specs.Words.{behind_closed, bad_jets, asks_close, close_bits};

use crate::map::Masks;
use crate::size::{ALL_MANIFOLDS, MANIFOLDS};
use bits::{has, meets, with_bit, without};

// x if b, else y.
fn chosen(b: bool, x: u32, y: u32) -> u32
    ensures { result ≡ (if b then x else y) }
{
    if b { x } else { y }
}

// The saved sets that are kept, if a path fault is over, else their own. Each is chosen by its bit of a word: copied as one they stay in
// memory, and every record, quiet or not, carries them from place to place.
pub(crate) fn sets_back(
    lost: bool,
    kept: [u32; MANIFOLDS],
    own: [u32; MANIFOLDS],
) -> [u32; MANIFOLDS]
    ensures { result ≡ (if lost then kept else own) }
{
    let back = chosen(lost, ALL_MANIFOLDS, 0);
    let mut saved = own;
    for i in 0..MANIFOLDS {
        saved[i] = chosen(has(back, i), kept[i], saved[i]);
    }
    saved
}

// Step 5: the jets on manifolds remembered as closed, whose bits of `valves` are clear.
pub(crate) fn behind_closed(masks: Masks, valves: u32) -> u32
    ensures { result ≡ behind_closed manifold_count masks.words valves }
{
    let mut w: u32 = 0;
    for i in 0..MANIFOLDS {
        w |= chosen(has(valves, i), 0, masks.words[i]);
    }
    w
}

// Step 6: the mapped jets that are bad.
pub(crate) fn bad_jets(mapped: u32, commanded: u32, driver: u32, leaking: u32) -> u32
    ensures { result ≡ bad_jets mapped commanded driver leaking }
{
    without(mapped & (driver | leaking), commanded)
}

// Step 6: does a manifold with the jets of `mask` get its close bit: is one and the same jet of it in the recheck word and bad again?
fn asks_close(mask: u32, recheck: u32, bad: u32) -> bool
    ensures { result ≡ asks_close mask recheck bad }
{
    meets(mask & recheck, bad)
}

// The manifolds that get their close bits.
pub(crate) fn close_bits(masks: Masks, recheck: u32, bad: u32) -> u32
    ensures { result ≡ close_bits manifold_count masks.words recheck bad }
{
    let mut w: u32 = 0;
    for i in 0..MANIFOLDS {
        w = with_bit(w, i, asks_close(masks.words[i], recheck, bad));
    }
    w
}
