// The leak rule: of one temperature word, and of the mapped jets of a string. No word of an unmapped jet is looked at here.
ghost use Rattle.std.specs.Prelude.{◌≡◌, bit_and};
ghost use Rattle.cycle.specs.Leak.{cold};
ghost use Rattle.cycle.specs.Words.{leak_word};

use crate::size::{ALL_JETS, BELOW_ZERO_FROM, LEAK_MOST, TEMPERATURES};
use crate::values::Temperatures;

// Does this temperature word show a leak?
fn cold(t: u16) -> bool
    ensures { result ≡ cold t }
{
    t <= LEAK_MOST || BELOW_ZERO_FROM <= t
}

// The jets that leak, of a string whose jets are all mapped: word after word, which the compiler takes several at a time.
fn leak_sweep(t: Temperatures) -> u32
    ensures { result ≡ leak_word t }
{
    let mut w: u32 = 0;
    for k in 0..TEMPERATURES {
        w = bits::with_bit(w, k / 2, cold(t.words[k]));
    }
    w
}

// The jets of `jets` that leak: one after the other is visited, lowest first, and no other.
fn leak_walk(jets: u32, t: Temperatures) -> u32
    ensures { result ≡ bit_and jets (leak_word t) }
{
    let mut w: u32 = 0;
    let mut rest = jets;
    while rest != 0 {
        let j = rest.trailing_zeros() as usize;
        if cold(t.words[2 * j]) || cold(t.words[2 * j + 1]) {
            w |= 1 << j;
        }
        rest ^= 1 << j;
    }
    w
}

// The mapped jets that leak. With none mapped the walk would find none too, but only after a copy of the words.
pub(crate) fn leak_word(mapped: u32, t: Temperatures) -> u32
    ensures { result ≡ bit_and mapped (leak_word t) }
{
    if mapped == 0 {
        0
    } else if mapped == ALL_JETS {
        leak_sweep(t)
    } else {
        leak_walk(mapped, t)
    }
}
