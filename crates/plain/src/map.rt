// The map, jet by jet: its words are opened here, once, when the engine starts.
ghost use Rattle.std.specs.Prelude.{◌≡◌};
ghost use Rattle.cycle.specs.Size.{string_count, jet_count, manifold_count};
ghost use Rattle.plain.specs.Map.{place_in, in_two, string_refused, refused};

use bits::has;
use cycle::map::Masks;
use cycle::size::{JETS, MANIFOLDS, STRINGS};

// The manifold whose mask has jet j: the highest, if there are several; an accepted map has at most one.
pub(crate) fn place_of(masks: Masks, j: usize) -> Option<usize>
    ensures { result ≡ place_in manifold_count masks.words j }
{
    let mut place = None;
    for i in 0..MANIFOLDS {
        if has(masks.words[i], j) {
            place = Some(i);
        }
    }
    place
}

// Does jet j stand in two masks?
fn in_two(masks: Masks, j: usize) -> bool
    ensures { result ≡ in_two manifold_count masks.words j }
{
    let mut one = false;
    let mut two = false;
    for word in masks.words {
        let here = has(word, j);
        two |= one & here;
        one |= here;
    }
    two
}

// Does a jet of this string?
fn string_refused(masks: Masks) -> bool
    ensures { result ≡ string_refused jet_count masks.words }
{
    (0..JETS).any(|j| in_two(masks, j))
}

// The map "is refused if two masks of one string share a bit".
pub(crate) fn refused(masks: [Masks; STRINGS]) -> bool
    ensures { result ≡ refused string_count masks }
{
    (0..STRINGS).any(|s| string_refused(masks[s]))
}
