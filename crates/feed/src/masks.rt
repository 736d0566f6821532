// The map from its bytes: thirty-two masks, string by string, manifold 0 first, the high byte first.
ghost use Rattle.std.specs.Prelude.{◌≡◌, ◌≤◌};
ghost use Rattle.feed.specs.Size.{map_length};
ghost use Rattle.cycle.specs.Map.{FitMap};
ghost use Rattle.feed.specs.Masks.{masks_at, masks_of_bytes};
ghost use Rattle.feed.specs.Inside.MapWords.{WordMasks};

use crate::bytes::read_four;
use crate::size::{MASKS_LENGTH, WORD_LENGTH};
use cycle::map::Masks;
use cycle::size::STRINGS;
use std::array;

// One string's masks, from `i` on.
fn masks_at(s: &[u8], i: usize) -> Masks
    requires { i ≤ map_length }
    ensures { (result ≡ masks_at s.now i) × WordMasks result.words }
{
    let words = array::from_fn(|k| read_four(s, i + WORD_LENGTH * k));
    Masks { words }
}

// All strings' masks. Bytes past the end are 0. That they are words is what the laws about a map ask.
pub fn masks_of(s: &[u8]) -> [Masks; STRINGS]
    ensures { (result ≡ masks_of_bytes s.now) × FitMap result }
{
    array::from_fn(|k| masks_at(s, MASKS_LENGTH * k))
}
