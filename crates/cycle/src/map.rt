// The map: a mask of jets for each manifold of each string.
ghost use Rattle.std.specs.Prelude.{◌≡◌};
ghost use Rattle.cycle.specs.Size.{string_count, manifold_count};
ghost use Rattle.cycle.specs.Map.{no_masks, mapped, overlap, refused};
ghost use Rattle.cycle.specs.Calm.{mapped_words};

use crate::size::{MANIFOLDS, STRINGS};
use std::array;

// The masks of one string, manifold 0 first.
#[derive(Clone, Copy)]
pub struct Masks {
    pub words: [u32; MANIFOLDS],
}

impl Masks {
    // No jets at all.
    pub fn none() -> Masks
        ensures { result ≡ no_masks }
    {
        Masks {
            words: [0; MANIFOLDS],
        }
    }

    // The jets that stand in some mask.
    pub fn mapped(self) -> u32
        ensures { result ≡ mapped manifold_count self.words }
    {
        let mut w: u32 = 0;
        for word in &self.words {
            w |= *word;
        }
        w
    }

    // Does a jet stand in two masks?
    fn overlap(self) -> bool
        ensures { result ≡ overlap manifold_count self.words }
    {
        let mut seen: u32 = 0;
        let mut found = false;
        for word in &self.words {
            found |= bits::meets(*word, seen);
            seen |= *word;
        }
        found
    }
}

// Each string's mapped jets.
pub fn mapped_words(masks: [Masks; STRINGS]) -> [u32; STRINGS]
    ensures { result ≡ mapped_words masks }
{
    array::from_fn(|s| masks[s].mapped())
}

// Is the map refused: does some string have a jet in two masks?
pub(crate) fn refused(masks: [Masks; STRINGS]) -> bool
    ensures { result ≡ refused string_count masks }
{
    let mut found = false;
    for m in masks {
        found |= m.overlap();
    }
    found
}
