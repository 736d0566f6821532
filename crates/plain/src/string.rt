// One string: its jets, step by step, and whether each of its manifolds is to be closed.
ghost use Rattle.std.specs.Prelude.{◌≡◌, ◌<◌};
ghost use Rattle.cycle.specs.Size.{jet_count};
ghost use Rattle.plain.specs.Map.{fresh_string};
ghost use Rattle.plain.specs.String.{path_lost, minor_steps, requested, dropped, some_asks, rechecked, on_failure, kept, only_mapped};
ghost use Rattle.plain.specs.String.{major_steps, steps, cycle, string_both_ways};

use crate::jet::Jet;
use crate::map::place_of;
use crate::said::StringSaid;
use cycle::map::Masks;
use cycle::number::Next;
use cycle::size::{JETS, MANIFOLDS};
use std::array;

#[derive(Clone, Copy)]
pub struct PlainString {
    pub jets: [Jet; JETS],
    pub close: [bool; MANIFOLDS],
}

impl PlainString {
    // Fresh, over the string's masks.
    pub(crate) fn fresh(masks: Masks) -> PlainString
        ensures { result ≡ fresh_string masks.words }
    {
        PlainString {
            jets: array::from_fn(|j| Jet::fresh(place_of(masks, j))),
            close: [false; MANIFOLDS],
        }
    }

    // 1. Path, the bit set: each jet remembers that (those in no mask are put back, `only_mapped`).
    fn path_lost(mut self) -> PlainString
        ensures { result ≡ path_lost self }
    {
        for j in 0..JETS {
            self.jets[j] = self.jets[j].path_lost();
        }
        self
    }

    // Steps 1 to 4 of every jet, the path bit being clear: path, gap, off failure, manifolds.
    fn minor_steps(mut self, said: StringSaid, next: Next) -> PlainString
        ensures { result ≡ minor_steps said next.gap next.missed self }
    {
        for j in 0..JETS {
            self.jets[j] = self.jets[j].minor_steps(said.jets[j], next);
        }
        self
    }

    // 5. Requests that name jets.
    fn requested(mut self, said: StringSaid) -> PlainString
        ensures { result ≡ requested said self }
    {
        for j in 0..JETS {
            self.jets[j] = self.jets[j].requested(said.jets[j].inhibit, said.jets[j].reenable);
        }
        self
    }

    // 5. Requests to drop a manifold's close bit; step 6 may set it again.
    fn dropped(mut self, said: StringSaid) -> PlainString
        ensures { result ≡ dropped said self }
    {
        self.close = array::from_fn(|i| self.close[i] & !said.drops[i]);
        self
    }

    // 6. Recheck: does a jet of manifold i ask for its close bit?
    fn some_asks(self, said: StringSaid, i: usize) -> bool
        ensures { result ≡ some_asks jet_count said self.jets i }
    {
        (0..JETS).any(|j| self.jets[j].manifold_number() == i
            && self.jets[j].asks(said.jets[j].is_bad()))
    }

    // "Each manifold with a jet in the recheck word that is bad and not re-enabled gets its close bit": it stays until it is dropped.
    fn rechecked(mut self, said: StringSaid) -> PlainString
        ensures { result ≡ rechecked said self }
    {
        self.close = array::from_fn(|i| self.close[i] | self.some_asks(said, i));
        self
    }

    // 7. On failure.
    fn on_failure(mut self, said: StringSaid) -> PlainString
        ensures { result ≡ on_failure said self }
    {
        for j in 0..JETS {
            self.jets[j] = self.jets[j].on_failure(said.jets[j].is_bad());
        }
        self
    }

    // 8. The good copy is taken.
    fn kept(mut self) -> PlainString
        ensures { result ≡ kept self }
    {
        for j in 0..JETS {
            self.jets[j] = self.jets[j].kept();
        }
        self
    }

    // Jets in no mask are as they were before the record.
    fn only_mapped(mut self, before: PlainString) -> PlainString
        ensures { result ≡ only_mapped before self }
    {
        for j in 0..JETS {
            self.jets[j] = self.jets[j].if_mapped(before.jets[j]);
        }
        self
    }

    // "In a major cycle also": steps 5 to 8.
    fn major_steps(self, said: StringSaid) -> PlainString
        ensures { result ≡ major_steps said self }
    {
        self.requested(said)
            .dropped(said)
            .rechecked(said)
            .on_failure(said)
            .kept()
    }

    // The steps of a taken record, for every jet, mapped or not.
    fn steps(self, said: StringSaid, next: Next, major: bool) -> PlainString
        ensures { result ≡ steps said next major self }
    {
        if said.path {
            return self.path_lost();
        }
        let after = self.minor_steps(said, next);
        if major {
            after.major_steps(said)
        } else {
            after
        }
    }

    // A taken record's whole cycle: the steps, and jets in no mask as they were.
    pub(crate) fn cycle(self, said: StringSaid, next: Next, major: bool) -> PlainString
        ensures { result ≡ cycle said next major self }
    {
        self.steps(said, next, major).only_mapped(self)
    }

    // 02, order 4: is a jet "named both ways"; "only mapped jets counted"?
    pub(crate) fn both_ways(self, said: StringSaid) -> bool
        ensures { result ≡ string_both_ways jet_count said self.jets }
    {
        (0..JETS).any(|j| self.jets[j].is_mapped() && said.jets[j].inhibit && said.jets[j].reenable)
    }
}
