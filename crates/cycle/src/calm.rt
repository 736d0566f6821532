// Calm: strings in which nothing is under way, and samples that find nothing. A record of such samples leaves such strings as they are, so
// that whoever has told both apart need not step them (proofs/CalmHalls).
ghost use Rattle.std.specs.Prelude.{◌≡◌};
ghost use Rattle.cycle.specs.Size.{string_count};
ghost use Rattle.cycle.specs.Calm.{calm, all_calm, quiet, finds_none};

use crate::size::STRINGS;
use crate::slots::OnSlots;
use crate::string::StringState;
use crate::values::{Requests, Sample};
use bits::without;

impl StringState {
    // Is nothing under way?
    fn is_calm(self) -> bool
        ensures { result ≡ calm self }
    {
        let off = self.off;
        let fail = self.standing.fail;
        let settled = fail == (without(fail, self.over.reenable) | self.over.inhibit);
        !self.lost & ((off.newest == 0) & ((off.older == 0) & ((off.oldest == 0) & settled)))
    }

    // Does the sample find nothing, where these jets are mapped?
    pub fn is_quiet(self, mapped: u32, sample: Sample) -> bool
        ensures { result ≡ quiet mapped sample self }
    {
        let unmoved = self.standing.valves == sample.valves as u32;
        (without(mapped & sample.commanded, sample.pressure) == 0) & unmoved
    }
}

// Is nothing under way in any string? The first one where something is ends it: in a lively hall that is soon.
pub fn all_calm(strings: [StringState; STRINGS]) -> bool
    ensures { result ≡ all_calm string_count strings }
{
    for string in &strings {
        if !string.is_calm() {
            return false;
        }
    }
    true
}

// Do steps 5 to 8 find nothing in one string but what its temperatures say, where these jets are mapped?
pub fn finds_none(on: OnSlots<u32>, close: u32, mapped: u32, sample: Sample, q: Requests) -> bool
    ensures { result ≡ finds_none mapped sample q on close }
{
    let none_bad = without(mapped & sample.driver, sample.commanded) == 0;
    let none_dropped = close & q.drop as u32 == 0;
    let none_asked = (mapped & q.inhibit == 0)
        & ((mapped & q.reenable == 0) & (none_dropped & none_bad));
    (on.newest == 0) & ((on.older == 0) & ((on.recheck == 0) & none_asked))
}
