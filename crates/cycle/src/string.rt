// One string of 32 jets on packed words: jet j is bit j. A method for each numbered step of document 01.
ghost use Rattle.std.specs.Prelude.{◌≡◌};
ghost use Rattle.cycle.specs.Size.{manifold_count};
ghost use Rattle.cycle.specs.Inside.Quiet.{busy, quiet_cycle};
ghost use Rattle.cycle.specs.Words.{fresh, path_lost, recovered, gapped, off_failure, manifold, manifolds};
ghost use Rattle.cycle.specs.Words.{requested, rechecked, on_failure, kept, major_cycle};
ghost use Rattle.cycle.specs.Inside.Halves.{first_steps, fourth_step};

use crate::leak::leak_word;
use crate::map::Masks;
use crate::number::Next;
use crate::sets::{bad_jets, behind_closed, close_bits, sets_back};
use crate::size::{ALL_OPEN, MANIFOLDS};
use crate::slots::{OffSlots, OnSlots, Overrides};
use crate::values::{Requests, Sample, Temperatures};
use bits::{has, without};

// What the good copy is a copy of: the fail word, the remembered valves (bit i set: manifold i is open) and each manifold's saved set.
#[derive(Clone, Copy)]
pub struct Standing {
    pub fail: u32,
    pub valves: u32,
    pub saved: [u32; MANIFOLDS],
}

#[derive(Clone, Copy)]
pub struct StringState {
    pub standing: Standing,
    pub good: Standing,
    pub off: OffSlots<u32>,
    pub on: OnSlots<u32>,
    pub over: Overrides<u32>,
    // Bit i set: manifold i is to be closed.
    pub close: u32,
    // A path fault is remembered.
    pub lost: bool,
}

// What step 4 changes at one manifold.
#[derive(Clone, Copy)]
pub struct AtManifold {
    pub fail: u32,
    pub reenable: u32,
    pub saved: u32,
}

impl AtManifold {
    // Step 4 for one manifold with the jets of `mask`. was: its valve is remembered as open; now: it is open now.
    fn manifold(mut self, mask: u32, was: bool, now: bool) -> AtManifold
        ensures { result ≡ manifold mask was now self }
    {
        if was {
            if !now {
                self.saved = without(mask, self.fail);
                self.fail |= mask;
                self.reenable = without(self.reenable, mask);
            }
        } else {
            if now {
                self.fail = without(self.fail, self.saved);
            }
        }
        self
    }
}

impl StringState {
    pub(crate) fn fresh() -> StringState
        ensures { result ≡ fresh }
    {
        let standing = Standing {
            fail: 0,
            valves: ALL_OPEN,
            saved: [0; MANIFOLDS],
        };
        StringState {
            standing,
            good: standing,
            off: OffSlots::default(),
            on: OnSlots::default(),
            over: Overrides::default(),
            close: 0,
            lost: false,
        }
    }

    // Step 1, the path bit set.
    fn path_lost(mut self) -> StringState
        ensures { result ≡ path_lost self }
    {
        self.lost = true;
        self
    }

    // Step 1, the path bit clear: after a fault the good copy comes back.
    fn recovered(mut self) -> StringState
        ensures { result ≡ recovered self }
    {
        self.standing.saved = sets_back(self.lost, self.good.saved, self.standing.saved);
        if self.lost {
            self.standing.fail = self.good.fail;
            self.standing.valves = self.good.valves;
            self.off = OffSlots::default();
            self.on = OnSlots::default();
            self.lost = false;
        }
        self
    }

    // Step 2, by what the record leads to.
    fn gapped(mut self, next: Next) -> StringState
        ensures { result ≡ gapped next.gap next.missed self }
    {
        if next.gap {
            self.off = OffSlots::default();
        }
        if next.missed {
            self.on = OnSlots::default(); // the recheck word too
        }
        self
    }

    // Step 3.
    fn off_failure(mut self, commanded: u32, pressure: u32) -> StringState
        ensures { result ≡ off_failure commanded pressure self }
    {
        let off = OffSlots {
            newest: without(commanded, pressure),
            older: self.off.newest,
            oldest: self.off.older,
        };
        self.standing.fail = without(
            self.standing.fail | (off.newest & off.older & off.oldest),
            self.over.reenable,
        );
        self.off = off;
        self
    }

    // Step 4: the manifolds, lowest first; then all inhibited jets are failed and the valves are remembered.
    fn manifolds(mut self, masks: Masks, valves: u32) -> StringState
        ensures { result ≡ manifolds manifold_count masks.words valves self }
    {
        let was = self.standing.valves;
        let mut saved = self.standing.saved;
        let mut fail = self.standing.fail;
        let mut reenable = self.over.reenable;
        for i in 0..MANIFOLDS {
            let before = AtManifold {
                fail,
                reenable,
                saved: saved[i],
            };
            let after = before.manifold(masks.words[i], has(was, i), has(valves, i));
            fail = after.fail;
            reenable = after.reenable;
            saved[i] = after.saved;
        }
        self.standing = Standing {
            fail: fail | self.over.inhibit,
            valves,
            saved,
        };
        self.over.reenable = reenable;
        self
    }

    // Is a path fault remembered, or has a valve moved?
    pub(crate) fn busy(self, valves: u32) -> bool
        ensures { result ≡ busy valves self }
    {
        self.lost | (self.standing.valves != valves)
    }

    // Steps 1 to 4 of a string that is not busy, where the path bit is clear and no cycle was missed: only words change, and no manifold.
    pub(crate) fn quiet_cycle(self, masks: Masks, sample: Sample) -> StringState
        ensures { result ≡ quiet_cycle manifold_count masks.words sample self }
    {
        let mapped = masks.mapped();
        let mut next = self.off_failure(mapped & sample.commanded, sample.pressure);
        next.standing.fail |= next.over.inhibit;
        next
    }

    // Step 5, given the requests that are heeded. Where both words name a jet, which no taken record does, the inhibit decides. A dropped
    // close bit may be set again in step 6.
    fn requested(mut self, inhibit: u32, reenable: u32, drop: u32) -> StringState
        ensures { result ≡ requested inhibit reenable drop self }
    {
        self.over.inhibit = without(self.over.inhibit, reenable) | inhibit;
        self.over.reenable = without(self.over.reenable | reenable, inhibit);
        self.standing.fail = without(self.standing.fail, reenable) | inhibit;
        self.close = without(self.close, drop);
        self
    }

    // Step 6, given the bad jets.
    fn rechecked(mut self, masks: Masks, bad: u32) -> StringState
        ensures { result ≡ rechecked manifold_count masks.words bad self }
    {
        let again = without(bad, self.over.reenable);
        self.close |= close_bits(masks, self.on.recheck, again);
        self
    }

    // Step 7, given the bad jets.
    fn on_failure(mut self, bad: u32) -> StringState
        ensures { result ≡ on_failure bad self }
    {
        let older = self.on.newest;
        let on = OnSlots {
            newest: bad,
            older,
            recheck: without(bad & older, self.over.reenable),
        };
        self.standing.fail |= on.recheck;
        self.on = on;
        self
    }

    // Step 8.
    pub(crate) fn kept(mut self) -> StringState
        ensures { result ≡ kept self }
    {
        self.good = self.standing;
        self
    }

    // Steps 1 to 3, for any taken record.
    pub(crate) fn first_steps(
        self,
        masks: Masks,
        path: bool,
        sample: Sample,
        next: Next,
    ) -> StringState
        ensures { result ≡ first_steps manifold_count masks.words path sample next.gap next.missed self }
    {
        if path {
            self.path_lost()
        } else {
            let mapped = masks.mapped();
            self.recovered()
                .gapped(next)
                .off_failure(mapped & sample.commanded, sample.pressure)
        }
    }

    // Step 4, for any taken record.
    pub(crate) fn fourth_step(self, masks: Masks, path: bool, valves: u32) -> StringState
        ensures { result ≡ fourth_step manifold_count masks.words path valves self }
    {
        if path {
            self
        } else {
            self.manifolds(masks, valves)
        }
    }

    // Steps 5 to 8, for a taken major record.
    pub(crate) fn major_cycle(
        self,
        masks: Masks,
        path: bool,
        sample: Sample,
        t: Temperatures,
        q: Requests,
    ) -> StringState
        ensures { result ≡ major_cycle manifold_count masks.words path sample t q self }
    {
        if path {
            self
        } else {
            let mapped = masks.mapped();
            let leaking = leak_word(mapped, t);
            let bad = bad_jets(mapped, sample.commanded, sample.driver, leaking);
            let closed = behind_closed(masks, self.standing.valves);
            let heeded = without(mapped & q.reenable, closed);
            self.requested(mapped & q.inhibit, heeded, q.drop as u32)
                .rechecked(masks, bad)
                .on_failure(bad)
                .kept()
        }
    }
}
