// One jet: the numbered steps of document 01's "One cycle of a string", in its order and words, each with the procedure of document 000
// that it condenses. What a string does with its jets' steps, the close bits of step 6 too, is in `string`.
ghost use Rattle.std.specs.Prelude.{◌≡◌, false};
ghost use Rattle.cycle.specs.Leak.{cold};
ghost use Rattle.cycle.specs.Jets.{no_off, no_on, path_lost, recovered, off_cleared, on_cleared, gapped, off_failure};
ghost use Rattle.cycle.specs.Jets.{valve_closes, valve_opens, valve_moved, remembered, manifold_step, inhibited, reenabled, requested};
ghost use Rattle.cycle.specs.Jets.{is_bad, asks, on_failure, kept};
ghost use Rattle.plain.specs.Jet.{by, state_of, place_of, fresh_on, record_of, minor_rules, mapped_jet, if_mapped};

use crate::said::JetSaid;
use cycle::jet::JetStanding;
use cycle::number::Next;
use cycle::size::{BELOW_ZERO_FROM, LEAK_MOST, MANIFOLDS};
use cycle::slots::{OffSlots, OnSlots, Overrides};

// What is remembered of a jet, grouped as the rules group it (cycle's JetState), and its place in the map.
#[derive(Clone, Copy)]
pub struct Jet {
    // The number of the manifold that it stands on, if it stands on one.
    pub place: Option<usize>,
    pub standing: JetStanding,
    pub good: JetStanding,
    pub off: OffSlots<bool>,
    pub on: OnSlots<bool>,
    pub over: Overrides<bool>,
    // A path fault of its string is remembered.
    pub lost: bool,
}

impl Jet {
    // "Fresh: every word 0, no path fault remembered, .. good copy the same." 02, order 7: "At fresh all eight are remembered as open."
    pub(crate) fn fresh(place: Option<usize>) -> Jet
        ensures { result ≡ fresh_on place }
    {
        let standing = JetStanding {
            fail: false,
            valve: true,
            saved: false,
        };
        Jet {
            place,
            standing,
            good: standing,
            off: OffSlots::default(),
            on: OnSlots::default(),
            over: Overrides::default(),
            lost: false,
        }
    }

    // Its manifold's number; as many as there are manifolds, or more: none.
    pub(crate) fn manifold_number(self) -> usize
        ensures { result ≡ place_of self.place }
    {
        self.place.unwrap_or(MANIFOLDS)
    }

    // Does it stand in a mask?
    pub(crate) fn is_mapped(self) -> bool
        ensures { result ≡ mapped_jet self }
    {
        self.manifold_number() < MANIFOLDS
    }

    // "Bits and temperatures of jets in no mask are ignored everywhere": whatever the steps made of such a jet, it is what it was before.
    pub(crate) fn if_mapped(self, before: Jet) -> Jet
        ensures { result ≡ if_mapped before self }
    {
        if before.is_mapped() { self } else { before }
    }

    // 1. Path (000, 1.3.4.1 and 1.3.4.2: MONITOR_BTU_MASK, STORE_FDI_INIT_DATA). "If the path bit is set, remember that; nothing else of
    // the string changes and its requests are lost."
    pub(crate) fn path_lost(mut self) -> Jet
        ensures { result ≡ by path_lost self }
    {
        self.lost = true;
        self
    }

    // "At the first taken record with the bit clear again: fail word, remembered valves and saved sets come back from the good copy; off
    // slots, on slots and recheck word become 0; overrides and close byte stay. Then go on."
    fn recovered(mut self) -> Jet
        ensures { result ≡ by recovered self }
    {
        if self.lost {
            self.standing = self.good;
            self.off = OffSlots::default();
            self.on = OnSlots::default();
            self.lost = false;
        }
        self
    }

    // 2. Gap (the hall's own; 000 knows none). "If d exceeds 1, the off slots become 0."
    fn off_cleared(mut self, gap: bool) -> Jet
        ensures { result ≡ by (off_cleared gap) self }
    {
        if gap {
            self.off = OffSlots::default();
        }
        self
    }

    // "If a multiple of 25 lies strictly between the old n and the new, the on slots and recheck word become 0 too."
    fn on_cleared(mut self, missed: bool) -> Jet
        ensures { result ≡ by (on_cleared missed) self }
    {
        if missed {
            self.on = OnSlots::default();
        }
        self
    }

    // Step 2. `next.gap`: d exceeds 1; `next.missed`: a multiple of 25 lies between.
    fn gapped(self, next: Next) -> Jet
        ensures { result ≡ by (gapped next.gap next.missed) self }
    {
        self.off_cleared(next.gap).on_cleared(next.missed)
    }

    // 3. Off failure (000, 2.2.4: OFFAIL). "Three slots shift; the newest is 'C and not P'. Fail gains the jets that stand in all three,
    // then loses every jet whose re-enable is in force."
    fn off_failure(mut self, commanded: bool, pressure: bool) -> Jet
        ensures { result ≡ by (off_failure commanded pressure) self }
    {
        let was = self.off;
        let off = OffSlots {
            newest: commanded & !pressure,
            older: was.newest,
            oldest: was.older,
        };
        self.standing.fail = (self.standing.fail | (off.newest & off.older & off.oldest))
            & !self.over.reenable;
        self.off = off;
        self
    }

    // 4. Manifolds (000, 2.2.7: MANIFOLD_CHECK), "lowest first": a jet stands on one at most, so for a jet their order is nothing.
    // "Remembered open, now closed: the saved set is the manifold's jets not failed; all its jets fail; their re-enables lapse."
    fn valve_closes(mut self) -> Jet
        ensures { result ≡ by valve_closes self }
    {
        self.standing.saved = !self.standing.fail;
        self.standing.fail = true;
        self.over.reenable = false;
        self
    }

    // "Remembered closed, now open: the saved set leaves the fail word."
    fn valve_opens(mut self) -> Jet
        ensures { result ≡ by valve_opens self }
    {
        self.standing.fail &= !self.standing.saved;
        self
    }

    // By its valve, as it is now.
    fn valve_moved(self, now: bool) -> Jet
        ensures { result ≡ by (valve_moved self.standing.valve now) self }
    {
        match (self.standing.valve, now) {
            (true, false) => self.valve_closes(),
            (false, true) => self.valve_opens(),
            _ => self,
        }
    }

    // "Then all inhibited jets are failed and V is remembered."
    fn remembered(mut self, now: bool) -> Jet
        ensures { result ≡ by (remembered now) self }
    {
        self.standing.fail |= self.over.inhibit;
        self.standing.valve = now;
        self
    }

    // Step 4, its valve being open now or not.
    fn manifold(self, now: bool) -> Jet
        ensures { result ≡ by (manifold_step now) self }
    {
        self.valve_moved(now).remembered(now)
    }

    // Steps 1 to 4, the path bit being clear.
    pub(crate) fn minor_steps(self, said: JetSaid, next: Next) -> Jet
        ensures { result ≡ by (minor_rules next.gap next.missed said) self }
    {
        self.recovered()
            .gapped(next)
            .off_failure(said.commanded, said.pressure)
            .manifold(said.valve)
    }

    // 5. Requests (000, 1.3.4.3: OVERRIDE_UPDATE). "Inhibit: the inhibit comes in force, re-enable lapses, the jet fails."
    fn inhibited(mut self) -> Jet
        ensures { result ≡ by inhibited self }
    {
        self.over.inhibit = true;
        self.over.reenable = false;
        self.standing.fail = true;
        self
    }

    // "Re-enable: the reverse, and the jet leaves the fail word."
    fn reenabled(mut self) -> Jet
        ensures { result ≡ by reenabled self }
    {
        self.over.inhibit = false;
        self.over.reenable = true;
        self.standing.fail = false;
        self
    }

    // By what is asked for it. 02, order 8: "Step 5 now ignores a re-enable for a jet on a manifold remembered as closed." (No taken record
    // names a mapped jet both ways, 02, order 4; if this is handed one, the inhibit decides.)
    pub(crate) fn requested(self, inhibit: bool, reenable: bool) -> Jet
        ensures { result ≡ by (requested inhibit reenable) self }
    {
        if inhibit {
            self.inhibited()
        } else if reenable && self.standing.valve {
            self.reenabled()
        } else {
            self
        }
    }
}

// 6. When a jet leaks (000, 2.2.5, as 02, order 3 amends it): "if either word, as a signed number, is at most 63". Is this word?
fn cold(t: u16) -> bool
    ensures { result ≡ cold t }
{
    t <= LEAK_MOST || BELOW_ZERO_FROM <= t
}

impl JetSaid {
    // "A jet is bad if it is not commanded and one of two holds: its driver is on, or it leaks. A commanded jet is never bad." (The rule
    // asks neither for the cycle number nor for the path.)
    pub(crate) fn is_bad(self) -> bool
        ensures { result ≡ is_bad (record_of 0 false false self) }
    {
        !self.commanded & (self.driver | (cold(self.fuel) | cold(self.oxidizer)))
    }
}

impl Jet {
    // 6. Recheck (000, 1.3.4.6: RECHECK_ONFAILS). "Each manifold with a jet in the recheck word that is bad and not re-enabled gets its
    // close bit": is this such a jet? (The bit is set in `PlainString::rechecked`.)
    pub(crate) fn asks(self, bad: bool) -> bool
        ensures { result ≡ asks bad (state_of self) }
    {
        self.on.recheck & bad & !self.over.reenable
    }

    // 7. On failure (000, 2.2.5: ONFAIL). "Two slots shift, the newest is the bad jets. Jets in both, not re-enabled, join the fail word
    // and are the new recheck word."
    pub(crate) fn on_failure(mut self, bad: bool) -> Jet
        ensures { result ≡ by (on_failure bad) self }
    {
        let was = self.on;
        let on = OnSlots {
            newest: bad,
            older: was.newest,
            recheck: bad & was.newest & !self.over.reenable,
        };
        self.standing.fail |= on.recheck;
        self.on = on;
        self
    }

    // 8. (000, 1.3.4.2: STORE_FDI_INIT_DATA.) "The good copy is taken: fail word, remembered valves, saved sets. (000 takes it before step
    // 5; here it is last.)"
    pub(crate) fn kept(mut self) -> Jet
        ensures { result ≡ by kept self }
    {
        self.good = self.standing;
        self
    }
}
