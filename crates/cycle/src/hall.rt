// The hall: four strings and the banks, stepped by the values of one record.
ghost use Rattle.std.specs.Prelude.{◌≡◌, true, false};
ghost use Rattle.cycle.specs.Size.{string_count};
ghost use Rattle.cycle.specs.Hall.{fresh_hall, started, minor_strings, major_strings, minor_taken, major_taken, stepped};
ghost use Rattle.cycle.specs.Calm.{kept_strings, kept_all};
ghost use Rattle.cycle.specs.Inside.Quiet.{some_busy, quiet_strings};
ghost use Rattle.cycle.specs.Records.{Record};

use crate::answer::Answer;
use crate::banks::{Bank, weighed_all};
use crate::map::{Masks, refused};
use crate::number::{Next, judged, unless};
use crate::requests::both_ways;
use crate::size::{MODULES, STRINGS};
use crate::string::StringState;
use crate::values::{Major, Minor, Quantities};
use bits::has;
use std::array;

#[derive(Clone, Copy)]
pub struct Hall {
    // The full cycle number.
    pub n: u32,
    pub masks: [Masks; STRINGS],
    pub strings: [StringState; STRINGS],
    pub banks: [Bank; MODULES],
}

// What a step gives back: the answer, and the hall after it, of this engine or of another.
#[derive(Clone, Copy)]
pub struct Stepped<H> {
    pub answer: Answer,
    pub hall: H,
}

// Is some string busy?
fn some_busy(strings: [StringState; STRINGS], r: Minor) -> bool
    ensures { result ≡ some_busy string_count r strings }
{
    let mut found = false;
    for s in 0..STRINGS {
        found |= strings[s].busy(r.samples[s].valves as u32);
    }
    found
}

// Every string where none is busy, no path bit is set and no cycle was missed.
fn quiet_strings(
    strings: [StringState; STRINGS],
    masks: [Masks; STRINGS],
    r: Minor,
) -> [StringState; STRINGS]
    ensures { result ≡ quiet_strings string_count masks r strings }
{
    array::from_fn(|s| strings[s].quiet_cycle(masks[s], r.samples[s]))
}

// Every string by all its steps. The first three are written out for each string: neither a loop nor `from_fn` over so much is unrolled, and
// then the strings stay in memory, and every record, quiet or not, carries them from place to place.
fn all_steps(
    strings: [StringState; STRINGS],
    masks: [Masks; STRINGS],
    r: Minor,
    next: Next,
) -> [StringState; STRINGS]
    ensures { result ≡ minor_strings string_count masks r next.gap next.missed strings }
{
    let path = r.path as u32;
    let mut stepped = [
        strings[0].first_steps(masks[0], has(path, 0), r.samples[0], next),
        strings[1].first_steps(masks[1], has(path, 1), r.samples[1], next),
        strings[2].first_steps(masks[2], has(path, 2), r.samples[2], next),
        strings[3].first_steps(masks[3], has(path, 3), r.samples[3], next),
    ];
    for s in 0..STRINGS {
        stepped[s] = stepped[s].fourth_step(masks[s], has(path, s), r.samples[s].valves as u32);
    }
    stepped
}

// Steps 1 to 4 of every string. Most records find nothing but words to change: they are told apart once, and not step by step.
fn minor_strings(
    strings: [StringState; STRINGS],
    masks: [Masks; STRINGS],
    r: Minor,
    next: Next,
) -> [StringState; STRINGS]
    ensures { result ≡ minor_strings string_count masks r next.gap next.missed strings }
{
    if next.gap | next.missed | (r.path != 0) | some_busy(strings, r) {
        all_steps(strings, masks, r, next)
    } else {
        quiet_strings(strings, masks, r)
    }
}

// Steps 5 to 8 of every string, in place: `from_fn` is not unrolled over so much either.
fn major_strings(
    mut strings: [StringState; STRINGS],
    masks: [Masks; STRINGS],
    r: Major,
) -> [StringState; STRINGS]
    ensures { result ≡ major_strings string_count masks r strings }
{
    let path = r.minor.path as u32;
    for s in 0..STRINGS {
        strings[s] = strings[s].major_cycle(
            masks[s],
            has(path, s),
            r.minor.samples[s],
            r.temperatures[s],
            r.requests[s],
        );
    }
    strings
}

// Step 8 of every string. `from_fn` is unrolled, a loop is not.
fn kept_strings(strings: [StringState; STRINGS]) -> [StringState; STRINGS]
    ensures { result ≡ kept_strings strings }
{
    array::from_fn(|s| strings[s].kept())
}

impl Hall {
    // Nothing seen yet.
    pub fn fresh(masks: [Masks; STRINGS]) -> Hall
        ensures { result ≡ fresh_hall masks }
    {
        Hall {
            n: 0,
            masks,
            strings: [StringState::fresh(); STRINGS],
            banks: [Bank::unknown(); MODULES],
        }
    }

    // Steps 1 to 4 of a taken record, which leads to `next`.
    pub fn minor_taken(mut self, r: Minor, next: Next) -> Hall
        ensures { result ≡ minor_taken r next self }
    {
        self.strings = minor_strings(self.strings, self.masks, r, next);
        self.n = next.n;
        self
    }

    // Steps 5 to 8 of a taken major record, and the banks.
    pub fn major_taken(mut self, r: Major) -> Hall
        ensures { result ≡ major_taken r self }
    {
        self.strings = major_strings(self.strings, self.masks, r);
        self.banks = weighed_all(self.banks, r.quantities);
        self
    }

    // Step 8 of every string, and the banks: all that is left of steps 5 to 8 where they find nothing.
    pub fn kept_all(mut self, q: [Quantities; MODULES]) -> Hall
        ensures { result ≡ kept_all q self }
    {
        self.strings = kept_strings(self.strings);
        self.banks = weighed_all(self.banks, q);
        self
    }

    // A minor record's values.
    pub fn minor(self, r: Minor) -> Stepped<Hall>
        ensures { result ≡ stepped (Record.minor r) self }
    {
        match judged(self.n, r.wire, false) {
            Ok(next) => Stepped {
                answer: Answer::Taken,
                hall: self.minor_taken(r, next),
            },
            Err(answer) => Stepped { answer, hall: self },
        }
    }

    // A major record's values.
    pub fn major(self, r: Major) -> Stepped<Hall>
        ensures { result ≡ stepped (Record.major r) self }
    {
        let named = both_ways(self.masks, r.requests);
        match unless(judged(self.n, r.minor.wire, true), named) {
            Ok(next) => Stepped {
                answer: Answer::Taken,
                hall: self.minor_taken(r.minor, next).major_taken(r),
            },
            Err(answer) => Stepped { answer, hall: self },
        }
    }
}

// Starting over a map: accepted, or 6 and a fresh hall over the empty map.
pub fn start(masks: [Masks; STRINGS]) -> Stepped<Hall>
    ensures { result ≡ started masks }
{
    if refused(masks) {
        Stepped {
            answer: Answer::MapRefused,
            hall: Hall::fresh([Masks::none(); STRINGS]),
        }
    } else {
        Stepped {
            answer: Answer::Taken,
            hall: Hall::fresh(masks),
        }
    }
}
