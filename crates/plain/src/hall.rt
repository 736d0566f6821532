// The hall of four strings: which answer a record gets, and the next state.
ghost use Rattle.std.specs.Prelude.{◌≡◌, true, false};
ghost use Rattle.cycle.specs.Size.{string_count};
ghost use Rattle.cycle.specs.Records.{Record};
ghost use Rattle.plain.specs.Hall.{fresh_plain, started, both_ways, cycled, stepped};

use crate::map::refused;
use crate::said::{StringSaid, opened};
use crate::string::PlainString;
use cycle::answer::Answer;
use cycle::banks::{Bank, weighed_all};
use cycle::hall::Stepped;
use cycle::map::Masks;
use cycle::number::{Next, judged};
use cycle::size::{MODULES, STRINGS, TEMPERATURES};
use cycle::values::{Major, Minor, Requests, Temperatures};
use std::array;

#[derive(Clone, Copy)]
pub struct Plain {
    // The full cycle number.
    pub n: u32,
    pub strings: [PlainString; STRINGS],
    pub banks: [Bank; MODULES],
}

impl Plain {
    // Nothing seen yet: "n, 0 when fresh"; the banks "all 0 when fresh".
    pub fn fresh(masks: [Masks; STRINGS]) -> Plain
        ensures { result ≡ fresh_plain masks }
    {
        Plain {
            n: 0,
            strings: array::from_fn(|s| PlainString::fresh(masks[s])),
            banks: [Bank::unknown(); MODULES],
        }
    }

    // 02, order 4: is a jet named both ways? "strings with the path bit set counted too".
    fn both_ways(self, said: [StringSaid; STRINGS]) -> bool
        ensures { result ≡ both_ways string_count said self.strings }
    {
        (0..STRINGS).any(|s| self.strings[s].both_ways(said[s]))
    }

    // The cycle of every string, in place, and the new n.
    fn cycled(&mut self, said: &[StringSaid; STRINGS], next: Next, major: bool)
        ensures { self.new ≡ cycled said.now next major self.old }
    {
        for s in 0..STRINGS {
            self.strings[s] = self.strings[s].cycle(said[s], next, major);
        }
        self.n = next.n;
    }

    // A minor record's values: `judged` (cycle's) gives 1 or 2, then 3, then 4. It has no requests and no temperatures: they stand as 0,
    // and only major cycles look at them. Neither this nor `major` is a part of a caller's code: there both would want stack at once.
    #[inline(never)]
    pub fn minor(mut self, r: Minor) -> Stepped<Plain>
        ensures { result ≡ stepped (Record.minor r) self }
    {
        match judged(self.n, r.wire, false) {
            Ok(next) => {
                let zero = Temperatures {
                    words: [0; TEMPERATURES],
                };
                let none = Requests::default();
                let said = opened(r, [zero; STRINGS], [none; STRINGS], self.strings);
                self.cycled(&said, next, false);
                Stepped {
                    answer: Answer::Taken,
                    hall: self,
                }
            }
            Err(answer) => Stepped { answer, hall: self },
        }
    }

    // A major record's values. 7 is "tested after 4". "Once per major cycle, for each module, whatever the path bits": the banks (000,
    // 2.2.8: FUEL_IMBALANCE), by cycle's `weighed_all`.
    #[inline(never)]
    pub fn major(mut self, r: Major) -> Stepped<Plain>
        ensures { result ≡ stepped (Record.major r) self }
    {
        match judged(self.n, r.minor.wire, true) {
            Ok(next) => {
                let said = opened(r.minor, r.temperatures, r.requests, self.strings);
                if self.both_ways(said) {
                    return Stepped {
                        answer: Answer::BothWays,
                        hall: self,
                    };
                }
                self.cycled(&said, next, true);
                self.banks = weighed_all(self.banks, r.quantities);
                Stepped {
                    answer: Answer::Taken,
                    hall: self,
                }
            }
            Err(answer) => Stepped { answer, hall: self },
        }
    }
}

// Starting over a map: accepted, or 6 and a fresh engine over the empty map.
pub fn start(masks: [Masks; STRINGS]) -> Stepped<Plain>
    ensures { result ≡ started masks }
{
    if refused(masks) {
        Stepped {
            answer: Answer::MapRefused,
            hall: Plain::fresh([Masks::none(); STRINGS]),
        }
    } else {
        Stepped {
            answer: Answer::Taken,
            hall: Plain::fresh(masks),
        }
    }
}
