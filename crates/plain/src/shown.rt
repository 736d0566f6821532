// What a report shows of the engine: fail words and close bytes, put together bit by bit.
ghost use Rattle.std.specs.Prelude.{◌≡◌};
ghost use Rattle.cycle.specs.Size.{jet_count, manifold_count};
ghost use Rattle.plain.specs.Shown.{fail_word, close_word, shown_of};

use crate::hall::Plain;
use crate::string::PlainString;
use bits::with_bit;
use cycle::size::{JETS, MANIFOLDS};
use feed::report::{Shown, StringShown};

impl PlainString {
    // Bit j: jet j has failed. Bits of jets in no mask "are 0 in reports".
    fn fail_word(self) -> u32
        ensures { result ≡ fail_word jet_count self.jets }
    {
        let mut w: u32 = 0;
        for j in 0..JETS {
            let jet = self.jets[j];
            w = with_bit(w, j, jet.is_mapped() & jet.standing.fail);
        }
        w
    }

    // Bit i: manifold i is to be closed.
    fn close_word(self) -> u32
        ensures { result ≡ close_word manifold_count self.close }
    {
        let mut w: u32 = 0;
        for i in 0..MANIFOLDS {
            w = with_bit(w, i, self.close[i]);
        }
        w
    }
}

impl Plain {
    // n, the words of all strings, and the banks.
    pub fn shown(self) -> Shown
        ensures { result ≡ shown_of self }
    {
        let strings = self.strings.map(|x| StringShown {
            fail: x.fail_word(),
            close: x.close_word(),
        });
        let banks = self.banks;
        Shown {
            n: self.n,
            strings,
            banks,
        }
    }
}
