// The nitrogen banks: balance of each module.
ghost use Rattle.std.specs.Prelude.{◌≡◌};
ghost use Rattle.cycle.specs.Size.{module_count};
ghost use Rattle.cycle.specs.Banks.{no_bank, fuel_less_oxidizer, weighed, weighed_all};

use crate::size::{MODULES, MOST_APART};
use crate::values::Quantities;

// What is reported of a module: out of balance, the oxidizer is the lesser, the lesser quantity, and fuel less oxidizer, a signed number
// in two's complement.
#[derive(Clone, Copy, Default)]
pub struct Bank {
    pub unbalanced: bool,
    pub oxidizer: bool,
    pub lesser: u16,
    pub difference: u16,
}

impl Bank {
    // Nothing known yet.
    pub fn unknown() -> Bank
        ensures { result ≡ no_bank }
    {
        Bank::default()
    }
}

// Fuel less oxidizer, a signed number in two's complement; of quantities above 1,000, which no feed brings, modulo 65,536.
fn fuel_less_oxidizer(q: Quantities) -> u16
    ensures { result ≡ fuel_less_oxidizer q }
{
    q.fuel.wrapping_sub(q.oxidizer)
}

// One module's two quantities compared.
fn weighed(q: Quantities) -> Bank
    ensures { result ≡ weighed q }
{
    let difference = fuel_less_oxidizer(q);
    if q.oxidizer < q.fuel {
        Bank {
            unbalanced: MOST_APART < q.fuel - q.oxidizer,
            oxidizer: true,
            lesser: q.oxidizer,
            difference,
        }
    } else {
        Bank {
            unbalanced: MOST_APART < q.oxidizer - q.fuel,
            oxidizer: false,
            lesser: q.fuel,
            difference,
        }
    }
}

// All modules, each compared anew.
pub fn weighed_all(mut banks: [Bank; MODULES], q: [Quantities; MODULES]) -> [Bank; MODULES]
    ensures { result ≡ weighed_all module_count q banks }
{
    for m in 0..MODULES {
        banks[m] = weighed(q[m]);
    }
    banks
}
