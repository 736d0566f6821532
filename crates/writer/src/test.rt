// What the writer refuses in the values of a record.
ghost use Rattle.std.specs.Prelude.{◌≡◌};
ghost use Rattle.writer.specs.Write.{reserved_zero, two_right, quantities_right};

use cycle::size::MODULES;
use cycle::values::{Minor, Quantities};
use feed::size::{MOST_QUANTITY, RESERVED_FROM};

// Are the reserved bits of the path byte zero?
#[tactic(auto, unfolding(crate::specs::Write::reserved_zero))]
pub(crate) fn reserved_zero(r: Minor) -> bool
    ensures { result ≡ reserved_zero r }
{
    r.path < RESERVED_FROM
}

// Are a module's two quantities at most 1,000?
#[tactic(auto, unfolding(crate::specs::Write::two_right))]
fn two_right(q: Quantities) -> bool
    ensures { result ≡ two_right q }
{
    (q.fuel <= MOST_QUANTITY) & (q.oxidizer <= MOST_QUANTITY)
}

// Are every module's?
pub(crate) fn quantities_right(quantities: [Quantities; MODULES]) -> bool
    ensures { result ≡ quantities_right quantities }
{
    quantities.iter().all(|q| two_right(*q))
}
