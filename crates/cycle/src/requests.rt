// The requests of a record: does it name a jet both ways?
ghost use Rattle.std.specs.Prelude.{◌≡◌};
ghost use Rattle.cycle.specs.Size.{string_count};
ghost use Rattle.cycle.specs.Hall.{string_both_ways, both_ways};

use crate::map::Masks;
use crate::size::STRINGS;
use crate::values::Requests;
use bits::meets;

// Does a string's part name a mapped jet both ways?
fn string_both_ways(masks: Masks, q: Requests) -> bool
    ensures { result ≡ string_both_ways masks.words q }
{
    meets(masks.mapped() & q.inhibit, q.reenable)
}

// Does some string's? Those under a path fault are counted too.
pub fn both_ways(masks: [Masks; STRINGS], requests: [Requests; STRINGS]) -> bool
    ensures { result ≡ both_ways string_count masks requests }
{
    let mut found = false;
    for s in 0..STRINGS {
        found |= string_both_ways(masks[s], requests[s]);
    }
    found
}
