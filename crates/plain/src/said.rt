// What a record says of each jet and each manifold, as yes and no values: its words are opened here, once, and nowhere else.
ghost use Rattle.std.specs.Prelude.{◌≡◌, ◌<◌};
ghost use Rattle.cycle.specs.Size.{jet_count};
ghost use Rattle.plain.specs.Said.{jet_said, drops_said, string_said, opened};

use crate::jet::Jet;
use crate::string::PlainString;
use bits::has;
use cycle::size::{JETS, MANIFOLDS, STRINGS};
use cycle::values::{Minor, Requests, Sample, Temperatures};
use std::array;

// Its commanded, pressure and driver bits, whether its manifold's valve is open, the requests that name it, its temperature words.
#[derive(Clone, Copy)]
pub struct JetSaid {
    pub commanded: bool,
    pub pressure: bool,
    pub driver: bool,
    pub valve: bool,
    pub inhibit: bool,
    pub reenable: bool,
    pub fuel: u16,
    pub oxidizer: u16,
}

// Of a string: whether its data path has failed, whether each manifold's close bit is to be dropped, and of its jets.
#[derive(Clone, Copy)]
pub struct StringSaid {
    pub path: bool,
    pub drops: [bool; MANIFOLDS],
    pub jets: [JetSaid; JETS],
}

// Of jet j, which stands on manifold i. (On none: i is past the last one, and what is read there as its valve is thrown away with the
// rest.)
fn jet_said(x: Sample, q: Requests, t: Temperatures, i: usize, j: usize) -> JetSaid
    requires { j < jet_count }
    ensures { result ≡ jet_said x q t i j }
{
    JetSaid {
        commanded: has(x.commanded, j),
        pressure: has(x.pressure, j),
        driver: has(x.driver, j),
        valve: has(x.valves as u32, i),
        inhibit: has(q.inhibit, j),
        reenable: has(q.reenable, j),
        fuel: t.words[2 * j],
        oxidizer: t.words[2 * j + 1],
    }
}

// Of the manifolds: bit i of the drop byte asks to drop manifold i's close bit.
fn drops_said(q: Requests) -> [bool; MANIFOLDS]
    ensures { result ≡ drops_said q }
{
    array::from_fn(|i| has(q.drop as u32, i))
}

// Of a string with these jets.
fn string_said(path: bool, x: Sample, q: Requests, t: Temperatures, jets: [Jet; JETS]) -> StringSaid
    ensures { result ≡ string_said path x q t jets }
{
    StringSaid {
        path,
        drops: drops_said(q),
        jets: array::from_fn(|j| jet_said(x, q, t, jets[j].manifold_number(), j)),
    }
}

// Of every string. Bit s of the path byte: the data path of string s has failed.
pub(crate) fn opened(
    r: Minor,
    t: [Temperatures; STRINGS],
    q: [Requests; STRINGS],
    strings: [PlainString; STRINGS],
) -> [StringSaid; STRINGS]
    ensures { result ≡ opened r t q strings }
{
    array::from_fn(|s| string_said(
        has(r.path as u32, s),
        r.samples[s],
        q[s],
        t[s],
        strings[s].jets,
    ))
}
