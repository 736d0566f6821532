// The values of a record, as the feed carries them: nothing is stripped, reserved bits and unmapped jets included.
use crate::size::{MODULES, STRINGS, TEMPERATURES};

// One string's part of every record: commanded, pressure and driver words, and the valve byte (bit i set: manifold i is open).
#[derive(Clone, Copy, Default)]
pub struct Sample {
    pub commanded: u32,
    pub pressure: u32,
    pub driver: u32,
    pub valves: u8,
}

// A minor record: the wire cycle, the path byte (bit s set: the data path of string s has failed) and the samples.
#[derive(Clone, Copy)]
pub struct Minor {
    pub wire: u16,
    pub path: u8,
    pub samples: [Sample; STRINGS],
}

// A string's injector temperatures, jet by jet, fuel word then oxidizer word.
#[derive(Clone, Copy)]
pub struct Temperatures {
    pub words: [u16; TEMPERATURES],
}

// A string's requests: inhibit and re-enable words, and the drop byte (bit i set: manifold i's close bit is to be dropped).
#[derive(Clone, Copy, Default)]
pub struct Requests {
    pub inhibit: u32,
    pub reenable: u32,
    pub drop: u8,
}

// A module's two quantities, in tenths of a percent.
#[derive(Clone, Copy, Default)]
pub struct Quantities {
    pub fuel: u16,
    pub oxidizer: u16,
}

// A major record: what a minor one has, and the temperatures, requests and quantities.
#[derive(Clone, Copy)]
pub struct Major {
    pub minor: Minor,
    pub temperatures: [Temperatures; STRINGS],
    pub requests: [Requests; STRINGS],
    pub quantities: [Quantities; MODULES],
}
