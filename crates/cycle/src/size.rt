// The sizes and limits of documents 01 and 02, each under one name; specs/Size says the same.

// Four strings, 0 to 3.
pub const STRINGS: usize = 4;

// A string has 32 jets.
pub const JETS: usize = 32;

// All jets of a string: a bit for each. In a wider word first, which has room for one bit more.
pub const ALL_JETS: u32 = ((1u64 << JETS) - 1) as u32;

// Each string has eight manifolds.
pub const MANIFOLDS: usize = 8;

// All manifolds of a string: a bit for each.
pub const ALL_MANIFOLDS: u32 = (1 << MANIFOLDS) - 1;

// All valves open.
pub const ALL_OPEN: u32 = ALL_MANIFOLDS;

// Two temperature words a jet, fuel then oxidizer.
pub const TEMPERATURES: usize = 2 * JETS;

// Three modules, each with a fuel and an oxidizer bank.
pub const MODULES: usize = 3;

// A major cycle falls on each 25th.
pub const MAJOR_EVERY: u32 = 25;

// The full cycle number goes up to this.
pub const LAST_COUNT: u32 = 4294967295;

// A temperature word leaks that is at most this as a signed number.
pub const LEAK_MOST: u16 = 63;

// From this one on a word is below zero as a signed number.
pub const BELOW_ZERO_FROM: u16 = 32768;

// A module is in balance up to this difference, in tenths of a percent.
pub const MOST_APART: u16 = 16;
