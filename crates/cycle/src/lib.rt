// The cycle rules of document 01: the map, what is remembered of a string, its numbered steps, the banks, and the hall of four strings
// that takes the values of one record a step and answers. Each function is total and meets its definition in specs/; that the packed
// words are, bit by bit, what the rules say jet by jet is proved in proofs/.
#![tactic(auto)]

pub mod answer;
pub mod banks;
pub mod calm;
pub mod hall;
pub mod jet;
pub mod leak;
pub mod map;
pub mod number;
pub mod requests;
mod sets;
pub mod size;
pub mod slots;
pub mod string;
pub mod values;
