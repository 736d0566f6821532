// The feed reader, the report and the call of document 01, above the cycle rules and seeing only their claims. Whatever bytes come, a call
// ends, stays within its memory, and reads no half record as a whole one. What each function does is one definition of specs/; proofs/
// has the laws.
#![tactic(auto)]

pub mod bytes;
pub mod call;
mod calm;
pub mod format;
pub mod hand;
pub mod masks;
pub mod reader;
pub mod report;
pub mod size;
pub mod step;
pub mod values;
