// The writer of feed records (document 02, order 1): from the values of a record to its bytes, in an outbox that is lent. A controller that
// sends what it writes sends only whole records, and the reader gives the values back. Above the record format of `feed` and the structs
// of `cycle`, and seeing only their claims. What each function does is one definition of specs/; proofs/ has the laws.
#![tactic(auto)]

pub mod answer;
pub mod part;
pub mod record;
pub mod test;
pub mod write;
