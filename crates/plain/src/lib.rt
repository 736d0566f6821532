// The plain engine, for audits: document 01's cycle jet by jet, with yes and no values and no packed words, to be read beside documents 000
// and 01. `jet` has the numbered steps of one jet, `string` those of a string's jets together, `hall` the answers and the four strings;
// `said` opens the words of a record, `map` those of the map; `shown` packs what a report shows into words again. `call` is the monitor
// over this engine, with the reader and the report of `feed`. That on every run of records from fresh it gives what the packed engine of
// `cycle` gives is proved (proofs/).
#![tactic(auto)]

pub mod call;
pub mod hall;
pub mod jet;
pub mod map;
pub mod said;
pub mod shown;
pub mod string;
