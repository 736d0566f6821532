// The sizes and limits of the feed and the report, each under one name; specs/Size says the same. Lengths and places follow from the parts.
use cycle::size::{MANIFOLDS, MODULES, STRINGS, TEMPERATURES};

// Marks: 52 4D begins a minor record, 52 4A a major one; a report begins 52 52.
pub const MARK: u8 = 82;

pub const MINOR_MARK: u8 = 77;

pub const MAJOR_MARK: u8 = 74;

// A minor record's mark as one number, the low byte first.
pub const MINOR_MARKS: u16 = MINOR_MARK as u16 * 256 + MARK as u16;

pub const MARK_LENGTH: usize = 2;

// A word: a bit for each jet of a string.
pub const WORD_LENGTH: usize = 4;

// Numbers of two bytes: the wire cycle, a temperature word, a quantity and the sum.
pub const WIRE_LENGTH: usize = 2;

pub const TEMPERATURE_LENGTH: usize = 2;

pub const QUANTITY_LENGTH: usize = 2;

pub const SUM_LENGTH: usize = 2;

// Where the parts of a record stand: the wire cycle, the path byte, and each string's words C, P and D and its valve byte.
pub const WIRE_AT: usize = MARK_LENGTH;

pub const PATH_AT: usize = WIRE_AT + WIRE_LENGTH;

pub const SAMPLES_FROM: usize = PATH_AT + 1;

pub const VALVES_IN: usize = 3 * WORD_LENGTH;

pub const SAMPLE_LENGTH: usize = VALVES_IN + 1;

// A minor record: the bytes that its sum is taken over, and its length, sum included.
pub const MINOR_SUMMED: usize = SAMPLES_FROM + STRINGS * SAMPLE_LENGTH;

pub const MINOR_LENGTH: usize = MINOR_SUMMED + SUM_LENGTH;

// A major record goes on with two temperature words for each jet, two request words for each string, then a drop byte for each, and two
// quantities for each module.
pub const TEMPERATURES_FROM: usize = MINOR_SUMMED;

pub const TEMPERATURES_LENGTH: usize = TEMPERATURES * TEMPERATURE_LENGTH;

pub const REQUESTS_FROM: usize = TEMPERATURES_FROM + STRINGS * TEMPERATURES_LENGTH;

pub const REQUESTS_LENGTH: usize = 2 * WORD_LENGTH;

pub const DROPS_FROM: usize = REQUESTS_FROM + STRINGS * REQUESTS_LENGTH;

pub const QUANTITIES_FROM: usize = DROPS_FROM + STRINGS;

pub const QUANTITIES_LENGTH: usize = 2 * QUANTITY_LENGTH;

pub const MAJOR_SUMMED: usize = QUANTITIES_FROM + MODULES * QUANTITIES_LENGTH;

pub const MAJOR_LENGTH: usize = MAJOR_SUMMED + SUM_LENGTH;

// The least length of a record.
pub const LEAST_LENGTH: usize = MINOR_LENGTH;

// The reader's store has room for the longest record; between calls it holds less.
pub const STORE: usize = MAJOR_LENGTH;

pub const MOST_HELD: usize = STORE - 1;

// Bits 4 to 7 of the path byte, which has a bit for each string, are zero.
pub const RESERVED_FROM: u8 = 16;

// A quantity is at most this many tenths of a percent.
pub const MOST_QUANTITY: u16 = 1000;

// Where the parts of a report stand: after the mark the answer, the cycle number, each string's fail word and close byte, the balance byte,
// the lesser quantities and the differences.
pub const ANSWER_AT: usize = MARK_LENGTH;

pub const COUNT_AT: usize = ANSWER_AT + 1;

pub const COUNT_LENGTH: usize = 4;

pub const STRINGS_FROM: usize = COUNT_AT + COUNT_LENGTH;

pub const STRING_PART: usize = WORD_LENGTH + 1;

pub const BALANCE_AT: usize = STRINGS_FROM + STRINGS * STRING_PART;

pub const LESSER_FROM: usize = BALANCE_AT + 1;

pub const LESSER_LENGTH: usize = QUANTITY_LENGTH;

pub const DIFFERENCES_FROM: usize = LESSER_FROM + MODULES * LESSER_LENGTH;

pub const DIFFERENCE_LENGTH: usize = QUANTITY_LENGTH;

// In the balance byte bit m says that module m is out of balance; from this bit on, that its oxidizer is the lesser.
pub const OXIDIZER_FROM: usize = 4;

// The bytes of a report, and of the outbox that a call needs.
pub const REPORT: usize = DIFFERENCES_FROM + MODULES * DIFFERENCE_LENGTH;

pub const OUTBOX_NEEDED: usize = REPORT;

// The bytes of one string's masks, a word for each manifold, and of the map.
pub const MASKS_LENGTH: usize = MANIFOLDS * WORD_LENGTH;

pub const MAP: usize = STRINGS * MASKS_LENGTH;
