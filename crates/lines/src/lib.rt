// The lines of a program: standard input and standard output, read and written whether or not they are ready. A call that was interrupted,
// or that found a line not ready, is made again; a line is given up only where the system said that it is over, or after the largest count
// of tries. None of this is said of `came`, which has no clock to wait by: it asks the reader's own `read_exact`, and of a failure says no
// more than no. What reads, writes and waits is handed in, so that a test can hand in its own: the system is whatever stands behind it. What
// came from the system, or went to it, no contract can say; what is said of a line is in specs/.
#![tactic(auto)]

pub mod ending;
pub mod line;
pub mod read;
#[cfg(test)]
mod tests;
pub mod write;
