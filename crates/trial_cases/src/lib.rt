//! Cases of the tests of the whole program: what data files say of them, what is around a run, and what it leaves.
//!
//! A [`Case`] says what is around a run (the words, the files, the input, and which calls fail), what the run has to
//! leave, and in which ways it is run; [`cases_of`] reads those of a file. [`around_of`] makes what is around a run, in
//! memory, and [`check_left`] and its like compare what the run leaves. Nothing here runs the program, so these are
//! proved beside it: `trials`, which runs it, stands on both.
#![tactic(auto)]

mod around;
mod cases;
mod difference;
mod fields;
mod left;
mod random;
mod subjects;
mod tables;
mod texts;
mod values;

pub use around::{Around, HEAD, Taps, around_of, count_of, head_of, words_of};
pub use difference::Difference;
pub use left::{check_bytes, check_left, check_number, check_reads, check_seen};
pub use random::lines_from;
pub use subjects::{PlacedCase, cases_of};
pub use tables::{Calls, Case, Lines, Trial, Watch, Ways};
