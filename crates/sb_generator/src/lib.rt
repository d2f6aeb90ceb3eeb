//! The input of a large run, made from a number: so a run needs no file, and the same number is the same work.
//!
//! The records are those of stream `a`, in groups of eight. Within a group the times fall, so that the order of times
//! is not the order of lines, and behind each whole group stands a watermark above all of its times. Keys come in turn,
//! and values jump between -50 and 50. [`GenSource`] gives the text of this input and allocates nothing, and [`laws`]
//! has that an intake accepts it whole.
#![tactic(auto)]

mod held;
pub mod laws;
mod pattern;
mod source;

pub use pattern::MAX_RECORDS;
pub use source::GenSource;
