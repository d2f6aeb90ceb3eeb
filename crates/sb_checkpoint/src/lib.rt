//! Checkpoints: what of the input of a run has to be kept, so that the run can be cut there and go on later.
//!
//! [`laws`] says why that is enough: the rows of the first part, and then those that a run gives from the low
//! watermark of that part on over what was kept and the rest of the input, are the rows of one run over all of it.
//!
//! A [`Cutoff`] gives a first part of an input, whose end is no end of the input. [`checkpoint_of`] says what is kept
//! of its items, a [`Keeper`] the same while they are read one by one, and [`write_checkpoint`] writes that as text.
//! [`read_checkpoint`] reads such a text again, or says which line is the first that has no place in it. A run that
//! goes on reads what was kept, and then the rest, by [`Resumed`], and gives its rows to [`RowsFrom`], which leaves out
//! those that the first run gave. Plans with sessions cannot be cut ([`has_session`]).
#![tactic(auto)]

mod ahead;
mod checkpoint;
mod cutoff;
mod gathering;
mod keeper;
pub mod laws;
mod line_reading;
mod line_text;
mod reaching;
mod reading;
mod resumed;
mod rows_from;
mod writing;

pub use checkpoint::{Checkpoint, StreamRec, checkpoint_of};
pub use cutoff::Cutoff;
pub use keeper::Keeper;
pub use reaching::{MAX_REACH, first_session, has_session, reach};
pub use reading::{CheckpointStop, read_checkpoint};
pub use resumed::Resumed;
pub use rows_from::RowsFrom;
pub use writing::write_checkpoint;
