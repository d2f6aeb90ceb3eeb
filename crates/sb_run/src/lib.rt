//! Whole runs: an input is fed to the engine, and its rows go to an output and past taps.
//!
//! With several workers a thread of its own reads the input and cuts it into bundles: the feeder takes bundles and
//! watermarks out of a ring, and its rows go through another to the thread that prints. [`execute_two`] runs over two
//! record files.
//!
//! A run may be cut behind a first part of its input and go on later. [`run_part`] writes the rows of the first part,
//! [`save`] gives its checkpoint, and [`run_rest`] goes on with that over the rest of the input.
#![tactic(auto)]

mod ahead;
mod cut;
mod feeding;
mod files;
pub mod laws;
mod printing;
mod reading;
mod running;
mod together;
mod working;

pub use cut::cut_end::CutEnd;
pub use cut::part::run_part;
pub use cut::rest::run_rest;
pub use cut::saving::{Saved, save};
pub use files::executing::execute_two;
pub use running::run;
pub use sb_engines::{
    ByStream, MAX_FILE_LENGTH, MAX_WORKERS, RunEnd, Sizes, Team, TwoEnd, execute_alone,
};
pub use together::execute;

// What the crates above name of the crates below.
pub use sb_checkpoint::{Checkpoint, RowsFrom, has_session, write_checkpoint};
pub use sb_engines::{Gate, OpenGate};
