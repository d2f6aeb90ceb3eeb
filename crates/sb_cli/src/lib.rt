//! The command line of StreamBox: what words ask for, and the one call that answers them.
//!
//! [`streambox`] is all that the program does. Its contract says what the sink has taken, for every list of words and
//! every input, and why each answer comes.
#![tactic(auto)]

mod command;
pub mod laws;

pub use command::streambox;
pub use sb_answer_runs::{LateRecords, MAX_CHECKPOINT_BYTES, Status, WORK_WINDOW};

// What the crates above name of the crates below.
pub use sb_answer_runs::{RunEnd, Sizes, run};
