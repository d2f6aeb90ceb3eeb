//! The answers to commands that run a plan or read a diary: to `sum` and `run` by the engine, to `slow` by the plain
//! program, to `watch` by a live table, to `audit`, and to `work`, whose records are made; to `feeds`, whose lines are in
//! two files; to `part` and `save` over a first part of an input, and to `resume` over the rest of it, behind the file of
//! a checkpoint.
#![tactic(auto)]

mod answer;
mod audit;
mod cutting;
mod engine;
mod feeds;
mod plain;
mod resuming;
mod watched;
mod watching;
mod work;

pub use answer::{answer_file, answer_slow, answer_sum};
pub use audit::answer_audit;
pub use cutting::{answer_part, answer_save};
pub use feeds::answer_feeds;
pub use resuming::answer_resume;
pub use watching::answer_watch;
pub use work::answer_work;

// What the crates above name of the crates below.
pub use sb_answers::{
    Ending, LateRecords, MAX_CHECKPOINT_BYTES, Request, Status, Tap, WORK_WINDOW, note_of,
};
pub use sb_run::{ByStream, RunEnd, Sizes, run};
