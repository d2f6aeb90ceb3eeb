//! The plain slow program: it runs a plan over whole lists, transform by transform, and has no threads, no bundles and
//! no watermarks.
//!
//! What it gives is what the engine has to give, row for row. It is short enough to be read, so tests and benchmarks
//! compare the engine with it. [`output`], what one transform gives for all that arrives at it, and the lists and the
//! sort that it needs serve the core of the engine too.
#![tactic(auto)]

mod flow;
mod gather;
mod lanes;
mod operate;
mod rows;
mod sent;
mod sessions;

pub use flow::{rows_of_streams, slow_rows};
pub use lanes::{all_records, push_on_lane};
pub use operate::{output, session_rows};
pub use rows::sort_below;
pub use sessions::session_ends;

// What the crates above name of the crates below.
pub use sb_base::{
    Bundle, Down, END_MARK, KeptRec, Kind, MAX_GAP, MAX_TIME, NoMemory, Plan, Record, Sequence,
    Stream, Windows, apply,
};
