//! What transforms that gather records give over whole lists: aggregates, sessions and joins.
//!
//! An [`Agg`] says what is made of the values that a window of one key gathers: their number, their sum, the least, and
//! so on. [`aggregated`] works it out for one keyed window, and [`laws`] states that it is the same in whatever order
//! the values came.
//!
//! A session is a window without a size: the records of one key are cut where the next time is a gap or more later. Its
//! end is its last time plus the gap. [`laws`] states where sessions are cut, that their rows do not depend on order,
//! and which of them are final at a watermark.
//!
//! A join has two inputs, and gives a row for each pair of a left and a right record that lie in the same window of the
//! same key. A [`Combine`] says what becomes of the two values, and [`pair_values`] works out the pairs of one keyed
//! window.
//!
//! All of this is of whole lists. How it is worked out as records come is for the groupings: `sb_aggregate`,
//! `sb_session` and `sb_join`.
#![tactic(auto)]

mod aggregate;
mod join;
pub mod laws;
mod session;

pub use aggregate::{Agg, MAX_TOP, aggregated, keep_distinct};
pub use join::{Combine, Side, pair_values};
pub use session::MAX_GAP;

// What the crates above name of the crates below.
pub use sb_window::{
    BadWindow, Dropped, END_MARK, Ends, Grouping, Intake, Item, KeptRec, Key, KeyedWindow, Keys,
    LatePolicy, MAX_KEY, MAX_LINE_LENGTH, MAX_LINES, MAX_ROW_LENGTH, MAX_SIZE, MAX_TIME,
    MAX_WINDOWS_OF_A_TIME, MAX_WORD_LENGTH, Malformed, NoMemory, Record, Refusal, RowBuf, Sequence,
    Stop, Stream, Streams, TextBuf, Trail, UsualRecord, Windows, Word, read_line, read_number,
    row_bytes,
};
