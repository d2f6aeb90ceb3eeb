//! Windows of event time: in which windows a record lies, and what an aggregation gives over whole lists of records.
//!
//! A window is named by its end. [`Windows`] says how long windows are and how far apart, [`Windows::ends`] gives the
//! ends of the windows of a time, and a [`KeyedWindow`] is a window of one key: what an aggregation gathers values by.
//! What an aggregation gives is defined on lists alone, and [`laws`] states what every way of working it out rests on.
//! A [`Grouping`] is such a way that keeps partial results: the trait has the laws that the engine asks of it.
//! Nothing in this crate takes memory.
#![tactic(auto)]

mod ends;
mod grouping;
mod keyed_window;
pub mod laws;
mod windows;

pub use ends::Ends;
pub use grouping::Grouping;
pub use keyed_window::KeyedWindow;
pub use windows::{BadWindow, MAX_SIZE, MAX_WINDOWS_OF_A_TIME, Windows};

// What the crates above name of the crates below.
pub use sb_record::{
    Dropped, END_MARK, Intake, Item, KeptRec, Key, Keys, LatePolicy, MAX_KEY, MAX_LINE_LENGTH,
    MAX_LINES, MAX_ROW_LENGTH, MAX_TIME, MAX_WORD_LENGTH, Malformed, NoMemory, Record, Refusal,
    RowBuf, Sequence, Stop, Stream, Streams, TextBuf, Trail, UsualRecord, Word, read_line,
    read_number, row_bytes,
};
