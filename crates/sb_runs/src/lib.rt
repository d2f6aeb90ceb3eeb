//! Sorted runs of keyed windows, each with a value: what the groupings that gather by windows keep.
//!
//! The values of a keyed window can be joined, two to one: a [`Joiner`] says how. A [`Run`] has a value for each of
//! some keyed windows, in the windows' order. One is made of each bundle: the values of its records are placed
//! ([`place`], [`sort_placed`], or as a crate above places them), and added one after the other ([`Run::add`]), which
//! takes one step for each if they come in order. If windows overlap, values are gathered by pane, and [`spread`] to
//! the windows then.
//!
//! A node keeps [`Runs`]: it pushes each run that comes behind the others, and merges them when they are many. A
//! closing takes off a prefix of each, and looks at no window that stays open. It gives them as [`Closed`]: what closed is
//! merged as it is taken. Contracts see a run as a finite map, and runs as the map of all, where what they have for one
//! keyed window is joined.
#![tactic(auto)]

mod closed;
mod entries;
mod joiner;
mod panes;
mod placing;
mod run;
mod runs;

pub use closed::Closed;
pub use joiner::{Joiner, compare_windows, later_window};
pub use panes::spread;
pub use placing::{place, sort_placed};
pub use run::Run;
pub use runs::Runs;

// What the crates above name of the crates below.
pub use sb_window::{
    BadWindow, Dropped, END_MARK, Ends, Grouping, Intake, Item, KeptRec, Key, KeyedWindow, Keys,
    LatePolicy, MAX_KEY, MAX_LINE_LENGTH, MAX_LINES, MAX_ROW_LENGTH, MAX_SIZE, MAX_TIME,
    MAX_WINDOWS_OF_A_TIME, MAX_WORD_LENGTH, Malformed, NoMemory, Record, Refusal, RowBuf, Sequence,
    Stop, Stream, Streams, TextBuf, Trail, UsualRecord, Windows, Word, read_line, read_number,
    row_bytes,
};
