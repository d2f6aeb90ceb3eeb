//! Pipelines: which transforms there are, where the output of each goes, and what a pipeline gives over whole lists.
//!
//! A [`Plan`] is a list of transforms, the nodes 0 to n - 1, and the sink after them, node n. Each node has one lane,
//! and a join has two, its left and its right input. The output of each transform goes to a lane of a later node, each
//! stream that is used goes to a lane, and each lane of each node is fed once. What a plan gives is defined on lists
//! alone, by recursion on its transforms, and [`laws`] states what follows for every plan.
#![tactic(auto)]

pub mod laws;
mod plan;
mod transform;
mod validity;

pub use plan::{Plan, sum_plan};
pub use sb_windowed::MAX_GAP;
pub use transform::{Down, Kind, MAX_TRANSFORMS, Step};

// What the crates above name of the crates below.
pub use sb_pardo::{
    Change, Field, MAX_ADDENDS, MAX_ROWS, Op, RowFault, Table, TableFault, TableStop, Test, apply,
    is_valid,
};
pub use sb_windowed::{
    Agg, BadWindow, Combine, Dropped, END_MARK, Ends, Grouping, Intake, Item, KeptRec, Key,
    KeyedWindow, Keys, LatePolicy, MAX_KEY, MAX_LINE_LENGTH, MAX_LINES, MAX_ROW_LENGTH, MAX_SIZE,
    MAX_TIME, MAX_TOP, MAX_WINDOWS_OF_A_TIME, MAX_WORD_LENGTH, Malformed, NoMemory, Record,
    Refusal, RowBuf, Sequence, Side, Stop, Stream, Streams, TextBuf, Trail, UsualRecord, Windows,
    Word, aggregated, pair_values, read_line, read_number, row_bytes,
};
