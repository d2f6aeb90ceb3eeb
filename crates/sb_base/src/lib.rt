//! The common ground: what flows through the engine, and what it is asked.
//!
//! Records and rows, windows, transforms of every kind, plans and bundles, each from the crate that defines it. The
//! crates of the engine stand on this one library in place of seven: as the kit's build goes through the lists of
//! crates by each of their paths, short lists are quick ones. Nothing is defined here but a word on what there is of
//! both streams (`specs/Inputs.antt`).
#![tactic(auto)]

pub use sb_bundle::{Bundle, Cutter, MAX_BUNDLE};
pub use sb_pipeline::{
    Agg, BadWindow, Change, Combine, Down, Dropped, END_MARK, Ends, Field, Grouping, Intake, Item,
    KeptRec, Key, KeyedWindow, Keys, Kind, LatePolicy, MAX_ADDENDS, MAX_GAP, MAX_KEY,
    MAX_LINE_LENGTH, MAX_LINES, MAX_ROW_LENGTH, MAX_ROWS, MAX_SIZE, MAX_TIME, MAX_TOP,
    MAX_TRANSFORMS, MAX_WINDOWS_OF_A_TIME, MAX_WORD_LENGTH, Malformed, NoMemory, Op, Plan, Record,
    Refusal, RowBuf, RowFault, Sequence, Side, Step, Stop, Stream, Streams, Table, TableFault,
    TableStop, Test, TextBuf, Trail, UsualRecord, Windows, Word, aggregated, apply, is_valid,
    pair_values, read_line, read_number, row_bytes, sum_plan,
};
