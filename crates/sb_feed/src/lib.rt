//! What is fed to an engine: the lines of an input become items, and items become bundles and watermarks. And what
//! comes out of it: rows are written, and then offered to taps.
//!
//! [`feed`] feeds the lines of an input to any [`Engine`]. It does so item by item: [`next_item`] gives them one at a
//! time, or [`next_usual`] a record in the usual form and [`next_other`] every other item. [`take_item`] feeds one, for
//! which [`Cutters`] cut the records of each stream into bundles and [`keep_dropped`] lists a late record that the plan
//! drops, and [`end_input`] feeds the end. What a cutter gives comes to the engine by [`arrive`], and a watermark by
//! [`seal`]. [`give_out`] writes the rows that come out, and offers them. The crate's definitions say what feeding does
//! as a whole.
#![tactic(auto)]

mod coming;
mod cutters;
mod dropping;
mod ending;
mod engine;
mod feeding;
mod give;
mod reading;
mod taking;

pub use coming::{arrive, seal};
pub use cutters::Cutters;
pub use dropping::keep_dropped;
pub use ending::{end_input, uses};
pub use engine::Engine;
pub use feeding::feed;
pub use give::{GiveStop, give_out};
pub use reading::{next_item, next_other, next_usual};
pub use taking::take_item;

// What the crates above name of the crates below.
pub use sb_base::{
    Bundle, Dropped, END_MARK, Intake, Item, Key, Keys, LatePolicy, MAX_BUNDLE, MAX_LINES,
    NoMemory, Plan, Record, Refusal, RowFault, Sequence, Stop, Stream, Streams, TableFault,
    TextBuf, row_bytes,
};
pub use sb_emit::{CountTap, HeadTap, Lent, Printing, RowOut, Summary, Tap};
pub use sb_outside::{
    Folder, FolderFault, LineBuffer, MemSink, Sink, SinkFault, Source, SourceFault, Step,
    write_all_of,
};
