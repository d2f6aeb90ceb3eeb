//! What the answers to all commands share: what is said of them, how they end, and what is loaded for them.
#![tactic(auto)]

mod diaries;
mod ending;
mod limits;
mod loading;
mod running;

pub use diaries::Diaries;
pub use ending::Ending;
pub use limits::{MAX_CHECKPOINT_BYTES, WORK_WINDOW};
pub use loading::{load_both, load_checkpoint, load_plan, plan_to_cut};
pub use running::{finish_after, sizes_of, status_behind};

// What the crates above name of the crates below.
pub use sb_alone::{
    Dropped, END_MARK, Folder, Key, Lent, NoMemory, OpenGate, Plan, Record, Sequence, Sink,
    SinkFault, Source, Stop, Summary, Tap, sum_plan,
};
pub use sb_generator::GenSource;
pub use sb_live::{LiveOut, LiveRows, key_named, live};
pub use sb_told::{
    DiaryHalt, Input, Kept, LateRecords, Note, PlanStop, Status, audit_line, note_of, print,
    read_diary, read_input, rows_of_streams, write_rows,
};
pub use sb_words::{Options, Request};
