//! The engine that several workers share, as a run feeds it.
//!
//! A cascade is an `Engine` of `sb_feed`, as the hand of one worker is. Here is how its workers begin, help and come
//! back, and what the worker that feeds does between two values of its input.
#![tactic(auto)]

mod beginning;
mod shared;
mod team;

pub use beginning::{Begun, begin};
pub use sb_alone::{MAX_WORKERS, RunEnd, Sizes, TwoEnd, early_end, end_of, execute_alone};
pub use shared::common::{Common, Passes};
pub use shared::feeder::Feeder;
pub use shared::feeding::{end_work, reason_of};
pub use shared::handing::come_back;
pub use shared::helping::help_all;
pub use shared::joining::feed_beside_helpers;
pub use shared::pace::Pace;
pub use shared::working::{step_or_yield, step_too, take_out};
pub use team::Team;

// What the crates above name of the crates below.
pub use sb_alone::{
    ByStream, Cutters, Fed, FeedDone, FeedIn, FeedOut, FeedStop, GiveStop, InputFed, InputIn,
    InputOut, LineBuffer, MAX_FILE_LENGTH, Patience, RowOut, RowsIn, RowsSender, Signals, Source,
    SourceFault, Tap, end_input, feed_file, feed_input, feed_pair, give_out, input_pair,
    keep_dropped, next_item, print_rows, rows_pair, take_item, take_value, uses,
};
pub use sb_worker::{
    Cascade, CascadePass, Did, Down, Dropped, END_MARK, Gate, Hand, Intake, Item, Keys, LatePolicy,
    MAX_BUNDLE, MAX_LINES, MAX_TIME, NoMemory, OpenGate, Plan, Refusal, Stop, Stream, Streams,
};
