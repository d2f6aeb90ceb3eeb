//! A run with one worker, and how every run ends.
//!
//! The engine is a hand, which works off all that comes before the next line is read ([`execute_alone`]). It waits for
//! nobody and starts no thread. What the ends of runs say ([`RunEnd`], [`TwoEnd`]) and their sizes ([`Sizes`]) is here
//! too: a run that several workers share ends in the same words, and so do all that answer for runs.
#![tactic(auto)]

mod alone;
mod ending;
mod one_hand;
mod run_end;
mod sizes;
mod two_end;
mod working;

pub use alone::execute_alone;
pub use ending::{early_end, end_of};
pub use run_end::RunEnd;
pub use sizes::{MAX_WORKERS, Sizes};
pub use two_end::TwoEnd;
pub use working::flow;

// What the crates above name of the crates below.
pub use sb_feeds::{
    ByStream, Cutters, Engine, Fed, FeedDone, FeedIn, FeedOut, FeedStop, Folder, FolderFault,
    GiveStop, InputFed, InputIn, InputOut, Lent, LineBuffer, MAX_FILE_LENGTH, Patience, RowOut,
    RowsIn, RowsSender, Signals, Sink, SinkFault, Source, SourceFault, Summary, Tap, end_input,
    feed, feed_file, feed_input, feed_pair, give_out, input_pair, keep_dropped, next_item,
    print_rows, rows_pair, take_item, take_value, uses, write_all_of,
};
pub use sb_hand::{
    Bundle, DiaryEvent, DiaryLine, Dropped, END_MARK, Hand, Key, MAX_BUNDLE, NoMemory, OpenGate,
    Plan, Record, Sequence, Stop, Stream, TextBuf, line_bytes, sum_plan,
};
