//! The items of a record file, or the bundles of any input, which reach the engine's feeder through a ring.
//!
//! A thread reads a file by [`feed_file`]: each item that is accepted goes into the ring, and then why reading stopped.
//! The feeder takes them out by [`FeedIn::pop`], which never waits. Once the thread has ended, both ends are in one
//! hand again, and [`FeedIn::tie`] says that what was taken out are the first of what the file fed, in their order,
//! and all of it if the stop was among them.
//!
//! A thread reads an input by [`feed_input`]: it cuts the items into bundles, and these go into the ring with the
//! watermarks that seal their epochs, and then why reading stopped. It ends early once the feeder says by [`Signals`]
//! that it needs nothing more. Of each value that the feeder takes out by [`InputIn::pop`] it knows at once that an
//! engine may be fed it, by [`take_value`], and by [`InputIn::tie`] in the end that what it took out are the first of
//! what the input gave.
//!
//! The rows of a feeder may go through a ring, too: [`RowsSender`] is an output that sends them, and [`print_rows`]
//! writes what comes out to the true output, in another thread. By [`RowsIn::tie`] it is known in the end that what came
//! out are the first of what was sent.
//!
//! No contract says how soon a value that one thread put in is seen by the other.
#![tactic(auto)]

mod by_stream;
mod ends;
mod fed;
mod feeding;
mod file;
mod input;
pub mod laws;
mod limits;
mod ring;
mod rows;

pub use by_stream::ByStream;
pub use ends::{FeedDone, FeedIn, FeedOut};
pub use fed::{Fed, FeedStop};
pub use feeding::feed_file;
pub use input::ends::{InputIn, InputOut};
pub use input::fed::InputFed;
pub use input::patience::Patience;
pub use input::ring::{INPUT_PLACES, input_pair};
pub use input::sending::feed_input;
pub use input::signals::Signals;
pub use input::taking::take_value;
pub use limits::MAX_FILE_LENGTH;
pub use ring::{RING_PLACES, feed_pair};
pub use rows::ends::{RowsIn, RowsOut};
pub use rows::fed::RowsFed;
pub use rows::printing::print_rows;
pub use rows::ring::{ROWS_PLACES, rows_pair};
pub use rows::sending::RowsSender;

// What the crates above name of the crates below.
pub use sb_feed::{
    Bundle, CountTap, Cutters, Dropped, END_MARK, Engine, Folder, FolderFault, GiveStop, HeadTap,
    Intake, Item, Key, Keys, LatePolicy, Lent, LineBuffer, MemSink, NoMemory, Plan, Printing,
    Record, Refusal, RowOut, Sink, SinkFault, Source, SourceFault, Stop, Stream, Streams, Summary,
    Tap, end_input, feed, give_out, keep_dropped, next_item, take_item, uses, write_all_of,
};
