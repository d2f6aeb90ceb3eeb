//! How rows leave the engine: to an output, which takes all of them, and past taps, which look at them one at a time.
//!
//! A [`RowOut`] takes rows in the order of their windows: [`Printing`] writes their text to a sink of bytes, [`Lent`]
//! to one that is lent, and [`Summary`] keeps three numbers of them. A [`Tap`] says behind each row whether it has
//! enough: [`offer`] offers a row to a list of taps and drops those that have. [`HeadTap`] writes the first rows, and
//! [`CountTap`] counts all. None of them takes memory.
#![tactic(auto)]

mod batch;
mod count_tap;
mod head_tap;
mod lent;
mod offering;
mod output;
mod printing;
mod seen_rows;
mod summary;
mod tap;

pub use count_tap::CountTap;
pub use head_tap::HeadTap;
pub use lent::Lent;
pub use offering::{TapStop, offer};
pub use output::RowOut;
pub use printing::Printing;
pub use summary::Summary;
pub use tap::{Tap, TapFault, Wish};

// What the crates above name of the crates below.
pub use sb_outside::SinkFault;
pub use sb_record::{END_MARK, Key, Keys, MAX_KEY, NoMemory, Record, Trail, Word, read_number};
