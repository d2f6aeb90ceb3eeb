//! How a run of the engine ends.

use sb_feeds::Refusal;
use sb_hand::Hand;

/// How a run of the engine ends. Where several ends hold, `Memory` comes before `Output` and `Tap`, and these before
/// `Refused` and `Input`.
#[derive(Drop)]
pub enum RunEnd {
    /// The input was read to its end, and all rows were written. The engine comes back with its diaries.
    Done(Hand),
    /// A line is refused: the first one that is.
    Refused(Refusal),
    /// Reading failed.
    Input,
    /// Writing failed.
    Output,
    /// A tap failed: its place, from 0, in the list as the row was offered.
    Tap { place: u32 },
    /// There was no memory.
    Memory,
}
