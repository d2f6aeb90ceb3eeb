//! How a run over two record files ends.

use sb_feeds::{Refusal, Stream};
use sb_hand::Hand;

/// How a run over two record files ends. Where several ends hold, `Memory` comes before `Output` and `Tap`, and these
/// before `Refused`.
#[derive(Drop)]
pub enum TwoEnd {
    /// Both files were read to their end, and all rows were written. The engine comes back with its diaries.
    Done(Hand),
    /// A line is refused: the first of file a that is, or else the first of file b.
    Refused { stream: Stream, refusal: Refusal },
    /// Writing failed.
    Output,
    /// A tap failed: its place, from 0, in the list as the row was offered.
    Tap { place: u32 },
    /// There was no memory.
    Memory,
}
