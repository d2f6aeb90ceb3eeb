//! What an input feeds.

use sb_feed::{Bundle, Stop, Stream, Streams};

/// A value that an input feeds.
#[derive(Drop)]
pub enum InputFed {
    /// Which streams are read, and the most records of a bundle. It is the first value of each ring, and is taken out
    /// where the ring is made.
    Begin(Streams, u32),
    /// A bundle of a stream, of the epoch behind the watermarks of the stream that were sent.
    Bundle(Stream, Bundle),
    /// A watermark of a stream: it seals the epoch.
    Mark(Stream, u64),
    /// Reading stopped, and all that comes before was sent. Nothing follows.
    Stop(Stop),
    /// The reader found no memory. Nothing follows.
    NoMemory,
}
