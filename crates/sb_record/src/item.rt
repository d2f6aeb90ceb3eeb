//! Records, streams and items: the types that the whole engine speaks of.

ghost use Rattle.std.specs.Prelude.{⊤};

use crate::key::Key;
use std::alloc::{AllocError, AllocFailed};

/// The greatest time of a record or a watermark of an input. A time is a whole number without a unit of its own: what
/// it counts (seconds, milliseconds) is up to whoever writes the input.
pub const MAX_TIME: u64 = 1_000_000_000_000_000;

/// The watermark of every stream once the input has ended. It is above every time in the engine.
pub const END_MARK: u64 = 2_000_000_000_000_000;

/// There was not enough memory.
#[derive(Clone, Copy, Debug, PartialEq, Eq)]
pub struct NoMemory;

impl From<AllocError> for NoMemory {
    ghost from_gives = { λ _ _. ⊤ };

    fn from(_: AllocError) -> NoMemory {
        NoMemory
    }
}

impl<T: Drop> From<AllocFailed<T>> for NoMemory {
    ghost from_gives = { λ _ _. ⊤ };

    fn from(_: AllocFailed<T>) -> NoMemory {
        NoMemory
    }
}

/// An event: when it happened, what it is about, and a number. Records are ordered by time, then key, then value.
#[derive(Clone, Copy, Debug, PartialEq, Eq, PartialOrd, Ord)]
pub struct Record {
    /// When the event happened (its event time), not when its line was read.
    pub time: u64,
    /// What the event is about.
    pub key: Key,
    /// The number that it carries.
    pub value: i64,
}

/// One of the two streams of an input.
#[derive(Clone, Copy, Debug, PartialEq, Eq)]
pub enum Stream {
    A,
    B,
}

/// The streams that a pipeline reads.
#[derive(Clone, Copy, Debug, PartialEq, Eq)]
pub struct Streams {
    pub a: bool,
    pub b: bool,
}

/// What a line gives.
#[derive(Clone, Copy, Debug, PartialEq, Eq)]
pub enum Item {
    /// A record of a stream.
    Rec(Stream, Record),
    /// A watermark of a stream: no later record of the stream has a time below it.
    Mark(Stream, u64),
    /// Nothing: the line is a comment.
    Skip,
    /// A record that came too late and is dropped: the number of its line, its time, and the last watermark of its
    /// stream, which is above that time. It is no record and no watermark.
    Late { line: u64, time: u64, mark: u64 },
}

/// What is left of a late record that was dropped: the number of its line, its time, and the last watermark of its
/// stream.
#[derive(Clone, Copy, Debug, PartialEq, Eq)]
pub struct Dropped {
    pub line: u64,
    pub time: u64,
    pub mark: u64,
}
