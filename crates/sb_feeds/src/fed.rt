//! What a record file feeds.

use sb_feed::{Item, Refusal};

/// Why the reading of a file stopped.
#[derive(Clone, Copy, Debug, PartialEq, Eq, Drop)]
pub enum FeedStop {
    /// The file has ended, and each line was accepted.
    End,
    /// A line is refused. Nothing behind it was read.
    Refused(Refusal),
}

/// A value that a file feeds.
#[derive(Clone, Copy, Debug, PartialEq, Eq, Drop)]
pub enum Fed {
    /// What an accepted line gives. It is no [`Item::Skip`].
    Item(Item),
    /// Reading stopped. Nothing follows.
    Stop(FeedStop),
}
