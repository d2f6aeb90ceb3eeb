//! The lines of a diary.

/// A line of a node's diary: what one event did to the node. Lanes count from 0 (a join has two, other nodes one),
/// epochs of a lane from 0, and bundles of a lane from 1.
#[derive(Clone, Copy, Debug, PartialEq, Eq)]
pub enum DiaryEvent {
    /// A bundle came into a lane: its epoch, its number, and how many records it has, at least 1.
    Arrive {
        lane: u32,
        epoch: u64,
        number: u64,
        length: u64,
    },
    /// A watermark came into a lane and sealed the epoch.
    Seal {
        lane: u32,
        epoch: u64,
        mark: u64,
    },
    /// A worker took a bundle.
    Take {
        lane: u32,
        number: u64,
    },
    /// It was finished: how many records were given below for it, 0 if it gave none or if the node gives rows only at a
    /// closing.
    Finish {
        lane: u32,
        number: u64,
        length: u64,
    },
    /// The closing of an epoch began: the watermark that the node passes on, and how many rows the closing gives.
    Begin {
        lane: u32,
        epoch: u64,
        mark: u64,
        rows: u64,
    },
    /// The closing ended.
    End {
        lane: u32,
        epoch: u64,
    },
}
