//! Events: what changes a moment.

use sb_containers::{Record, Sequence, Stream};

/// A single change of a moment. Workers make them in any order: each has a condition, and only where that holds the
/// event can happen.
#[derive(Drop)]
pub enum Event {
    /// Records of a stream come as a bundle of the next epoch of its lane: at least one and at most the moment's
    /// `bundle`, with times from the epoch's floor to 10^15.
    Arrive {
        stream: Stream,
        records: Sequence<Record>,
    },
    /// A watermark of a stream comes: it is not below the one before, and seals the next epoch of the stream's lane.
    Seal {
        stream: Stream,
        mark: u64,
    },
    /// A worker takes a waiting bundle.
    Take {
        node: u32,
        lane: u32,
        number: u64,
    },
    /// A bundle that a ParDo was given puts its output into the same epoch of the lane below; with number 0, a closing
    /// puts its next rows there, into the epoch of its serial.
    Deliver {
        node: u32,
        lane: u32,
        number: u64,
    },
    /// A worker has done with a bundle: a window operator and the sink keep its records.
    Finish {
        node: u32,
        lane: u32,
        number: u64,
    },
    /// A closing begins, of the oldest container of a lane: it is sealed, and no bundle of it is waiting or out.
    Begin {
        node: u32,
        lane: u32,
    },
    /// A closing whose rows are delivered passes its watermark to the lane below.
    Pass {
        node: u32,
    },
    /// A closing that has passed its watermark ends: its container is removed.
    End {
        node: u32,
    },
}
