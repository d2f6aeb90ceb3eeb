//! What workers have in hand: bundles, and closings.

use sb_containers::{Record, Sequence};

/// A bundle that a worker has taken, or a closing that one has begun.
#[derive(Drop)]
pub enum Held {
    /// A bundle.
    Work {
        node: u32,
        lane: u32,
        epoch: u64,
        floor: u64,
        /// The number of the bundle in its lane.
        number: u64,
        records: Sequence<Record>,
        /// Whether what it gives has been put into the lane below.
        delivered: bool,
    },
    /// A closing of a node.
    Close {
        node: u32,
        lane: u32,
        /// The epoch of the container that is closing, in its own lane.
        epoch: u64,
        /// The number of the closing among those of its node, from 0: the epoch of its rows in the lane below. With one
        /// lane it is the `epoch`. A node of two lanes closes epochs of both, and the lane below counts them all.
        serial: u64,
        /// The mark of the node's closing before, 0 for the first.
        floor: u64,
        /// The watermark that is passed below.
        mark: u64,
        /// The rows that are not yet delivered, in order.
        rows: Sequence<Record>,
        /// Whether the mark has been passed.
        passed: bool,
    },
}
