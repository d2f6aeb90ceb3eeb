//! A closing in hand.

use sb_work::Record;

/// A closing that has begun.
#[derive(Drop)]
pub struct Closing {
    /// The node: a transform, or the sink after them.
    pub node: u32,
    /// The lane whose oldest container is closing.
    pub lane: u32,
    /// The epoch of that container.
    pub epoch: u64,
    /// How many closings of the node had begun before: the epoch of its rows in the lane below.
    pub serial: u64,
    /// The mark up to which the node was closed before. No row has a lower time.
    pub floor: u64,
    /// The mark up to which the node is closed now. Each row has a lower time.
    pub mark: u64,
    /// The rows that are left to deliver.
    pub rows: Vec<Record>,
}
