//! What a lane answers.

use sb_containers::Bundle;

/// A closing that can begin: the epoch of the oldest container, and the watermark that ended the epoch.
#[derive(Clone, Copy, Debug, PartialEq, Eq)]
pub struct LaneClose {
    pub epoch: u64,
    pub mark: u64,
}

/// Why no closing can begin: the first of these that holds of the oldest container.
#[derive(Clone, Copy, Debug, PartialEq, Eq)]
pub enum NotYet {
    /// There is no container.
    NoContainer,
    /// It is already closing.
    Closing { epoch: u64 },
    /// Its watermark has not come.
    Unsealed { epoch: u64 },
    /// So many of its bundles wait.
    Waiting { epoch: u64, count: u64 },
    /// So many of its bundles are out.
    Out { epoch: u64, count: u64 },
}

/// There was not enough memory for this bundle.
#[derive(Drop)]
pub struct NoMemoryWith(pub Bundle);

/// Why an arriving bundle, which it hands back, was refused.
#[derive(Drop)]
pub enum ArriveStop {
    /// As many bundles as the lane lets be unfinished wait or are out.
    Full(Bundle),
    /// There was not enough memory.
    Memory(Bundle),
}
