//! The bundles of a lane, as far as the lines of a diary speak of them.

/// How far a bundle has come.
#[derive(Clone, Copy, Debug, PartialEq, Eq)]
pub enum Stage {
    /// It came, and no worker has taken it.
    Waiting,
    /// A worker has it.
    Taken,
    /// It was finished.
    Done,
}

/// A bundle that came into a lane.
#[derive(Clone, Copy, Debug, PartialEq, Eq)]
pub struct Came {
    /// The epoch of the lane in which it came, from 0.
    pub epoch: u64,
    /// How far it has come.
    pub stage: Stage,
}
