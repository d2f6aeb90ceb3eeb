//! Bundles in the hand of a worker.

use sb_base::Bundle;

/// A bundle that a worker has taken, and the lane of the node where it waited.
#[derive(Drop)]
pub struct Claim {
    /// The node: a transform, or the sink after them.
    pub node: u32,
    /// The lane: 0, or 1 for the right input of a join.
    pub lane: u32,
    /// The bundle, with the number that its lane gave it.
    pub bundle: Bundle,
}
