//! The state of a node.

use crate::kept::Kept;
use sb_diary::Diary;
use sb_lane::Lane;

/// The state of a transform or of the sink.
#[derive(Drop)]
pub struct NodeState {
    /// Its inputs: one, or the left and the right of a join.
    pub lanes: Vec<Lane>,
    /// What it keeps between two closings.
    pub kept: Kept,
    /// How many of its closings have begun.
    pub closings: u64,
    /// What became of its bundles and watermarks.
    pub diary: Diary,
}
