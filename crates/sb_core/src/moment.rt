//! Moments: the whole state of the engine between two events.

use crate::held::Held;
use sb_containers::{CoreLane, KeptRec, Record, Sequence};

/// A transform's state, or the sink's.
#[derive(Drop)]
pub struct Node {
    pub lanes: Sequence<CoreLane>,
    /// The records that the node has absorbed and not yet given up.
    pub kept: Sequence<KeptRec>,
    /// How many closings have begun.
    pub closings: u64,
}

/// The state of the engine between two events.
#[derive(Drop)]
pub struct Moment {
    /// The most records of a bundle, 1 to 65,536.
    pub bundle: u32,
    /// The nodes: the transforms of the plan in their order, and the sink.
    pub nodes: Sequence<Node>,
    /// What workers have in hand.
    pub held: Sequence<Held>,
    /// All rows that the sink has closed, in order.
    pub rows: Sequence<Record>,
}
