//! Whether a container is left in any lane.

ghost use Rattle.std.specs.Prelude.{◌≡◌, ◌↔◌, IsTrue, All, []};
ghost use Rattle.sb_hand.specs.Hands.{NoneLeft};

use sb_shown::{Lane, NodeState};

/// Whether the lane has no container.
fn is_lane_empty(lane: &Lane) -> bool
    ensures { IsTrue result ↔ lane.now.containers ≡ [] }
{
    lane.is_empty()
}

/// Whether no lane of the node has a container.
fn is_node_empty(own: &NodeState) -> bool
    ensures { IsTrue result ↔ All (λ lane. lane.containers ≡ []) own.now.lanes.items }
{
    own.lanes.iter().all(|lane| is_lane_empty(lane))
}

/// Whether no lane of any node has a container.
pub(crate) fn is_none_left(nodes: &[NodeState]) -> bool
    ensures { IsTrue result ↔ NoneLeft nodes.now }
{
    nodes.iter().all(|own| is_node_empty(own))
}
