//! The nodes of a new hand.

ghost use Rattle.std.specs.Prelude.{◌≡◌, ◌≤◌, ◌+◌, IfOk, length, replicate, slice_get};
ghost use Rattle.sb_shown.specs.lane.LaneView.{empty_lane};
ghost use Rattle.sb_shown.specs.base.pipeline.Operators.{operator_at};
ghost use Rattle.sb_hand.specs.NewNodes.{AreNewNodes, IsNewNode};

use sb_shown::{Diary, Kept, Lane, NoMemory, NodeState, Plan};
use std::alloc::Global;

/// So many lanes in which nothing has arrived.
fn new_lanes(alloc: Global, count: u32, pending: u32) -> Result<Vec<Lane>, NoMemory>
    ensures { IfOk result (λ lanes. lanes.items ≡ replicate count (empty_lane pending)) }
{
    let mut lanes = Vec::new(alloc);
    for _lane in 0..count {
        lanes.push(Lane::new(alloc, pending))?;
    }
    Ok(lanes)
}

/// A transform or the sink, to which nothing has come.
fn new_node(
    alloc: Global,
    plan: &Plan,
    node: u32,
    pending: u32,
    keeps: bool,
) -> Result<NodeState, NoMemory>
    requires { node ≤ length plan.now.steps }
    ensures { IfOk result (λ own. IsNewNode (operator_at (slice_get plan.now.steps node)) pending keeps own) }
{
    let count = plan.lanes(node);
    let lanes = new_lanes(alloc, count, pending)?;
    Ok(NodeState {
        lanes,
        kept: Kept::new(alloc, plan, node),
        closings: 0,
        diary: Diary::new(alloc, count, keeps),
    })
}

/// A node for each transform and for the sink, to which nothing has come.
pub(crate) fn new_nodes(
    alloc: Global,
    plan: &Plan,
    pending: u32,
    keeps: bool,
) -> Result<Vec<NodeState>, NoMemory>
    ensures { IfOk result (λ nodes. AreNewNodes plan.now pending keeps (length plan.now.steps + 1) nodes.items) }
{
    let mut nodes = Vec::new(alloc);
    for node in 0..plan.transforms() + 1 {
        let own = new_node(alloc, plan, node, pending, keeps)?;
        nodes.push(own)?;
    }
    Ok(nodes)
}
