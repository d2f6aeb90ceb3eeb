//! A step of a node: a bundle, or a whole closing.

ghost use Rattle.std.specs.Prelude.{◌≡◌, ◌≤◌, [], true, length, All, Some, Ok, slice_get, is_some};
ghost use Rattle.std.specs.Prelude.{IfOk, OnOk, IfSome, IfNone};
ghost use Rattle.sb_shown.specs.lane.declared.answers.LaneClose.{LaneClose as AClose};
ghost use Rattle.sb_shown.specs.lane.Looks.{look_of};
ghost use Rattle.sb_shown.specs.lane.LaneView.{LaneView};
ghost use Rattle.sb_shown.specs.lane.Placed.{conts_of};
ghost use Rattle.sb_shown.specs.lane.Taking.{take_first};
ghost use Rattle.sb_shown.specs.node.declared.state.NodeState.{NodeState as ANode};
ghost use Rattle.sb_shown.specs.Linking.{KeepsLinks};
ghost use Rattle.sb_hand.specs.Readiness.{IsReady};
ghost use Rattle.sb_hand.specs.Stepping.{Steps};
ghost use Rattle.sb_shown.specs.node.Looking.{CannotClose, NoneWaits};

use crate::bundles::work_off;
use crate::closings::close_node;
use crate::did::Did;
use sb_shown::{Lane, NoMemory, NodeState, Plan, Record};
use std::alloc::Global;

/// The first lane whose oldest container can close, and that container's epoch.
fn closable_lane(lanes: &[Lane]) -> Option<(u32, u64)>
    requires { length lanes.now ≤ 2 }
    ensures some { IfSome result (λ p. (at : LaneView) × (slice_get lanes.now p.0 ≡ Some at)
        × (close : AClose) × (look_of (conts_of at.containers) ≡ Ok close) × (close.epoch ≡ p.1)) }
    ensures none { IfNone result (All CannotClose lanes.now) }
{
    for lane in 0..lanes.len() {
        if let Ok(close) = lanes[lane].look() {
            return Some((lane as u32, close.epoch));
        }
    }
    None
}

/// A closing of a node in which nothing waits, if one can begin.
fn close_step(
    plan: &Plan,
    size: u32,
    nodes: &mut Vec<NodeState>,
    tray: &mut Vec<Record>,
    node: u32,
) -> Result<Did, NoMemory>
    requires ready { IsReady plan.now size [] nodes.old.items }
    requires node { node ≤ length plan.now.steps }
    requires idle { (own : ANode) → slice_get nodes.old.items node ≡ Some own → All NoneWaits own.lanes.items }
    ensures steps { IfOk result
        (Steps plan.now size node nodes.old.items tray.old.items nodes.new.items tray.new.items) }
    ensures links { OnOk result (KeepsLinks plan.now nodes.old.items nodes.new.items) }
{
    match closable_lane(nodes[node as usize].lanes.as_slice()) {
        Some((lane, epoch)) => {
            close_node(plan, size, nodes, tray, node, lane, epoch)?;
            Ok(Did::Closing)
        }
        None => Ok(Did::Nothing),
    }
}

/// A step of a node.
pub(crate) fn step_node(
    alloc: Global,
    plan: &Plan,
    size: u32,
    nodes: &mut Vec<NodeState>,
    tray: &mut Vec<Record>,
    node: u32,
) -> Result<Did, NoMemory>
    requires ready { IsReady plan.now size [] nodes.old.items }
    requires node { node ≤ length plan.now.steps }
    ensures steps { IfOk result
        (Steps plan.now size node nodes.old.items tray.old.items nodes.new.items tray.new.items) }
    ensures links { OnOk result (KeepsLinks plan.now nodes.old.items nodes.new.items) }
{
    match nodes[node as usize].waiting_lane() {
        Some(lane) => {
            work_off(alloc, plan, size, nodes, node, lane)?;
            Ok(Did::Bundle)
        }
        None => close_step(plan, size, nodes, tray, node),
    }
}
