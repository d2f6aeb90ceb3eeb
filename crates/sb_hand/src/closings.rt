//! Whole closings.

ghost use Rattle.std.specs.Prelude.{◌≡◌, ◌<◌, ◌≤◌, ◌++◌, ◌+◌, ◌∷◌, [], true, false, length, drop, take, OnOk, IfOk, Ok};
ghost use Rattle.sb_shown.specs.core.containers.Marks.{first_is_closing};
ghost use Rattle.sb_shown.specs.diary.declared.event.DiaryEvent.TheVariants as line;
ghost use Rattle.sb_shown.specs.lane.LaneView.{LaneView, lane_of};
ghost use Rattle.sb_shown.specs.lane.Looks.{look_of};
ghost use Rattle.sb_shown.specs.lane.Placed.{conts_of};
ghost use Rattle.sb_shown.specs.lane.declared.answers.LaneClose.{LaneClose as AClose};
ghost use Rattle.sb_shown.specs.node.LinkChanges.{DropsLink};
ghost use Rattle.sb_hand.specs.LaneGoing.{LaneGoes};
ghost use Rattle.sb_shown.specs.Linking.{KeepsLinks, StandsBelow};
ghost use Rattle.sb_hand.specs.Readiness.{CanDeliver, IsReady};
ghost use Rattle.sb_hand.specs.Runs.{close_of, Delivers, Ends, ClosesNode};
ghost use Rattle.sb_shown.specs.Sets.{HasLane, Turns};

use crate::events::{begin_at, end_at, put_at, put_first, seal_at};
use sb_shown::{Bundle, Closing, NoMemory, NodeState, Plan, Record, Sequence};
use std::alloc::Global;

/// The first records of a list.
fn first_of(alloc: Global, rows: &[Record], count: usize) -> Result<Sequence<Record>, NoMemory>
    requires { count ≤ length rows.now }
    ensures { IfOk result (λ records. records ≡ take count rows.now) }
{
    match Vec::from_slice(alloc, &rows[..count]) {
        Ok(first) => Ok(Sequence::new(first)),
        Err(_) => Err(NoMemory),
    }
}

/// The first rows of a closing go below: how many are gone then, and where the container stands that took them.
fn deliver_first(
    alloc: Global,
    plan: &Plan,
    bundle: u32,
    nodes: &mut Vec<NodeState>,
    closing: &Closing,
) -> Result<(usize, u64), NoMemory>
    requires can { CanDeliver plan.now bundle closing.now nodes.old.items }
    requires some { 0 < length closing.now.rows.items }
    ensures within { IfOk result (λ r. r.0 ≤ length closing.now.rows.items) }
    ensures does { IfOk result (λ r. Delivers plan.now bundle closing.now
        nodes.old.items closing.now.rows.items nodes.new.items (drop r.0 closing.now.rows.items)) }
    ensures stands { IfOk result (λ r.
        StandsBelow plan.now closing.now.node closing.now.serial r.1 nodes.new.items) }
    ensures links { OnOk result (KeepsLinks plan.now nodes.old.items nodes.new.items) }
{
    let rows = closing.rows.as_slice();
    let count = (bundle as usize).min(rows.len());
    let records = first_of(alloc, rows, count)?;
    let place = put_first(
        nodes,
        plan.down(closing.node),
        Bundle {
            number: 0,
            epoch: closing.serial,
            floor: closing.floor,
            records,
        },
    )?;
    Ok((count, place))
}

/// The next rows of a closing go below: how many are gone then.
fn deliver_next(
    alloc: Global,
    plan: &Plan,
    bundle: u32,
    nodes: &mut Vec<NodeState>,
    closing: &Closing,
    place: u64,
    from: usize,
) -> Result<usize, NoMemory>
    requires ready { IsReady plan.now bundle
        (close_of closing.now (drop from closing.now.rows.items) false ∷ []) nodes.old.items }
    requires node { closing.now.node < length plan.now.steps }
    requires from { from < length closing.now.rows.items }
    requires stands { StandsBelow plan.now closing.now.node closing.now.serial place nodes.old.items }
    ensures more { IfOk result (λ upto. (from < upto) × (upto ≤ length closing.now.rows.items)) }
    ensures does { IfOk result (λ upto. Delivers plan.now bundle closing.now
        nodes.old.items (drop from closing.now.rows.items) nodes.new.items (drop upto closing.now.rows.items)) }
    ensures stands { OnOk result
        (StandsBelow plan.now closing.now.node closing.now.serial place nodes.new.items) }
    ensures links { OnOk result (KeepsLinks plan.now nodes.old.items nodes.new.items) }
{
    let (_, rest) = closing.rows.as_slice().split_at(from);
    let count = (bundle as usize).min(rest.len());
    let records = first_of(alloc, rest, count)?;
    put_at(
        nodes,
        plan.down(closing.node),
        place,
        Bundle {
            number: 0,
            epoch: closing.serial,
            floor: closing.floor,
            records,
        },
    )?;
    Ok(from + count)
}

/// The rows of a closing go below, a bundle at a time: the first to a container that is made, the others there too.
fn deliver_some(
    alloc: Global,
    plan: &Plan,
    bundle: u32,
    nodes: &mut Vec<NodeState>,
    closing: &Closing,
) -> Result<(), NoMemory>
    requires can { CanDeliver plan.now bundle closing.now nodes.old.items }
    requires some { 0 < length closing.now.rows.items }
    ensures does { OnOk result
        (Delivers plan.now bundle closing.now nodes.old.items closing.now.rows.items nodes.new.items []) }
    ensures links { OnOk result (KeepsLinks plan.now nodes.old.items nodes.new.items) }
{
    let (first, place) = deliver_first(alloc, plan, bundle, nodes, closing)?;
    let mut from = first;
    while from < closing.rows.len() {
        from = deliver_next(alloc, plan, bundle, nodes, closing, place, from)?;
    }
    Ok(())
}

/// The rows of a closing, if it has some, go below.
fn deliver_rows(
    alloc: Global,
    plan: &Plan,
    bundle: u32,
    nodes: &mut Vec<NodeState>,
    closing: &Closing,
) -> Result<(), NoMemory>
    requires { CanDeliver plan.now bundle closing.now nodes.old.items }
    ensures does { OnOk result
        (Delivers plan.now bundle closing.now nodes.old.items closing.now.rows.items nodes.new.items []) }
    ensures links { OnOk result (KeepsLinks plan.now nodes.old.items nodes.new.items) }
{
    if closing.rows.is_empty() {
        Ok(())
    } else {
        deliver_some(alloc, plan, bundle, nodes, closing)
    }
}

/// The closing of a transform, which has begun, comes to its end: rows and watermark go below.
fn close_transform(
    alloc: Global,
    plan: &Plan,
    bundle: u32,
    nodes: &mut Vec<NodeState>,
    closing: &Closing,
) -> Result<(), NoMemory>
    requires { CanDeliver plan.now bundle closing.now nodes.old.items }
    ensures ends { OnOk result (Ends plan.now bundle closing.now nodes.old.items nodes.new.items) }
    ensures links { OnOk result (KeepsLinks plan.now nodes.old.items nodes.new.items) }
{
    deliver_rows(alloc, plan, bundle, nodes, closing)?;
    seal_at(nodes, plan.down(closing.node), closing.mark)?;
    end_at(nodes, closing.node, closing.lane, closing.epoch)
}

/// The closing of the sink, which has begun, comes to its end: its rows go to the tray.
fn close_sink(
    nodes: &mut Vec<NodeState>,
    tray: &mut Vec<Record>,
    closing: Closing,
) -> Result<(), NoMemory>
    requires { (at : LaneView) × HasLane closing.node closing.lane at nodes.old.items
        × (first_is_closing (conts_of at.containers) ≡ true) × (at.ended < length at.marks) }
    ensures tray { OnOk result (tray.new.items ≡ tray.old.items ++ closing.rows.items) }
    ensures ends { OnOk result ((at : LaneView) → HasLane closing.node closing.lane at nodes.old.items
        → Turns closing.node closing.lane nodes.old.items nodes.new.items at
        (record (lane_of at) { conts = drop 1 (conts_of at.containers); ended = at.ended + 1 })
        (line.End closing.lane closing.epoch)) }
    ensures links { OnOk result (LaneGoes closing.node closing.lane DropsLink nodes.old.items nodes.new.items) }
{
    let (node, lane, epoch) = (closing.node, closing.lane, closing.epoch);
    let mut rows = closing.rows;
    match tray.append(&mut rows) {
        Ok(()) => end_at(nodes, node, lane, epoch),
        Err(_) => Err(NoMemory),
    }
}

/// A whole closing of a node, of the oldest container of a lane, which may close.
pub(crate) fn close_node(
    plan: &Plan,
    bundle: u32,
    nodes: &mut Vec<NodeState>,
    tray: &mut Vec<Record>,
    node: u32,
    lane: u32,
    epoch: u64,
) -> Result<(), NoMemory>
    requires ready { IsReady plan.now bundle [] nodes.old.items }
    requires node { node ≤ length plan.now.steps }
    requires at { (at : LaneView) × HasLane node lane at nodes.old.items }
    requires looks { (at : LaneView) → HasLane node lane at nodes.old.items
        → (close : AClose) × (look_of (conts_of at.containers) ≡ Ok close) × (close.epoch ≡ epoch) }
    ensures closes { OnOk result (ClosesNode plan.now bundle node lane
        nodes.old.items tray.old.items nodes.new.items tray.new.items) }
    ensures links { OnOk result (KeepsLinks plan.now nodes.old.items nodes.new.items) }
{
    let closing = begin_at(nodes, node, lane, epoch)?;
    if node < plan.transforms() {
        let alloc = *nodes.allocator();
        close_transform(alloc, plan, bundle, nodes, &closing)
    } else {
        close_sink(nodes, tray, closing)
    }
}
