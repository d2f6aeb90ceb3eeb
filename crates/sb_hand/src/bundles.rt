//! Whole bundles: taken, processed, delivered and finished.

ghost use Rattle.std.specs.Prelude.{◌≡◌, ◌≤◌, ◌∷◌, [], true, false, length, OnOk, slice_get, is_some};
ghost use Rattle.sb_shown.specs.core.Closings.{delivery, is_pardo};
ghost use Rattle.sb_shown.specs.lane.LaneView.{LaneView};
ghost use Rattle.sb_shown.specs.lane.Placed.{conts_of};
ghost use Rattle.sb_shown.specs.lane.Taking.{take_first};
ghost use Rattle.sb_shown.specs.base.pipeline.Operators.{operator_at};
ghost use Rattle.sb_shown.specs.work.Processing.{IsOutput};
ghost use Rattle.sb_shown.specs.Linking.{KeepsLinks};
ghost use Rattle.sb_hand.specs.Readiness.{CanGive, IsReady};
ghost use Rattle.sb_hand.specs.Runs.{work_of, FinishesWork, Gives, WorksOff};
ghost use Rattle.sb_shown.specs.Sets.{HasLane};

use crate::events::{down_at, finish_at, finish_part, link_at, put_at, put_first, take_at};
use sb_shown::{
    Bundle, Claim, NoMemory, NodeState, Output, Plan, Receipt, Record, Sequence, process,
};
use std::alloc::Global;

/// What a transform of single records gives for a bundle goes below, to where the bundle's container is linked. If that
/// is not known yet, it is from now on.
fn give(
    plan: &Plan,
    size: u32,
    nodes: &mut Vec<NodeState>,
    claim: &Receipt,
    given: Sequence<Record>,
) -> Result<(), NoMemory>
    requires { CanGive plan.now size claim.now given nodes.old.items }
    ensures gives { OnOk result (Gives plan.now size claim.now.node claim.now.lane claim.now.bundle
        nodes.old.items nodes.new.items) }
    ensures links { OnOk result (KeepsLinks plan.now nodes.old.items nodes.new.items) }
{
    // For the proof: clauses alone speak of the size.
    let _ = size;
    let (node, epoch, floor) = (claim.node(), claim.epoch(), claim.floor());
    let below = plan.down(node);
    let bundle = Bundle {
        number: 0,
        epoch,
        floor,
        records: given,
    };
    match down_at(nodes.as_slice(), node, epoch) {
        Some(place) => put_at(nodes, below, place, bundle),
        None => {
            let place = put_first(nodes, below, bundle)?;
            link_at(nodes, node, epoch, place);
            Ok(())
        }
    }
}

/// What a transform of single records gives for a bundle goes below, and the bundle is finished.
fn deliver_given(
    plan: &Plan,
    size: u32,
    nodes: &mut Vec<NodeState>,
    claim: &Receipt,
    given: Sequence<Record>,
) -> Result<(), NoMemory>
    requires { CanGive plan.now size claim.now given nodes.old.items }
    ensures finishes { OnOk result (FinishesWork plan.now size claim.now.node claim.now.lane claim.now.bundle
        nodes.old.items nodes.new.items) }
    ensures links { OnOk result (KeepsLinks plan.now nodes.old.items nodes.new.items) }
{
    let length = given.as_slice().len() as u64;
    give(plan, size, nodes, claim, given)?;
    finish_at(
        nodes,
        claim.node(),
        claim.lane(),
        claim.epoch(),
        claim.number(),
        length,
    )
}

/// A bundle for which a transform of single records gives nothing is finished.
fn finish_empty(
    plan: &Plan,
    size: u32,
    nodes: &mut Vec<NodeState>,
    claim: &Receipt,
) -> Result<(), NoMemory>
    requires ready { IsReady plan.now size (work_of claim.now.node claim.now.lane claim.now.bundle false ∷ [])
        nodes.old.items }
    requires pardo { is_pardo (operator_at (slice_get plan.now.steps claim.now.node)) ≡ true }
    requires none { delivery (operator_at (slice_get plan.now.steps claim.now.node)) claim.now.bundle.records ≡ [] }
    ensures finishes { OnOk result (FinishesWork plan.now size claim.now.node claim.now.lane claim.now.bundle
        nodes.old.items nodes.new.items) }
    ensures links { OnOk result (KeepsLinks plan.now nodes.old.items nodes.new.items) }
{
    // For the proof: clauses alone speak of the size.
    let _ = size;
    // For the proof: a plan keeps its rules.
    let _ = plan.transforms();
    finish_at(
        nodes,
        claim.node(),
        claim.lane(),
        claim.epoch(),
        claim.number(),
        0,
    )
}

/// What comes of a bundle in hand, and its end.
fn finish_bundle(
    plan: &Plan,
    size: u32,
    nodes: &mut Vec<NodeState>,
    claim: &Receipt,
    output: Output,
) -> Result<(), NoMemory>
    requires ready { IsReady plan.now size (work_of claim.now.node claim.now.lane claim.now.bundle false ∷ [])
        nodes.old.items }
    requires node { claim.now.node ≤ length plan.now.steps }
    requires output { IsOutput (operator_at (slice_get plan.now.steps claim.now.node)) claim.now.lane
        claim.now.bundle.records output }
    ensures finishes { OnOk result (FinishesWork plan.now size claim.now.node claim.now.lane claim.now.bundle
        nodes.old.items nodes.new.items) }
    ensures links { OnOk result (KeepsLinks plan.now nodes.old.items nodes.new.items) }
{
    match output {
        Output::Records(given) => {
            if given.is_empty() {
                finish_empty(plan, size, nodes, claim)
            } else {
                deliver_given(plan, size, nodes, claim, Sequence::new(given))
            }
        }
        Output::Part(part) => finish_part(nodes, claim, part),
    }
}

/// Works off a bundle that waits in a lane of a node.
pub(crate) fn work_off(
    alloc: Global,
    plan: &Plan,
    size: u32,
    nodes: &mut Vec<NodeState>,
    node: u32,
    lane: u32,
) -> Result<(), NoMemory>
    requires ready { IsReady plan.now size [] nodes.old.items }
    requires node { node ≤ length plan.now.steps }
    requires waits { (at : LaneView) × HasLane node lane at nodes.old.items
        × (is_some (take_first (conts_of at.containers)) ≡ true) }
    ensures works { OnOk result (WorksOff plan.now size node lane nodes.old.items nodes.new.items) }
    ensures links { OnOk result (KeepsLinks plan.now nodes.old.items nodes.new.items) }
{
    let bundle = take_at(nodes, node, lane)?;
    let claim = Claim { node, lane, bundle };
    let (claim, output) = process(alloc, plan, claim)?;
    finish_bundle(plan, size, nodes, &claim, output)
}
