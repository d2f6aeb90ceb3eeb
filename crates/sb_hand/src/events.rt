//! Each event, at the node that it changes. Room for its line in the diary is reserved first.

ghost use Rattle.std.specs.Prelude.{◌≡◌, ◌<◌, ◌≤◌, ◌+◌, ◌-◌, ◌^◌, true, length, OnOk, IfOk, slice_get, Some, is_some};
ghost use Rattle.std.specs.Prelude.{ℕ, drop, map, Ok};
ghost use Rattle.sb_shown.specs.core.containers.LaneOrder.{IsLane};
ghost use Rattle.sb_shown.specs.core.containers.Lanes.{in_epoch, next_epoch, with_arrival, with_seal};
ghost use Rattle.sb_shown.specs.core.containers.Marks.{first_is_closing};
ghost use Rattle.sb_shown.specs.diary.declared.event.DiaryEvent.TheVariants as line;
ghost use Rattle.sb_shown.specs.node.Keeping.{IsPartFor, closed_mark};
ghost use Rattle.sb_shown.specs.lane.Changes.{StandsAt};
ghost use Rattle.sb_shown.specs.lane.LaneView.{LaneView, lane_of};
ghost use Rattle.sb_shown.specs.lane.Links.{down_of, links_of};
ghost use Rattle.sb_shown.specs.lane.Looks.{look_of};
ghost use Rattle.sb_shown.specs.lane.Placed.{conts_of};
ghost use Rattle.sb_shown.specs.lane.Taking.{take_first, finish_first};
ghost use Rattle.sb_shown.specs.lane.declared.answers.LaneClose.{LaneClose as AClose};
ghost use Rattle.sb_shown.specs.node.LinkChanges.{DropsLink, FindsPlace, GetsLink, GetsPlace, LinksStay};
ghost use Rattle.sb_hand.specs.LaneGoing.{LaneGoes};
ghost use Rattle.sb_shown.specs.node.Marking as spec;
ghost use Rattle.sb_shown.specs.Sets.{HasLane, Takes, Turns, Absorbs, BeginsAt, StaysAt};
ghost use Rattle.sb_shown.specs.node.declared.state.NodeState.{NodeState as ANode};

use sb_shown::{Bundle, Closing, Down, NoMemory, NodeState, Part, Receipt};

/// Takes the first waiting bundle of a lane in which one waits.
pub(crate) fn take_at(nodes: &mut Vec<NodeState>, node: u32, lane: u32) -> Result<Bundle, NoMemory>
    requires { (at : LaneView) × HasLane node lane at nodes.old.items
        × (is_some (take_first (conts_of at.containers)) ≡ true) }
    ensures takes { IfOk result (λ b. (at : LaneView) → HasLane node lane at nodes.old.items
        → Takes node lane nodes.old.items nodes.new.items at b) }
    ensures links { OnOk result (LaneGoes node lane LinksStay nodes.old.items nodes.new.items) }
{
    let own = &mut nodes[node as usize];
    own.diary.reserve(1)?;
    Ok(own.take(lane))
}

/// Puts a bundle into a lane, into the container of its epoch, which stands at this place.
pub(crate) fn put_at(
    nodes: &mut Vec<NodeState>,
    down: Down,
    place: u64,
    bundle: Bundle,
) -> Result<(), NoMemory>
    requires at { (at : LaneView) × HasLane down.node down.lane at nodes.old.items }
    requires here { (at : LaneView) → HasLane down.node down.lane at nodes.old.items
        → StandsAt bundle.epoch place at.containers }
    requires order { (at : LaneView) → HasLane down.node down.lane at nodes.old.items
        → (bound : ℕ) × IsLane bound (lane_of at) }
    ensures puts { OnOk result ((at : LaneView) → HasLane down.node down.lane at nodes.old.items
        → (at.arrived < 2 ^ 64 - 1) × Turns down.node down.lane nodes.old.items nodes.new.items at
        (with_arrival bundle.epoch bundle.floor bundle.records (lane_of at))
        (line.Arrive down.lane bundle.epoch (at.arrived + 1) (length bundle.records))) }
    ensures links { OnOk result (LaneGoes down.node down.lane LinksStay nodes.old.items nodes.new.items) }
{
    let own = &mut nodes[down.node as usize];
    own.diary.reserve(1)?;
    own.put_at(down.lane, place, bundle)
}

/// Puts a bundle into a lane, in which the container of its epoch is looked for, and gives the place of that container.
pub(crate) fn put_first(
    nodes: &mut Vec<NodeState>,
    down: Down,
    bundle: Bundle,
) -> Result<u64, NoMemory>
    requires at { (at : LaneView) × HasLane down.node down.lane at nodes.old.items }
    requires order { (at : LaneView) → HasLane down.node down.lane at nodes.old.items
        → at.arrived < 2 ^ 64 - 1 → (bound : ℕ) × IsLane bound (record (lane_of at) {
          conts = in_epoch bundle.epoch bundle.floor (λ c. c) (conts_of at.containers);
        }) }
    ensures puts { OnOk result ((at : LaneView) → HasLane down.node down.lane at nodes.old.items
        → (at.arrived < 2 ^ 64 - 1) × Turns down.node down.lane nodes.old.items nodes.new.items at
        (with_arrival bundle.epoch bundle.floor bundle.records (lane_of at))
        (line.Arrive down.lane bundle.epoch (at.arrived + 1) (length bundle.records))) }
    ensures links { IfOk result (λ place.
        LaneGoes down.node down.lane (FindsPlace bundle.epoch place) nodes.old.items nodes.new.items) }
{
    let own = &mut nodes[down.node as usize];
    own.diary.reserve(1)?;
    own.put_first(down.lane, bundle)
}

/// Where the container below stands that takes the output of an epoch, if it is known.
pub(crate) fn down_at(nodes: &[NodeState], node: u32, epoch: u64) -> Option<u64>
    requires { (at : LaneView) × HasLane node 0 at nodes.now }
    ensures { (at : LaneView) → HasLane node 0 at nodes.now → result ≡ down_of epoch (links_of at.containers) }
{
    nodes[node as usize].down(epoch)
}

/// Links the container of an epoch, if it is there, to a place below.
pub(crate) fn link_at(nodes: &mut Vec<NodeState>, node: u32, epoch: u64, place: u64)
    requires { (at : LaneView) × HasLane node 0 at nodes.old.items }
    ensures stays { (at : LaneView) → HasLane node 0 at nodes.old.items
        → StaysAt node 0 nodes.old.items nodes.new.items at }
    ensures links { LaneGoes node 0 (GetsLink epoch place) nodes.old.items nodes.new.items }
{
    let own = &mut nodes[node as usize];
    own.link(epoch, place);
}

/// Seals the next epoch of a lane.
pub(crate) fn seal_at(nodes: &mut Vec<NodeState>, place: Down, mark: u64) -> Result<(), NoMemory>
    requires { (at : LaneView) × HasLane place.node place.lane at nodes.old.items }
    ensures seals { OnOk result ((at : LaneView) → HasLane place.node place.lane at nodes.old.items
        → Turns place.node place.lane nodes.old.items nodes.new.items at (with_seal mark (lane_of at))
        (line.Seal place.lane (next_epoch (lane_of at)) mark)) }
    ensures links { OnOk result (LaneGoes place.node place.lane (λ was. GetsPlace (length was.marks) was)
        nodes.old.items nodes.new.items) }
{
    let own = &mut nodes[place.node as usize];
    own.diary.reserve(1)?;
    own.seal(place.lane, mark)
}

/// A bundle of a lane is done with.
pub(crate) fn finish_at(
    nodes: &mut Vec<NodeState>,
    node: u32,
    lane: u32,
    epoch: u64,
    number: u64,
    length: u64,
) -> Result<(), NoMemory>
    requires { (at : LaneView) × HasLane node lane at nodes.old.items }
    ensures finishes { OnOk result ((at : LaneView) → HasLane node lane at nodes.old.items
        → Turns node lane nodes.old.items nodes.new.items at
        (record (lane_of at) { conts = finish_first epoch number (conts_of at.containers) })
        (line.Finish lane number length)) }
    ensures links { OnOk result (LaneGoes node lane LinksStay nodes.old.items nodes.new.items) }
{
    let own = &mut nodes[node as usize];
    own.diary.reserve(1)?;
    own.finish(lane, epoch, number, length);
    Ok(())
}

/// The oldest container of a lane, which is closing, is removed.
pub(crate) fn end_at(
    nodes: &mut Vec<NodeState>,
    node: u32,
    lane: u32,
    epoch: u64,
) -> Result<(), NoMemory>
    requires { (at : LaneView) × HasLane node lane at nodes.old.items
        × (first_is_closing (conts_of at.containers) ≡ true) × (at.ended < length at.marks) }
    ensures ends { OnOk result ((at : LaneView) → HasLane node lane at nodes.old.items
        → Turns node lane nodes.old.items nodes.new.items at
        (record (lane_of at) { conts = drop 1 (conts_of at.containers); ended = at.ended + 1 })
        (line.End lane epoch)) }
    ensures links { OnOk result (LaneGoes node lane DropsLink nodes.old.items nodes.new.items) }
{
    let own = &mut nodes[node as usize];
    own.diary.reserve(1)?;
    own.end(lane, epoch);
    Ok(())
}

/// A node takes its part of a bundle in, and the bundle is done with.
pub(crate) fn finish_part(
    nodes: &mut Vec<NodeState>,
    claim: &Receipt,
    part: Part,
) -> Result<(), NoMemory>
    requires at { (at : LaneView) × HasLane claim.now.node claim.now.lane at nodes.old.items }
    requires takes { (own : ANode) → slice_get nodes.old.items claim.now.node ≡ Some own
        → IsPartFor own.kept part claim.now.lane claim.now.bundle.records }
    ensures absorbs { OnOk result ((at : LaneView) → HasLane claim.now.node claim.now.lane at nodes.old.items
        → Absorbs claim.now.node claim.now.lane nodes.old.items nodes.new.items at
        claim.now.bundle.epoch claim.now.bundle.number part) }
    ensures links { OnOk result
        (LaneGoes claim.now.node claim.now.lane LinksStay nodes.old.items nodes.new.items) }
{
    let own = &mut nodes[claim.node() as usize];
    own.diary.reserve(1)?;
    own.absorb(claim.lane(), claim.epoch(), claim.number(), part)
}

/// The closing of the oldest container of a lane begins, where it can.
pub(crate) fn begin_at(
    nodes: &mut Vec<NodeState>,
    node: u32,
    lane: u32,
    epoch: u64,
) -> Result<Closing, NoMemory>
    requires at { (at : LaneView) × HasLane node lane at nodes.old.items }
    requires looks { (at : LaneView) → HasLane node lane at nodes.old.items
        → (close : AClose) × (look_of (conts_of at.containers) ≡ Ok close) }
    requires few { (own : ANode) → slice_get nodes.old.items node ≡ Some own → length own.lanes.items ≤ 2 }
    requires rises { (own : ANode) → slice_get nodes.old.items node ≡ Some own
        → closed_mark own.kept ≤ spec.mark_for lane (map lane_of own.lanes.items) }
    ensures names { IfOk result (λ c. (c.node ≡ node) × (c.lane ≡ lane) × (c.epoch ≡ epoch)) }
    ensures begins { IfOk result (λ c. (at : LaneView) → HasLane node lane at nodes.old.items
        → BeginsAt c nodes.old.items nodes.new.items at) }
    ensures links { OnOk result (LaneGoes node lane LinksStay nodes.old.items nodes.new.items) }
{
    let own = &mut nodes[node as usize];
    if own.closings == u64::MAX {
        return Err(NoMemory);
    }
    own.diary.reserve(1)?;
    own.begin(node, lane, epoch)
}
