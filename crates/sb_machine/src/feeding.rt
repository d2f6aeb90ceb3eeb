//! What comes from outside: bundles and watermarks of the streams.

ghost use Rattle.std.specs.Prelude.{◌≡◌, ◌≤◌, ◌&&◌, nat_le, Some, None, IfSome, IfNone};
ghost use Rattle.std.specs.List.{list_all};
ghost use Rattle.sb_core.specs.MomentSteps.{after_arrive, after_seal};
ghost use Rattle.sb_core.specs.LaneSteps.{arrived_at, sealed_at};
ghost use Rattle.sb_core.specs.Moments.{lane_at};
ghost use Rattle.sb_machine.specs.Steps.{Becomes};

use crate::lanes;
use crate::machine::StepStop;
use sb_core::{CoreLane, Moment};
use sb_slow::{Down, END_MARK, MAX_TIME, Plan, Record, Sequence, Stream};
use std::alloc::Global;

/// The lane of a place, if there is one.
fn lane_of(moment: &Moment, place: Down) -> Option<&CoreLane>
    ensures some { IfSome result (λ lane. lane_at moment.now place ≡ Some lane.now) }
    ensures none { IfNone result (lane_at moment.now place ≡ None) }
{
    let node = moment.nodes.as_slice().get(place.node as usize)?;
    node.lanes.as_slice().get(place.lane as usize)
}

/// Puts records as a bundle into an epoch of a lane.
pub(crate) fn put_at(
    alloc: Global,
    moment: &mut Moment,
    place: Down,
    epoch: u64,
    floor: u64,
    records: Sequence<Record>,
) -> Result<(), StepStop>
    ensures { Becomes (arrived_at place epoch floor records moment.old) moment.old moment.new result }
{
    let Some(lane) = lane_of(moment, place) else {
        return Err(StepStop::NotNow);
    };
    // The bundle's number is one more than have arrived, and has to fit.
    if lane.arrived >= u64::MAX {
        return Err(StepStop::NotNow);
    }
    let nodes = &mut moment.nodes;
    let lanes = &mut nodes.items[place.node as usize].lanes;
    let lane = &mut lanes.items[place.lane as usize];
    lanes::put(alloc, lane, epoch, floor, records)?;
    Ok(())
}

/// Whether all times lie from the floor to the greatest of an input.
fn are_timely(records: &[Record], floor: u64) -> bool
    ensures { result ≡ list_all (λ r. nat_le floor r.time && nat_le r.time MAX_TIME) records.now }
{
    records
        .iter()
        .all(|r| floor <= r.time && r.time <= MAX_TIME)
}

/// A bundle of a stream comes.
pub(crate) fn arrive(
    alloc: Global,
    plan: &Plan,
    moment: &mut Moment,
    stream: Stream,
    records: Sequence<Record>,
) -> Result<(), StepStop>
    ensures { Becomes (after_arrive plan.now moment.old stream records) moment.old moment.new result }
{
    let Some(place) = plan.source(stream) else {
        return Err(StepStop::NotNow);
    };
    let Some(lane) = lane_of(moment, place) else {
        return Err(StepStop::NotNow);
    };
    let (epoch, floor) = (lanes::next_epoch(lane), lanes::next_floor(lane));
    let list = records.as_slice();
    if list.is_empty() || list.len() > moment.bundle as usize || !are_timely(list, floor) {
        return Err(StepStop::NotNow);
    }
    put_at(alloc, moment, place, epoch, floor, records)
}

/// Seals the next epoch of a lane with a mark.
pub(crate) fn seal_at(
    alloc: Global,
    moment: &mut Moment,
    place: Down,
    mark: u64,
) -> Result<(), StepStop>
    ensures { Becomes (sealed_at place mark moment.old) moment.old moment.new result }
{
    let Some(_) = lane_of(moment, place) else {
        return Err(StepStop::NotNow);
    };
    let nodes = &mut moment.nodes;
    let lanes = &mut nodes.items[place.node as usize].lanes;
    let lane = &mut lanes.items[place.lane as usize];
    lanes::seal(alloc, lane, mark)?;
    Ok(())
}

/// A watermark of a stream comes.
pub(crate) fn seal(
    alloc: Global,
    plan: &Plan,
    moment: &mut Moment,
    stream: Stream,
    mark: u64,
) -> Result<(), StepStop>
    ensures { Becomes (after_seal plan.now moment.old stream mark) moment.old moment.new result }
{
    let Some(place) = plan.source(stream) else {
        return Err(StepStop::NotNow);
    };
    let Some(lane) = lane_of(moment, place) else {
        return Err(StepStop::NotNow);
    };
    if mark > END_MARK || mark < lanes::next_floor(lane) {
        return Err(StepStop::NotNow);
    }
    seal_at(alloc, moment, place, mark)
}
