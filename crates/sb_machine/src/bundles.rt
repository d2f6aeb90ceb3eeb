//! What workers do with bundles: they take one, deliver what it gives, and finish it.

ghost use Rattle.std.specs.Prelude.{◌≡◌, ℕ, Bool, true, List, Err};
ghost use Rattle.sb_slow.specs.base.records.declared.item.Record.{Record};
ghost use Rattle.sb_core.specs.MomentSteps.{after_take, bundle_delivered, bundle_finished};
ghost use Rattle.sb_core.specs.Soundness.{IsSound};
ghost use Rattle.sb_machine.specs.Steps.{Becomes, asks_for_memory};

use crate::feeding::put_at;
use crate::hold::work_at;
use crate::lanes;
use crate::machine::StepStop;
use crate::operate::{absorb, delivery};
use sb_core::{Event, Held, Moment};
use sb_slow::{Plan, Sequence};
use std::alloc::Global;

/// A worker takes a waiting bundle.
pub(crate) fn take(moment: &mut Moment, node: u32, lane: u32, number: u64) -> Result<(), StepStop>
    ensures { Becomes (after_take moment.old (record { node = node; lane = lane }) number)
        moment.old moment.new result }
{
    // The room for what is in hand comes first: once the lane has given the bundle up, nothing may fail.
    moment.held.items.reserve(1)?;
    let nodes = &mut moment.nodes;
    let Some(there) = nodes.items.get_mut(node as usize) else {
        return Err(StepStop::NotNow);
    };
    let Some(from) = there.lanes.items.get_mut(lane as usize) else {
        return Err(StepStop::NotNow);
    };
    let Some(bundle) = lanes::take(from, number)? else {
        return Err(StepStop::NotNow);
    };
    moment.held.items.push_reserved(Held::Work {
        node,
        lane,
        epoch: bundle.epoch,
        floor: bundle.floor,
        number,
        records: bundle.records,
        delivered: false,
    });
    Ok(())
}

/// The bundle, delivered.
fn delivered_work(work: Held) -> Held
    ensures { (k l e f n : ℕ) (rs : List Record) (b : Bool)
        → work ≡ Held.Work k l e f n rs b → result ≡ Held.Work k l e f n rs true }
{
    match work {
        Held::Work {
            node,
            lane,
            epoch,
            floor,
            number,
            records,
            delivered: _,
        } => Held::Work {
            node,
            lane,
            epoch,
            floor,
            number,
            records,
            delivered: true,
        },
        close => close,
    }
}

/// What the bundle of a ParDo gives is put below.
pub(crate) fn deliver(
    alloc: Global,
    plan: &Plan,
    moment: &mut Moment,
    node: u32,
    lane: u32,
    number: u64,
) -> Result<(), StepStop>
    ensures { Becomes (bundle_delivered plan.now moment.old node lane number) moment.old moment.new result }
{
    let Some(work) = work_at(moment.held.as_slice(), node, lane, number) else {
        return Err(StepStop::NotNow);
    };
    if work.delivered || node >= plan.transforms() {
        return Err(StepStop::NotNow);
    }
    let (place, epoch, floor) = (work.place, work.epoch, work.floor);
    let given = delivery(alloc, plan, node, work.records)?;
    if given.is_empty() {
        return Err(StepStop::NotNow);
    }
    put_at(
        alloc,
        moment,
        plan.down(node),
        epoch,
        floor,
        Sequence::new(given),
    )?;
    // The bundle leaves the room that it comes back into, so this asks for no memory.
    let work = moment.held.items.remove(place);
    moment.held.items.push_reserved(delivered_work(work));
    Ok(())
}

/// A worker has done with a bundle. One that was delivered is of a ParDo, which keeps nothing of it.
pub(crate) fn finish(
    alloc: Global,
    plan: &Plan,
    moment: &mut Moment,
    node: u32,
    lane: u32,
    number: u64,
) -> Result<(), StepStop>
    requires { IsSound plan.now moment.old }
    ensures becomes { Becomes (bundle_finished plan.now moment.old node lane number) moment.old moment.new result }
    ensures memory { result ≡ Err StepStop.Memory → asks_for_memory moment.old (Event.Finish node lane number) ≡ true }
{
    let Some(work) = work_at(moment.held.as_slice(), node, lane, number) else {
        return Err(StepStop::NotNow);
    };
    if !work.delivered && !delivery(alloc, plan, node, work.records)?.is_empty() {
        return Err(StepStop::NotNow);
    }
    let nodes = &mut moment.nodes;
    let there = &mut nodes.items[node as usize];
    // Of what is to change only this may ask for memory, so it comes first.
    absorb(alloc, plan, node, lane, work.records, &mut there.kept.items)?;
    let (place, epoch) = (work.place, work.epoch);
    let lanes = &mut there.lanes;
    lanes::finish(&mut lanes.items[lane as usize], epoch, number);
    let _ = moment.held.items.remove(place);
    Ok(())
}
