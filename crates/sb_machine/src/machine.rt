//! Steps: the machine itself.

ghost use Rattle.std.specs.Prelude.{◌≡◌, ◌≤◌, true, [], ◌∷◌, Err, IfOk, OnOk, replicate};
ghost use Rattle.sb_slow.specs.base.bundle.declared.bundle.TheConstants.{MAX_BUNDLE};
ghost use Rattle.sb_core.specs.Events.{after};
ghost use Rattle.sb_core.specs.Exactness.{IsExact};
ghost use Rattle.sb_core.specs.Laws.{KeepsExact};
ghost use Rattle.sb_core.specs.MomentSteps.{made};
ghost use Rattle.sb_core.specs.Moments as moments;
ghost use Rattle.sb_core.specs.Soundness.{IsSound};
ghost use Rattle.sb_machine.specs.Steps.{Becomes, Runs, asks_for_memory, done_of};

use crate::copying::copy_of;
use crate::{begin, bundles, closings, feeding};
use sb_core::{CoreLane, Event, Moment, Node};
use sb_slow::{NoMemory, Plan, Sequence};
use std::alloc::{AllocError, Global};

/// Why an event did not happen.
#[derive(Clone, Copy, Debug, PartialEq, Eq)]
pub enum StepStop {
    /// Its condition does not hold.
    NotNow,
    /// There was not enough memory.
    Memory,
}

/// Why a list of events did not happen, and which were done.
#[derive(Clone, Copy, Debug, PartialEq, Eq)]
pub struct RunStop {
    /// The place of the event that was refused, from 0: those before it were done.
    pub at: usize,
    /// Why it was refused.
    pub stop: StepStop,
}

impl From<AllocError> for StepStop {
    ghost use Rattle.sb_machine.specs.declared.machine.StepStop.TheVariants.{Memory};

    ghost from_gives = { λ _ stop. stop ≡ Memory };

    fn from(_: AllocError) -> StepStop {
        StepStop::Memory
    }
}

impl From<NoMemory> for StepStop {
    ghost use Rattle.sb_machine.specs.declared.machine.StepStop.TheVariants.{Memory};

    ghost from_gives = { λ _ stop. stop ≡ Memory };

    fn from(_: NoMemory) -> StepStop {
        StepStop::Memory
    }
}

/// The moment before the first event of a plan, for bundles of at most so many records, 1 to 65,536.
pub fn first(alloc: Global, plan: &Plan, bundle: u32) -> Result<Moment, NoMemory>
    requires some { 1 ≤ bundle }
    requires most { bundle ≤ MAX_BUNDLE }
    ensures value { IfOk result (λ m. m ≡ moments.first plan.now bundle) }
    ensures sound { IfOk result (λ m. IsSound plan.now m) }
    ensures exact { IfOk result (λ m. IsExact plan.now m (λ s. [])) }
{
    let mut nodes = Vec::new(alloc);
    for node in 0..plan.transforms() + 1 {
        let lanes = empty_lanes(alloc, plan.lanes(node))?;
        nodes.push(Node {
            lanes,
            kept: Sequence::new(Vec::new(alloc)),
            closings: 0,
        })?;
    }
    Ok(Moment {
        bundle,
        nodes: Sequence::new(nodes),
        held: Sequence::new(Vec::new(alloc)),
        rows: Sequence::new(Vec::new(alloc)),
    })
}

/// So many lanes in which nothing has arrived.
fn empty_lanes(alloc: Global, count: u32) -> Result<Sequence<CoreLane>, NoMemory>
    ensures { IfOk result (λ lanes. lanes ≡ replicate count moments.empty_lane) }
{
    let mut lanes = Vec::new(alloc);
    for _lane in 0..count {
        lanes.push(CoreLane {
            conts: Sequence::new(Vec::new(alloc)),
            arrived: 0,
            marks: Sequence::new(Vec::new(alloc)),
            ended: 0,
        })?;
    }
    Ok(Sequence::new(lanes))
}

/// Does an event. A refusal changes nothing. An [`Event::End`] and the [`Event::Finish`] of a bundle that was delivered
/// take no memory.
pub fn step(alloc: Global, plan: &Plan, moment: &mut Moment, event: Event) -> Result<(), StepStop>
    requires { IsSound plan.now moment.old }
    ensures becomes { Becomes (after plan.now moment.old event) moment.old moment.new result }
    ensures sound { IsSound plan.now moment.new }
    ensures exact { OnOk result (KeepsExact plan.now moment.old moment.new (event ∷ [])) }
    ensures memory { result ≡ Err StepStop.Memory → asks_for_memory moment.old event ≡ true }
{
    // For the proof, the call is made for its contract: a plan keeps its rules, and with them an event keeps a moment
    // sound.
    let _ = plan.transforms();
    do_event(alloc, plan, moment, event)
}

/// Does an event.
fn do_event(alloc: Global, plan: &Plan, moment: &mut Moment, event: Event) -> Result<(), StepStop>
    requires { IsSound plan.now moment.old }
    ensures becomes { Becomes (made plan.now moment.old event) moment.old moment.new result }
    ensures memory { result ≡ Err StepStop.Memory → asks_for_memory moment.old event ≡ true }
{
    match event {
        Event::Arrive { stream, records } => feeding::arrive(alloc, plan, moment, stream, records),
        Event::Seal { stream, mark } => feeding::seal(alloc, plan, moment, stream, mark),
        Event::Take { node, lane, number } => bundles::take(moment, node, lane, number),
        Event::Deliver { node, lane, number } => {
            if number == 0 {
                closings::deliver(alloc, plan, moment, node, lane)
            } else {
                bundles::deliver(alloc, plan, moment, node, lane, number)
            }
        }
        Event::Finish { node, lane, number } => {
            bundles::finish(alloc, plan, moment, node, lane, number)
        }
        Event::Begin { node, lane } => begin::begin(alloc, plan, moment, node, lane),
        Event::Pass { node } => closings::pass(alloc, plan, moment, node),
        Event::End { node } => closings::end(moment, node),
    }
}

/// Does events, in order, up to the first that is refused. The events before it were done, and the moment is exact for
/// what they fed.
pub fn run(alloc: Global, plan: &Plan, moment: &mut Moment, events: &[Event]) -> Result<(), RunStop>
    requires { IsSound plan.now moment.old }
    ensures runs { Runs plan.now moment.old events.now moment.new result }
    ensures sound { IsSound plan.now moment.new }
    ensures exact { KeepsExact plan.now moment.old moment.new (done_of events.now result) }
{
    for at in 0..events.len() {
        let event = match copy_of(alloc, &events[at]) {
            Ok(event) => event,
            Err(NoMemory) => {
                return Err(RunStop {
                    at,
                    stop: StepStop::Memory,
                });
            }
        };
        if let Err(stop) = step(alloc, plan, moment, event) {
            return Err(RunStop { at, stop });
        }
    }
    Ok(())
}
