//! Beginnings: the oldest container of a lane begins to close.
//!
//! What the closing is to change is found first, so that a want of memory changes nothing.

ghost use Rattle.std.specs.Prelude.{◌≡◌, None, Err, IfOk};
ghost use Rattle.sb_machine.specs.Beginnings.{IsBeginningOf};
ghost use Rattle.sb_core.specs.MomentSteps.{after_begin};
ghost use Rattle.sb_core.specs.Soundness.{IsSound};
ghost use Rattle.sb_machine.specs.Steps.{Becomes};

use crate::hold::find_close;
use crate::lanes;
use crate::machine::StepStop;
use crate::marks::{begun_in, least_begun_mark, least_begun_mark_with};
use crate::operate::{kept_at, rows_at, rows_at_sink};
use sb_core::{Held, Moment};
use sb_slow::{KeptRec, Plan, Record, Sequence};
use std::alloc::Global;

/// What a closing is to change.
#[derive(Drop)]
struct Closing {
    epoch: u64,
    serial: u64,
    floor: u64,
    mark: u64,
    rows: Sequence<Record>,
    kept: Sequence<KeptRec>,
    collected: Sequence<Record>,
    passed: bool,
}

/// What the closing of a lane's oldest container is to change, where it may begin.
fn closing_of(
    alloc: Global,
    plan: &Plan,
    moment: &Moment,
    node: u32,
    lane: u32,
) -> Result<Closing, StepStop>
    requires { IsSound plan.now moment.now }
    ensures found { IfOk result (IsBeginningOf plan.now moment.now node lane) }
    ensures refused { result ≡ Err StepStop.NotNow → after_begin plan.now moment.now node lane ≡ None }
{
    let Some(there) = moment.nodes.as_slice().get(node as usize) else {
        return Err(StepStop::NotNow);
    };
    let lanes = there.lanes.as_slice();
    let Some(at) = lanes.get(lane as usize) else {
        return Err(StepStop::NotNow);
    };
    let Some(epoch) = lanes::closable(at) else {
        return Err(StepStop::NotNow);
    };
    if find_close(moment.held.as_slice(), node).is_some() {
        return Err(StepStop::NotNow);
    }
    // The sink has no lane below it, so its closings have no watermark to pass.
    let passed = node == plan.transforms();
    let floor = least_begun_mark(lanes);
    let mark = least_begun_mark_with(lanes, lane as usize);
    let kept = there.kept.as_slice();
    let rows = rows_at(alloc, plan, node, floor, mark, kept)?;
    let collected = rows_at_sink(alloc, plan, node, mark, kept)?;
    let kept = kept_at(alloc, plan, node, mark, kept)?;
    Ok(Closing {
        epoch,
        serial: begun_in(lanes),
        floor,
        mark,
        rows: Sequence::new(rows),
        kept: Sequence::new(kept),
        collected: Sequence::new(collected),
        passed,
    })
}

/// A closing begins.
pub(crate) fn begin(
    alloc: Global,
    plan: &Plan,
    moment: &mut Moment,
    node: u32,
    lane: u32,
) -> Result<(), StepStop>
    requires { IsSound plan.now moment.old }
    ensures { Becomes (after_begin plan.now moment.old node lane) moment.old moment.new result }
{
    let closing = closing_of(alloc, plan, moment, node, lane)?;
    let mut collected = closing.collected.into_vec();
    // What asks for memory comes first, the rows last of it: from them on nothing may fail.
    moment.held.items.reserve(1)?;
    moment.rows.items.append(&mut collected)?;
    let nodes = &mut moment.nodes;
    let there = &mut nodes.items[node as usize];
    let at = &mut there.lanes.items[lane as usize];
    lanes::begin(at);
    there.kept = closing.kept;
    there.closings = closing.serial + 1;
    moment.held.items.push_reserved(Held::Close {
        node,
        lane,
        epoch: closing.epoch,
        serial: closing.serial,
        floor: closing.floor,
        mark: closing.mark,
        rows: closing.rows,
        passed: closing.passed,
    });
    Ok(())
}
