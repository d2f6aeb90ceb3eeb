//! Closings: the oldest container of a lane is closed, its rows are delivered, and its watermark is passed.

ghost use Rattle.std.specs.Prelude.{◌≡◌, ◌≢◌, ℕ, Bool, true, List, drop, Err};
ghost use Rattle.sb_slow.specs.base.pipeline.Shapes.{Shape};
ghost use Rattle.sb_slow.specs.base.records.declared.item.Record.{Record as ARecord};
ghost use Rattle.sb_core.specs.MomentSteps.{rows_delivered, mark_passed, closing_ended};
ghost use Rattle.sb_core.specs.Soundness.{IsSound};
ghost use Rattle.sb_machine.specs.Steps.{Becomes};

use crate::feeding::{put_at, seal_at};
use crate::hold::{close_at, close_of_at};
use crate::lanes;
use crate::machine::StepStop;
use sb_core::{Held, Moment};
use sb_slow::{Plan, Sequence};
use std::alloc::Global;

/// The closing, with the first rows gone.
fn without_rows(close: Held, count: usize) -> Held
    ensures { (k l e s f m : ℕ) (rows : List ARecord) (p : Bool)
        → close ≡ Held.Close k l e s f m rows p → result ≡ Held.Close k l e s f m (drop count rows) p }
{
    match close {
        Held::Close {
            node,
            lane,
            epoch,
            serial,
            floor,
            mark,
            mut rows,
            passed,
        } => {
            // In place, with no memory: the first rows are below already, so nothing may fail any more.
            let count = count.min(rows.items.len());
            rows.items.rotate_left(count);
            let left = rows.items.len() - count;
            rows.items.truncate(left);
            Held::Close {
                node,
                lane,
                epoch,
                serial,
                floor,
                mark,
                rows,
                passed,
            }
        }
        work => work,
    }
}

/// The closing, with its watermark passed.
fn passed_close(close: Held) -> Held
    ensures { (k l e s f m : ℕ) (rows : List ARecord) (p : Bool)
        → close ≡ Held.Close k l e s f m rows p → result ≡ Held.Close k l e s f m rows true }
{
    match close {
        Held::Close {
            node,
            lane,
            epoch,
            serial,
            floor,
            mark,
            rows,
            passed: _,
        } => Held::Close {
            node,
            lane,
            epoch,
            serial,
            floor,
            mark,
            rows,
            passed: true,
        },
        work => work,
    }
}

/// The next rows of a closing are put below.
pub(crate) fn deliver(
    alloc: Global,
    plan: &Plan,
    moment: &mut Moment,
    node: u32,
    lane: u32,
) -> Result<(), StepStop>
    ensures { Becomes (rows_delivered plan.now moment.old node lane) moment.old moment.new result }
{
    let Some(close) = close_of_at(moment.held.as_slice(), node, lane) else {
        return Err(StepStop::NotNow);
    };
    if close.rows.is_empty() || node >= plan.transforms() {
        return Err(StepStop::NotNow);
    }
    let (place, serial, floor) = (close.place, close.serial, close.floor);
    let most = moment.bundle as usize;
    let count = close.rows.len().min(most);
    let mut next = Vec::new(alloc);
    next.extend_from_slice(&close.rows[..count])?;
    put_at(
        alloc,
        moment,
        plan.down(node),
        serial,
        floor,
        Sequence::new(next),
    )?;
    // The closing leaves the room that it comes back into, so this asks for no memory.
    let close = moment.held.items.remove(place);
    moment.held.items.push_reserved(without_rows(close, most));
    Ok(())
}

/// The watermark of a closing is passed below.
pub(crate) fn pass(
    alloc: Global,
    plan: &Plan,
    moment: &mut Moment,
    node: u32,
) -> Result<(), StepStop>
    ensures { Becomes (mark_passed plan.now moment.old node) moment.old moment.new result }
{
    let Some(close) = close_at(moment.held.as_slice(), node) else {
        return Err(StepStop::NotNow);
    };
    if close.passed || !close.rows.is_empty() || node >= plan.transforms() {
        return Err(StepStop::NotNow);
    }
    let (place, mark) = (close.place, close.mark);
    seal_at(alloc, moment, plan.down(node), mark)?;
    // The closing leaves the room that it comes back into, so this asks for no memory.
    let close = moment.held.items.remove(place);
    moment.held.items.push_reserved(passed_close(close));
    Ok(())
}

/// A closing that has passed its watermark ends. That takes no plan, but it takes a sound moment: the `requires` reads
/// "there is a plan that the moment is sound for".
pub(crate) fn end(moment: &mut Moment, node: u32) -> Result<(), StepStop>
    requires { (plan : Shape) × IsSound plan moment.old }
    ensures becomes { Becomes (closing_ended moment.old node) moment.old moment.new result }
    ensures memory { result ≢ Err StepStop.Memory }
{
    let Some(close) = close_at(moment.held.as_slice(), node) else {
        return Err(StepStop::NotNow);
    };
    if !close.passed {
        return Err(StepStop::NotNow);
    }
    let (place, lane) = (close.place, close.lane);
    let nodes = &mut moment.nodes;
    let lanes = &mut nodes.items[node as usize].lanes;
    let at = &mut lanes.items[lane as usize];
    // For the proof: each epoch that has ended has a mark. A list has fewer than 2^63 elements, so one more fits.
    let have_marks = at.ended <= at.marks.as_slice().len() as u64;
    prove!(have_marks);
    lanes::end(at);
    let _ = moment.held.items.remove(place);
    Ok(())
}
