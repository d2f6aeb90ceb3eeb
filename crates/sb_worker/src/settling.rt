//! What waits in a node is worked off there by one worker, as if it were alone.
//!
//! For a worker that brought little and finishes it by itself: it looks neither at other nodes nor on the shelf.

ghost use Rattle.std.specs.Prelude.{◌≤◌, length, OnErr, OnOk};
ghost use Rattle.sb_cascade.specs.Calls.{IsEmptyHanded, IsReady, IsSame, plan_of};
ghost use Rattle.sb_worker.specs.Entries.{Gains, Grows, Has, is_idle_of, is_not_yet_of};
ghost use Rattle.sb_worker.specs.Steps.{IsSettledAt};

use crate::closing::close_node;
use crate::working::work_off;
use sb_cascade::{Cascade, CascadePass, Gate, NoMemory};
use std::alloc::Global;
use std::sync::Wait;

/// Works off the bundles that wait in a node, until none does.
fn work_waiting<R: Wait, G: Gate>(
    rt: &R,
    alloc: Global,
    cascade: &Cascade,
    pass: &mut CascadePass,
    gate: &G,
    node: u32,
) -> Result<(), NoMemory>
    requires pass { IsReady cascade.now pass.old × IsEmptyHanded pass.old }
    requires node { node ≤ length (plan_of cascade.now).steps }
    ensures pass { IsReady cascade.now pass.new × IsSame pass.old pass.new }
    ensures idle { OnOk result (IsEmptyHanded pass.new × Gains (Has (is_idle_of node)) pass.old pass.new) }
    ensures failed { OnErr result (Grows pass.old pass.new) }
{
    for _ in rt.forever() {
        let Some(claim) = cascade.take(rt, pass, node) else {
            return Ok(());
        };
        work_off(rt, alloc, cascade, pass, gate, claim)?;
    }
    unreachable!()
}

/// Makes closings of a node, until none can begin.
fn close_all<R: Wait>(
    rt: &R,
    cascade: &Cascade,
    pass: &mut CascadePass,
    node: u32,
) -> Result<(), NoMemory>
    requires pass { IsReady cascade.now pass.old × IsEmptyHanded pass.old }
    requires node { node ≤ length (plan_of cascade.now).steps }
    ensures pass { IsReady cascade.now pass.new × IsSame pass.old pass.new }
    ensures closed { OnOk result (IsEmptyHanded pass.new × Gains (Has (is_not_yet_of node)) pass.old pass.new) }
    ensures failed { OnErr result (Grows pass.old pass.new) }
{
    for _ in rt.forever() {
        match close_node(rt, cascade, pass, node) {
            Ok(true) => {}
            Ok(false) => return Ok(()),
            Err(NoMemory) => return Err(NoMemory),
        }
    }
    unreachable!()
}

/// Works off the bundles that wait in a node, and then makes its closings. It succeeds only if, under turns of this
/// call, no bundle was found to wait there, and then no closing that could begin. What others have in hand or lies on
/// the shelf is left alone. The gate is passed as in [`work_off`]. It may wait for turns.
///
/// # Errors
///
/// [`NoMemory`]; then the pass may still have something in hand.
pub fn settle_node<R: Wait, G: Gate>(
    rt: &R,
    alloc: Global,
    cascade: &Cascade,
    pass: &mut CascadePass,
    gate: &G,
    node: u32,
) -> Result<(), NoMemory>
    requires pass { IsReady cascade.now pass.old × IsEmptyHanded pass.old }
    requires node { node ≤ length (plan_of cascade.now).steps }
    ensures pass { IsReady cascade.now pass.new × IsSame pass.old pass.new }
    ensures settled { OnOk result (IsEmptyHanded pass.new × Gains (IsSettledAt node) pass.old pass.new) }
    ensures failed { OnErr result (Grows pass.old pass.new) }
{
    work_waiting(rt, alloc, cascade, pass, gate, node)?;
    close_all(rt, cascade, pass, node)
}
