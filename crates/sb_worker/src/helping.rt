//! The loop of a worker that helps.

ghost use Rattle.std.specs.Prelude.{◌≢◌, Err, IfErr, IfSome, OnOk};
ghost use Rattle.sb_cascade.specs.Calls.{IsEmptyHanded, IsReady, IsSame};
ghost use Rattle.sb_worker.specs.Entries.{Gains, Grows, Has, is_end_seen};
ghost use Rattle.sb_worker.specs.Helping.{IsHelper};
ghost use Rattle.sb_worker.specs.Steps.{IsWhy};
ghost use Rattle.sb_worker.specs.declared.step.OneStop.TheVariants as stop;

use crate::step::{First, OneStop, one_step, work_shelved};
use crossbeam_utils::Backoff;
use sb_cascade::{Cascade, CascadePass, Did, Gate, NoMemory, Reason};
use std::alloc::Global;
use std::sync::Wait;
use std::time::Duration;

/// How many milliseconds a helper sleeps at most that has found nothing to do for a while, though help is wanted: work
/// may come in any turn, and only the feeder calls.
const REST_MILLIS: u64 = 1;

/// How many it sleeps at most while no help is wanted. It is called where that changes, and at the end.
const LONG_REST_MILLIS: u64 = 10;

/// How many bundles a helper works off before it looks for closings again: to look for one it waits for turns, and
/// under them much of a heavy plan's work is done.
const BUNDLES_A_LOOK: u32 = 8;

/// How many bundles come before the next look for closings, behind a step that did this.
fn till_look(before: u32, did: Did) -> u32 {
    match did {
        Did::Bundle if before == 0 => BUNDLES_A_LOOK - 1,
        Did::Bundle => before - 1,
        Did::Closing | Did::Nothing => 0,
    }
}

/// What comes first where so many bundles come before the next look for closings.
fn first_of(till_look: u32) -> First {
    if till_look == 0 {
        First::Closing
    } else {
        First::Bundle
    }
}

/// How many milliseconds a helper sleeps at most.
fn rest_millis(cascade: &Cascade) -> u64 {
    if cascade.is_help_wanted() {
        REST_MILLIS
    } else {
        LONG_REST_MILLIS
    }
}

/// Leaves the processor to others: the more often in a row, the longer, and then until it is called. It doesn't sleep
/// if it was called since there were so many calls.
fn rest<R: Wait>(rt: &R, cascade: &Cascade, calls: u64, backoff: &Backoff) {
    if backoff.is_completed() {
        let most = Duration::from_millis(rest_millis(cascade));
        cascade.sleep_till_called(rt, calls, most);
    } else {
        backoff.snooze();
    }
}

/// One step of a worker that is not wanted: it works off a bundle of the shelf, if there is one, and else does nothing.
///
/// # Errors
///
/// Those of [`one_step`].
fn shelf_step<R: Wait, G: Gate>(
    rt: &R,
    alloc: Global,
    cascade: &Cascade,
    pass: &mut CascadePass,
    gate: &G,
) -> Result<Did, OneStop>
    requires pass { IsReady cascade.now pass.old × IsEmptyHanded pass.old }
    ensures pass { IsReady cascade.now pass.new × IsSame pass.old pass.new }
    ensures empty { result ≢ Err stop.Memory → IsEmptyHanded pass.new }
    ensures trace { OnOk result (Grows pass.old pass.new) }
    ensures why { IfErr result (λ stop. Gains (IsWhy stop) pass.old pass.new) }
{
    if cascade.reason(pass) != Reason::Running {
        return Err(OneStop::Stopped);
    }
    match work_shelved(rt, alloc, cascade, pass, gate) {
        Ok(true) => Ok(Did::Bundle),
        Ok(false) => Ok(Did::Nothing),
        Err(NoMemory) => {
            cascade.stop(pass, Reason::Memory);
            Err(OneStop::Memory)
        }
    }
}

/// A step of a helper. While no help is wanted it works off what lies on the shelf, where others may have left
/// something that they looked for, and enters no turn beside that: so it stands in nobody's way.
fn help_step<R: Wait, G: Gate>(
    rt: &R,
    alloc: Global,
    cascade: &Cascade,
    pass: &mut CascadePass,
    gate: &G,
    first: First,
) -> Result<Did, OneStop>
    requires pass { IsReady cascade.now pass.old × IsEmptyHanded pass.old }
    ensures pass { IsReady cascade.now pass.new × IsSame pass.old pass.new }
    ensures empty { result ≢ Err stop.Memory → IsEmptyHanded pass.new }
    ensures trace { OnOk result (Grows pass.old pass.new) }
    ensures why { IfErr result (λ stop. Gains (IsWhy stop) pass.old pass.new) }
{
    if cascade.is_help_wanted() {
        return one_step(rt, alloc, cascade, pass, gate, first);
    }
    shelf_step(rt, alloc, cascade, pass, gate)
}

/// Steps until the state word says that the work ends, and gives the pass back: it comes back only if a load of the
/// state word said so. Behind a closing it looks for the next one, else only after some bundles. None if no memory was
/// found: then the state word says so, and the pass is dropped with what it has in hand. Between steps that find
/// nothing to do it rests, and so while the feeder wants no help, which calls it where it does. It may wait for turns,
/// and whether it ends is not said.
pub fn help<R: Wait, G: Gate>(
    rt: &R,
    alloc: Global,
    cascade: &Cascade,
    mut pass: CascadePass,
    gate: &G,
) -> Option<CascadePass>
    requires pass { IsHelper cascade.now pass }
    ensures pass { IfSome result (IsHelper cascade.now) }
    ensures ended { IfSome result (λ back. Gains (Has is_end_seen) pass back) }
{
    let backoff = Backoff::new();
    let mut bundles = 0_u32;
    for _ in rt.forever() {
        let calls = cascade.help_calls();
        match help_step(rt, alloc, cascade, &mut pass, gate, first_of(bundles)) {
            Ok(did) => {
                bundles = till_look(bundles, did);
                if did == Did::Nothing {
                    rest(rt, cascade, calls, &backoff);
                } else {
                    backoff.reset();
                }
            }
            Err(OneStop::Stopped) => return Some(pass),
            Err(OneStop::Memory) => return None,
        }
    }
    unreachable!()
}
