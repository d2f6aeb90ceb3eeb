//! One step of a worker.

ghost use Rattle.std.specs.Prelude.{◌≡◌, ◌≢◌, length, Err, IfErr, IfOk, MatchBool, OnErr};
ghost use Rattle.sb_cascade.specs.Calls.{IsEmptyHanded, IsReady, IsSame, plan_of};
ghost use Rattle.sb_worker.specs.Entries.{Gains, Grows};
ghost use Rattle.sb_worker.specs.Steps.{IsDone, IsShelfBare, IsWhy};
ghost use Rattle.sb_worker.specs.declared.step.OneStop.TheVariants as stop;

use crate::claiming::{next_claim, shelved_claim};
use crate::closing::close_any;
use crate::working::work_off;
use sb_cascade::{Cascade, CascadePass, Did, Gate, NoMemory, Reason};
use std::alloc::Global;
use std::sync::Wait;

/// Why a worker's step ended without an answer.
#[derive(Clone, Copy, PartialEq, Eq, Debug)]
pub enum OneStop {
    /// The state word says that the work ends.
    Stopped,
    /// There was no memory; the state word says so.
    Memory,
}

/// What a step looks for first. If it isn't there, the step looks for all that there may be to do.
#[derive(Clone, Copy, PartialEq, Eq, Debug)]
pub enum First {
    /// A closing. To look for one is to wait for the turn of each node.
    Closing,
    /// A bundle of the shelf, which waits for nobody.
    Bundle,
}

/// A bundle of the shelf is worked off, if there is one.
pub(crate) fn work_shelved<R: Wait, G: Gate>(
    rt: &R,
    alloc: Global,
    cascade: &Cascade,
    pass: &mut CascadePass,
    gate: &G,
) -> Result<bool, NoMemory>
    requires pass { IsReady cascade.now pass.old × IsEmptyHanded pass.old }
    ensures pass { IsReady cascade.now pass.new × IsSame pass.old pass.new }
    ensures done { IfOk result (λ did. IsEmptyHanded pass.new × MatchBool did
        (Gains (IsDone (length (plan_of cascade.now).steps) Did.Bundle) pass.old pass.new)
        (Gains IsShelfBare pass.old pass.new)) }
    ensures failed { OnErr result (Grows pass.old pass.new) }
{
    let Some(claim) = shelved_claim(cascade, pass) else {
        return Ok(false);
    };
    work_off(rt, alloc, cascade, pass, gate, claim)?;
    Ok(true)
}

/// A whole closing, if one can begin, or else a bundle, if there is one.
fn close_or_work<R: Wait, G: Gate>(
    rt: &R,
    alloc: Global,
    cascade: &Cascade,
    pass: &mut CascadePass,
    gate: &G,
) -> Result<Did, NoMemory>
    requires pass { IsReady cascade.now pass.old × IsEmptyHanded pass.old }
    ensures pass { IsReady cascade.now pass.new × IsSame pass.old pass.new }
    ensures done { IfOk result (λ did. IsEmptyHanded pass.new
        × Gains (IsDone (length (plan_of cascade.now).steps) did) pass.old pass.new) }
    ensures failed { OnErr result (Grows pass.old pass.new) }
{
    if close_any(rt, cascade, pass)? {
        return Ok(Did::Closing);
    }
    let Some(claim) = next_claim(rt, cascade, pass) else {
        return Ok(Did::Nothing);
    };
    work_off(rt, alloc, cascade, pass, gate, claim)?;
    Ok(Did::Bundle)
}

/// The step, once the state word said that the work goes on.
fn do_next<R: Wait, G: Gate>(
    rt: &R,
    alloc: Global,
    cascade: &Cascade,
    pass: &mut CascadePass,
    gate: &G,
    first: First,
) -> Result<Did, NoMemory>
    requires pass { IsReady cascade.now pass.old × IsEmptyHanded pass.old }
    ensures pass { IsReady cascade.now pass.new × IsSame pass.old pass.new }
    ensures done { IfOk result (λ did. IsEmptyHanded pass.new
        × Gains (IsDone (length (plan_of cascade.now).steps) did) pass.old pass.new) }
    ensures failed { OnErr result (Grows pass.old pass.new) }
{
    match first {
        First::Closing => close_or_work(rt, alloc, cascade, pass, gate),
        First::Bundle => {
            if work_shelved(rt, alloc, cascade, pass, gate)? {
                return Ok(Did::Bundle);
            }
            close_or_work(rt, alloc, cascade, pass, gate)
        }
    }
}

/// One step of a worker: it makes a whole closing, or else works off a bundle of the shelf, or else one that waits in a
/// node. Of nodes the last comes first, so that what is under way leaves the engine before more is begun, and closings
/// keep up with bundles. If [`First::Bundle`] is to come first, it looks on the shelf before all that. Nothing only if
/// each node was found, under its turn, with no closing that could begin and, under a later turn, without a bundle that
/// waits, and each place of the shelf was looked at and was not full. The gate is passed outside of every turn, between
/// taking a bundle and processing it. It may wait for turns.
///
/// # Errors
///
/// [`OneStop::Stopped`] only if a load of the state word said that the work ends. [`OneStop::Memory`] if no memory was
/// found: the state word says so, and the pass may still have something in hand.
pub fn one_step<R: Wait, G: Gate>(
    rt: &R,
    alloc: Global,
    cascade: &Cascade,
    pass: &mut CascadePass,
    gate: &G,
    first: First,
) -> Result<Did, OneStop>
    requires pass { IsReady cascade.now pass.old × IsEmptyHanded pass.old }
    ensures pass { IsReady cascade.now pass.new × IsSame pass.old pass.new }
    ensures empty { result ≢ Err stop.Memory → IsEmptyHanded pass.new }
    ensures done { IfOk result (λ did. Gains (IsDone (length (plan_of cascade.now).steps) did) pass.old pass.new) }
    ensures why { IfErr result (λ stop. Gains (IsWhy stop) pass.old pass.new) }
{
    if cascade.reason(pass) != Reason::Running {
        return Err(OneStop::Stopped);
    }
    match do_next(rt, alloc, cascade, pass, gate, first) {
        Ok(did) => Ok(did),
        Err(NoMemory) => {
            cascade.stop(pass, Reason::Memory);
            Err(OneStop::Memory)
        }
    }
}
