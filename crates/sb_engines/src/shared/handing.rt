//! A cascade is shared out among the passes of workers, and comes back to one hand.

ghost use Rattle.std.specs.Prelude.{◌≡◌, ◌≤◌, ◌<◌, ◌^◌, false, List, map, length, IfOk, OnOk};
ghost use Rattle.std.specs.List.{AllByRecursion};
ghost use Rattle.sb_alone.specs.feeds.base.records.declared.item.Record.{Record as ARecord};
ghost use Rattle.sb_worker.specs.cascade.Calls.{setting_of};
ghost use Rattle.sb_alone.specs.feeds.one_feed.Feeds.{Fed};
ghost use Rattle.sb_alone.specs.feeds.one_feed.GiveCauses.{GiveCause};
ghost use Rattle.sb_engines.specs.Feeders.{ComesBack, HasFed, IsGivenBack};
ghost use Rattle.sb_alone.specs.Rested.{IsWhole};
ghost use Rattle.sb_worker.specs.turn.Passes.{ShowsEmpty};
ghost use Rattle.sb_worker.specs.turn.Reasons.{number_of};
ghost use Rattle.sb_worker.specs.Helping.{IsFirst, IsHelper};

use crate::shared::common::Passes;
use sb_alone::{GiveStop, NoMemory, RowOut, Tap, flow};
use sb_worker::{Cascade, CascadePass, Gate, Hand, Reason, work_off};
use std::alloc::Global;
use std::sync::Wait;

/// Passes for so many helpers.
///
/// # Errors
///
/// [`NoMemory`]; then none is split off.
pub(crate) fn split_all(
    alloc: Global,
    cascade: &Cascade,
    pass: &mut CascadePass,
    count: u32,
) -> Result<Vec<CascadePass>, NoMemory>
    requires pass { IsFirst cascade.now 0 pass.old }
    ensures pass { OnOk result (IsFirst cascade.now count pass.new) }
    ensures helpers { IfOk result (λ helpers. AllByRecursion (IsHelper cascade.now) helpers.items
        × (length helpers.items ≡ count)) }
    ensures fed { OnOk result ((f : Fed) (rows : List ARecord) → HasFed cascade.now pass.old f rows
        → HasFed cascade.now pass.new f rows) }
{
    let mut helpers = Vec::with_capacity(alloc, count as usize)?;
    'helpers: while helpers.len() < count as usize {
        helpers.push_reserved(cascade.split(pass));
    }
    Ok(helpers)
}

// Takes the passes of the helpers back.
fn join_all(cascade: &Cascade, pass: &mut CascadePass, helpers: Vec<CascadePass>)
    requires pass { IsFirst cascade.now (length helpers.items) pass.old }
    requires helpers { AllByRecursion (IsHelper cascade.now) helpers.items }
    ensures pass { IsFirst cascade.now 0 pass.new }
    ensures fed { (f : Fed) (rows : List ARecord) → HasFed cascade.now pass.old f rows
        → HasFed cascade.now pass.new f rows }
{
    let mut helpers = helpers;
    'helpers: while let Some(helper) = helpers.pop() {
        cascade.join(pass, helper);
    }
}

// Works off what lies on the shelf.
fn empty_shelf<W: Wait, G: Gate>(
    rt: &W,
    alloc: Global,
    cascade: &Cascade,
    pass: &mut CascadePass,
    gate: &G,
) -> Result<(), NoMemory>
    requires pass { IsFirst cascade.now 0 pass.old }
    ensures pass { OnOk result (IsFirst cascade.now 0 pass.new × ShowsEmpty pass.new.seat) }
    ensures fed { OnOk result ((f : Fed) (rows : List ARecord) → HasFed cascade.now pass.old f rows
        → HasFed cascade.now pass.new f rows) }
{
    for _ in rt.forever() {
        match cascade.claim(pass) {
            None => return Ok(()),
            Some(claim) => match work_off(rt, alloc, cascade, pass, gate, claim) {
                Ok(()) => {}
                Err(NoMemory) => return Err(NoMemory),
            },
        }
    }
    unreachable!()
}

// Whether the state word says that there was no memory.
fn is_want(reason: Reason) -> bool
    ensures { result ≡ false → number_of reason < 3 }
{
    match reason {
        Reason::Memory => true,
        Reason::Running | Reason::Ended | Reason::Fault => false,
    }
}

// The cascade comes back to one hand, once all helpers have ended: their passes are joined, and what lies on the shelf
// is worked off. It fails if a worker found no memory.
fn take_back<W: Wait, G: Gate>(
    rt: &W,
    alloc: Global,
    cascade: Cascade,
    pass: CascadePass,
    helpers: Vec<CascadePass>,
    gate: &G,
) -> Result<Hand, NoMemory>
    requires pass { IsFirst cascade (length helpers.items) pass }
    requires helpers { AllByRecursion (IsHelper cascade) helpers.items }
    requires some { 1 ≤ (setting_of cascade).pending }
    ensures whole { IfOk result (λ h. (f : Fed) (rows : List ARecord) → HasFed cascade pass f rows
        → IsWhole h f rows) }
    ensures setting { IfOk result (IsGivenBack (setting_of cascade)) }
{
    let mut pass = pass;
    join_all(&cascade, &mut pass, helpers);
    match empty_shelf(rt, alloc, &cascade, &mut pass, gate) {
        Ok(()) => {}
        Err(NoMemory) => return Err(NoMemory),
    }
    if is_want(cascade.reason(&mut pass)) {
        return Err(NoMemory);
    }
    Ok(cascade.shut(pass))
}

/// The cascade comes back to one hand, once all helpers have ended. The hand works off what is left, and the rows that
/// were not given out yet come out.
///
/// # Errors
///
/// The first failure to write or to offer rows, and want of memory, of this worker or another.
pub fn come_back<W: Wait, G: Gate, R: RowOut>(
    rt: &W,
    alloc: Global,
    cascade: Cascade,
    passes: Passes,
    gate: &G,
    out: &mut R,
    taps: &mut Vec<Box<dyn Tap>>,
) -> Result<Hand, GiveStop>
    requires pass { IsFirst cascade (length passes.helpers.items) passes.feeder }
    requires helpers { AllByRecursion (IsHelper cascade) passes.helpers.items }
    requires some { 1 ≤ (setting_of cascade).pending }
    requires feeder { (f : Fed) × (rows : List ARecord) × HasFed cascade passes.feeder f rows }
    requires few { length taps.old.items < 2 ^ 32 }
    ensures comes { (f : Fed) (rows : List ARecord) → HasFed cascade passes.feeder f rows
        → ComesBack cascade R.after R.part out.old out.new
        (map (λ t. tap_state t) taps.old.items) (map (λ t. tap_state t) taps.new.items) f rows result }
    ensures cause { GiveCause (R.row_state out.old) (R.row_state out.new) result }
{
    let Passes { feeder, helpers } = passes;
    let mut hand = match take_back(rt, alloc, cascade, feeder, helpers, gate) {
        Ok(hand) => hand,
        Err(NoMemory) => return Err(GiveStop::Memory),
    };
    match flow(&mut hand, out, taps) {
        Ok(()) => Ok(hand),
        Err(why) => Err(why),
    }
}
