//! The steps of the feeder of a shared cascade: it brings bundles in, takes rows out, and works as the others do.

ghost use Rattle.std.specs.Prelude.{◌<◌, ◌++◌, false, List, All, IfNone, IfSome, OnOk};
ghost use Rattle.sb_alone.specs.feeds.base.records.declared.item.Record.{Record as ARecord};
ghost use Rattle.sb_worker.specs.cascade.Calls.{HasBundle, IsEmptyHanded, IsReady, IsSame, plan_of, setting_of};
ghost use Rattle.sb_worker.specs.cascade.shared.Found.{IsClaim};
ghost use Rattle.sb_alone.specs.feeds.one_feed.Feeds.{Fed, MayArrive, with_bundle};
ghost use Rattle.sb_engines.specs.Feeders.{HasFed, IsStill};

use crate::shared::common::Common;
use crate::shared::pace::Pace;
use sb_alone::{Bundle, END_MARK, NoMemory, Record, Stream};
use sb_worker::{
    ArriveStop, Cascade, CascadePass, Claim, Did, First, Gate, OneStop, Reason, TryTake, one_step,
    settle_node, work_off,
};
use std::sync::Wait;
use std::thread;
use std::time::Clock;

/// Takes the rows out that lie ready.
pub fn take_out<W: Wait, G>(common: &Common<'_, W, G>, pass: &mut CascadePass) -> Vec<Record>
    requires feeder { (f : Fed) × (rows : List ARecord) × HasFed common.now.cascade.now pass.old f rows }
    ensures same { IsStill common.now.cascade.now pass.old pass.new }
    ensures feeder { (f : Fed) (rows : List ARecord) → HasFed common.now.cascade.now pass.old f rows
        → HasFed common.now.cascade.now pass.new f (rows ++ result.items) }
    ensures times { All (λ r. r.time < END_MARK) result.items }
{
    common.cascade.drain(common.rt, pass)
}

/// A step of the feeder as a worker.
///
/// # Errors
///
/// This worker or another found no memory.
pub fn step_too<W: Wait, G: Gate>(
    common: &Common<'_, W, G>,
    pass: &mut CascadePass,
) -> Result<Did, NoMemory>
    requires pass { IsReady common.now.cascade.now pass.old × IsEmptyHanded pass.old }
    ensures same { IsStill common.now.cascade.now pass.old pass.new }
    ensures empty { OnOk result (IsEmptyHanded pass.new) }
    ensures feeder { OnOk result ((f : Fed) (rows : List ARecord) → HasFed common.now.cascade.now pass.old f rows
        → HasFed common.now.cascade.now pass.new f rows) }
{
    match one_step(
        common.rt,
        common.alloc,
        common.cascade,
        pass,
        common.gate,
        First::Closing,
    ) {
        Ok(did) => Ok(did),
        Err(OneStop::Stopped | OneStop::Memory) => Err(NoMemory),
    }
}

// A bundle that waits in the node that takes the stream, if the node's turn is free.
fn try_there(cascade: &Cascade, pass: &mut CascadePass, stream: Stream) -> Option<Claim>
    requires pass { IsReady cascade.now pass.old × IsEmptyHanded pass.old }
    ensures pass { IsReady cascade.now pass.new × IsSame pass.old pass.new }
    ensures some { IfSome result (λ claim. IsClaim (setting_of cascade.now) claim × HasBundle claim false pass.new) }
    ensures none { IfNone result (IsEmptyHanded pass.new) }
{
    let down = cascade.plan().source(stream)?;
    match cascade.try_take(pass, down.node) {
        TryTake::Got(claim) => Some(claim),
        TryTake::Nothing | TryTake::Held => None,
    }
}

// Works off a bundle of the node that takes the stream, if its turn is free and one waits.
fn work_there<W: Wait, G: Gate>(
    common: &Common<'_, W, G>,
    pass: &mut CascadePass,
    stream: Stream,
) -> Result<(), NoMemory>
    requires pass { IsReady common.now.cascade.now pass.old × IsEmptyHanded pass.old }
    ensures same { IsStill common.now.cascade.now pass.old pass.new }
    ensures empty { OnOk result (IsEmptyHanded pass.new) }
    ensures feeder { OnOk result ((f : Fed) (rows : List ARecord) → HasFed common.now.cascade.now pass.old f rows
        → HasFed common.now.cascade.now pass.new f rows) }
{
    match try_there(common.cascade, pass, stream) {
        Some(claim) => match work_off(
            common.rt,
            common.alloc,
            common.cascade,
            pass,
            common.gate,
            claim,
        ) {
            Ok(()) => Ok(()),
            Err(NoMemory) => Err(NoMemory),
        },
        None => Ok(()),
    }
}

/// A step of the feeder as a worker. If there is nothing to do, since all is in the hands of others, it leaves the
/// processor to them.
///
/// # Errors
///
/// This worker or another found no memory.
pub fn step_or_yield<W: Wait, G: Gate>(
    common: &Common<'_, W, G>,
    pass: &mut CascadePass,
) -> Result<(), NoMemory>
    requires pass { IsReady common.now.cascade.now pass.old × IsEmptyHanded pass.old }
    ensures same { IsStill common.now.cascade.now pass.old pass.new }
    ensures feeder { OnOk result ((f : Fed) (rows : List ARecord) → HasFed common.now.cascade.now pass.old f rows
        → HasFed common.now.cascade.now pass.new f rows) }
{
    match step_too(common, pass) {
        Ok(Did::Bundle | Did::Closing) => Ok(()),
        Ok(Did::Nothing) => {
            thread::yield_now();
            Ok(())
        }
        Err(NoMemory) => Err(NoMemory),
    }
}

// Works off a bundle of the node that takes the stream, and makes a step: so bundles do not gather behind that node
// while the feeder makes room in it.
fn make_room<W: Wait, G: Gate>(
    common: &Common<'_, W, G>,
    pass: &mut CascadePass,
    stream: Stream,
) -> Result<(), NoMemory>
    requires pass { IsReady common.now.cascade.now pass.old × IsEmptyHanded pass.old }
    ensures same { IsStill common.now.cascade.now pass.old pass.new }
    ensures feeder { OnOk result ((f : Fed) (rows : List ARecord) → HasFed common.now.cascade.now pass.old f rows
        → HasFed common.now.cascade.now pass.new f rows) }
{
    match work_there(common, pass, stream) {
        Ok(()) => step_or_yield(common, pass),
        Err(NoMemory) => Err(NoMemory),
    }
}

/// A bundle of a stream comes. While its lane is full, the feeder works something off. Whether it had to.
///
/// # Errors
///
/// This worker or another found no memory.
pub(crate) fn bring<W: Wait, G: Gate>(
    common: &Common<'_, W, G>,
    pass: &mut CascadePass,
    stream: Stream,
    bundle: Bundle,
) -> Result<bool, NoMemory>
    requires may { (f : Fed) × (rows : List ARecord) × HasFed common.now.cascade.now pass.old f rows
        × MayArrive (plan_of common.now.cascade.now) (setting_of common.now.cascade.now).bundle f stream bundle }
    ensures same { IsStill common.now.cascade.now pass.old pass.new }
    ensures feeder { OnOk result ((f : Fed) (rows : List ARecord) → HasFed common.now.cascade.now pass.old f rows
        → MayArrive (plan_of common.now.cascade.now) (setting_of common.now.cascade.now).bundle f stream bundle
        → HasFed common.now.cascade.now pass.new (with_bundle stream bundle f) rows) }
{
    let mut waiting = bundle;
    let mut has_waited = false;
    for _ in common.rt.forever() {
        match common.cascade.arrive(common.rt, pass, stream, waiting) {
            Ok(_) => return Ok(has_waited),
            Err(ArriveStop::Memory(_)) => return Err(NoMemory),
            Err(ArriveStop::Full(back)) => waiting = back,
        }
        match make_room(common, pass, stream) {
            Ok(()) => has_waited = true,
            Err(NoMemory) => return Err(NoMemory),
        }
    }
    unreachable!()
}

// Works off what waits in each node, and makes the closings that can begin there, in the order of the nodes: so what
// came leaves the engine, but for what others have in hand.
fn settle_each<W: Wait, G: Gate>(
    common: &Common<'_, W, G>,
    pass: &mut CascadePass,
) -> Result<(), NoMemory>
    requires pass { IsReady common.now.cascade.now pass.old × IsEmptyHanded pass.old }
    ensures same { IsStill common.now.cascade.now pass.old pass.new }
    ensures feeder { OnOk result ((f : Fed) (rows : List ARecord) → HasFed common.now.cascade.now pass.old f rows
        → HasFed common.now.cascade.now pass.new f rows) }
{
    let sink = common.cascade.plan().transforms();
    'nodes: for node in 0..=sink {
        match settle_node(
            common.rt,
            common.alloc,
            common.cascade,
            pass,
            common.gate,
            node,
        ) {
            Ok(()) => {}
            Err(NoMemory) => return Err(NoMemory),
        }
    }
    Ok(())
}

// The feeder works off by itself what came, if the work goes on.
fn settle_alone<W: Wait, G: Gate>(
    common: &Common<'_, W, G>,
    pass: &mut CascadePass,
) -> Result<(), NoMemory>
    requires pass { IsReady common.now.cascade.now pass.old × IsEmptyHanded pass.old }
    ensures same { IsStill common.now.cascade.now pass.old pass.new }
    ensures feeder { OnOk result ((f : Fed) (rows : List ARecord) → HasFed common.now.cascade.now pass.old f rows
        → HasFed common.now.cascade.now pass.new f rows) }
{
    match common.cascade.reason(pass) {
        Reason::Running => settle_each(common, pass),
        Reason::Ended | Reason::Fault | Reason::Memory => Err(NoMemory),
    }
}

/// An epoch ends: the feeder works off by itself what came, if the pace says so, and else leaves it to all workers.
///
/// # Errors
///
/// This worker or another found no memory.
pub(crate) fn keep_up<W: Wait + Clock, G: Gate>(
    common: &Common<'_, W, G>,
    pass: &mut CascadePass,
    pace: &mut Pace,
) -> Result<(), NoMemory>
    requires pass { IsReady common.now.cascade.now pass.old × IsEmptyHanded pass.old }
    ensures same { IsStill common.now.cascade.now pass.old pass.new }
    ensures feeder { OnOk result ((f : Fed) (rows : List ARecord) → HasFed common.now.cascade.now pass.old f rows
        → HasFed common.now.cascade.now pass.new f rows) }
{
    if !pace.is_own() {
        pace.end_epoch(common.rt, common.cascade);
        return Ok(());
    }
    settle_alone(common, pass)?;
    pace.end_epoch(common.rt, common.cascade);
    Ok(())
}

/// Steps until nothing is left to do.
///
/// # Errors
///
/// This worker or another found no memory.
pub(crate) fn settle<W: Wait, G: Gate>(
    common: &Common<'_, W, G>,
    pass: &mut CascadePass,
) -> Result<(), NoMemory>
    requires pass { IsReady common.now.cascade.now pass.old × IsEmptyHanded pass.old }
    ensures same { IsStill common.now.cascade.now pass.old pass.new }
    ensures feeder { OnOk result ((f : Fed) (rows : List ARecord) → HasFed common.now.cascade.now pass.old f rows
        → HasFed common.now.cascade.now pass.new f rows) }
{
    for _ in common.rt.forever() {
        match step_too(common, pass) {
            Ok(Did::Nothing) => return Ok(()),
            Ok(Did::Bundle | Did::Closing) => {}
            Err(NoMemory) => return Err(NoMemory),
        }
    }
    unreachable!()
}
