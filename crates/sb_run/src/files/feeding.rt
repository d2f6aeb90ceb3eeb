//! Feeding what comes out of the rings of two files to a shared cascade.

ghost use Rattle.std.specs.Prelude.{◌≡◌, ◌≤◌, ◌<◌, ◌^◌, ◌++◌, ◌∷◌, ◌+◌, [], List, map, length, Some, OnOk, OnErr, IfOk};
ghost use Rattle.sb_engines.specs.feeds.base.records.declared.item.Item.{Item as AnItem};
ghost use Rattle.sb_engines.specs.feeds.base.records.declared.item.Record.{Record as ARecord};
ghost use Rattle.sb_engines.specs.feeds.base.records.declared.item.Stream.{Stream as AStream};
ghost use Rattle.sb_engines.specs.feeds.base.records.Streams.{dropped_of};
ghost use Rattle.sb_engines.specs.feeds.base.pipeline.Shapes.{streams_of};
ghost use Rattle.sb_engines.specs.worker.cascade.Calls.{plan_of, setting_of};
ghost use Rattle.sb_engines.specs.feeds.one_feed.FedByItems.{end_items};
ghost use Rattle.sb_engines.specs.feeds.one_feed.Feeds.{Fed, nothing_fed};
ghost use Rattle.sb_engines.specs.feeds.one_feed.GiveCauses.{GiveCause};
ghost use Rattle.sb_engines.specs.feeds.one_feed.Takes.{MayEnd, MayTake, TakesOrFails};
ghost use Rattle.sb_engines.specs.feeds.Ends.{ring_in};
ghost use Rattle.sb_engines.specs.Feeders.{Begins, HasFed, IsStill};
ghost use Rattle.sb_engines.specs.feeds.base.Inputs.{by_stream};
ghost use Rattle.sb_run.specs.FilesFed.{FeedsValues};
ghost use Rattle.sb_run.specs.Pops.{AreInlets, as_stop as spec_as_stop, item_for, values_of};

use crate::files::inlets::{FilesStop, Inlets, as_stop};
use sb_engines::{
    ByStream, CascadePass, Common, Cutters, Dropped, Feeder, Gate, GiveStop, Item, MAX_BUNDLE,
    MAX_LINES, NoMemory, Pace, RowOut, Stream, Tap, end_input, end_work, reason_of, step_or_yield,
    take_item,
};
use std::sync::Wait;
use std::time::Clock;

// Takes an item of the file of a stream: a late record that is dropped is listed with those of this file. Whatever
// came, it is left to all workers, of which the feeder is one while the files give nothing.
fn take_of<W: Wait + Clock, G: Gate, R: RowOut>(
    common: &Common<'_, W, G>,
    pass: &mut CascadePass,
    cutters: &mut Cutters,
    next: (Stream, Item),
    out: &mut R,
    taps: &mut Vec<Box<dyn Tap>>,
    dropped: &mut ByStream<Vec<Dropped>>,
) -> Result<(), GiveStop>
    requires may { (items : List AnItem) × (f : Fed) × (rows : List ARecord)
        × MayTake (HasFed common.now.cascade.now pass.old) (plan_of common.now.cascade.now)
        (setting_of common.now.cascade.now).bundle cutters.old next.1 items f rows }
    requires few { length taps.old.items < 2 ^ 32 }
    ensures same { IsStill common.now.cascade.now pass.old pass.new }
    ensures takes { (items : List AnItem) (f : Fed) (rows : List ARecord)
        → MayTake (HasFed common.now.cascade.now pass.old) (plan_of common.now.cascade.now)
        (setting_of common.now.cascade.now).bundle cutters.old next.1 items f rows
        → TakesOrFails (plan_of common.now.cascade.now) (setting_of common.now.cascade.now).bundle
        (HasFed common.now.cascade.now pass.new) R.after R.part out.old out.new
        (map (λ t. tap_state t) taps.old.items) (map (λ t. tap_state t) taps.new.items)
        (items ++ next.1 ∷ []) cutters.new rows result }
    ensures kept { OnOk result ((s : AStream) → by_stream dropped.new.a.items dropped.new.b.items s
        ≡ by_stream dropped.old.a.items dropped.old.b.items s ++ dropped_of (item_for next.0 next.1 s)) }
    ensures same_lists { OnErr result ((s : AStream) → by_stream dropped.new.a.items dropped.new.b.items s
        ≡ by_stream dropped.old.a.items dropped.old.b.items s) }
    ensures fewer { OnOk result (length taps.new.items ≤ length taps.old.items) }
    ensures cause { GiveCause (R.row_state out.old) (R.row_state out.new) result }
{
    let mut engine = Feeder {
        common,
        pass,
        pace: Pace::leaving(),
    };
    let (stream, item) = next;
    match stream {
        Stream::A => take_item(&mut engine, cutters, item, out, taps, &mut dropped.a),
        Stream::B => take_item(&mut engine, cutters, item, out, taps, &mut dropped.b),
    }
}

// Takes the end of both files, if both have ended and no line is refused.
fn end_both<W: Wait + Clock, G: Gate, R: RowOut>(
    common: &Common<'_, W, G>,
    pass: &mut CascadePass,
    cutters: &mut Cutters,
    stop: FilesStop,
    out: &mut R,
    taps: &mut Vec<Box<dyn Tap>>,
) -> Result<FilesStop, GiveStop>
    requires may { (items : List AnItem) × (f : Fed) × (rows : List ARecord)
        × MayEnd (HasFed common.now.cascade.now pass.old) (setting_of common.now.cascade.now).bundle
        cutters.old (MAX_LINES + 1) items f rows }
    requires few { length taps.old.items < 2 ^ 32 }
    ensures same { IsStill common.now.cascade.now pass.old pass.new }
    ensures takes { (items : List AnItem) (f : Fed) (rows : List ARecord)
        → MayEnd (HasFed common.now.cascade.now pass.old) (setting_of common.now.cascade.now).bundle
        cutters.old (MAX_LINES + 1) items f rows
        → TakesOrFails (plan_of common.now.cascade.now) (setting_of common.now.cascade.now).bundle
        (HasFed common.now.cascade.now pass.new) R.after R.part out.old out.new
        (map (λ t. tap_state t) taps.old.items) (map (λ t. tap_state t) taps.new.items)
        (items ++ end_items (streams_of (plan_of common.now.cascade.now)) (spec_as_stop stop)) cutters.new rows result }
    ensures stop { IfOk result (λ given. given ≡ stop) }
    ensures fewer { OnOk result (length taps.new.items ≤ length taps.old.items) }
    ensures cause { GiveCause (R.row_state out.old) (R.row_state out.new) result }
{
    let at = as_stop(stop);
    let mut engine = Feeder {
        common,
        pass,
        pace: Pace::leaving(),
    };
    match end_input(&mut engine, cutters, at, out, taps) {
        Ok(()) => Ok(stop),
        Err(why) => Err(why),
    }
}

// Feeds what comes out of the rings up to the stop of each, and answers why the reading of the files stopped. While
// neither ring gives an item, the feeder works.
fn feed_values<W: Wait + Clock, G: Gate, R: RowOut>(
    common: &Common<'_, W, G>,
    pass: &mut CascadePass,
    inlets: &mut Inlets,
    out: &mut R,
    taps: &mut Vec<Box<dyn Tap>>,
    dropped: &mut ByStream<Vec<Dropped>>,
) -> Result<FilesStop, GiveStop>
    requires begins { Begins common.now.cascade.now pass.old common.now.size }
    requires inlets { AreInlets (streams_of (plan_of common.now.cascade.now)) inlets.old }
    requires nothing { (s : AStream) → values_of inlets.old s ≡ [] }
    requires few { length taps.old.items < 2 ^ 32 }
    ensures ring_a { ring_in inlets.new.a.inward ≡ ring_in inlets.old.a.inward }
    ensures ring_b { ring_in inlets.new.b.inward ≡ ring_in inlets.old.b.inward }
    ensures same { IsStill common.now.cascade.now pass.old pass.new }
    ensures feeds { FeedsValues (plan_of common.now.cascade.now) (setting_of common.now.cascade.now).bundle
        (values_of inlets.new) (HasFed common.now.cascade.now pass.new) R.after R.part out.old out.new
        (map (λ t. tap_state t) taps.old.items) (map (λ t. tap_state t) taps.new.items)
        (by_stream dropped.old.a.items dropped.old.b.items) (by_stream dropped.new.a.items dropped.new.b.items) result }
    ensures fewer { OnOk result (length taps.new.items ≤ length taps.old.items) }
    ensures cause { GiveCause (R.row_state out.old) (R.row_state out.new) result }
{
    let mut cutters = Cutters::new(common.alloc, common.size);
    for _ in common.rt.forever() {
        match inlets.pop() {
            Some(next) => match take_of(common, pass, &mut cutters, next, out, taps, dropped) {
                Ok(()) => {}
                Err(why) => return Err(why),
            },
            None => match inlets.stop() {
                Some(stop) => {
                    return end_both(common, pass, &mut cutters, stop, out, taps);
                }
                None => match step_or_yield(common, pass) {
                    Ok(()) => {}
                    Err(NoMemory) => return Err(GiveStop::Memory),
                },
            },
        }
    }
    unreachable!()
}

/// The feeder's work: it feeds what comes out of the rings of two files to a cascade that was fed nothing yet, steps
/// until nothing is left to do, says in the state word that the run ends, and answers why the reading of the files
/// stopped. A refused file does not stop the other one, and the end of a file is fed only if none is refused. The late
/// records that the plan drops go to the end of the list of their file.
///
/// # Errors
///
/// The first failure to write or to offer rows, or want of memory, of this worker or another. Nothing more is then
/// written or offered, but both rings are emptied up to their stops.
pub(crate) fn feed_files<W: Wait + Clock, G: Gate, R: RowOut>(
    common: &Common<'_, W, G>,
    pass: &mut CascadePass,
    inlets: &mut Inlets,
    out: &mut R,
    taps: &mut Vec<Box<dyn Tap>>,
    dropped: &mut ByStream<Vec<Dropped>>,
) -> Result<FilesStop, GiveStop>
    requires begins { Begins common.now.cascade.now pass.old common.now.size }
    requires inlets { AreInlets (streams_of (plan_of common.now.cascade.now)) inlets.old }
    requires nothing { (s : AStream) → values_of inlets.old s ≡ [] }
    requires few { length taps.old.items < 2 ^ 32 }
    ensures ring_a { ring_in inlets.new.a.inward ≡ ring_in inlets.old.a.inward }
    ensures ring_b { ring_in inlets.new.b.inward ≡ ring_in inlets.old.b.inward }
    ensures same { IsStill common.now.cascade.now pass.old pass.new }
    ensures feeds { FeedsValues (plan_of common.now.cascade.now) (setting_of common.now.cascade.now).bundle
        (values_of inlets.new) (HasFed common.now.cascade.now pass.new) R.after R.part out.old out.new
        (map (λ t. tap_state t) taps.old.items) (map (λ t. tap_state t) taps.new.items)
        (by_stream dropped.old.a.items dropped.old.b.items) (by_stream dropped.new.a.items dropped.new.b.items) result }
    ensures fewer { OnOk result (length taps.new.items ≤ length taps.old.items) }
    ensures cause { GiveCause (R.row_state out.old) (R.row_state out.new) result }
{
    let stop = match feed_values(common, pass, inlets, out, taps, dropped) {
        Ok(stop) => stop,
        Err(why) => {
            common.cascade.stop(pass, reason_of(why));
            inlets.empty(common.rt);
            return Err(why);
        }
    };
    match end_work(common, pass) {
        Ok(()) => Ok(stop),
        Err(NoMemory) => Err(GiveStop::Memory),
    }
}
