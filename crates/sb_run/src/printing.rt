//! The thread that prints, beside the feeder, the thread that reads its input, and the helpers.

ghost use Rattle.std.specs.Prelude.{◌≡◌, ◌≤◌, ◌<◌, ◌^◌, [], true, false, map, length, Ok, OnOk};
ghost use Rattle.std.specs.List.{AllByRecursion};
ghost use Rattle.std.specs.Thread.{IsSync};
ghost use Rattle.sb_engines.specs.worker.cascade.Calls.{plan_of, setting_of};
ghost use Rattle.sb_engines.specs.feeds.RowsEnds.{row_ring_in, row_ring_out, rows_received, rows_sent};
ghost use Rattle.sb_engines.specs.feeds.RowsSends.{Prints};
ghost use Rattle.sb_engines.specs.feeds.one_feed.Feeds.{nothing_fed};
ghost use Rattle.sb_engines.specs.feeds.one_feed.GiveCauses.{GiveCause};
ghost use Rattle.sb_engines.specs.feeds.one_feed.InputFeeds.{Feeds};
ghost use Rattle.sb_engines.specs.Feeders.{Begins, HasFed, IsStill};
ghost use Rattle.sb_run.specs.InputPrints.{FeedsRing, ends_with};
ghost use Rattle.sb_engines.specs.alone.RunEnds.{SharedFeedCause};
ghost use Rattle.sb_engines.specs.worker.Helping.{IsFirst, IsHelper};

use crate::ahead::Ahead;
use crate::working::work;
use sb_engines::{
    Common, Dropped, Gate, GiveStop, MAX_BUNDLE, Passes, RowOut, RowsIn, RowsSender, Signals,
    Source, Stop, Tap, print_rows, rows_pair,
};
use std::sync::Wait;
use std::thread::{Threads, join_mut};
use std::time::Clock;

// Beside the printer: all that a run does but print, and its rows go into the ring. Whether it has begun, since the
// printer may have given it up; then false with a helper that found no memory, and where reading stopped.
fn work_for_printer<W: AllocGlobal + Threads + Wait + Clock + Sync, S: Source, G: Gate + Sync>(
    common: &Common<'_, W, Ahead<'_, G>>,
    passes: &mut Passes,
    input: &mut S,
    sender: &mut RowsSender<'_, W>,
    signals: &Signals,
    dropped: &mut Vec<Dropped>,
) -> (bool, bool, Result<Stop, GiveStop>)
    requires begins { Begins common.now.cascade.now passes.old.feeder common.now.size }
    requires pass { IsFirst common.now.cascade.now (length passes.old.helpers.items) passes.old.feeder }
    requires helpers { AllByRecursion (IsHelper common.now.cascade.now) passes.old.helpers.items }
    ensures unfed { result.0 ≡ false → (passes.new ≡ passes.old)
        × (input.new ≡ input.old) × (dropped.new ≡ dropped.old) }
    ensures back { result.1 ≡ true → AllByRecursion (IsHelper common.now.cascade.now) passes.new.helpers.items
        × (length passes.new.helpers.items ≡ length passes.old.helpers.items) }
    ensures same { IsStill common.now.cascade.now passes.old.feeder passes.new.feeder }
    ensures feeds { FeedsRing (plan_of common.now.cascade.now) common.now.size (S.left input.old) (S.left input.new)
        (HasFed common.now.cascade.now passes.new.feeder) sender.old.out sender.new.out
        dropped.old.items dropped.new.items result.2 }
    ensures source { SharedFeedCause (S.faults input.old) (S.faults input.new) result.2 }
    ensures end { result.2 ≡ Ok Stop.End → S.has_ended input.new }
    ensures name { S.name input.new ≡ S.name input.old }
{
    if !signals.begin() {
        return (false, true, Err(GiveStop::Memory));
    }
    let mut taps: Vec<Box<dyn Tap>> = Vec::new(common.alloc);
    let (clear, fed) = work(common, passes, input, sender, &mut taps, dropped);
    sender.end();
    (true, clear, fed)
}

// The caller's thread prints what comes through the ring, once the feeder has begun. False, and nothing was done, if
// that takes about a second.
fn print_begun<W: Wait + Clock, R: RowOut>(
    rt: &W,
    inward: &mut RowsIn,
    signals: &Signals,
    out: &mut R,
    taps: &mut Vec<Box<dyn Tap>>,
) -> (bool, Result<(), GiveStop>)
    requires nothing { rows_received inward.old ≡ [] }
    requires few { length taps.old.items < 2 ^ 32 }
    ensures left { result.0 ≡ false → (out.new ≡ out.old) × (taps.new ≡ taps.old) }
    ensures ring { row_ring_in inward.new ≡ row_ring_in inward.old }
    ensures prints { Prints R.after R.part out.old (map (λ t. tap_state t) taps.old.items) (rows_received inward.new)
        out.new (map (λ t. tap_state t) taps.new.items) result.1 }
    ensures fewer { length taps.new.items ≤ length taps.old.items }
    ensures cause { GiveCause (R.row_state out.old) (R.row_state out.new) result.1 }
{
    if !signals.has_begun(rt) {
        return (false, Err(GiveStop::Memory));
    }
    (true, print_rows(rt, inward, signals, out, taps))
}

// What the printer has: the end of the ring that rows come out of, and the signals of the feeder and the printer.
#[derive(Drop)]
struct Printer<'a> {
    inward: RowsIn,
    signals: &'a Signals,
}

// The printer prints what the feeder sends, beside it and all that works for it, until all have ended. What is said of
// each is what `work_for_printer` and `print_begun` answer.
fn work_beside_printer<
    W: AllocGlobal + Threads + Wait + Clock + Sync,
    S: Source,
    R: RowOut,
    G: Gate + Sync,
>(
    common: &Common<'_, W, Ahead<'_, G>>,
    passes: &mut Passes,
    input: &mut S,
    sender: &mut RowsSender<'_, W>,
    printer: &mut Printer<'_>,
    out: &mut R,
    taps: &mut Vec<Box<dyn Tap>>,
    dropped: &mut Vec<Dropped>,
) -> (
    (bool, bool, Result<Stop, GiveStop>),
    (bool, Result<(), GiveStop>),
)
    requires begins { Begins common.now.cascade.now passes.old.feeder common.now.size }
    requires pass { IsFirst common.now.cascade.now (length passes.old.helpers.items) passes.old.feeder }
    requires helpers { AllByRecursion (IsHelper common.now.cascade.now) passes.old.helpers.items }
    requires nothing { rows_received printer.old.inward ≡ [] }
    requires few { length taps.old.items < 2 ^ 32 }
    ensures unfed { result.0.0 ≡ false → (passes.new ≡ passes.old)
        × (input.new ≡ input.old) × (dropped.new ≡ dropped.old) }
    ensures back { result.0.1 ≡ true → AllByRecursion (IsHelper common.now.cascade.now) passes.new.helpers.items
        × (length passes.new.helpers.items ≡ length passes.old.helpers.items) }
    ensures same { IsStill common.now.cascade.now passes.old.feeder passes.new.feeder }
    ensures feeds { FeedsRing (plan_of common.now.cascade.now) common.now.size (S.left input.old) (S.left input.new)
        (HasFed common.now.cascade.now passes.new.feeder) sender.old.out sender.new.out
        dropped.old.items dropped.new.items result.0.2 }
    ensures source { SharedFeedCause (S.faults input.old) (S.faults input.new) result.0.2 }
    ensures end { result.0.2 ≡ Ok Stop.End → S.has_ended input.new }
    ensures name { S.name input.new ≡ S.name input.old }
    ensures left { result.1.0 ≡ false → (out.new ≡ out.old) × (taps.new ≡ taps.old) }
    ensures ring { row_ring_in printer.new.inward ≡ row_ring_in printer.old.inward }
    ensures prints { Prints R.after R.part out.old (map (λ t. tap_state t) taps.old.items)
        (rows_received printer.new.inward) out.new (map (λ t. tap_state t) taps.new.items) result.1.1 }
    ensures fewer { length taps.new.items ≤ length taps.old.items }
    ensures cause { GiveCause (R.row_state out.old) (R.row_state out.new) result.1.1 }
{
    let (rt, alloc, cascade, gate) = (common.rt, common.alloc, common.cascade, common.gate);
    let size = common.size;
    let inward = &mut printer.inward;
    let signals = printer.signals;
    join_mut(
        rt,
        &mut || -> (bool, bool, Result<Stop, GiveStop>)
            requires begins { Begins cascade.now passes.now.feeder size }
            requires pass { IsFirst cascade.now (length passes.now.helpers.items) passes.now.feeder }
            requires helpers { AllByRecursion (IsHelper cascade.now) passes.now.helpers.items }
            requires row { IsSync W.row × IsSync G.row }
            ensures unfed { result.0 ≡ false → (passes.exit.now ≡ passes.entry.now) × (input.exit.now ≡ input.entry.now)
                × (dropped.exit.now ≡ dropped.entry.now) }
            ensures back { result.1 ≡ true
                → AllByRecursion (IsHelper cascade.entry.now) passes.exit.now.helpers.items
                × (length passes.exit.now.helpers.items ≡ length passes.entry.now.helpers.items) }
            ensures same { IsStill cascade.entry.now passes.entry.now.feeder passes.exit.now.feeder }
            ensures feeds { FeedsRing (plan_of cascade.entry.now) size (S.left input.entry.now)
                (S.left input.exit.now) (HasFed cascade.entry.now passes.exit.now.feeder)
                sender.entry.now.out sender.exit.now.out dropped.entry.now.items dropped.exit.now.items result.2 }
            ensures source { SharedFeedCause (S.faults input.entry.now) (S.faults input.exit.now) result.2 }
            ensures end { result.2 ≡ Ok Stop.End → S.has_ended input.exit.now }
            ensures name { S.name input.exit.now ≡ S.name input.entry.now }
        {
            let common = Common {
                rt,
                alloc,
                cascade,
                gate,
                size,
            };
            work_for_printer(&common, passes, input, sender, signals, dropped)
        },
        &mut || -> (bool, Result<(), GiveStop>)
            requires nothing { rows_received inward.now ≡ [] }
            requires few { length taps.now.items < 2 ^ 32 }
            ensures left { result.0 ≡ false → (out.exit.now ≡ out.entry.now) × (taps.exit.now ≡ taps.entry.now) }
            ensures ring { row_ring_in inward.exit.now ≡ row_ring_in inward.entry.now }
            ensures prints { Prints R.after R.part out.entry.now (map (λ t. tap_state t) taps.entry.now.items)
                (rows_received inward.exit.now) out.exit.now (map (λ t. tap_state t) taps.exit.now.items) result.1 }
            ensures fewer { length taps.exit.now.items ≤ length taps.entry.now.items }
            ensures cause { GiveCause (R.row_state out.entry.now) (R.row_state out.exit.now) result.1 }
        { print_begun(rt, inward, signals, out, taps) },
    )
}

// How a run ends: by the first failure of the printer, else as the feeder has ended. Where all was printed and the
// feeder has stopped early, it was for want of memory.
fn end_with(fed: Result<Stop, GiveStop>, printed: Result<(), GiveStop>) -> Result<Stop, GiveStop>
    ensures { result ≡ ends_with fed printed }
{
    match printed {
        Ok(()) => match fed {
            Ok(stop) => Ok(stop),
            Err(_) => Err(GiveStop::Memory),
        },
        Err(why) => Err(why),
    }
}

/// The feeder feeds the input, which another thread reads, and the helpers help, until all have ended, as by [`work`].
/// What comes out is printed by the caller's thread, and all else is done in others. False with a helper that found no
/// memory. If the feeder doesn't begin, since there is no thread for it, the caller's thread feeds as well.
pub(crate) fn work_and_print<
    W: AllocGlobal + Threads + Wait + Clock + Sync,
    S: Source,
    R: RowOut,
    G: Gate + Sync,
>(
    common: &Common<'_, W, Ahead<'_, G>>,
    passes: &mut Passes,
    input: &mut S,
    out: &mut R,
    taps: &mut Vec<Box<dyn Tap>>,
    dropped: &mut Vec<Dropped>,
) -> (bool, Result<Stop, GiveStop>)
    requires begins { Begins common.now.cascade.now passes.old.feeder common.now.size }
    requires pass { IsFirst common.now.cascade.now (length passes.old.helpers.items) passes.old.feeder }
    requires helpers { AllByRecursion (IsHelper common.now.cascade.now) passes.old.helpers.items }
    requires few { length taps.old.items < 2 ^ 32 }
    ensures back { result.0 ≡ true → AllByRecursion (IsHelper common.now.cascade.now) passes.new.helpers.items
        × (length passes.new.helpers.items ≡ length passes.old.helpers.items) }
    ensures same { IsStill common.now.cascade.now passes.old.feeder passes.new.feeder }
    ensures feeds { Feeds (plan_of common.now.cascade.now) common.now.size (S.left input.old) (S.left input.new)
        (HasFed common.now.cascade.now passes.new.feeder) R.after R.part out.old out.new
        (map (λ t. tap_state t) taps.old.items) (map (λ t. tap_state t) taps.new.items)
        dropped.old.items dropped.new.items result.1 }
    ensures fewer { OnOk result.1 (length taps.new.items ≤ length taps.old.items) }
    ensures source { SharedFeedCause (S.faults input.old) (S.faults input.new) result.1 }
    ensures end { result.1 ≡ Ok Stop.End → S.has_ended input.new }
    ensures name { S.name input.new ≡ S.name input.old }
    ensures cause { GiveCause (R.row_state out.old) (R.row_state out.new) result.1 }
{
    let Ok((outward, inward)) = rows_pair(common.alloc) else {
        return (true, Err(GiveStop::Memory));
    };
    let signals = Signals::new();
    let mut sender = RowsSender::new(common.rt, common.alloc, &signals, outward);
    let mut printer = Printer {
        inward,
        signals: &signals,
    };
    let ((has_begun, clear, fed), (is_begun, printed)) = work_beside_printer(
        common,
        passes,
        input,
        &mut sender,
        &mut printer,
        out,
        taps,
        dropped,
    );
    let Printer { inward, .. } = printer;
    inward.tie(sender.into_out());
    if clear && !has_begun && !is_begun {
        return work(common, passes, input, out, taps, dropped);
    }
    (clear, end_with(fed, printed))
}
