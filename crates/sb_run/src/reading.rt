//! The thread that reads an input.

ghost use Rattle.std.specs.Prelude.{◌≡◌, ◌≤◌, true, false, length, Some};
ghost use Rattle.std.specs.List.{AllByRecursion};
ghost use Rattle.std.specs.Thread.{IsSync};
ghost use Rattle.sb_engines.specs.feeds.base.pipeline.Shapes.{streams_of};
ghost use Rattle.sb_engines.specs.feeds.InputFed.{IsReadOf};
ghost use Rattle.sb_engines.specs.feeds.InputEnds.{begun_values, ring_out, values_sent};
ghost use Rattle.sb_engines.specs.worker.cascade.Calls.{plan_of};
ghost use Rattle.sb_engines.specs.worker.Helping.{IsHelper};

use sb_engines::{
    CascadePass, Common, Dropped, Gate, InputOut, MAX_BUNDLE, Signals, Source, Stop, feed_input,
    help_all,
};
use std::sync::Wait;
use std::thread::{Threads, join_mut};
use std::time::Clock;

// The helpers help until the run ends, and beside them the input is read into the ring. False with a helper that found
// no memory; and the stop that was sent, if one was.
fn help_and_read<W: AllocGlobal + Threads + Wait + Clock + Sync, S: Source, G: Gate + Sync>(
    common: &Common<'_, W, G>,
    helpers: &mut Vec<CascadePass>,
    input: &mut S,
    dropped: &mut Vec<Dropped>,
    outward: &mut InputOut,
    signals: &Signals,
) -> (bool, Option<Stop>)
    requires helpers { AllByRecursion (IsHelper common.now.cascade.now) helpers.old.items }
    requires new { values_sent outward.old
        ≡ begun_values (streams_of (plan_of common.now.cascade.now)) common.now.size }
    requires some { 1 ≤ common.now.size }
    requires most { common.now.size ≤ MAX_BUNDLE }
    ensures back { result.0 ≡ true → AllByRecursion (IsHelper common.now.cascade.now) helpers.new.items
        × (length helpers.new.items ≡ length helpers.old.items) }
    ensures ring { ring_out outward.new ≡ ring_out outward.old }
    ensures read { IsReadOf (plan_of common.now.cascade.now) common.now.size (S.left input.old) (S.left input.new)
        (S.faults input.old) (S.faults input.new) (values_sent outward.new)
        dropped.old.items dropped.new.items result.1 }
    ensures end { result.1 ≡ Some Stop.End → S.has_ended input.new }
    ensures name { S.name input.new ≡ S.name input.old }
{
    let (rt, alloc, cascade, gate) = (common.rt, common.alloc, common.cascade, common.gate);
    let size = common.size;
    join_mut(
        rt,
        &mut || -> bool
            requires helpers { AllByRecursion (IsHelper cascade.now) helpers.now.items }
            requires row { IsSync W.row × IsSync G.row }
            ensures { result ≡ true → AllByRecursion (IsHelper cascade.entry.now) helpers.exit.now.items
                × (length helpers.exit.now.items ≡ length helpers.entry.now.items) }
        { help_all(rt, alloc, cascade, gate, helpers) },
        &mut || -> Option<Stop>
            requires new { values_sent outward.now ≡ begun_values (streams_of (plan_of cascade.now)) size }
            requires some { 1 ≤ size }
            requires most { size ≤ MAX_BUNDLE }
            ensures ring { ring_out outward.exit.now ≡ ring_out outward.entry.now }
            ensures read { IsReadOf (plan_of cascade.entry.now) size (S.left input.entry.now) (S.left input.exit.now)
                (S.faults input.entry.now) (S.faults input.exit.now) (values_sent outward.exit.now)
                dropped.entry.now.items dropped.exit.now.items result }
            ensures end { result ≡ Some Stop.End → S.has_ended input.exit.now }
            ensures name { S.name input.exit.now ≡ S.name input.entry.now }
        { feed_input(rt, cascade.plan(), size, input, dropped, outward, signals) },
    )
}

/// Beside the feeder: the input is read and goes into the ring in bundles, and the helpers help until the run ends. The
/// late records that the plan drops go to the end of `dropped`. False with a helper that found no memory. Then whether
/// the reader has begun, since the feeder may have given it up, and the stop that it has sent, if it sent one.
///
/// The helpers come second where no second thread can be made: they end with the run, but the feeder waits for the
/// input.
pub(crate) fn read_and_help<
    W: AllocGlobal + Threads + Wait + Clock + Sync,
    S: Source,
    G: Gate + Sync,
>(
    common: &Common<'_, W, G>,
    helpers: &mut Vec<CascadePass>,
    input: &mut S,
    dropped: &mut Vec<Dropped>,
    outward: &mut InputOut,
    signals: &Signals,
) -> (bool, bool, Option<Stop>)
    requires helpers { AllByRecursion (IsHelper common.now.cascade.now) helpers.old.items }
    requires new { values_sent outward.old
        ≡ begun_values (streams_of (plan_of common.now.cascade.now)) common.now.size }
    requires some { 1 ≤ common.now.size }
    requires most { common.now.size ≤ MAX_BUNDLE }
    ensures back { result.0 ≡ true → AllByRecursion (IsHelper common.now.cascade.now) helpers.new.items
        × (length helpers.new.items ≡ length helpers.old.items) }
    ensures unread { result.1 ≡ false → (input.new ≡ input.old) × (dropped.new ≡ dropped.old) }
    ensures ring { ring_out outward.new ≡ ring_out outward.old }
    ensures read { IsReadOf (plan_of common.now.cascade.now) common.now.size (S.left input.old) (S.left input.new)
        (S.faults input.old) (S.faults input.new) (values_sent outward.new)
        dropped.old.items dropped.new.items result.2 }
    ensures end { result.2 ≡ Some Stop.End → S.has_ended input.new }
    ensures name { S.name input.new ≡ S.name input.old }
{
    if !signals.begin() {
        return (true, false, None);
    }
    let (clear, stop) = help_and_read(common, helpers, input, dropped, outward, signals);
    (clear, true, stop)
}
