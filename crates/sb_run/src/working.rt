//! The feeder, the thread that reads its input, and the helpers.

ghost use Rattle.std.specs.Prelude.{◌≡◌, ◌≤◌, ◌<◌, ◌^◌, [], true, false, map, length, Ok, Some, OnOk};
ghost use Rattle.std.specs.List.{AllByRecursion};
ghost use Rattle.std.specs.Thread.{IsSync};
ghost use Rattle.sb_engines.specs.feeds.base.pipeline.Shapes.{streams_of};
ghost use Rattle.sb_engines.specs.feeds.InputFed.{IsReadOf};
ghost use Rattle.sb_engines.specs.feeds.InputEnds.{begun_values, ring_in, ring_out, values_received, values_sent};
ghost use Rattle.sb_engines.specs.worker.cascade.Calls.{plan_of, setting_of};
ghost use Rattle.sb_engines.specs.feeds.one_feed.Feeds.{nothing_fed};
ghost use Rattle.sb_engines.specs.feeds.one_feed.GiveCauses.{GiveCause};
ghost use Rattle.sb_engines.specs.feeds.one_feed.InputFeeds.{Feeds};
ghost use Rattle.sb_engines.specs.Feeders.{Begins, HasFed, IsStill};
ghost use Rattle.sb_run.specs.InputPops.{FeedsPopped};
ghost use Rattle.sb_engines.specs.alone.RunEnds.{SharedFeedCause};
ghost use Rattle.sb_engines.specs.worker.Helping.{IsFirst, IsHelper};

use crate::ahead::Ahead;
use crate::feeding::feed_popped;
use crate::reading::read_and_help;
use sb_engines::{
    Common, Dropped, Gate, GiveStop, InputIn, InputOut, MAX_BUNDLE, Passes, RowOut, Signals,
    Source, Stop, Tap, feed_beside_helpers, input_pair,
};
use std::sync::Wait;
use std::thread::{Threads, join_mut};
use std::time::Clock;

// Both ends of the ring of an input, and the signals of its reader and the feeder.
#[derive(Drop)]
struct InputPair {
    outward: InputOut,
    inward: InputIn,
    signals: Signals,
}

// The feeder feeds what the reader sends, beside the reader and the helpers, until all have ended. What is said of each
// is what `read_and_help` and `feed_popped` answer.
fn work_apart<W: AllocGlobal + Threads + Wait + Clock + Sync, S: Source, R: RowOut, G: Gate + Sync>(
    common: &Common<'_, W, Ahead<'_, G>>,
    passes: &mut Passes,
    input: &mut S,
    ends: &mut InputPair,
    out: &mut R,
    taps: &mut Vec<Box<dyn Tap>>,
    dropped: &mut Vec<Dropped>,
) -> ((bool, bool, Option<Stop>), (bool, Result<Stop, GiveStop>))
    requires begins { Begins common.now.cascade.now passes.old.feeder common.now.size }
    requires sent { values_sent ends.old.outward
        ≡ begun_values (streams_of (plan_of common.now.cascade.now)) common.now.size }
    requires received { values_received ends.old.inward
        ≡ begun_values (streams_of (plan_of common.now.cascade.now)) common.now.size }
    requires helpers { AllByRecursion (IsHelper common.now.cascade.now) passes.old.helpers.items }
    requires few { length taps.old.items < 2 ^ 32 }
    ensures back { result.0.0 ≡ true → AllByRecursion (IsHelper common.now.cascade.now) passes.new.helpers.items
        × (length passes.new.helpers.items ≡ length passes.old.helpers.items) }
    ensures unread { result.0.1 ≡ false → (input.new ≡ input.old) × (dropped.new ≡ dropped.old) }
    ensures ring_out { ring_out ends.new.outward ≡ ring_out ends.old.outward }
    ensures read { IsReadOf (plan_of common.now.cascade.now) common.now.size (S.left input.old) (S.left input.new)
        (S.faults input.old) (S.faults input.new) (values_sent ends.new.outward)
        dropped.old.items dropped.new.items result.0.2 }
    ensures end { result.0.2 ≡ Some Stop.End → S.has_ended input.new }
    ensures name { S.name input.new ≡ S.name input.old }
    ensures ring_in { ring_in ends.new.inward ≡ ring_in ends.old.inward }
    ensures same { IsStill common.now.cascade.now passes.old.feeder passes.new.feeder }
    ensures left { result.1.0 ≡ false → (passes.new.feeder ≡ passes.old.feeder) × (out.new ≡ out.old)
        × (taps.new ≡ taps.old) }
    ensures feeds { FeedsPopped (plan_of common.now.cascade.now) (setting_of common.now.cascade.now).bundle
        (values_received ends.new.inward) (HasFed common.now.cascade.now passes.new.feeder) R.after R.part out.old out.new
        (map (λ t. tap_state t) taps.old.items) (map (λ t. tap_state t) taps.new.items) result.1.1 }
    ensures fewer { OnOk result.1.1 (length taps.new.items ≤ length taps.old.items) }
    ensures cause { GiveCause (R.row_state out.old) (R.row_state out.new) result.1.1 }
{
    let (rt, alloc, cascade, gate) = (common.rt, common.alloc, common.cascade, common.gate);
    let size = common.size;
    let pass = &mut passes.feeder;
    let helpers = &mut passes.helpers;
    let outward = &mut ends.outward;
    let inward = &mut ends.inward;
    let signals = &ends.signals;
    join_mut(
        rt,
        &mut || -> (bool, bool, Option<Stop>)
            requires helpers { AllByRecursion (IsHelper cascade.now) helpers.now.items }
            requires sent { values_sent outward.now ≡ begun_values (streams_of (plan_of cascade.now)) size }
            requires some { 1 ≤ size }
            requires most { size ≤ MAX_BUNDLE }
            requires row { IsSync W.row × IsSync G.row }
            ensures back { result.0 ≡ true → AllByRecursion (IsHelper cascade.entry.now) helpers.exit.now.items
                × (length helpers.exit.now.items ≡ length helpers.entry.now.items) }
            ensures unread { result.1 ≡ false → (input.exit.now ≡ input.entry.now)
                × (dropped.exit.now ≡ dropped.entry.now) }
            ensures ring { ring_out outward.exit.now ≡ ring_out outward.entry.now }
            ensures read { IsReadOf (plan_of cascade.entry.now) size (S.left input.entry.now) (S.left input.exit.now)
                (S.faults input.entry.now) (S.faults input.exit.now) (values_sent outward.exit.now)
                dropped.entry.now.items dropped.exit.now.items result.2 }
            ensures end { result.2 ≡ Some Stop.End → S.has_ended input.exit.now }
            ensures name { S.name input.exit.now ≡ S.name input.entry.now }
        {
            let common = Common {
                rt,
                alloc,
                cascade,
                gate,
                size,
            };
            read_and_help(&common, helpers, input, dropped, outward, signals)
        },
        &mut || -> (bool, Result<Stop, GiveStop>)
            requires begins { HasFed cascade.now pass.now nothing_fed [] }
            requires received { values_received inward.now
                ≡ begun_values (streams_of (plan_of cascade.now)) (setting_of cascade.now).bundle }
            requires few { length taps.now.items < 2 ^ 32 }
            ensures ring { ring_in inward.exit.now ≡ ring_in inward.entry.now }
            ensures same { IsStill cascade.entry.now pass.entry.now pass.exit.now }
            ensures left { result.0 ≡ false → (pass.exit.now ≡ pass.entry.now) × (out.exit.now ≡ out.entry.now)
                × (taps.exit.now ≡ taps.entry.now) }
            ensures feeds { FeedsPopped (plan_of cascade.entry.now) (setting_of cascade.entry.now).bundle
                (values_received inward.exit.now) (HasFed cascade.entry.now pass.exit.now)
                R.after R.part out.entry.now out.exit.now
                (map (λ t. tap_state t) taps.entry.now.items) (map (λ t. tap_state t) taps.exit.now.items) result.1 }
            ensures fewer { OnOk result.1 (length taps.exit.now.items ≤ length taps.entry.now.items) }
            ensures cause { GiveCause (R.row_state out.entry.now) (R.row_state out.exit.now) result.1 }
        {
            let common = Common {
                rt,
                alloc,
                cascade,
                gate,
                size,
            };
            feed_popped(&common, pass, inward, signals, out, taps)
        },
    )
}

/// The feeder feeds the input, which another thread reads, and the helpers help, until all have ended. False with a
/// helper that found no memory. If the reader doesn't begin, since there is no thread for it, the feeder reads the input
/// itself.
pub(crate) fn work<
    W: AllocGlobal + Threads + Wait + Clock + Sync,
    S: Source,
    R: RowOut,
    G: Gate + Sync,
>(
    common: &Common<'_, W, Ahead<'_, G>>,
    passes: &mut Passes,
    input: &mut S,
    out: &mut R,
    taps: &mut Vec<Box<dyn Tap>>,
    dropped: &mut Vec<Dropped>,
) -> (bool, Result<Stop, GiveStop>)
    requires begins { Begins common.now.cascade.now passes.old.feeder common.now.size }
    requires pass { IsFirst common.now.cascade.now (length passes.old.helpers.items) passes.old.feeder }
    requires helpers { AllByRecursion (IsHelper common.now.cascade.now) passes.old.helpers.items }
    requires few { length taps.old.items < 2 ^ 32 }
    ensures back { result.0 ≡ true → AllByRecursion (IsHelper common.now.cascade.now) passes.new.helpers.items
        × (length passes.new.helpers.items ≡ length passes.old.helpers.items) }
    ensures same { IsStill common.now.cascade.now passes.old.feeder passes.new.feeder }
    ensures feeds { Feeds (plan_of common.now.cascade.now) common.now.size (S.left input.old) (S.left input.new)
        (HasFed common.now.cascade.now passes.new.feeder) R.after R.part out.old out.new
        (map (λ t. tap_state t) taps.old.items) (map (λ t. tap_state t) taps.new.items)
        dropped.old.items dropped.new.items result.1 }
    ensures fewer { OnOk result.1 (length taps.new.items ≤ length taps.old.items) }
    ensures source { SharedFeedCause (S.faults input.old) (S.faults input.new) result.1 }
    ensures end { result.1 ≡ Ok Stop.End → S.has_ended input.new }
    ensures name { S.name input.new ≡ S.name input.old }
    ensures cause { GiveCause (R.row_state out.old) (R.row_state out.new) result.1 }
{
    let streams = common.cascade.plan().streams();
    let Ok((outward, inward)) = input_pair(common.alloc, streams, common.size) else {
        return (true, Err(GiveStop::Memory));
    };
    let mut ends = InputPair {
        outward,
        inward,
        signals: Signals::new(),
    };
    let ((clear, has_begun, _), (is_fed, fed)) = work_apart(
        common, passes, input, &mut ends, out, taps, dropped,
    );
    let InputPair {
        outward,
        mut inward,
        ..
    } = ends;
    inward.tie(outward);
    if clear && !has_begun && !is_fed {
        return feed_beside_helpers(common, passes, input, out, taps, dropped);
    }
    (clear, fed)
}
