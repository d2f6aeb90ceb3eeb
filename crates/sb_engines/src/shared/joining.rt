//! The feeder, which reads its input itself, beside the helpers.

ghost use Rattle.std.specs.Prelude.{◌≡◌, ◌≤◌, ◌<◌, ◌^◌, [], true, map, length, Ok, OnOk};
ghost use Rattle.std.specs.List.{AllByRecursion};
ghost use Rattle.std.specs.Thread.{IsSync};
ghost use Rattle.sb_worker.specs.cascade.Calls.{plan_of, setting_of};
ghost use Rattle.sb_alone.specs.feeds.one_feed.Feeds.{nothing_fed};
ghost use Rattle.sb_alone.specs.feeds.one_feed.GiveCauses.{GiveCause};
ghost use Rattle.sb_alone.specs.feeds.one_feed.InputFeeds.{Feeds};
ghost use Rattle.sb_engines.specs.Feeders.{Begins, HasFed, IsStill};
ghost use Rattle.sb_alone.specs.RunEnds.{SharedFeedCause};
ghost use Rattle.sb_worker.specs.Helping.{IsFirst, IsHelper};

use crate::shared::common::{Common, Passes};
use crate::shared::feeding::feed;
use crate::shared::helping::help_all;
use sb_alone::{Dropped, GiveStop, MAX_BUNDLE, RowOut, Source, Stop, Tap};
use sb_worker::Gate;
use std::sync::Wait;
use std::thread::{Threads, join_mut};
use std::time::Clock;

/// The feeder reads and feeds the input, and the helpers help, until all have ended. False with a helper that found no
/// memory.
pub fn feed_beside_helpers<W: Threads + Wait + Clock + Sync, S: Source, R: RowOut, G: Gate + Sync>(
    common: &Common<'_, W, G>,
    passes: &mut Passes,
    input: &mut S,
    out: &mut R,
    taps: &mut Vec<Box<dyn Tap>>,
    dropped: &mut Vec<Dropped>,
) -> (bool, Result<Stop, GiveStop>)
    requires begins { Begins common.now.cascade.now passes.old.feeder common.now.size }
    requires pass { IsFirst common.now.cascade.now (length passes.old.helpers.items) passes.old.feeder }
    requires helpers { AllByRecursion (IsHelper common.now.cascade.now) passes.old.helpers.items }
    requires few { length taps.old.items < 2 ^ 32 }
    ensures back { result.0 ≡ true → AllByRecursion (IsHelper common.now.cascade.now) passes.new.helpers.items
        × (length passes.new.helpers.items ≡ length passes.old.helpers.items) }
    ensures same { IsStill common.now.cascade.now passes.old.feeder passes.new.feeder }
    ensures feeds { Feeds (plan_of common.now.cascade.now) common.now.size (S.left input.old) (S.left input.new)
        (HasFed common.now.cascade.now passes.new.feeder) R.after R.part out.old out.new
        (map (λ t. tap_state t) taps.old.items) (map (λ t. tap_state t) taps.new.items)
        dropped.old.items dropped.new.items result.1 }
    ensures fewer { OnOk result.1 (length taps.new.items ≤ length taps.old.items) }
    ensures source { SharedFeedCause (S.faults input.old) (S.faults input.new) result.1 }
    ensures end { result.1 ≡ Ok Stop.End → S.has_ended input.new }
    ensures name { S.name input.new ≡ S.name input.old }
    ensures cause { GiveCause (R.row_state out.old) (R.row_state out.new) result.1 }
{
    let (rt, alloc, cascade, gate) = (common.rt, common.alloc, common.cascade, common.gate);
    let size = common.size;
    let pass = &mut passes.feeder;
    let helpers = &mut passes.helpers;
    join_mut(
        rt,
        &mut || -> bool
            requires helpers { AllByRecursion (IsHelper cascade.now) helpers.now.items }
            requires row { IsSync W.row × IsSync G.row }
            ensures { result ≡ true → AllByRecursion (IsHelper cascade.entry.now) helpers.exit.now.items
                × (length helpers.exit.now.items ≡ length helpers.entry.now.items) }
        { help_all(rt, alloc, cascade, gate, helpers) },
        &mut || -> Result<Stop, GiveStop>
            requires begins { Begins cascade.now pass.now size }
            requires few { length taps.now.items < 2 ^ 32 }
            ensures same { IsStill cascade.entry.now pass.entry.now pass.exit.now }
            ensures feeds { Feeds (plan_of cascade.entry.now) size (S.left input.entry.now) (S.left input.exit.now)
                (HasFed cascade.entry.now pass.exit.now) R.after R.part out.entry.now out.exit.now
                (map (λ t. tap_state t) taps.entry.now.items) (map (λ t. tap_state t) taps.exit.now.items)
                dropped.entry.now.items dropped.exit.now.items result }
            ensures fewer { OnOk result (length taps.exit.now.items ≤ length taps.entry.now.items) }
            ensures source { SharedFeedCause (S.faults input.entry.now) (S.faults input.exit.now) result }
            ensures end { result ≡ Ok Stop.End → S.has_ended input.exit.now }
            ensures name { S.name input.exit.now ≡ S.name input.entry.now }
            ensures cause { GiveCause (R.row_state out.entry.now) (R.row_state out.exit.now) result }
        {
            let common = Common {
                rt,
                alloc,
                cascade,
                gate,
                size,
            };
            feed(&common, pass, input, out, taps, dropped)
        },
    )
}
