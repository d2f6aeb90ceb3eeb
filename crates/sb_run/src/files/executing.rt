//! A run over two record files by several workers.

ghost use Rattle.std.specs.Prelude.{◌≡◌, ◌≤◌, ◌<◌, ◌^◌, [], true, map, length, OnOk};
ghost use Rattle.std.specs.List.{AllByRecursion};
ghost use Rattle.std.specs.Thread.{IsSync};
ghost use Rattle.sb_engines.specs.feeds.base.records.declared.item.Stream.{Stream as AStream};
ghost use Rattle.sb_engines.specs.feeds.base.pipeline.Shapes.{streams_of};
ghost use Rattle.sb_engines.specs.worker.cascade.Calls.{plan_of, setting_of};
ghost use Rattle.sb_engines.specs.feeds.one_feed.Feeds.{nothing_fed};
ghost use Rattle.sb_engines.specs.feeds.one_feed.GiveCauses.{GiveCause};
ghost use Rattle.sb_engines.specs.feeds.Ends.{ring_in};
ghost use Rattle.sb_engines.specs.Feeders.{Begins, HasFed, IsStill};
ghost use Rattle.sb_engines.specs.feeds.base.Inputs.{by_stream};
ghost use Rattle.sb_run.specs.FilesFed.{FeedsValues};
ghost use Rattle.sb_run.specs.FilesRead.{AreNewOnce, AreReadOnce};
ghost use Rattle.sb_run.specs.Pops.{AreInlets, values_of};
ghost use Rattle.sb_engines.specs.alone.RunEnds.{AreSizes, OutputCause};
ghost use Rattle.sb_run.specs.TwoEnds.{TwoEnds, as_run};
ghost use Rattle.sb_engines.specs.worker.Helping.{IsFirst, IsHelper};

use crate::files::ending::{early_end, end_of};
use crate::files::feeding::feed_files;
use crate::files::inlets::{FilesStop, Inlets};
use crate::files::reading::{Files, FilesDone, feed_and_help, open_files, tie_both};
use sb_engines::{
    Begun, ByStream, Common, Dropped, Gate, GiveStop, MAX_BUNDLE, MAX_FILE_LENGTH, NoMemory,
    Passes, Plan, RowOut, Sizes, Tap, Team, TwoEnd, begin, come_back,
};
use std::sync::Wait;
use std::thread::{Threads, join_mut};
use std::time::Clock;

// Both files, until they are read, and the rings that they are read into.
#[derive(Drop)]
struct FilesPair {
    files: Option<Files>,
    inlets: Inlets,
}

// The feeder feeds what the files give, beside the threads of the files and the helpers, until all have ended. False
// with a helper that found no memory.
fn work<W: Threads + Wait + Clock + Sync, R: RowOut, G: Gate + Sync>(
    common: &Common<'_, W, G>,
    passes: &mut Passes,
    ends: &mut FilesPair,
    out: &mut R,
    taps: &mut Vec<Box<dyn Tap>>,
    dropped: &mut ByStream<Vec<Dropped>>,
) -> ((bool, Option<FilesDone>), Result<FilesStop, GiveStop>)
    requires begins { Begins common.now.cascade.now passes.old.feeder common.now.size }
    requires inlets { AreInlets (streams_of (plan_of common.now.cascade.now)) ends.old.inlets }
    requires nothing { (s : AStream) → values_of ends.old.inlets s ≡ [] }
    requires new { AreNewOnce ends.old.files }
    requires helpers { AllByRecursion (IsHelper common.now.cascade.now) passes.old.helpers.items }
    requires few { length taps.old.items < 2 ^ 32 }
    ensures back { result.0.0 ≡ true → AllByRecursion (IsHelper common.now.cascade.now) passes.new.helpers.items
        × (length passes.new.helpers.items ≡ length passes.old.helpers.items) }
    ensures read { AreReadOnce ends.old.files result.0.1 }
    ensures ring_a { ring_in ends.new.inlets.a.inward ≡ ring_in ends.old.inlets.a.inward }
    ensures ring_b { ring_in ends.new.inlets.b.inward ≡ ring_in ends.old.inlets.b.inward }
    ensures same { IsStill common.now.cascade.now passes.old.feeder passes.new.feeder }
    ensures feeds { FeedsValues (plan_of common.now.cascade.now) (setting_of common.now.cascade.now).bundle
        (values_of ends.new.inlets) (HasFed common.now.cascade.now passes.new.feeder) R.after R.part out.old out.new
        (map (λ t. tap_state t) taps.old.items) (map (λ t. tap_state t) taps.new.items)
        (by_stream dropped.old.a.items dropped.old.b.items) (by_stream dropped.new.a.items dropped.new.b.items)
        result.1 }
    ensures fewer { OnOk result.1 (length taps.new.items ≤ length taps.old.items) }
    ensures cause { GiveCause (R.row_state out.old) (R.row_state out.new) result.1 }
{
    let (rt, alloc, cascade, gate) = (common.rt, common.alloc, common.cascade, common.gate);
    let size = common.size;
    let pass = &mut passes.feeder;
    let helpers = &mut passes.helpers;
    let files = &mut ends.files;
    let inlets = &mut ends.inlets;
    join_mut(
        rt,
        &mut || -> (bool, Option<FilesDone>)
            requires helpers { AllByRecursion (IsHelper cascade.now) helpers.now.items }
            requires new { AreNewOnce files.now }
            requires row { IsSync W.row × IsSync G.row }
            ensures back { result.0 ≡ true → AllByRecursion (IsHelper cascade.entry.now) helpers.exit.now.items
                × (length helpers.exit.now.items ≡ length helpers.entry.now.items) }
            ensures read { AreReadOnce files.entry.now result.1 }
        { feed_and_help(rt, alloc, cascade, gate, helpers, files) },
        &mut || -> Result<FilesStop, GiveStop>
            requires begins { Begins cascade.now pass.now size }
            requires inlets { AreInlets (streams_of (plan_of cascade.now)) inlets.now }
            requires nothing { (s : AStream) → values_of inlets.now s ≡ [] }
            requires few { length taps.now.items < 2 ^ 32 }
            ensures ring_a { ring_in inlets.exit.now.a.inward ≡ ring_in inlets.entry.now.a.inward }
            ensures ring_b { ring_in inlets.exit.now.b.inward ≡ ring_in inlets.entry.now.b.inward }
            ensures same { IsStill cascade.entry.now pass.entry.now pass.exit.now }
            ensures feeds { FeedsValues (plan_of cascade.entry.now) (setting_of cascade.entry.now).bundle
                (values_of inlets.exit.now) (HasFed cascade.entry.now pass.exit.now)
                R.after R.part out.entry.now out.exit.now
                (map (λ t. tap_state t) taps.entry.now.items) (map (λ t. tap_state t) taps.exit.now.items)
                (by_stream dropped.entry.now.a.items dropped.entry.now.b.items)
                (by_stream dropped.exit.now.a.items dropped.exit.now.b.items) result }
            ensures fewer { OnOk result (length taps.exit.now.items ≤ length taps.entry.now.items) }
            ensures cause { GiveCause (R.row_state out.entry.now) (R.row_state out.exit.now) result }
        {
            let common = Common {
                rt,
                alloc,
                cascade,
                gate,
                size,
            };
            feed_files(&common, pass, inlets, out, taps, dropped)
        },
    )
}

/// Runs a plan over two record files, whose bytes are `files`: file a gives the lines of stream a, and file b those of
/// stream b. Each file is read in a thread of its own, the caller's thread feeds, and `sizes.workers - 1` helpers
/// help, each in a thread of its own if one can be made.
///
/// What is written and offered does not depend on which file is read faster. A refused line ends its own file alone:
/// then the rows are those below the low watermark over both files, and the refusal of file a is answered before one of
/// file b. The late records that the plan drops go to the end of the list of their file. The gate is passed with each
/// bundle in hand, outside of every turn. Whether the call returns is not said: workers wait for one another, and the
/// feeder waits for the files. If no thread can be made for these, it waits for ever.
pub fn execute_two<W: AllocGlobal + Threads + Wait + Clock + Sync, R: RowOut, G: Gate + Sync>(
    team: Team<'_, W, G>,
    plan: Plan,
    sizes: Sizes,
    files: ByStream<Vec<u8>>,
    out: &mut R,
    taps: &mut Vec<Box<dyn Tap>>,
    dropped: &mut ByStream<Vec<Dropped>>,
) -> TwoEnd
    requires sizes { AreSizes sizes }
    requires few { length taps.old.items < 2 ^ 32 }
    requires short_a { length files.a.items ≤ MAX_FILE_LENGTH }
    requires short_b { length files.b.items ≤ MAX_FILE_LENGTH }
    ensures ends { TwoEnds plan sizes (by_stream files.a.items files.b.items) R.after R.part out.old out.new
        (map (λ t. tap_state t) taps.old.items) (map (λ t. tap_state t) taps.new.items)
        (by_stream dropped.old.a.items dropped.old.b.items) (by_stream dropped.new.a.items dropped.new.b.items) result }
    ensures output { OutputCause (R.row_state out.old) (R.row_state out.new) (as_run result) }
{
    let Team { rt, gate } = team;
    let alloc = rt.alloc();
    let (streams, late, keys) = (plan.streams(), plan.late(), plan.keys());
    let ByStream { a, b } = files;
    let Ok((files, inlets)) = open_files(alloc, streams, late, keys, a, b) else {
        return TwoEnd::Memory;
    };
    let Ok(begun) = begin(alloc, plan, sizes) else {
        return TwoEnd::Memory;
    };
    let Begun {
        cascade,
        mut passes,
    } = begun;
    let common = Common {
        rt,
        alloc,
        cascade: &cascade,
        gate,
        size: sizes.bundle,
    };
    let mut ends = FilesPair {
        files: Some(files),
        inlets,
    };
    let ((clear, done), fed) = work(&common, &mut passes, &mut ends, out, taps, dropped);
    let Some(done) = done else { unreachable!() };
    tie_both(ends.inlets, done);
    if !clear {
        return TwoEnd::Memory;
    }
    let stop = match fed {
        Ok(stop) => stop,
        Err(why) => return early_end(why),
    };
    match come_back(rt, alloc, cascade, passes, gate, out, taps) {
        Ok(hand) => end_of(hand, stop),
        Err(why) => early_end(why),
    }
}
