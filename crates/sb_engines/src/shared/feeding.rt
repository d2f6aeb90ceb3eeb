//! The feeder's work over the lines of an input.

ghost use Rattle.std.specs.Prelude.{◌≡◌, ◌≤◌, ◌<◌, ◌^◌, [], List, map, length, Ok, OnOk};
ghost use Rattle.sb_alone.specs.feeds.base.records.declared.item.Record.{Record as ARecord};
ghost use Rattle.sb_worker.specs.cascade.Calls.{IsEmptyHanded, IsFeeder, IsReady, plan_of, setting_of};
ghost use Rattle.sb_alone.specs.feeds.one_feed.Feeds.{Fed, nothing_fed};
ghost use Rattle.sb_alone.specs.feeds.one_feed.GiveCauses.{GiveCause};
ghost use Rattle.sb_alone.specs.feeds.one_feed.InputFeeds.{FeedCause, Feeds};
ghost use Rattle.sb_engines.specs.Feeders.{Begins, HasFed, IsStill};
ghost use Rattle.sb_alone.specs.RunEnds.{SharedFeedCause};

use crate::shared::common::Common;
use crate::shared::feeder::Feeder;
use crate::shared::pace::Pace;
use crate::shared::working::settle;
use sb_alone::{
    Dropped, GiveStop, MAX_BUNDLE, NoMemory, RowOut, Source, Stop, Tap, feed as feed_engine,
};
use sb_worker::{CascadePass, Gate, Reason};
use std::sync::Wait;
use std::time::Clock;

// Feeds the lines of an input, and answers where reading stopped.
fn feed_lines<W: Wait + Clock, G: Gate, S: Source, R: RowOut>(
    common: &Common<'_, W, G>,
    pass: &mut CascadePass,
    input: &mut S,
    out: &mut R,
    taps: &mut Vec<Box<dyn Tap>>,
    dropped: &mut Vec<Dropped>,
) -> Result<Stop, GiveStop>
    requires begins { Begins common.now.cascade.now pass.old common.now.size }
    requires few { length taps.old.items < 2 ^ 32 }
    ensures same { IsStill common.now.cascade.now pass.old pass.new }
    ensures feeds { Feeds (plan_of common.now.cascade.now) common.now.size (S.left input.old) (S.left input.new)
        (HasFed common.now.cascade.now pass.new) R.after R.part out.old out.new
        (map (λ t. tap_state t) taps.old.items) (map (λ t. tap_state t) taps.new.items)
        dropped.old.items dropped.new.items result }
    ensures fewer { OnOk result (length taps.new.items ≤ length taps.old.items) }
    ensures source { FeedCause (S.faults input.old) (S.faults input.new) result }
    ensures end { result ≡ Ok Stop.End → S.has_ended input.new }
    ensures name { S.name input.new ≡ S.name input.old }
    ensures cause { GiveCause (R.row_state out.old) (R.row_state out.new) result }
{
    let mut engine = Feeder {
        common,
        pass,
        pace: Pace::new(),
    };
    feed_engine(
        common.alloc,
        &mut engine,
        common.size,
        input,
        out,
        taps,
        dropped,
    )
}

/// What the state word says where feeding stopped early.
pub fn reason_of(why: GiveStop) -> Reason {
    match why {
        GiveStop::Memory => Reason::Memory,
        GiveStop::Output | GiveStop::Tap { .. } => Reason::Fault,
    }
}

/// Steps until nothing is left to do, and says in the state word that the run ends.
///
/// # Errors
///
/// This worker or another found no memory.
pub fn end_work<W: Wait, G: Gate>(
    common: &Common<'_, W, G>,
    pass: &mut CascadePass,
) -> Result<(), NoMemory>
    requires pass { IsReady common.now.cascade.now pass.old × IsFeeder pass.old × IsEmptyHanded pass.old }
    ensures same { IsStill common.now.cascade.now pass.old pass.new }
    ensures feeder { OnOk result ((f : Fed) (rows : List ARecord) → HasFed common.now.cascade.now pass.old f rows
        → HasFed common.now.cascade.now pass.new f rows) }
{
    match settle(common, pass) {
        Ok(()) => {
            common.cascade.stop(pass, Reason::Ended);
            Ok(())
        }
        Err(NoMemory) => {
            common.cascade.stop(pass, Reason::Memory);
            Err(NoMemory)
        }
    }
}

/// The feeder's work: it feeds the lines of an input to a cascade that was fed nothing yet, steps until nothing is left
/// to do, says in the state word that the run ends, and answers where reading stopped. The rows that lie ready as a
/// watermark comes, or as a lane is full, are written and offered, and the late records that the plan drops go to the
/// end of `dropped`.
///
/// # Errors
///
/// The first failure to write or to offer rows, or want of memory, of this worker or another. Nothing more is then
/// read, written or offered.
pub(crate) fn feed<W: Wait + Clock, G: Gate, S: Source, R: RowOut>(
    common: &Common<'_, W, G>,
    pass: &mut CascadePass,
    input: &mut S,
    out: &mut R,
    taps: &mut Vec<Box<dyn Tap>>,
    dropped: &mut Vec<Dropped>,
) -> Result<Stop, GiveStop>
    requires begins { Begins common.now.cascade.now pass.old common.now.size }
    requires few { length taps.old.items < 2 ^ 32 }
    ensures same { IsStill common.now.cascade.now pass.old pass.new }
    ensures feeds { Feeds (plan_of common.now.cascade.now) common.now.size (S.left input.old) (S.left input.new)
        (HasFed common.now.cascade.now pass.new) R.after R.part out.old out.new
        (map (λ t. tap_state t) taps.old.items) (map (λ t. tap_state t) taps.new.items)
        dropped.old.items dropped.new.items result }
    ensures fewer { OnOk result (length taps.new.items ≤ length taps.old.items) }
    ensures source { SharedFeedCause (S.faults input.old) (S.faults input.new) result }
    ensures end { result ≡ Ok Stop.End → S.has_ended input.new }
    ensures name { S.name input.new ≡ S.name input.old }
    ensures cause { GiveCause (R.row_state out.old) (R.row_state out.new) result }
{
    let stop = match feed_lines(common, pass, input, out, taps, dropped) {
        Ok(stop) => stop,
        Err(why) => {
            common.cascade.stop(pass, reason_of(why));
            return Err(why);
        }
    };
    match end_work(common, pass) {
        Ok(()) => Ok(stop),
        Err(NoMemory) => Err(GiveStop::Memory),
    }
}
