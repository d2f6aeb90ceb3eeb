//! Feeding the lines of an input to an engine.

ghost use Rattle.std.specs.Prelude.{◌≡◌, ◌≤◌, ◌<◌, ◌^◌, [], map, length, Ok, OnOk};
ghost use Rattle.sb_feed.specs.Feeds.{nothing_fed};
ghost use Rattle.sb_feed.specs.GiveCauses.{GiveCause};
ghost use Rattle.sb_feed.specs.InputFeeds.{FeedCause, Feeds};

use crate::cutters::Cutters;
use crate::ending::end_input;
use crate::engine::Engine;
use crate::give::GiveStop;
use crate::reading::{next_other, next_usual};
use crate::taking::{take_item, take_record};
use sb_base::{Dropped, Intake, MAX_BUNDLE, Stop};
use sb_emit::{RowOut, Tap};
use sb_outside::{LineBuffer, Source};
use std::alloc::Global;

/// Feeds the lines of an input to an engine that was fed nothing yet, and answers where reading stopped. What the
/// engine gives is written and offered, and the late records that the plan drops go to the end of `dropped`.
/// `size` is the most records of a bundle. Comments in front that the source can take off are counted, and not read.
///
/// # Errors
///
/// The first failure to write or to offer rows, or want of memory. Nothing more is then read, written or offered.
pub fn feed<E: Engine, S: Source, R: RowOut>(
    alloc: Global,
    engine: &mut E,
    size: u32,
    input: &mut S,
    out: &mut R,
    taps: &mut Vec<Box<dyn Tap>>,
    dropped: &mut Vec<Dropped>,
) -> Result<Stop, GiveStop>
    requires begins { E.stands engine.old nothing_fed [] }
    requires size { E.size engine.old ≡ size }
    requires some { 1 ≤ size }
    requires most { size ≤ MAX_BUNDLE }
    requires few { length taps.old.items < 2 ^ 32 }
    ensures same { E.same engine.old engine.new }
    ensures feeds { Feeds (E.plan engine.old) size (S.left input.old) (S.left input.new) (E.stands engine.new)
        R.after R.part out.old out.new
        (map (λ t. tap_state t) taps.old.items) (map (λ t. tap_state t) taps.new.items)
        dropped.old.items dropped.new.items result }
    ensures fewer { OnOk result (length taps.new.items ≤ length taps.old.items) }
    ensures source { FeedCause (S.faults input.old) (S.faults input.new) result }
    ensures end { result ≡ Ok Stop.End → S.has_ended input.new }
    ensures name { S.name input.new ≡ S.name input.old }
    ensures cause { GiveCause (R.row_state out.old) (R.row_state out.new) result }
{
    let plan = engine.plan();
    let comments = u64::from(input.take_comments());
    let mut intake = Intake::new(plan.streams(), comments, plan.late(), plan.keys());
    let mut cutters = Cutters::new(alloc, size);
    let mut lines = LineBuffer::new();
    'items: loop {
        if let Some(usual) = next_usual(input, &mut lines, &mut intake) {
            match take_record(
                engine,
                &mut cutters,
                usual.stream,
                usual.record(),
                out,
                taps,
            ) {
                Ok(()) => continue,
                Err(why) => return Err(why),
            }
        }
        match next_other(input, &mut lines, &mut intake) {
            Ok(item) => match take_item(engine, &mut cutters, item, out, taps, dropped) {
                Ok(()) => {}
                Err(why) => return Err(why),
            },
            Err(stop) => match end_input(engine, &mut cutters, stop, out, taps) {
                Ok(()) => return Ok(stop),
                Err(why) => return Err(why),
            },
        }
    }
}
