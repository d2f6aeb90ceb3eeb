//! The end of an input: it counts as a watermark above every time on each stream of the plan.

ghost use Rattle.std.specs.Prelude.{◌≡◌, ◌≤◌, ◌<◌, ◌^◌, ◌++◌, ◌+◌, List, map, length, OnOk, OnErr};
ghost use Rattle.sb_base.specs.records.declared.item.Item.{Item as AnItem};
ghost use Rattle.sb_base.specs.records.declared.item.Record.{Record as ARecord};
ghost use Rattle.sb_base.specs.records.Streams.{uses as spec_uses};
ghost use Rattle.sb_base.specs.pipeline.Shapes.{streams_of};
ghost use Rattle.sb_feed.specs.FedByItems.{end_item, end_items};
ghost use Rattle.sb_feed.specs.Feeds.{Fed};
ghost use Rattle.sb_feed.specs.GiveCauses.{GiveCause};
ghost use Rattle.sb_feed.specs.Takes.{MayEnd, TakesOrFails};

use crate::cutters::Cutters;
use crate::engine::Engine;
use crate::give::GiveStop;
use crate::taking::take_mark;
use sb_base::{END_MARK, MAX_LINES, Stop, Stream, Streams};
use sb_emit::{RowOut, Tap};

/// Whether the stream is one of these.
pub fn uses(streams: Streams, stream: Stream) -> bool
    ensures { result ≡ spec_uses streams stream }
{
    match stream {
        Stream::A => streams.a,
        Stream::B => streams.b,
    }
}

// Takes the end of a stream, if the plan uses it.
fn end_stream<E: Engine, R: RowOut>(
    engine: &mut E,
    cutters: &mut Cutters,
    stream: Stream,
    out: &mut R,
    taps: &mut Vec<Box<dyn Tap>>,
) -> Result<(), GiveStop>
    requires may { (items : List AnItem) × (f : Fed) × (rows : List ARecord)
        × MayEnd (E.stands engine.old) (E.size engine.old) cutters.old (MAX_LINES + 2) items f rows }
    requires few { length taps.old.items < 2 ^ 32 }
    ensures same { E.same engine.old engine.new }
    ensures takes { (items : List AnItem) (f : Fed) (rows : List ARecord)
        → MayEnd (E.stands engine.old) (E.size engine.old) cutters.old (MAX_LINES + 2) items f rows
        → TakesOrFails (E.plan engine.old) (E.size engine.old) (E.stands engine.new) R.after R.part out.old out.new
        (map (λ t. tap_state t) taps.old.items) (map (λ t. tap_state t) taps.new.items)
        (items ++ end_item (streams_of (E.plan engine.old)) stream) cutters.new rows result }
    ensures fewer { OnOk result (length taps.new.items ≤ length taps.old.items) }
    ensures cause { GiveCause (R.row_state out.old) (R.row_state out.new) result }
{
    let streams = engine.plan().streams();
    if !uses(streams, stream) {
        return Ok(());
    }
    take_mark(engine, cutters, stream, END_MARK, out, taps)
}

/// Takes the end of an input, if reading stopped there.
///
/// # Errors
///
/// The first failure to write or to offer rows, or want of memory. Then nothing is known of the engine.
pub fn end_input<E: Engine, R: RowOut>(
    engine: &mut E,
    cutters: &mut Cutters,
    stop: Stop,
    out: &mut R,
    taps: &mut Vec<Box<dyn Tap>>,
) -> Result<(), GiveStop>
    requires may { (items : List AnItem) × (f : Fed) × (rows : List ARecord)
        × MayEnd (E.stands engine.old) (E.size engine.old) cutters.old (MAX_LINES + 1) items f rows }
    requires few { length taps.old.items < 2 ^ 32 }
    ensures same { E.same engine.old engine.new }
    ensures takes { (items : List AnItem) (f : Fed) (rows : List ARecord)
        → MayEnd (E.stands engine.old) (E.size engine.old) cutters.old (MAX_LINES + 1) items f rows
        → TakesOrFails (E.plan engine.old) (E.size engine.old) (E.stands engine.new) R.after R.part out.old out.new
        (map (λ t. tap_state t) taps.old.items) (map (λ t. tap_state t) taps.new.items)
        (items ++ end_items (streams_of (E.plan engine.old)) stop) cutters.new rows result }
    ensures at_end { OnErr result (stop ≡ Stop.End) }
    ensures fewer { OnOk result (length taps.new.items ≤ length taps.old.items) }
    ensures cause { GiveCause (R.row_state out.old) (R.row_state out.new) result }
{
    match stop {
        Stop::End => match end_stream(engine, cutters, Stream::A, out, taps) {
            Ok(()) => end_stream(engine, cutters, Stream::B, out, taps),
            Err(why) => Err(why),
        },
        Stop::Refused(_) => Ok(()),
        Stop::Fault => Ok(()),
    }
}
