//! Taking items: each record and each watermark goes to the cutter of its stream. A bundle that is then full, or the
//! last of its epoch, arrives in the engine, and a watermark seals the epoch behind it.

ghost use Rattle.std.specs.Prelude.{◌≡◌, ◌≤◌, ◌<◌, ◌^◌, ◌++◌, ◌∷◌, [], List, map, length, OnOk, OnErr};
ghost use Rattle.sb_base.specs.records.declared.item.Item.{Item as AnItem};
ghost use Rattle.sb_base.specs.records.declared.item.Item.TheVariants as item_spec;
ghost use Rattle.sb_base.specs.records.declared.item.Record.{Record as ARecord};
ghost use Rattle.sb_base.specs.records.Streams.{dropped_in};
ghost use Rattle.sb_feed.specs.Feeds.{Fed};
ghost use Rattle.sb_feed.specs.GiveCauses.{GiveCause};
ghost use Rattle.sb_feed.specs.Takes.{MayTake, TakesOrFails};

use crate::coming::{arrive, seal};
use crate::cutters::Cutters;
use crate::dropping::keep_dropped;
use crate::engine::Engine;
use crate::give::GiveStop;
use sb_base::{Dropped, Item, NoMemory, Record, Stream};
use sb_emit::{RowOut, Tap};

/// Takes the next record of a stream: the bundle that it fills arrives.
///
/// # Errors
///
/// Those of [`take_item`].
#[inline(always)]
pub(crate) fn take_record<E: Engine, R: RowOut>(
    engine: &mut E,
    cutters: &mut Cutters,
    stream: Stream,
    next: Record,
    out: &mut R,
    taps: &mut Vec<Box<dyn Tap>>,
) -> Result<(), GiveStop>
    requires may { (items : List AnItem) × (f : Fed) × (rows : List ARecord)
        × MayTake (E.stands engine.old) (E.plan engine.old) (E.size engine.old) cutters.old (item_spec.Rec stream next)
        items f rows }
    requires few { length taps.old.items < 2 ^ 32 }
    ensures same { E.same engine.old engine.new }
    ensures takes { (items : List AnItem) (f : Fed) (rows : List ARecord)
        → MayTake (E.stands engine.old) (E.plan engine.old) (E.size engine.old) cutters.old (item_spec.Rec stream next)
        items f rows
        → TakesOrFails (E.plan engine.old) (E.size engine.old) (E.stands engine.new) R.after R.part out.old out.new
        (map (λ t. tap_state t) taps.old.items) (map (λ t. tap_state t) taps.new.items)
        (items ++ item_spec.Rec stream next ∷ []) cutters.new rows result }
    ensures fewer { OnOk result (length taps.new.items ≤ length taps.old.items) }
    ensures cause { GiveCause (R.row_state out.old) (R.row_state out.new) result }
{
    match cutters.push(stream, next) {
        Ok(Some(bundle)) => arrive(engine, stream, bundle, out, taps),
        Ok(None) => Ok(()),
        Err(NoMemory) => Err(GiveStop::Memory),
    }
}

/// Takes the next watermark of a stream: the last bundle of the epoch arrives, and the epoch is sealed.
///
/// # Errors
///
/// Those of [`take_item`].
pub(crate) fn take_mark<E: Engine, R: RowOut>(
    engine: &mut E,
    cutters: &mut Cutters,
    stream: Stream,
    mark: u64,
    out: &mut R,
    taps: &mut Vec<Box<dyn Tap>>,
) -> Result<(), GiveStop>
    requires may { (items : List AnItem) × (f : Fed) × (rows : List ARecord)
        × MayTake (E.stands engine.old) (E.plan engine.old) (E.size engine.old) cutters.old (item_spec.Mark stream mark)
        items f rows }
    requires few { length taps.old.items < 2 ^ 32 }
    ensures same { E.same engine.old engine.new }
    ensures takes { (items : List AnItem) (f : Fed) (rows : List ARecord)
        → MayTake (E.stands engine.old) (E.plan engine.old) (E.size engine.old) cutters.old (item_spec.Mark stream mark)
        items f rows
        → TakesOrFails (E.plan engine.old) (E.size engine.old) (E.stands engine.new) R.after R.part out.old out.new
        (map (λ t. tap_state t) taps.old.items) (map (λ t. tap_state t) taps.new.items)
        (items ++ item_spec.Mark stream mark ∷ []) cutters.new rows result }
    ensures fewer { OnOk result (length taps.new.items ≤ length taps.old.items) }
    ensures cause { GiveCause (R.row_state out.old) (R.row_state out.new) result }
{
    match cutters.mark(stream, mark) {
        Some(bundle) => match arrive(engine, stream, bundle, out, taps) {
            Ok(()) => seal(engine, stream, mark, out, taps),
            Err(why) => Err(why),
        },
        None => seal(engine, stream, mark, out, taps),
    }
}

/// Takes the next item of an input: a late record that is dropped is listed.
///
/// # Errors
///
/// The first failure to write or to offer rows, or want of memory. Then nothing is known of the engine.
pub fn take_item<E: Engine, R: RowOut>(
    engine: &mut E,
    cutters: &mut Cutters,
    item: Item,
    out: &mut R,
    taps: &mut Vec<Box<dyn Tap>>,
    dropped: &mut Vec<Dropped>,
) -> Result<(), GiveStop>
    requires may { (items : List AnItem) × (f : Fed) × (rows : List ARecord)
        × MayTake (E.stands engine.old) (E.plan engine.old) (E.size engine.old) cutters.old item items f rows }
    requires few { length taps.old.items < 2 ^ 32 }
    ensures same { E.same engine.old engine.new }
    ensures takes { (items : List AnItem) (f : Fed) (rows : List ARecord)
        → MayTake (E.stands engine.old) (E.plan engine.old) (E.size engine.old) cutters.old item items f rows
        → TakesOrFails (E.plan engine.old) (E.size engine.old) (E.stands engine.new) R.after R.part out.old out.new
        (map (λ t. tap_state t) taps.old.items) (map (λ t. tap_state t) taps.new.items)
        (items ++ item ∷ []) cutters.new rows result }
    ensures kept { OnOk result (dropped.new.items ≡ dropped.old.items ++ dropped_in item) }
    ensures same_list { OnErr result (dropped.new.items ≡ dropped.old.items) }
    ensures fewer { OnOk result (length taps.new.items ≤ length taps.old.items) }
    ensures cause { GiveCause (R.row_state out.old) (R.row_state out.new) result }
{
    match item {
        Item::Rec(stream, next) => take_record(engine, cutters, stream, next, out, taps),
        Item::Mark(stream, mark) => take_mark(engine, cutters, stream, mark, out, taps),
        Item::Skip => Ok(()),
        Item::Late { .. } => match keep_dropped(dropped, &item) {
            Ok(()) => Ok(()),
            Err(NoMemory) => Err(GiveStop::Memory),
        },
    }
}
