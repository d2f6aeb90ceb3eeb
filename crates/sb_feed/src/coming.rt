//! What comes to an engine, a bundle or a watermark, and the rows that it gives then.

ghost use Rattle.std.specs.Prelude.{◌≡◌, ◌≤◌, ◌<◌, ◌^◌, List, map, length, OnOk};
ghost use Rattle.sb_base.specs.records.declared.item.Record.{Record as ARecord};
ghost use Rattle.sb_feed.specs.Feeds.{Fed, MayArrive, MaySeal, with_bundle, with_mark};
ghost use Rattle.sb_feed.specs.GiveCauses.{GiveCause};
ghost use Rattle.sb_feed.specs.Gives.{Gives};

use crate::engine::Engine;
use crate::give::{GiveStop, give_out};
use sb_base::{Bundle, NoMemory, Stream};
use sb_emit::{RowOut, Tap};

/// A bundle of a stream comes: the rows that the engine gives then are written and offered.
///
/// # Errors
///
/// Those of [`give_out`], and `Memory`. Then nothing is known of the engine.
pub fn arrive<E: Engine, R: RowOut>(
    engine: &mut E,
    stream: Stream,
    bundle: Bundle,
    out: &mut R,
    taps: &mut Vec<Box<dyn Tap>>,
) -> Result<(), GiveStop>
    requires may { (f : Fed) × (rows : List ARecord) × E.stands engine.old f rows
        × MayArrive (E.plan engine.old) (E.size engine.old) f stream bundle }
    requires few { length taps.old.items < 2 ^ 32 }
    ensures same { E.same engine.old engine.new }
    ensures gives { (f : Fed) (rows : List ARecord) → E.stands engine.old f rows
        → MayArrive (E.plan engine.old) (E.size engine.old) f stream bundle
        → Gives (E.plan engine.old) (E.stands engine.new (with_bundle stream bundle f))
        R.after R.part out.old out.new
        (map (λ t. tap_state t) taps.old.items) (map (λ t. tap_state t) taps.new.items)
        (with_bundle stream bundle f) rows result }
    ensures fewer { OnOk result (length taps.new.items ≤ length taps.old.items) }
    ensures cause { GiveCause (R.row_state out.old) (R.row_state out.new) result }
{
    match engine.arrive(stream, bundle) {
        Ok(rows) => give_out(&rows, out, taps),
        Err(NoMemory) => Err(GiveStop::Memory),
    }
}

/// A watermark of a stream comes: the rows that the engine gives then are written and offered.
///
/// # Errors
///
/// Those of [`give_out`], and `Memory`. Then nothing is known of the engine.
pub fn seal<E: Engine, R: RowOut>(
    engine: &mut E,
    stream: Stream,
    mark: u64,
    out: &mut R,
    taps: &mut Vec<Box<dyn Tap>>,
) -> Result<(), GiveStop>
    requires may { (f : Fed) × (rows : List ARecord) × E.stands engine.old f rows
        × MaySeal (E.plan engine.old) f stream mark }
    requires few { length taps.old.items < 2 ^ 32 }
    ensures same { E.same engine.old engine.new }
    ensures gives { (f : Fed) (rows : List ARecord) → E.stands engine.old f rows
        → MaySeal (E.plan engine.old) f stream mark
        → Gives (E.plan engine.old) (E.stands engine.new (with_mark stream mark f))
        R.after R.part out.old out.new
        (map (λ t. tap_state t) taps.old.items) (map (λ t. tap_state t) taps.new.items)
        (with_mark stream mark f) rows result }
    ensures fewer { OnOk result (length taps.new.items ≤ length taps.old.items) }
    ensures cause { GiveCause (R.row_state out.old) (R.row_state out.new) result }
{
    match engine.seal(stream, mark) {
        Ok(rows) => give_out(&rows, out, taps),
        Err(NoMemory) => Err(GiveStop::Memory),
    }
}
