//! Taking what came through the ring of an input.

ghost use Rattle.std.specs.Prelude.{◌≡◌, ◌≤◌, ◌<◌, ◌^◌, List, map, length, OnOk};
ghost use Rattle.sb_feed.specs.base.records.declared.item.Record.{Record as ARecord};
ghost use Rattle.sb_feed.specs.Feeds.{Fed};
ghost use Rattle.sb_feed.specs.GiveCauses.{GiveCause};
ghost use Rattle.sb_feed.specs.Gives.{Gives};
ghost use Rattle.sb_feeds.specs.InputFed.{MayCome, fed_with};

use crate::input::fed::InputFed;
use sb_feed::{Engine, GiveStop, RowOut, Tap, arrive, seal};

/// An engine takes a bundle or a watermark that came: the rows that it gives then are written and offered. Of other
/// values it takes nothing.
///
/// # Errors
///
/// The first failure to write or to offer rows, or want of memory. Then nothing is known of the engine.
pub fn take_value<E: Engine, R: RowOut>(
    engine: &mut E,
    next: InputFed,
    out: &mut R,
    taps: &mut Vec<Box<dyn Tap>>,
) -> Result<(), GiveStop>
    requires may { (f : Fed) × (rows : List ARecord) × E.stands engine.old f rows
        × MayCome (E.plan engine.old) (E.size engine.old) f next }
    requires few { length taps.old.items < 2 ^ 32 }
    ensures same { E.same engine.old engine.new }
    ensures gives { (f : Fed) (rows : List ARecord) → E.stands engine.old f rows
        → MayCome (E.plan engine.old) (E.size engine.old) f next
        → Gives (E.plan engine.old) (E.stands engine.new (fed_with next f)) R.after R.part out.old out.new
        (map (λ t. tap_state t) taps.old.items) (map (λ t. tap_state t) taps.new.items) (fed_with next f) rows result }
    ensures fewer { OnOk result (length taps.new.items ≤ length taps.old.items) }
    ensures cause { GiveCause (R.row_state out.old) (R.row_state out.new) result }
{
    match next {
        InputFed::Bundle(stream, bundle) => arrive(engine, stream, bundle, out, taps),
        InputFed::Mark(stream, mark) => seal(engine, stream, mark, out, taps),
        InputFed::Begin(_, _) => Ok(()),
        InputFed::Stop(_) => Ok(()),
        InputFed::NoMemory => Ok(()),
    }
}
