//! Printing what comes through a ring of rows.

ghost use Rattle.std.specs.Prelude.{◌≡◌, ◌≤◌, ◌<◌, ◌^◌, [], map, length};
ghost use Rattle.sb_feed.specs.GiveCauses.{GiveCause};
ghost use Rattle.sb_feeds.specs.RowsEnds.{row_ring_in, rows_received};
ghost use Rattle.sb_feeds.specs.RowsSends.{Prints};

use crate::input::signals::Signals;
use crate::rows::ends::RowsIn;
use crate::rows::fed::RowsFed;
use sb_feed::{GiveStop, RowOut, Tap, give_out};
use std::sync::Wait;

/// Writes the rows that come out of a ring, and offers each of them to fewer than 2^32 taps, up to the end. If nothing
/// comes it sleeps.
///
/// # Errors
///
/// The first refusal, of the output or of a tap. Nothing more is then taken out of the ring, and the sender is told.
pub fn print_rows<W: Wait, R: RowOut>(
    rt: &W,
    inward: &mut RowsIn,
    signals: &Signals,
    out: &mut R,
    taps: &mut Vec<Box<dyn Tap>>,
) -> Result<(), GiveStop>
    requires nothing { rows_received inward.old ≡ [] }
    requires few { length taps.old.items < 2 ^ 32 }
    ensures ring { row_ring_in inward.new ≡ row_ring_in inward.old }
    ensures prints { Prints R.after R.part out.old (map (λ t. tap_state t) taps.old.items) (rows_received inward.new)
        out.new (map (λ t. tap_state t) taps.new.items) result }
    ensures fewer { length taps.new.items ≤ length taps.old.items }
    ensures cause { GiveCause (R.row_state out.old) (R.row_state out.new) result }
{
    for _ in rt.forever() {
        match inward.pop() {
            Some(RowsFed::Rows(rows)) => match give_out(&rows, out, taps) {
                Ok(()) => signals.count_printed(rows.len()),
                Err(why) => {
                    signals.end();
                    return Err(why);
                }
            },
            Some(RowsFed::End) => return Ok(()),
            None => inward.rest(rt, signals),
        }
    }
    unreachable!()
}
