//! Giving out rows: they are all written first, and then offered to the taps one by one.

ghost use Rattle.std.specs.Prelude.{◌≡◌, ◌≤◌, ◌<◌, ◌^◌, map, length, All, IsErrOf};
ghost use Rattle.sb_feed.specs.declared.give.GiveStop.TheVariants as stop;
ghost use Rattle.sb_feed.specs.GiveCauses.{GiveCause};
ghost use Rattle.sb_feed.specs.Gives.{OffersRows, WritesRows};

use sb_base::{END_MARK, Record};
use sb_emit::{RowOut, Tap, TapStop, offer};
use sb_outside::SinkFault;
use std::error::Error;
use std::fmt;

/// Why rows were not given out, or not all of them.
#[derive(Clone, Copy, Debug, PartialEq, Eq, Drop)]
pub enum GiveStop {
    /// Writing failed.
    Output,
    /// A tap failed: its place, from 0, in the list as the row was offered.
    Tap { place: u32 },
    /// There was not enough memory.
    Memory,
}

impl fmt::Display for GiveStop {
    fn fmt<W: fmt::Write>(&self, f: &mut fmt::Formatter<W>) -> fmt::Result {
        match self {
            GiveStop::Output => f.write_str("the output failed"),
            GiveStop::Tap { place } => write!(f, "tap {place} failed"),
            GiveStop::Memory => f.write_str("out of memory"),
        }
    }
}

impl Error for GiveStop {}

// Offers rows one by one.
fn offer_all(rows: &[Record], taps: &mut Vec<Box<dyn Tap>>) -> Result<(), GiveStop>
    requires times { All (λ r. r.time < END_MARK) rows.now }
    requires few { length taps.old.items < 2 ^ 32 }
    ensures offers { OffersRows rows.now
        (map (λ t. tap_state t) taps.old.items) (map (λ t. tap_state t) taps.new.items) result }
    ensures writes_none { IsErrOf result stop.Output → ⊥ }
    ensures fewer { length taps.new.items ≤ length taps.old.items }
{
    'rows: for row in rows {
        match offer(taps, row) {
            Ok(()) => {}
            Err(TapStop::Failed { place }) => return Err(GiveStop::Tap { place }),
            Err(TapStop::Memory) => return Err(GiveStop::Memory),
        }
    }
    Ok(())
}

/// Writes rows, whose times are below [`END_MARK`], and then offers each of them to fewer than 2^32 taps, in order. A
/// tap that has enough is dropped.
///
/// # Errors
///
/// The first refusal: of the output, and then no row was offered; or of a tap, and then all rows were written, and the
/// rows behind the one that it refused were not offered.
pub fn give_out<R: RowOut>(
    rows: &[Record],
    out: &mut R,
    taps: &mut Vec<Box<dyn Tap>>,
) -> Result<(), GiveStop>
    requires times { All (λ r. r.time < END_MARK) rows.now }
    requires few { length taps.old.items < 2 ^ 32 }
    ensures writes { WritesRows R.after R.part out.old rows.now out.new result }
    ensures offers { OffersRows rows.now
        (map (λ t. tap_state t) taps.old.items) (map (λ t. tap_state t) taps.new.items) result }
    ensures fewer { length taps.new.items ≤ length taps.old.items }
    ensures cause { GiveCause (R.row_state out.old) (R.row_state out.new) result }
{
    match out.rows(rows) {
        Ok(()) => offer_all(rows, taps),
        Err(SinkFault::Failed) => Err(GiveStop::Output),
        Err(SinkFault::Memory) => Err(GiveStop::Memory),
    }
}
