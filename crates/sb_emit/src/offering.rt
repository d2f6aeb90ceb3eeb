//! Offering a row to a list of taps.

ghost use Rattle.std.specs.Prelude.{◌≡◌, ◌<◌, ◌≤◌, ◌^◌, length, map};
ghost use Rattle.sb_emit.specs.Taps.{Answers};
ghost use Rattle.sb_emit.specs.Offers.{Offers};
ghost use Rattle.sb_emit.specs.OfferSteps.{OffersAt};

use crate::tap::{Tap, TapFault, Wish};
use sb_record::{END_MARK, Record};
use std::error::Error;
use std::fmt;

/// Why an offer ended before the last tap.
#[derive(Clone, Copy, Debug, PartialEq, Eq, Drop)]
pub enum TapStop {
    /// A tap failed: its place, from 0, in the list as the offer began.
    Failed { place: u32 },
    /// A tap was out of memory.
    Memory,
}

impl fmt::Display for TapStop {
    fn fmt<W: fmt::Write>(&self, f: &mut fmt::Formatter<W>) -> fmt::Result {
        match self {
            TapStop::Failed { place } => write!(f, "tap {place} failed"),
            TapStop::Memory => f.write_str("out of memory"),
        }
    }
}

impl Error for TapStop {}

// Offers a row to one tap.
fn offer_one(tap: &mut Box<dyn Tap>, row: &Record) -> Result<Wish, TapFault>
    requires { row.now.time < END_MARK }
    ensures { Answers row.now (tap_state tap.old) (tap_state tap.new) result }
{
    tap.row(row)
}

// Offers a row to the tap at a place, and drops it if it has enough: whether it stays.
fn offer_at(taps: &mut Vec<Box<dyn Tap>>, place: usize, row: &Record) -> Result<bool, TapFault>
    requires place { place < length taps.old.items }
    requires time { row.now.time < END_MARK }
    ensures { OffersAt row.now place
        (map (λ t. tap_state t) taps.old.items) (map (λ t. tap_state t) taps.new.items) result }
{
    match offer_one(&mut taps[place], row) {
        Ok(Wish::More) => Ok(true),
        Ok(Wish::Enough) => {
            taps.remove(place);
            Ok(false)
        }
        Err(fault) => Err(fault),
    }
}

/// Offers a row, whose time is below [`END_MARK`], to each of fewer than 2^32 taps, in order, and drops at once each
/// tap that has enough.
///
/// # Errors
///
/// The first refusal of a tap: `Failed` only if the count of faults of the tap at that place rose in this call. The
/// taps before it have seen the row, and those of them that had enough are gone. It and all taps behind it have not,
/// and stay.
pub fn offer(taps: &mut Vec<Box<dyn Tap>>, row: &Record) -> Result<(), TapStop>
    requires few { length taps.old.items < 2 ^ 32 }
    requires time { row.now.time < END_MARK }
    ensures offers { Offers row.now
        (map (λ t. tap_state t) taps.old.items) (map (λ t. tap_state t) taps.new.items) result }
    ensures fewer { length taps.new.items ≤ length taps.old.items }
{
    let mut staying = 0usize;
    'places: for place in 0..taps.len() {
        let stays = match offer_at(taps, staying, row) {
            Ok(stays) => stays,
            Err(TapFault::Failed) => {
                return Err(TapStop::Failed {
                    place: place as u32,
                });
            }
            Err(TapFault::Memory) => return Err(TapStop::Memory),
        };
        if stays {
            staying += 1;
        }
    }
    Ok(())
}
