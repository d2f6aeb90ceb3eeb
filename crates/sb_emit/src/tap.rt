//! Taps: who looks at rows as they leave, one at a time.

ghost use Rattle.std.specs.Prelude.{◌≡◌, ◌<◌, ◌%◌, ◌^◌, length};
ghost use Rattle.sb_emit.specs.Taps.{Answers, TapState};

use sb_record::{END_MARK, Record};
use std::error::Error;
use std::fmt;

/// What a tap wants behind a row.
#[derive(Clone, Copy, Debug, PartialEq, Eq, Drop)]
pub enum Wish {
    /// The next row too.
    More,
    /// No further row.
    Enough,
}

/// Why a tap refused a row.
#[derive(Clone, Copy, Debug, PartialEq, Eq, Drop)]
pub enum TapFault {
    /// The tap failed, and has counted it as a fault.
    Failed,
    /// There was not enough memory.
    Memory,
}

impl fmt::Display for TapFault {
    fn fmt<W: fmt::Write>(&self, f: &mut fmt::Formatter<W>) -> fmt::Result {
        f.write_str(match self {
            TapFault::Failed => "a tap failed",
            TapFault::Memory => "out of memory",
        })
    }
}

impl Error for TapFault {}

/// Who looks at rows.
///
/// `tap_state` has the rows that the tap has seen, a test that says of which lists of rows it has enough, and the count
/// of its faults. The test stays the same as rows come.
pub trait Tap: Send + Drop {
    ghost tap_state: { Self → TapState };

    /// Sees a row, whose time is below [`END_MARK`]: answers `Enough` exactly if the rows seen, with this one, are
    /// enough.
    ///
    /// # Errors
    ///
    /// `Failed` only if the count of faults rose in this call. A tap that refuses has not seen the row.
    fn row(&mut self, row: &Record) -> Result<Wish, TapFault>
        requires { row.now.time < END_MARK }
        ensures { Answers row.now (tap_state self.old) (tap_state self.new) result };

    /// How many rows it has seen, modulo 2^64.
    fn seen(&self) -> u64
        ensures { result ≡ length (tap_state self.now).seen % 2 ^ 64 };
}
