//! Why a line is not taken.

ghost use Rattle.std.specs.Prelude.{◌≡◌};

use sb_record::NoMemory;
use std::alloc::{AllocError, AllocFailed};

/// Why a line is not taken.
#[derive(Clone, Copy, Debug, PartialEq, Eq)]
pub(crate) enum LineStop {
    /// It is not legal after the lines before it.
    NotLegal,
    /// There was not enough memory.
    Memory,
}

impl From<NoMemory> for LineStop {
    ghost use Rattle.sb_diary.specs.declared.line_stop.LineStop.TheVariants.{Memory};

    ghost from_gives = { λ _ stop. stop ≡ Memory };

    fn from(_: NoMemory) -> LineStop {
        LineStop::Memory
    }
}

impl From<AllocError> for LineStop {
    ghost use Rattle.sb_diary.specs.declared.line_stop.LineStop.TheVariants.{Memory};

    ghost from_gives = { λ _ stop. stop ≡ Memory };

    fn from(_: AllocError) -> LineStop {
        LineStop::Memory
    }
}

impl<T: Drop> From<AllocFailed<T>> for LineStop {
    ghost use Rattle.sb_diary.specs.declared.line_stop.LineStop.TheVariants.{Memory};

    ghost from_gives = { λ _ stop. stop ≡ Memory };

    fn from(_: AllocFailed<T>) -> LineStop {
        LineStop::Memory
    }
}
