//! How a run ended, with the late records that it lists and the diaries that it tells.

ghost use Rattle.std.specs.Prelude.{◌≡◌, []};
ghost use Rattle.sb_told.specs.declared.late.LateRecords.TheVariants.{OfInput};

use crate::diaries::Diaries;
use sb_told::{LateRecords, Status};
use std::alloc::Global;

/// How a run ended, the late records that it lists, and the diaries that it tells.
#[derive(Drop)]
pub struct Ending {
    pub status: Status,
    pub late: LateRecords,
    pub diaries: Diaries,
}

impl Ending {
    /// The end of a run that dropped nothing, or does not know what it dropped, and tells no diary.
    pub fn of(alloc: Global, status: Status) -> Ending
        ensures status { result.status ≡ status }
        ensures dropped { result.late ≡ OfInput [] }
        ensures diaries { result.diaries ≡ [] }
    {
        Ending {
            status,
            late: LateRecords::none(alloc),
            diaries: Diaries::none(),
        }
    }
}
