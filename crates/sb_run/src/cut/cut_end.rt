//! How a run over a first part of an input ends.

ghost use Rattle.sb_run.specs.CutEnds.{IsCutEnd, IsEndOfPart};

use sb_engines::{Refusal, RunEnd};

/// How a run over a first part of an input ends. Where several ends hold, `Memory` comes before `Output`, and this
/// before `Refused` and `Input`.
#[derive(Clone, Copy, Debug, PartialEq, Eq, Drop)]
pub enum CutEnd {
    /// The part was read to its end.
    Done,
    /// A line is refused: the first one that is.
    Refused(Refusal),
    /// Reading failed.
    Input,
    /// Writing failed.
    Output,
    /// There was no memory.
    Memory,
}

impl CutEnd {
    /// How a part ends whose run ended so, by whether it was read to its end.
    pub(crate) fn of(end: RunEnd, is_whole: bool) -> CutEnd
        requires { IsEndOfPart end }
        ensures { IsCutEnd is_whole end result }
    {
        match end {
            RunEnd::Done(_) | RunEnd::Tap { .. } => unreachable!(),
            RunEnd::Refused(refusal) => CutEnd::Refused(refusal),
            RunEnd::Input if is_whole => CutEnd::Done,
            RunEnd::Input => CutEnd::Input,
            RunEnd::Output => CutEnd::Output,
            RunEnd::Memory => CutEnd::Memory,
        }
    }
}
