//! How a run ends.

ghost use Rattle.std.specs.Prelude.{◌≡◌};
ghost use Rattle.sb_told.specs.Statuses as spec;

use sb_diary::AuditFault;
use sb_feed::{Refusal, Stop, Stream};
use sb_plan::PlanFault;

/// How a run ends.
#[derive(Clone, Copy, Debug, PartialEq, Eq)]
pub enum Status {
    /// The input was read to its end, and all rows were written; or what else is asked for.
    Done,
    /// The words are no command.
    Words,
    /// The plan is refused: its first fault.
    Plan(PlanFault),
    /// A line of the input is refused: the first one that is.
    Line(Refusal),
    /// Reading the input failed.
    Input,
    /// Writing the rows failed.
    Output,
    /// The plan file, a table that it names, a record file or a checkpoint file could not be loaded.
    Folder,
    /// There was no memory.
    Memory,
    /// A tap failed: its place, from 0, in the list as the row was offered.
    Tap { place: u32 },
    /// A line of a diary text is refused: the first one that is.
    Audit(AuditFault),
    /// A record file is longer than `sb_run::MAX_FILE_LENGTH`, or a checkpoint file is longer than
    /// `sb_answers::MAX_CHECKPOINT_BYTES`.
    FileTooLong,
    /// A line of a record file is refused: the first one of the file of stream a that is, or else the first one of that
    /// of stream b.
    FileLine { stream: Stream, refusal: Refusal },
    /// A line of a checkpoint is refused: the first one that is, from 1.
    Checkpoint { line: u64 },
}

impl Status {
    /// The exit code of the program.
    pub fn code(&self) -> u8
        ensures { result ≡ spec.code_of self.now }
    {
        match self {
            Status::Done => 0,
            Status::Words => 1,
            Status::Plan(_) => 2,
            Status::Line(_) => 3,
            Status::Input => 4,
            Status::Output => 5,
            Status::Folder => 6,
            Status::Memory => 7,
            Status::Tap { .. } => 8,
            Status::Audit(_) => 9,
            Status::FileTooLong => 10,
            Status::FileLine { .. } => 3,
            Status::Checkpoint { .. } => 11,
        }
    }

    /// How a run ends whose output went well, by where reading stopped.
    pub fn of_stop(stop: Stop) -> Status
        ensures { result ≡ spec.status_of stop }
    {
        match stop {
            Stop::End => Status::Done,
            Stop::Refused(refusal) => Status::Line(refusal),
            Stop::Fault => Status::Input,
        }
    }
}
