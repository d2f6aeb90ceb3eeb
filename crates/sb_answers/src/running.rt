//! What stands around a run of the engine in an answer: its sizes before, its status behind.

ghost use Rattle.std.specs.Prelude.{◌≡◌, false, OnOk};
ghost use Rattle.std.specs.Io.KnownBytes.{Keeps};
ghost use Rattle.sb_alone.specs.outside.Sinks.{SinkCause};
ghost use Rattle.sb_alone.specs.RunEnds as ends;
ghost use Rattle.sb_answers.specs.RunSteps.{sizes_from, status_after, status_at};

use sb_alone::{RunEnd, Sink, SinkFault, Sizes};
use sb_told::Status;
use sb_words::Options;

/// The sizes of a run with these options.
pub fn sizes_of(options: &Options) -> Sizes
    ensures { result ≡ sizes_from options.now }
{
    Sizes {
        workers: options.workers,
        bundle: options.bundle,
        pending: options.pending,
        keeps_diaries: options.diary,
    }
}

/// Has the sink pass on all rows, unless writing failed or there was no memory.
pub fn finish_after<K: Sink>(out: &mut K, end: &RunEnd) -> Result<(), SinkFault>
    ensures bytes { Keeps (K.taken out.old) (K.taken out.new) }
    ensures cause { SinkCause (K.sink_state out.old) (K.sink_state out.new) result }
    ensures told { OnOk result (ends.IsWritten end.now → (K.sink_state out.new).refuses ≡ false) }
{
    match end {
        RunEnd::Done(_) | RunEnd::Refused(_) | RunEnd::Input | RunEnd::Tap { .. } => out.finish(),
        RunEnd::Output | RunEnd::Memory => Ok(()),
    }
}

/// How a run of the engine ends, once its sink was asked to pass on all rows.
pub fn status_behind(end: &RunEnd, passed: Result<(), SinkFault>) -> Status
    ensures { result ≡ status_after end.now passed }
{
    match passed {
        Ok(()) => of_end(end),
        Err(SinkFault::Failed) => Status::Output,
        Err(SinkFault::Memory) => Status::Memory,
    }
}

/// How a run of the engine ends whose rows were passed on.
fn of_end(end: &RunEnd) -> Status
    ensures { result ≡ status_at end.now }
{
    match end {
        RunEnd::Done(_) => Status::Done,
        RunEnd::Refused(refusal) => Status::Line(*refusal),
        RunEnd::Input => Status::Input,
        RunEnd::Output => Status::Output,
        RunEnd::Tap { place } => Status::Tap { place: *place },
        RunEnd::Memory => Status::Memory,
    }
}
