//! The answer of the plain program to a plan: an input is read whole, and then its rows are written.

ghost use Rattle.std.specs.Prelude.{◌≡◌, ◌<◌, All, List};
ghost use Rattle.sb_answers.specs.base.records.Rows.{text_of};
ghost use Rattle.sb_answers.specs.outside.Folders.{Load};
ghost use Rattle.sb_answers.specs.outside.Sources.{Rose};
ghost use Rattle.sb_answers.specs.one_feed.Due as due;
ghost use Rattle.sb_answers.specs.words.Options.{defaults};
ghost use Rattle.sb_answers.specs.Answers.{HasWritten, IsAnswerOf};
ghost use Rattle.sb_answers.specs.told.Outcomes.{IsNoTap, IsRead, IsWritten};
ghost use Rattle.sb_answers.specs.Faults.{HasCause, HidesNoFault, faults_of};

use sb_answers::{
    Diaries, END_MARK, Ending, Input, Kept, LateRecords, NoMemory, Plan, Record, Sink, SinkFault,
    Source, Status, Stop, read_input, rows_of_streams, write_rows,
};
use std::alloc::Global;

/// Answers with the rows of a plan.
pub(crate) fn answer_plain<S: Source, K: Sink>(
    alloc: Global,
    plan: &Plan,
    source: &mut S,
    out: &mut K,
) -> Ending
    ensures answer { IsAnswerOf plan.now defaults (S.left source.old) (S.left source.new)
        (K.taken out.old) (K.taken out.new) result }
    ensures read { IsRead result.status }
    ensures no_tap { IsNoTap result.status }
    ensures cause { (loads : List Load) → HasCause
        (faults_of (S.faults source.old) (K.sink_state out.old) loads)
        (faults_of (S.faults source.new) (K.sink_state out.new) loads) result.status }
    ensures no_fault_hidden { (loads : List Load) → HidesNoFault
        (faults_of (S.faults source.old) (K.sink_state out.old) loads)
        (faults_of (S.faults source.new) (K.sink_state out.new) loads) result.status }
    ensures end { result.status ≡ Status.Done → S.has_ended source.new }
{
    let Ok(input) = read_input(alloc, plan, source) else {
        return Ending::of(alloc, Status::Memory);
    };
    let below = due_mark(&input);
    let Input { kept, stop, .. } = input;
    let Kept { a, b, dropped } = kept;
    let status = match rows_of_streams(alloc, plan, a.into_vec(), b.into_vec(), below) {
        Ok(rows) => write_due(&rows, stop, out),
        Err(NoMemory) => Status::Memory,
    };
    Ending {
        status,
        late: LateRecords::OfInput(dropped),
        diaries: Diaries::none(),
    }
}

/// The watermark below which rows are due.
fn due_mark(input: &Input) -> u64
    ensures { result ≡ due.due_mark input.now.stop input.now.low }
{
    match input.stop {
        Stop::End => END_MARK,
        Stop::Refused(_) | Stop::Fault => input.low,
    }
}

/// Writes the rows that are due where reading stopped.
pub(crate) fn write_due<K: Sink>(rows: &[Record], stop: Stop, out: &mut K) -> Status
    requires { All (λ r. r.time < END_MARK) rows.now }
    ensures written { HasWritten stop (text_of rows.now) (text_of rows.now)
        (K.taken out.old) (K.taken out.new) result }
    ensures no_tap { IsNoTap result }
    ensures cause { result ≡ Status.Output → Rose (K.sink_state out.old).faults (K.sink_state out.new).faults }
    ensures told { IsWritten result → (K.sink_state out.new).faults ≡ (K.sink_state out.old).faults }
    ensures fault { result ≡ Status.Input → stop ≡ Stop.Fault }
    ensures end { result ≡ Status.Done → stop ≡ Stop.End }
{
    match write_rows(out, rows) {
        Ok(()) => Status::of_stop(stop),
        Err(SinkFault::Failed) => Status::Output,
        Err(SinkFault::Memory) => Status::Memory,
    }
}
