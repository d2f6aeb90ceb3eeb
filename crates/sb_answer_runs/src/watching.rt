//! The answer to a plan that is watched for one key: the last of its rows that are due.

ghost use Rattle.std.specs.Prelude.{◌≡◌, ◌<◌, false, IfSome, List};
ghost use Rattle.sb_answers.specs.base.records.Rows.{text_of};
ghost use Rattle.sb_answers.specs.outside.Folders.{Load};
ghost use Rattle.sb_answers.specs.outside.Sources.{Rose};
ghost use Rattle.sb_answers.specs.words.Options.{AreInRange};
ghost use Rattle.sb_answers.specs.words.Words.Asked.{Watch};
ghost use Rattle.sb_answers.specs.Answers.{HasWritten, IsAnswer, IsAnswerBy};
ghost use Rattle.sb_answers.specs.told.Outcomes.{IsNoTap, IsRead, IsUnread, IsWritten};
ghost use Rattle.sb_answers.specs.Courses.{row_if_any, watch_course};
ghost use Rattle.sb_answers.specs.Faults.{BlamesFile, HasCause, HidesNoFault, faults_of};

use crate::plain::write_due;
use crate::watched::{Watched, watch};
use sb_answers::{
    Diaries, END_MARK, Ending, Folder, LateRecords, NoMemory, Options, Plan, PlanStop, Sequence,
    Sink, Source, Status, Stop, load_plan, sizes_of,
};
use std::sync::Wait;
use std::thread::Threads;
use std::time::Clock;

/// Answers with the last row of a key among the rows of the plan in a file.
pub fn answer_watch<W: AllocGlobal + Threads + Wait + Clock + Sync, S: Source, K: Sink, F: Folder>(
    rt: &W,
    name: &str,
    key: &str,
    options: Options,
    source: &mut S,
    out: &mut K,
    folder: &mut F,
) -> Ending
    requires range { AreInRange options }
    requires untold { options.diary ≡ false }
    ensures answer { IsAnswer (F.files folder.old) (Watch name.now key.now options)
        (S.left source.old) (S.left source.new) (K.taken out.old) (K.taken out.new) result }
    ensures no_tap { IsNoTap result.status }
    ensures unread { IsUnread result.status → (source.new ≡ source.old) × (out.new ≡ out.old) }
    ensures same { F.files folder.new ≡ F.files folder.old }
    ensures cause { HasCause
        (faults_of (S.faults source.old) (K.sink_state out.old) (F.failed folder.old))
        (faults_of (S.faults source.new) (K.sink_state out.new) (F.failed folder.new)) result.status }
    ensures blames { result.status ≡ Status.Folder → BlamesFile (F.files folder.old)
        (Watch name.now key.now options) (F.failed folder.old) (F.failed folder.new) }
    ensures no_fault_hidden { HidesNoFault
        (faults_of (S.faults source.old) (K.sink_state out.old) (F.failed folder.old))
        (faults_of (S.faults source.new) (K.sink_state out.new) (F.failed folder.new)) result.status }
    ensures end { result.status ≡ Status.Done → S.has_ended source.new }
{
    let alloc = rt.alloc();
    match load_plan(alloc, name, folder) {
        Ok(plan) => answer_watched(rt, plan, key, options, source, out),
        Err(PlanStop::Fault(fault)) => Ending::of(alloc, Status::Plan(fault)),
        Err(PlanStop::Folder) => Ending::of(alloc, Status::Folder),
        Err(PlanStop::Memory) => Ending::of(alloc, Status::Memory),
    }
}

/// Answers with the last row of a key among the rows of a plan.
fn answer_watched<W: AllocGlobal + Threads + Wait + Clock + Sync, S: Source, K: Sink>(
    rt: &W,
    plan: Plan,
    key: &str,
    options: Options,
    source: &mut S,
    out: &mut K,
) -> Ending
    requires range { AreInRange options }
    requires untold { options.diary ≡ false }
    ensures answer { IsAnswerBy plan options (S.left source.old) (S.left source.new)
        (K.taken out.old) (K.taken out.new) (λ given. watch_course key.now plan given) result }
    ensures read { IsRead result.status }
    ensures no_tap { IsNoTap result.status }
    ensures cause { (loads : List Load) → HasCause
        (faults_of (S.faults source.old) (K.sink_state out.old) loads)
        (faults_of (S.faults source.new) (K.sink_state out.new) loads) result.status }
    ensures no_fault_hidden { (loads : List Load) → HidesNoFault
        (faults_of (S.faults source.old) (K.sink_state out.old) loads)
        (faults_of (S.faults source.new) (K.sink_state out.new) loads) result.status }
    ensures end { result.status ≡ Status.Done → S.has_ended source.new }
{
    let mut dropped = Vec::new(rt.alloc());
    let status = match watch(
        rt,
        plan,
        sizes_of(&options),
        key.as_bytes(),
        source,
        &mut dropped,
    ) {
        Ok(watched) => write_last(watched, out),
        Err(NoMemory) => Status::Memory,
    };
    Ending {
        status,
        late: LateRecords::OfInput(Sequence::new(dropped)),
        diaries: Diaries::none(),
    }
}

/// Writes the last row of the key, if it has one.
fn write_last<K: Sink>(watched: Watched, out: &mut K) -> Status
    requires { IfSome watched.last (λ row. row.time < END_MARK) }
    ensures written { HasWritten watched.stop (text_of (row_if_any watched.last)) (text_of (row_if_any watched.last))
        (K.taken out.old) (K.taken out.new) result }
    ensures no_tap { IsNoTap result }
    ensures cause { result ≡ Status.Output → Rose (K.sink_state out.old).faults (K.sink_state out.new).faults }
    ensures told { IsWritten result → (K.sink_state out.new).faults ≡ (K.sink_state out.old).faults }
    ensures fault { result ≡ Status.Input → watched.stop ≡ Stop.Fault }
    ensures end { result ≡ Status.Done → watched.stop ≡ Stop.End }
{
    let Watched { stop, last } = watched;
    match last {
        Some(row) => write_due(&[row], stop, out),
        None => write_due(&[], stop, out),
    }
}
