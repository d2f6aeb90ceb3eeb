//! The answers over a first part of an input: its rows, and its checkpoint.

ghost use Rattle.std.specs.Prelude.{◌≡◌, false, List, OnOk, Ok, Err};
ghost use Rattle.std.specs.Io.KnownBytes.{Keeps};
ghost use Rattle.sb_answers.specs.outside.Folders.{Load};
ghost use Rattle.sb_answers.specs.outside.Sinks.{SinkCause, WritesAll};
ghost use Rattle.sb_answers.specs.outside.Sources.{Rose};
ghost use Rattle.sb_answers.specs.checkpoint.Reach.{HasNoSession};
ghost use Rattle.sb_answers.specs.alone.RunEnds as ends;
ghost use Rattle.sb_run.specs.CutEnds as cuts;
ghost use Rattle.sb_answers.specs.words.Options.{AreInRange, defaults};
ghost use Rattle.sb_answers.specs.words.Words.Asked.{Part, Save};
ghost use Rattle.sb_answers.specs.told.Outcomes.{HasPrinted, IsNoTap, IsRead, IsUnread, IsWritten};
ghost use Rattle.sb_answers.specs.Answers.{HasWritten, IsAnswer, IsAnswerBy, Wrote, WrotePrefix};
ghost use Rattle.sb_answers.specs.Courses.{if_ended, part_course, save_course};
ghost use Rattle.sb_answer_runs.specs.CutSteps.{status_after_cut, status_of_cut, text_in};
ghost use Rattle.sb_answers.specs.Faults.{BlamesFile, HasCause, HidesNoFault, faults_of};

use sb_answers::{
    Diaries, Dropped, Ending, Folder, LateRecords, Lent, NoMemory, Options, Plan, PlanStop,
    Sequence, Sink, SinkFault, Source, Status, Stop, load_plan, plan_to_cut, sizes_of,
};
use sb_run::{Checkpoint, CutEnd, Saved, Sizes, run_part, save, write_checkpoint};
use std::alloc::Global;
use std::sync::Wait;
use std::thread::Threads;
use std::time::Clock;

/// Answers with the rows below the low watermark of a first part of an input.
pub fn answer_part<W: AllocGlobal + Threads + Wait + Clock + Sync, S: Source, K: Sink, F: Folder>(
    rt: &W,
    name: &str,
    options: Options,
    source: &mut S,
    out: &mut K,
    folder: &mut F,
) -> Ending
    requires range { AreInRange options }
    requires untold { options.diary ≡ false }
    ensures answer { IsAnswer (F.files folder.old) (Part name.now options) (S.left source.old) (S.left source.new)
        (K.taken out.old) (K.taken out.new) result }
    ensures no_tap { IsNoTap result.status }
    ensures unread { IsUnread result.status → (source.new ≡ source.old) × (out.new ≡ out.old) }
    ensures same { F.files folder.new ≡ F.files folder.old }
    ensures cause { HasCause
        (faults_of (S.faults source.old) (K.sink_state out.old) (F.failed folder.old))
        (faults_of (S.faults source.new) (K.sink_state out.new) (F.failed folder.new)) result.status }
    ensures blames { result.status ≡ Status.Folder
        → BlamesFile (F.files folder.old) (Part name.now options) (F.failed folder.old) (F.failed folder.new) }
    ensures no_fault_hidden { HidesNoFault
        (faults_of (S.faults source.old) (K.sink_state out.old) (F.failed folder.old))
        (faults_of (S.faults source.new) (K.sink_state out.new) (F.failed folder.new)) result.status }
    ensures end { result.status ≡ Status.Done → S.has_ended source.new }
{
    let alloc = rt.alloc();
    match load_plan(alloc, name, folder) {
        Ok(plan) => answer_part_of(rt, plan, options, source, out),
        Err(PlanStop::Fault(fault)) => Ending::of(alloc, Status::Plan(fault)),
        Err(PlanStop::Folder) => Ending::of(alloc, Status::Folder),
        Err(PlanStop::Memory) => Ending::of(alloc, Status::Memory),
    }
}

/// Answers with the rows that a plan gives of a first part of an input.
fn answer_part_of<W: AllocGlobal + Threads + Wait + Clock + Sync, S: Source, K: Sink>(
    rt: &W,
    plan: Plan,
    options: Options,
    source: &mut S,
    out: &mut K,
) -> Ending
    requires range { AreInRange options }
    requires untold { options.diary ≡ false }
    ensures answer { IsAnswerBy plan options (S.left source.old) (S.left source.new)
        (K.taken out.old) (K.taken out.new) (λ given. part_course plan given) result }
    ensures read { IsRead result.status }
    ensures no_tap { IsNoTap result.status }
    ensures cause { (loads : List Load) → HasCause
        (faults_of (S.faults source.old) (K.sink_state out.old) loads)
        (faults_of (S.faults source.new) (K.sink_state out.new) loads) result.status }
    ensures no_fault_hidden { (loads : List Load) → HidesNoFault
        (faults_of (S.faults source.old) (K.sink_state out.old) loads)
        (faults_of (S.faults source.new) (K.sink_state out.new) loads) result.status }
    ensures end { result.status ≡ Status.Done → S.has_ended source.new }
{
    let mut dropped = Vec::new(rt.alloc());
    let end = part_to(rt, plan, sizes_of(&options), source, out, &mut dropped);
    let status = cut_status(end, finish_cut(out, end));
    Ending {
        status,
        late: LateRecords::OfInput(Sequence::new(dropped)),
        diaries: Diaries::none(),
    }
}

/// Runs a plan over a first part of an input, and writes its rows to a sink.
fn part_to<W: AllocGlobal + Threads + Wait + Clock + Sync, S: Source, K: Sink>(
    rt: &W,
    plan: Plan,
    sizes: Sizes,
    source: &mut S,
    out: &mut K,
    dropped: &mut Vec<Dropped>,
) -> CutEnd
    requires sizes { ends.AreSizes sizes }
    ensures ends { cuts.PartEnds plan (S.left source.old) (S.left source.new)
        (λ taken rows taken'. Wrote taken taken' rows) (λ taken rows taken'. WrotePrefix taken taken' rows)
        (K.taken out.old) (K.taken out.new) dropped.old.items dropped.new.items result }
    ensures input { cuts.CutCause (S.faults source.old) (S.faults source.new) result }
    ensures output { cuts.CutOutputCause (K.sink_state out.old) (K.sink_state out.new) result }
    ensures end { result ≡ CutEnd.Done → S.has_ended source.new }
{
    let mut lent = Lent { sink: &mut *out };
    run_part(rt, plan, sizes, source, &mut lent, dropped)
}

/// Has the sink pass on all rows of a part, unless writing failed or there was no memory.
fn finish_cut<K: Sink>(out: &mut K, end: CutEnd) -> Result<(), SinkFault>
    ensures bytes { Keeps (K.taken out.old) (K.taken out.new) }
    ensures cause { SinkCause (K.sink_state out.old) (K.sink_state out.new) result }
    ensures told { OnOk result (cuts.IsCutWritten end → (K.sink_state out.new).refuses ≡ false) }
{
    match end {
        CutEnd::Done | CutEnd::Refused(_) | CutEnd::Input => out.finish(),
        CutEnd::Output | CutEnd::Memory => Ok(()),
    }
}

/// How a run over a part ends, once its sink was asked to pass on all rows.
fn cut_status(end: CutEnd, passed: Result<(), SinkFault>) -> Status
    ensures { result ≡ status_after_cut end passed }
{
    match passed {
        Ok(()) => of_cut(end),
        Err(SinkFault::Failed) => Status::Output,
        Err(SinkFault::Memory) => Status::Memory,
    }
}

/// Answers with the checkpoint of a first part of an input.
pub fn answer_save<S: Source, K: Sink, F: Folder>(
    alloc: Global,
    name: &str,
    source: &mut S,
    out: &mut K,
    folder: &mut F,
) -> Ending
    ensures answer { IsAnswer (F.files folder.old) (Save name.now) (S.left source.old) (S.left source.new)
        (K.taken out.old) (K.taken out.new) result }
    ensures no_tap { IsNoTap result.status }
    ensures unread { IsUnread result.status → (source.new ≡ source.old) × (out.new ≡ out.old) }
    ensures same { F.files folder.new ≡ F.files folder.old }
    ensures cause { HasCause
        (faults_of (S.faults source.old) (K.sink_state out.old) (F.failed folder.old))
        (faults_of (S.faults source.new) (K.sink_state out.new) (F.failed folder.new)) result.status }
    ensures blames { result.status ≡ Status.Folder
        → BlamesFile (F.files folder.old) (Save name.now) (F.failed folder.old) (F.failed folder.new) }
    ensures no_fault_hidden { HidesNoFault
        (faults_of (S.faults source.old) (K.sink_state out.old) (F.failed folder.old))
        (faults_of (S.faults source.new) (K.sink_state out.new) (F.failed folder.new)) result.status }
    ensures end { result.status ≡ Status.Done → S.has_ended source.new }
{
    match plan_to_cut(alloc, name, folder) {
        Ok(plan) => answer_saved(alloc, &plan, source, out),
        Err(PlanStop::Fault(fault)) => Ending::of(alloc, Status::Plan(fault)),
        Err(PlanStop::Folder) => Ending::of(alloc, Status::Folder),
        Err(PlanStop::Memory) => Ending::of(alloc, Status::Memory),
    }
}

/// Answers with the checkpoint that a plan needs of a first part of an input.
fn answer_saved<S: Source, K: Sink>(
    alloc: Global,
    plan: &Plan,
    source: &mut S,
    out: &mut K,
) -> Ending
    requires { HasNoSession plan.now }
    ensures answer { IsAnswerBy plan.now defaults (S.left source.old) (S.left source.new)
        (K.taken out.old) (K.taken out.new) (λ given. save_course plan.now given) result }
    ensures read { IsRead result.status }
    ensures no_tap { IsNoTap result.status }
    ensures cause { (loads : List Load) → HasCause
        (faults_of (S.faults source.old) (K.sink_state out.old) loads)
        (faults_of (S.faults source.new) (K.sink_state out.new) loads) result.status }
    ensures no_fault_hidden { (loads : List Load) → HidesNoFault
        (faults_of (S.faults source.old) (K.sink_state out.old) loads)
        (faults_of (S.faults source.new) (K.sink_state out.new) loads) result.status }
    ensures end { result.status ≡ Status.Done → S.has_ended source.new }
{
    let mut dropped = Vec::new(alloc);
    let status = match save(alloc, plan, source, &mut dropped) {
        Ok(saved) => write_saved(&saved, out),
        Err(NoMemory) => Status::Memory,
    };
    Ending {
        status,
        late: LateRecords::OfInput(Sequence::new(dropped)),
        diaries: Diaries::none(),
    }
}

/// Writes the checkpoint of a part that was read to its end, and else nothing.
fn write_saved<K: Sink>(saved: &Saved, out: &mut K) -> Status
    ensures written { HasWritten saved.now.stop (if_ended saved.now.stop (text_in saved.now.checkpoint))
        (text_in saved.now.checkpoint) (K.taken out.old) (K.taken out.new) result }
    ensures no_tap { IsNoTap result }
    ensures cause { result ≡ Status.Output → Rose (K.sink_state out.old).faults (K.sink_state out.new).faults }
    ensures told { IsWritten result → (K.sink_state out.new).faults ≡ (K.sink_state out.old).faults }
    ensures fault { result ≡ Status.Input → saved.now.stop ≡ Stop.Fault }
    ensures end { result ≡ Status.Done → saved.now.stop ≡ Stop.End }
{
    match saved.stop {
        Stop::End => print_checkpoint(&saved.checkpoint, out),
        Stop::Refused(refusal) => Status::Line(refusal),
        Stop::Fault => Status::Input,
    }
}

/// Writes a checkpoint: how the run ends.
fn print_checkpoint<K: Sink>(checkpoint: &Checkpoint, out: &mut K) -> Status
    ensures printed { HasPrinted (text_in checkpoint.now) (K.taken out.old) (K.taken out.new) result }
    ensures no_tap { IsNoTap result }
    ensures cause { result ≡ Status.Output → Rose (K.sink_state out.old).faults (K.sink_state out.new).faults }
    ensures told { IsWritten result → (K.sink_state out.new).faults ≡ (K.sink_state out.old).faults }
    ensures read { IsRead result }
    ensures no_read_failed { result ≡ Status.Input → ⊥ }
{
    match write_whole_checkpoint(checkpoint, out) {
        Ok(()) => Status::Done,
        Err(SinkFault::Failed) => Status::Output,
        Err(SinkFault::Memory) => Status::Memory,
    }
}

/// Writes a checkpoint, and has the sink pass all of it on.
fn write_whole_checkpoint<K: Sink>(checkpoint: &Checkpoint, out: &mut K) -> Result<(), SinkFault>
    ensures bytes { WritesAll (K.taken out.old) (K.taken out.new) (text_in checkpoint.now) result }
    ensures cause { SinkCause (K.sink_state out.old) (K.sink_state out.new) result }
    ensures told { OnOk result ((K.sink_state out.new).faults ≡ (K.sink_state out.old).faults) }
{
    write_checkpoint(checkpoint, out)?;
    out.finish()
}

/// How a run over a first part of an input ends whose rows were passed on.
fn of_cut(end: CutEnd) -> Status
    ensures { result ≡ status_of_cut end }
{
    match end {
        CutEnd::Done => Status::Done,
        CutEnd::Refused(refusal) => Status::Line(refusal),
        CutEnd::Input => Status::Input,
        CutEnd::Output => Status::Output,
        CutEnd::Memory => Status::Memory,
    }
}
