//! The answer to two record files: each gives the lines of one stream.

ghost use Rattle.std.specs.Prelude.{◌≡◌, ◌≤◌, ◌<◌, ◌^◌, false, IsTrue, List, ℕ, length, map, Option, Err, OnOk};
ghost use Rattle.std.specs.Io.KnownBytes.{Keeps};
ghost use Rattle.sb_answers.specs.outside.Folders.{Load};
ghost use Rattle.sb_answers.specs.outside.Sinks.{SinkCause};
ghost use Rattle.sb_answers.specs.base.Inputs.{by_stream};
ghost use Rattle.sb_answers.specs.alone.RunEnds as ends;
ghost use Rattle.sb_run.specs.TwoEnds.{TwoEnds, as_run};
ghost use Rattle.sb_answers.specs.words.Options.{AreInRange};
ghost use Rattle.sb_answers.specs.words.Words.Asked.{Feeds};
ghost use Rattle.sb_answers.specs.Answers.{IsAnswer, IsAnswerToTwo, Wrote, WrotePrefix};
ghost use Rattle.sb_answers.specs.told.Outcomes.{IsNoTap, IsRead, IsUnread};
ghost use Rattle.sb_answers.specs.Faults.{BlamesFile, HasCause, HidesNoFault, faults_of};
ghost use Rattle.sb_answers.specs.FileSteps.{status_after_two, status_of_two};
ghost use Rattle.sb_answers.specs.Offered.{BlamesTap, IsOfferedOfBytes, IsOffered};
ghost use Rattle.sb_answers.specs.RunSteps.{CanTellAt, diaries_told};

use sb_answers::{
    Diaries, Dropped, Ending, Folder, LateRecords, Lent, OpenGate, Options, Plan, PlanStop,
    Sequence, Sink, SinkFault, Status, Tap, load_both, load_plan, sizes_of,
};
use sb_run::{ByStream, MAX_FILE_LENGTH, Sizes, Team, TwoEnd, execute_two};
use std::sync::Wait;
use std::thread::Threads;
use std::time::Clock;

/// Answers with the rows of the plan in a file over the lines of two more files, whose names are `names`. The plan is
/// loaded first, then file a, and then, if that is not too long, file b.
pub fn answer_feeds<W: AllocGlobal + Threads + Wait + Clock + Sync, K: Sink, F: Folder>(
    rt: &W,
    name: &str,
    names: ByStream<&str>,
    options: Options,
    out: &mut K,
    folder: &mut F,
    taps: &mut Vec<Box<dyn Tap>>,
) -> Ending
    requires range { AreInRange options }
    requires few { length taps.old.items < 2 ^ 32 }
    ensures answer { (left : Option (List ℕ)) → IsAnswer (F.files folder.old)
        (Feeds name.now names.entry.a.now names.entry.b.now options) left left
        (K.taken out.old) (K.taken out.new) result }
    ensures offered { (left : Option (List ℕ)) → IsTrue options.taps → IsOffered (F.files folder.old)
        (Feeds name.now names.entry.a.now names.entry.b.now options) left left (K.taken out.old) (K.taken out.new)
        (map (λ t. tap_state t) taps.old.items) (map (λ t. tap_state t) taps.new.items) result.status }
    ensures unoffered { options.taps ≡ false → (taps.new ≡ taps.old) × IsNoTap result.status }
    ensures unread { IsUnread result.status → (out.new ≡ out.old) × (taps.new ≡ taps.old) }
    ensures same { F.files folder.new ≡ F.files folder.old }
    ensures cause { (reads : ℕ) → HasCause
        (faults_of reads (K.sink_state out.old) (F.failed folder.old))
        (faults_of reads (K.sink_state out.new) (F.failed folder.new)) result.status }
    ensures blames { result.status ≡ Status.Folder → BlamesFile (F.files folder.old)
        (Feeds name.now names.entry.a.now names.entry.b.now options) (F.failed folder.old) (F.failed folder.new) }
    ensures blames_tap { (place : ℕ) → result.status ≡ Status.Tap place → BlamesTap place
        (map (λ t. tap_state t) taps.old.items) (map (λ t. tap_state t) taps.new.items) }
    ensures no_fault_hidden { (reads : ℕ) → HidesNoFault
        (faults_of reads (K.sink_state out.old) (F.failed folder.old))
        (faults_of reads (K.sink_state out.new) (F.failed folder.new)) result.status }
{
    let alloc = rt.alloc();
    match load_plan(alloc, name, folder) {
        Ok(plan) => match load_both(alloc, names.a, names.b, folder) {
            Ok(files) => answer_files(rt, plan, options, files, out, taps),
            Err(status) => Ending::of(alloc, status),
        },
        Err(PlanStop::Fault(fault)) => Ending::of(alloc, Status::Plan(fault)),
        Err(PlanStop::Folder) => Ending::of(alloc, Status::Folder),
        Err(PlanStop::Memory) => Ending::of(alloc, Status::Memory),
    }
}

/// Answers with the rows of a plan over two files, and offers each to the taps if the options say so.
fn answer_files<W: AllocGlobal + Threads + Wait + Clock + Sync, K: Sink>(
    rt: &W,
    plan: Plan,
    options: Options,
    files: ByStream<Vec<u8>>,
    out: &mut K,
    taps: &mut Vec<Box<dyn Tap>>,
) -> Ending
    requires range { AreInRange options }
    requires few { length taps.old.items < 2 ^ 32 }
    requires short_a { length files.a.items ≤ MAX_FILE_LENGTH }
    requires short_b { length files.b.items ≤ MAX_FILE_LENGTH }
    ensures answer { IsAnswerToTwo plan options (by_stream files.a.items files.b.items)
        (K.taken out.old) (K.taken out.new) result }
    ensures offered { IsTrue options.taps → IsOfferedOfBytes plan (by_stream files.a.items files.b.items)
        (K.taken out.old) (K.taken out.new)
        (map (λ t. tap_state t) taps.old.items) (map (λ t. tap_state t) taps.new.items) result.status }
    ensures unoffered { options.taps ≡ false → (taps.new ≡ taps.old) × IsNoTap result.status }
    ensures read { IsRead result.status }
    ensures cause { (reads : ℕ) (loads : List Load) → HasCause
        (faults_of reads (K.sink_state out.old) loads)
        (faults_of reads (K.sink_state out.new) loads) result.status }
    ensures blames_tap { (place : ℕ) → result.status ≡ Status.Tap place → BlamesTap place
        (map (λ t. tap_state t) taps.old.items) (map (λ t. tap_state t) taps.new.items) }
    ensures no_fault_hidden { (reads : ℕ) (loads : List Load) → HidesNoFault
        (faults_of reads (K.sink_state out.old) loads)
        (faults_of reads (K.sink_state out.new) loads) result.status }
{
    if options.taps {
        answer_past(rt, plan, options, files, out, taps)
    } else {
        let mut none = Vec::new(rt.alloc());
        answer_past(rt, plan, options, files, out, &mut none)
    }
}

/// Answers with the rows of a plan over two files, past the taps.
fn answer_past<W: AllocGlobal + Threads + Wait + Clock + Sync, K: Sink>(
    rt: &W,
    plan: Plan,
    options: Options,
    files: ByStream<Vec<u8>>,
    out: &mut K,
    taps: &mut Vec<Box<dyn Tap>>,
) -> Ending
    requires range { AreInRange options }
    requires few { length taps.old.items < 2 ^ 32 }
    requires short_a { length files.a.items ≤ MAX_FILE_LENGTH }
    requires short_b { length files.b.items ≤ MAX_FILE_LENGTH }
    ensures answer { IsAnswerToTwo plan options (by_stream files.a.items files.b.items)
        (K.taken out.old) (K.taken out.new) result }
    ensures offered { IsOfferedOfBytes plan (by_stream files.a.items files.b.items) (K.taken out.old) (K.taken out.new)
        (map (λ t. tap_state t) taps.old.items) (map (λ t. tap_state t) taps.new.items) result.status }
    ensures read { IsRead result.status }
    ensures cause { (reads : ℕ) (loads : List Load) → HasCause
        (faults_of reads (K.sink_state out.old) loads)
        (faults_of reads (K.sink_state out.new) loads) result.status }
    ensures blames_tap { (place : ℕ) → result.status ≡ Status.Tap place → BlamesTap place
        (map (λ t. tap_state t) taps.old.items) (map (λ t. tap_state t) taps.new.items) }
    ensures no_fault_hidden { (reads : ℕ) (loads : List Load) → HidesNoFault
        (faults_of reads (K.sink_state out.old) loads)
        (faults_of reads (K.sink_state out.new) loads) result.status }
{
    let alloc = rt.alloc();
    let mut dropped = ByStream {
        a: Vec::new(alloc),
        b: Vec::new(alloc),
    };
    let sizes = sizes_of(&options);
    let end = files_to(rt, plan, sizes, files, out, taps, &mut dropped);
    let status = status_behind(&end, finish_after(out, &end));
    Ending {
        status,
        late: LateRecords::OfFiles(Sequence::new(dropped.a), Sequence::new(dropped.b)),
        diaries: tell(end, status, options.diary),
    }
}

/// Runs a plan over two files, and writes its rows to a sink.
fn files_to<W: AllocGlobal + Threads + Wait + Clock + Sync, K: Sink>(
    rt: &W,
    plan: Plan,
    sizes: Sizes,
    files: ByStream<Vec<u8>>,
    out: &mut K,
    taps: &mut Vec<Box<dyn Tap>>,
    dropped: &mut ByStream<Vec<Dropped>>,
) -> TwoEnd
    requires sizes { ends.AreSizes sizes }
    requires few { length taps.old.items < 2 ^ 32 }
    requires short_a { length files.a.items ≤ MAX_FILE_LENGTH }
    requires short_b { length files.b.items ≤ MAX_FILE_LENGTH }
    ensures ends { TwoEnds plan sizes (by_stream files.a.items files.b.items)
        (λ taken rows taken'. Wrote taken taken' rows) (λ taken rows taken'. WrotePrefix taken taken' rows)
        (K.taken out.old) (K.taken out.new)
        (map (λ t. tap_state t) taps.old.items) (map (λ t. tap_state t) taps.new.items)
        (by_stream dropped.old.a.items dropped.old.b.items) (by_stream dropped.new.a.items dropped.new.b.items) result }
    ensures output { ends.OutputCause (K.sink_state out.old) (K.sink_state out.new) (as_run result) }
{
    let team = Team {
        rt,
        gate: &OpenGate,
    };
    let mut lent = Lent { sink: &mut *out };
    execute_two(team, plan, sizes, files, &mut lent, taps, dropped)
}

/// Has the sink pass on all rows, unless writing failed or there was no memory.
fn finish_after<K: Sink>(out: &mut K, end: &TwoEnd) -> Result<(), SinkFault>
    ensures bytes { Keeps (K.taken out.old) (K.taken out.new) }
    ensures cause { SinkCause (K.sink_state out.old) (K.sink_state out.new) result }
    ensures told { OnOk result (ends.IsWritten (as_run end.now) → (K.sink_state out.new).refuses ≡ false) }
{
    match end {
        TwoEnd::Done(_) | TwoEnd::Refused { .. } | TwoEnd::Tap { .. } => out.finish(),
        TwoEnd::Output | TwoEnd::Memory => Ok(()),
    }
}

/// How a run over two files ends, once its sink was asked to pass on all rows.
fn status_behind(end: &TwoEnd, passed: Result<(), SinkFault>) -> Status
    ensures { result ≡ status_after_two end.now passed }
{
    match passed {
        Ok(()) => of_two(end),
        Err(SinkFault::Failed) => Status::Output,
        Err(SinkFault::Memory) => Status::Memory,
    }
}

/// The diaries that are told of a run over two files that ended so.
fn tell(end: TwoEnd, status: Status, keeps: bool) -> Diaries
    requires { CanTellAt keeps (as_run end) }
    ensures { result ≡ diaries_told keeps (as_run end) status }
{
    match (status, end) {
        (Status::Done, TwoEnd::Done(hand)) if keeps => Diaries::of(hand),
        _ => Diaries::none(),
    }
}

/// How a run over two files ends whose rows were passed on.
fn of_two(end: &TwoEnd) -> Status
    ensures { result ≡ status_of_two end.now }
{
    match end {
        TwoEnd::Done(_) => Status::Done,
        TwoEnd::Refused { stream, refusal } => Status::FileLine {
            stream: *stream,
            refusal: *refusal,
        },
        TwoEnd::Output => Status::Output,
        TwoEnd::Tap { place } => Status::Tap { place: *place },
        TwoEnd::Memory => Status::Memory,
    }
}
