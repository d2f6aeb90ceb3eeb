//! The answer to a request for rows: its plan, and what the engine or the plain program answers to it.

ghost use Rattle.std.specs.Prelude.{◌≡◌, ◌<◌, ◌^◌, ◌⊎◌, false, IsTrue, List, ℕ, length, map};
ghost use Rattle.sb_answers.specs.outside.Folders.{Load};
ghost use Rattle.sb_answers.specs.base.pipeline.Shapes.{sum_shape};
ghost use Rattle.sb_answers.specs.words.Options.{AreInRange};
ghost use Rattle.sb_answers.specs.words.Words.{IsSize};
ghost use Rattle.sb_answers.specs.words.Words.Asked.{Run, Slow};
ghost use Rattle.sb_answers.specs.Answers.{IsAnswer, IsAnswerOf, ReadsNoMore, WroteAllDue};
ghost use Rattle.sb_answers.specs.told.Outcomes.{IsNoTap, IsRead, IsUnread};
ghost use Rattle.sb_answers.specs.Courses.{run_course};
ghost use Rattle.sb_answers.specs.Faults.{BlamesFile, HasCause, HidesNoFault, faults_of};
ghost use Rattle.sb_answers.specs.Offered.{BlamesTap, IsOffered, IsOfferedOf};

use crate::engine::answer_run;
use crate::plain::answer_plain;
use sb_answers::{
    Ending, Folder, NoMemory, Options, Plan, PlanStop, Sink, Source, Status, Tap, load_plan,
    sum_plan,
};
use std::alloc::Global;
use std::sync::Wait;
use std::thread::Threads;
use std::time::Clock;

/// Answers with the sums over windows of a size.
pub fn answer_sum<W: AllocGlobal + Threads + Wait + Clock + Sync, S: Source, K: Sink>(
    rt: &W,
    size: u64,
    options: Options,
    source: &mut S,
    out: &mut K,
    taps: &mut Vec<Box<dyn Tap>>,
) -> Ending
    requires size { IsSize size }
    requires range { AreInRange options }
    requires few { length taps.old.items < 2 ^ 32 }
    ensures answer { IsAnswerOf (sum_shape size) options (S.left source.old) (S.left source.new)
        (K.taken out.old) (K.taken out.new) result }
    ensures offered { IsTrue options.taps → IsOfferedOf (sum_shape size) (S.left source.old) (S.left source.new)
        (K.taken out.old) (K.taken out.new)
        (map (λ t. tap_state t) taps.old.items) (map (λ t. tap_state t) taps.new.items) result.status }
    ensures unoffered { options.taps ≡ false → (taps.new ≡ taps.old) × IsNoTap result.status }
    ensures read { IsRead result.status }
    ensures cause { (loads : List Load) → HasCause
        (faults_of (S.faults source.old) (K.sink_state out.old) loads)
        (faults_of (S.faults source.new) (K.sink_state out.new) loads) result.status }
    ensures blames_tap { (place : ℕ) → result.status ≡ Status.Tap place → BlamesTap place
        (map (λ t. tap_state t) taps.old.items) (map (λ t. tap_state t) taps.new.items) }
    ensures read_no_more { (place : ℕ) → options.workers ≡ 1 → result.status ≡ Status.Tap place
        → S.faults source.new ≡ S.faults source.old }
    ensures read_no_more_at_output { options.workers ≡ 1 → result.status ≡ Status.Output
        → (S.faults source.new ≡ S.faults source.old) ⊎ WroteAllDue (S.left source.old) (S.left source.new)
        (K.taken out.old) (K.taken out.new) (λ given. run_course (sum_shape size) given) }
    ensures no_fault_hidden { (loads : List Load) → HidesNoFault
        (faults_of (S.faults source.old) (K.sink_state out.old) loads)
        (faults_of (S.faults source.new) (K.sink_state out.new) loads) result.status }
    ensures end { result.status ≡ Status.Done → S.has_ended source.new }
{
    let alloc = rt.alloc();
    match sum_plan(alloc, size) {
        Ok(plan) => answer_run(rt, plan, options, source, out, taps),
        Err(NoMemory) => Ending::of(alloc, Status::Memory),
    }
}

/// Answers with the rows of the plan in a file.
pub fn answer_file<W: AllocGlobal + Threads + Wait + Clock + Sync, S: Source, K: Sink, F: Folder>(
    rt: &W,
    name: &str,
    options: Options,
    source: &mut S,
    out: &mut K,
    folder: &mut F,
    taps: &mut Vec<Box<dyn Tap>>,
) -> Ending
    requires range { AreInRange options }
    requires few { length taps.old.items < 2 ^ 32 }
    ensures answer { IsAnswer (F.files folder.old) (Run name.now options) (S.left source.old) (S.left source.new)
        (K.taken out.old) (K.taken out.new) result }
    ensures offered { IsTrue options.taps → IsOffered (F.files folder.old) (Run name.now options)
        (S.left source.old) (S.left source.new) (K.taken out.old) (K.taken out.new)
        (map (λ t. tap_state t) taps.old.items) (map (λ t. tap_state t) taps.new.items) result.status }
    ensures unoffered { options.taps ≡ false → (taps.new ≡ taps.old) × IsNoTap result.status }
    ensures unread { IsUnread result.status
        → (source.new ≡ source.old) × (out.new ≡ out.old) × (taps.new ≡ taps.old) }
    ensures same { F.files folder.new ≡ F.files folder.old }
    ensures cause { HasCause
        (faults_of (S.faults source.old) (K.sink_state out.old) (F.failed folder.old))
        (faults_of (S.faults source.new) (K.sink_state out.new) (F.failed folder.new)) result.status }
    ensures blames { result.status ≡ Status.Folder
        → BlamesFile (F.files folder.old) (Run name.now options) (F.failed folder.old) (F.failed folder.new) }
    ensures blames_tap { (place : ℕ) → result.status ≡ Status.Tap place → BlamesTap place
        (map (λ t. tap_state t) taps.old.items) (map (λ t. tap_state t) taps.new.items) }
    ensures read_no_more { (place : ℕ) → options.workers ≡ 1 → result.status ≡ Status.Tap place
        → S.faults source.new ≡ S.faults source.old }
    ensures read_no_more_at_output { options.workers ≡ 1 → result.status ≡ Status.Output
        → ReadsNoMore (F.files folder.old) (Run name.now options) (S.left source.old) (S.left source.new)
        (K.taken out.old) (K.taken out.new) (S.faults source.old) (S.faults source.new) }
    ensures no_fault_hidden { HidesNoFault
        (faults_of (S.faults source.old) (K.sink_state out.old) (F.failed folder.old))
        (faults_of (S.faults source.new) (K.sink_state out.new) (F.failed folder.new)) result.status }
    ensures end { result.status ≡ Status.Done → S.has_ended source.new }
{
    let alloc = rt.alloc();
    match load_plan(alloc, name, folder) {
        Ok(plan) => answer_run(rt, plan, options, source, out, taps),
        Err(PlanStop::Fault(fault)) => Ending::of(alloc, Status::Plan(fault)),
        Err(PlanStop::Folder) => Ending::of(alloc, Status::Folder),
        Err(PlanStop::Memory) => Ending::of(alloc, Status::Memory),
    }
}

/// Answers with the rows of the plan in a file, by the plain program.
pub fn answer_slow<S: Source, K: Sink, F: Folder>(
    alloc: Global,
    name: &str,
    source: &mut S,
    out: &mut K,
    folder: &mut F,
) -> Ending
    ensures answer { IsAnswer (F.files folder.old) (Slow name.now) (S.left source.old) (S.left source.new)
        (K.taken out.old) (K.taken out.new) result }
    ensures no_tap { IsNoTap result.status }
    ensures unread { IsUnread result.status → (source.new ≡ source.old) × (out.new ≡ out.old) }
    ensures same { F.files folder.new ≡ F.files folder.old }
    ensures cause { HasCause
        (faults_of (S.faults source.old) (K.sink_state out.old) (F.failed folder.old))
        (faults_of (S.faults source.new) (K.sink_state out.new) (F.failed folder.new)) result.status }
    ensures blames { result.status ≡ Status.Folder
        → BlamesFile (F.files folder.old) (Slow name.now) (F.failed folder.old) (F.failed folder.new) }
    ensures no_fault_hidden { HidesNoFault
        (faults_of (S.faults source.old) (K.sink_state out.old) (F.failed folder.old))
        (faults_of (S.faults source.new) (K.sink_state out.new) (F.failed folder.new)) result.status }
    ensures end { result.status ≡ Status.Done → S.has_ended source.new }
{
    match load_plan(alloc, name, folder) {
        Ok(plan) => answer_plain(alloc, &plan, source, out),
        Err(PlanStop::Fault(fault)) => Ending::of(alloc, Status::Plan(fault)),
        Err(PlanStop::Folder) => Ending::of(alloc, Status::Folder),
        Err(PlanStop::Memory) => Ending::of(alloc, Status::Memory),
    }
}
