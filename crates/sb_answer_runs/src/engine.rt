//! The answer of the engine to a plan: rows are written and offered as watermarks close them.

ghost use Rattle.std.specs.Prelude.{◌≡◌, ◌<◌, ◌^◌, ◌⊎◌, false, IsTrue, List, ℕ, length, map};
ghost use Rattle.sb_answers.specs.outside.Folders.{Load};
ghost use Rattle.sb_answers.specs.alone.RunEnds as ends;
ghost use Rattle.sb_answers.specs.words.Options.{AreInRange};
ghost use Rattle.sb_answers.specs.Answers.{IsAnswerOf, Wrote, WroteAllDue, WrotePrefix};
ghost use Rattle.sb_answers.specs.told.Outcomes.{IsNoTap, IsRead};
ghost use Rattle.sb_answers.specs.Courses.{run_course};
ghost use Rattle.sb_answers.specs.Faults.{HasCause, HidesNoFault, faults_of};
ghost use Rattle.sb_answers.specs.Offered.{BlamesTap, IsOfferedOf};
ghost use Rattle.sb_answers.specs.RunSteps.{CanTellAt, diaries_told};

use sb_answers::{
    Diaries, Dropped, Ending, LateRecords, Lent, Options, Plan, Sequence, Sink, Source, Status,
    Tap, finish_after, sizes_of, status_behind,
};
use sb_run::{RunEnd, Sizes, run};
use std::sync::Wait;
use std::thread::Threads;
use std::time::Clock;

/// Answers with the rows of a plan, and offers each to the taps if the options say so.
pub(crate) fn answer_run<W: AllocGlobal + Threads + Wait + Clock + Sync, S: Source, K: Sink>(
    rt: &W,
    plan: Plan,
    options: Options,
    source: &mut S,
    out: &mut K,
    taps: &mut Vec<Box<dyn Tap>>,
) -> Ending
    requires range { AreInRange options }
    requires few { length taps.old.items < 2 ^ 32 }
    ensures answer { IsAnswerOf plan options (S.left source.old) (S.left source.new)
        (K.taken out.old) (K.taken out.new) result }
    ensures offered { IsTrue options.taps → IsOfferedOf plan (S.left source.old) (S.left source.new)
        (K.taken out.old) (K.taken out.new)
        (map (λ t. tap_state t) taps.old.items) (map (λ t. tap_state t) taps.new.items) result.status }
    ensures unoffered { options.taps ≡ false → (taps.new ≡ taps.old) × IsNoTap result.status }
    ensures read { IsRead result.status }
    ensures cause { (loads : List Load) → HasCause
        (faults_of (S.faults source.old) (K.sink_state out.old) loads)
        (faults_of (S.faults source.new) (K.sink_state out.new) loads) result.status }
    ensures blames_tap { (place : ℕ) → result.status ≡ Status.Tap place → BlamesTap place
        (map (λ t. tap_state t) taps.old.items) (map (λ t. tap_state t) taps.new.items) }
    ensures read_no_more { (place : ℕ) → options.workers ≡ 1 → result.status ≡ Status.Tap place
        → S.faults source.new ≡ S.faults source.old }
    ensures read_no_more_at_output { options.workers ≡ 1 → result.status ≡ Status.Output
        → (S.faults source.new ≡ S.faults source.old) ⊎ WroteAllDue (S.left source.old) (S.left source.new)
        (K.taken out.old) (K.taken out.new) (λ given. run_course plan given) }
    ensures no_fault_hidden { (loads : List Load) → HidesNoFault
        (faults_of (S.faults source.old) (K.sink_state out.old) loads)
        (faults_of (S.faults source.new) (K.sink_state out.new) loads) result.status }
    ensures end { result.status ≡ Status.Done → S.has_ended source.new }
{
    if options.taps {
        answer_past(rt, plan, options, source, out, taps)
    } else {
        let mut none = Vec::new(rt.alloc());
        answer_past(rt, plan, options, source, out, &mut none)
    }
}

/// Answers with the rows of a plan, past the taps.
fn answer_past<W: AllocGlobal + Threads + Wait + Clock + Sync, S: Source, K: Sink>(
    rt: &W,
    plan: Plan,
    options: Options,
    source: &mut S,
    out: &mut K,
    taps: &mut Vec<Box<dyn Tap>>,
) -> Ending
    requires range { AreInRange options }
    requires few { length taps.old.items < 2 ^ 32 }
    ensures answer { IsAnswerOf plan options (S.left source.old) (S.left source.new)
        (K.taken out.old) (K.taken out.new) result }
    ensures offered { IsOfferedOf plan (S.left source.old) (S.left source.new) (K.taken out.old) (K.taken out.new)
        (map (λ t. tap_state t) taps.old.items) (map (λ t. tap_state t) taps.new.items) result.status }
    ensures read { IsRead result.status }
    ensures cause { (loads : List Load) → HasCause
        (faults_of (S.faults source.old) (K.sink_state out.old) loads)
        (faults_of (S.faults source.new) (K.sink_state out.new) loads) result.status }
    ensures blames_tap { (place : ℕ) → result.status ≡ Status.Tap place → BlamesTap place
        (map (λ t. tap_state t) taps.old.items) (map (λ t. tap_state t) taps.new.items) }
    ensures read_no_more { (place : ℕ) → options.workers ≡ 1 → result.status ≡ Status.Tap place
        → S.faults source.new ≡ S.faults source.old }
    ensures read_no_more_at_output { options.workers ≡ 1 → result.status ≡ Status.Output
        → (S.faults source.new ≡ S.faults source.old) ⊎ WroteAllDue (S.left source.old) (S.left source.new)
        (K.taken out.old) (K.taken out.new) (λ given. run_course plan given) }
    ensures no_fault_hidden { (loads : List Load) → HidesNoFault
        (faults_of (S.faults source.old) (K.sink_state out.old) loads)
        (faults_of (S.faults source.new) (K.sink_state out.new) loads) result.status }
    ensures end { result.status ≡ Status.Done → S.has_ended source.new }
{
    let mut dropped = Vec::new(rt.alloc());
    let end = run_to(
        rt,
        plan,
        sizes_of(&options),
        source,
        out,
        taps,
        &mut dropped,
    );
    let status = status_behind(&end, finish_after(out, &end));
    Ending {
        status,
        late: LateRecords::OfInput(Sequence::new(dropped)),
        diaries: tell(end, status, options.diary),
    }
}

/// Runs a plan over an input, and writes its rows to a sink.
fn run_to<W: AllocGlobal + Threads + Wait + Clock + Sync, S: Source, K: Sink>(
    rt: &W,
    plan: Plan,
    sizes: Sizes,
    source: &mut S,
    out: &mut K,
    taps: &mut Vec<Box<dyn Tap>>,
    dropped: &mut Vec<Dropped>,
) -> RunEnd
    requires sizes { ends.AreSizes sizes }
    requires few { length taps.old.items < 2 ^ 32 }
    ensures ends { ends.Ends plan sizes (S.left source.old) (S.left source.new)
        (λ taken rows taken'. Wrote taken taken' rows) (λ taken rows taken'. WrotePrefix taken taken' rows)
        (K.taken out.old) (K.taken out.new)
        (map (λ t. tap_state t) taps.old.items) (map (λ t. tap_state t) taps.new.items)
        dropped.old.items dropped.new.items result }
    ensures input { ends.SharedInputCause (S.faults source.old) (S.faults source.new) result }
    ensures alone { sizes.workers ≡ 1 → ends.InputCause (S.faults source.old) (S.faults source.new) result }
    ensures output { ends.OutputCause (K.sink_state out.old) (K.sink_state out.new) result }
    ensures end { ends.IsDone result → S.has_ended source.new }
{
    let mut lent = Lent { sink: &mut *out };
    run(rt, plan, sizes, source, &mut lent, taps, dropped)
}

/// The diaries that are told of a run that ended so.
fn tell(end: RunEnd, status: Status, keeps: bool) -> Diaries
    requires { CanTellAt keeps end }
    ensures { result ≡ diaries_told keeps end status }
{
    match (status, end) {
        (Status::Done, RunEnd::Done(hand)) if keeps => Diaries::of(hand),
        _ => Diaries::none(),
    }
}
