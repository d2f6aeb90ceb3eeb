//! The answer over the rest of an input, behind the checkpoint of its first part.

ghost use Rattle.std.specs.Prelude.{◌≡◌, ◌≤◌, false, List, ℕ, [], length, Err};
ghost use Rattle.std.specs.Io.KnownBytes.{prepend_known};
ghost use Rattle.sb_answers.specs.base.records.Records.{at_least};
ghost use Rattle.sb_answers.specs.outside.Folders.{Load};
ghost use Rattle.sb_answers.specs.checkpoint.Ahead.{AllReadOrNoneOfTheSource};
ghost use Rattle.sb_answers.specs.checkpoint.Checkpoints.{with_comments};
ghost use Rattle.sb_answers.specs.checkpoint.Saved.{items_in};
ghost use Rattle.sb_answers.specs.checkpoint.Texts.{items_text};
ghost use Rattle.sb_answers.specs.alone.RunEnds as ends;
ghost use Rattle.sb_answers.specs.words.Options.{AreInRange};
ghost use Rattle.sb_answers.specs.words.Words.Asked.{Resume};
ghost use Rattle.sb_answers.specs.Answers.{IsAnswer, IsRestAnswer, Wrote, WrotePrefix};
ghost use Rattle.sb_answers.specs.told.Outcomes.{IsNoTap, IsRead, IsUnread};
ghost use Rattle.sb_answers.specs.Faults.{BlamesFile, HasCause, HidesNoFault, faults_of};
ghost use Rattle.sb_answers.specs.RestSteps.{said_by};

use sb_answers::{
    Diaries, Dropped, Ending, Folder, LateRecords, Lent, Options, Plan, PlanStop, Sequence, Sink,
    Source, Status, finish_after, load_checkpoint, plan_to_cut, sizes_of, status_behind,
};
use sb_run::{Checkpoint, RowsFrom, RunEnd, Sizes, run_rest};
use std::sync::Wait;
use std::thread::Threads;
use std::time::Clock;

/// Answers with the rows of the rest of an input, behind the checkpoint in a file.
pub fn answer_resume<W: AllocGlobal + Threads + Wait + Clock + Sync, S: Source, K: Sink, F: Folder>(
    rt: &W,
    name: &str,
    checkpoint: &str,
    options: Options,
    source: &mut S,
    out: &mut K,
    folder: &mut F,
) -> Ending
    requires range { AreInRange options }
    requires untold { options.diary ≡ false }
    ensures answer { IsAnswer (F.files folder.old) (Resume name.now checkpoint.now options)
        (S.left source.old) (S.left source.new) (K.taken out.old) (K.taken out.new) result }
    ensures no_tap { IsNoTap result.status }
    ensures unread { IsUnread result.status → (source.new ≡ source.old) × (out.new ≡ out.old) }
    ensures same { F.files folder.new ≡ F.files folder.old }
    ensures cause { HasCause
        (faults_of (S.faults source.old) (K.sink_state out.old) (F.failed folder.old))
        (faults_of (S.faults source.new) (K.sink_state out.new) (F.failed folder.new)) result.status }
    ensures blames { result.status ≡ Status.Folder → BlamesFile (F.files folder.old)
        (Resume name.now checkpoint.now options) (F.failed folder.old) (F.failed folder.new) }
    ensures no_fault_hidden { HidesNoFault
        (faults_of (S.faults source.old) (K.sink_state out.old) (F.failed folder.old))
        (faults_of (S.faults source.new) (K.sink_state out.new) (F.failed folder.new)) result.status }
    ensures end { result.status ≡ Status.Done → S.has_ended source.new }
{
    let alloc = rt.alloc();
    match plan_to_cut(alloc, name, folder) {
        Ok(plan) => match load_checkpoint(alloc, &plan, checkpoint, folder) {
            Ok(checkpoint) => answer_rest(rt, plan, options, checkpoint, source, out),
            Err(status) => Ending::of(alloc, status),
        },
        Err(PlanStop::Fault(fault)) => Ending::of(alloc, Status::Plan(fault)),
        Err(PlanStop::Folder) => Ending::of(alloc, Status::Folder),
        Err(PlanStop::Memory) => Ending::of(alloc, Status::Memory),
    }
}

/// Answers with the rows of the rest of an input, behind a checkpoint.
fn answer_rest<W: AllocGlobal + Threads + Wait + Clock + Sync, S: Source, K: Sink>(
    rt: &W,
    plan: Plan,
    options: Options,
    checkpoint: Checkpoint,
    source: &mut S,
    out: &mut K,
) -> Ending
    requires range { AreInRange options }
    requires untold { options.diary ≡ false }
    requires room { length (items_in checkpoint) ≤ checkpoint.lines }
    ensures answer { IsRestAnswer plan options (said_by checkpoint) (S.left source.old) (S.left source.new)
        (K.taken out.old) (K.taken out.new) result }
    ensures read { IsRead result.status }
    ensures no_tap { IsNoTap result.status }
    ensures cause { (loads : List Load) → HasCause
        (faults_of (S.faults source.old) (K.sink_state out.old) loads)
        (faults_of (S.faults source.new) (K.sink_state out.new) loads) result.status }
    ensures no_fault_hidden { (loads : List Load) → HidesNoFault
        (faults_of (S.faults source.old) (K.sink_state out.old) loads)
        (faults_of (S.faults source.new) (K.sink_state out.new) loads) result.status }
    ensures end { result.status ≡ Status.Done → S.has_ended source.new }
{
    let mut dropped = Vec::new(rt.alloc());
    let end = rest_to(
        rt,
        plan,
        sizes_of(&options),
        checkpoint,
        source,
        out,
        &mut dropped,
    );
    let status = status_behind(&end, finish_after(out, &end));
    Ending {
        status,
        late: LateRecords::OfInput(Sequence::new(dropped)),
        diaries: Diaries::none(),
    }
}

/// Runs a plan over the rest of an input, and writes the rows from the low watermark of the checkpoint on to a sink.
fn rest_to<W: AllocGlobal + Threads + Wait + Clock + Sync, S: Source, K: Sink>(
    rt: &W,
    plan: Plan,
    sizes: Sizes,
    checkpoint: Checkpoint,
    source: &mut S,
    out: &mut K,
    dropped: &mut Vec<Dropped>,
) -> RunEnd
    requires sizes { ends.AreSizes sizes }
    requires room { length (items_in checkpoint) ≤ checkpoint.lines }
    ensures ends { (rest : List ℕ) × AllReadOrNoneOfTheSource rest (S.left source.old) (S.left source.new)
        × ends.Ends plan sizes
        (prepend_known (items_text (with_comments checkpoint.lines (items_in checkpoint))) (S.left source.old))
        (prepend_known rest (S.left source.new))
        (λ taken rows taken'. Wrote taken taken' (at_least checkpoint.low rows))
        (λ taken rows taken'. WrotePrefix taken taken' (at_least checkpoint.low rows))
        (K.taken out.old) (K.taken out.new) [] [] dropped.old.items dropped.new.items result }
    ensures input { ends.SharedInputCause (S.faults source.old) (S.faults source.new) result }
    ensures output { ends.OutputCause (K.sink_state out.old) (K.sink_state out.new) result }
    ensures end { ends.IsDone result → S.has_ended source.new }
{
    let low = checkpoint.low;
    let mut rows = RowsFrom::new(low, Lent { sink: &mut *out });
    let end = run_rest(rt, plan, sizes, checkpoint, source, &mut rows, dropped);
    // The sink that was lent is back.
    let Lent { sink: _sink } = rows.into_out();
    end
}
