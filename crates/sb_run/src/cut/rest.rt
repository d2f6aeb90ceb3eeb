//! Running a plan over the rest of an input, behind a first part of which a checkpoint is there.

ghost use Rattle.std.specs.Prelude.{◌≡◌, ◌≤◌, ℕ, List, [], length};
ghost use Rattle.std.specs.Io.KnownBytes.{prepend_known};
ghost use Rattle.sb_checkpoint.specs.Ahead.{AllReadOrNoneOfTheSource};
ghost use Rattle.sb_checkpoint.specs.Checkpoints.{with_comments};
ghost use Rattle.sb_checkpoint.specs.LaterRows.{Hands};
ghost use Rattle.sb_checkpoint.specs.Saved.{items_in};
ghost use Rattle.sb_checkpoint.specs.Texts.{items_text};
ghost use Rattle.sb_engines.specs.alone.RunEnds.{AreSizes, Ends, IsDone, OutputCause, SharedInputCause};

use crate::running::run;
use sb_checkpoint::{Checkpoint, Resumed, RowsFrom};
use sb_engines::{Dropped, Plan, RowOut, RunEnd, Sizes, Source};
use std::sync::Wait;
use std::thread::Threads;
use std::time::Clock;

/// Runs a plan over the rest of an input, which is what the source has, behind the lines of the checkpoint of the first
/// part. Before these it has a comment for each line more that the first part had, which is counted and not read. So
/// lines have the numbers that they have in the whole input. The output should leave out the rows below the low
/// watermark of the checkpoint, which the run over the first part has written. The late records of the rest that the
/// plan drops go to the end of `dropped`.
///
/// Whether the call returns is not said: workers wait for one another.
pub fn run_rest<W: AllocGlobal + Threads + Wait + Clock + Sync, S: Source, R: RowOut>(
    rt: &W,
    plan: Plan,
    sizes: Sizes,
    checkpoint: Checkpoint,
    input: &mut S,
    out: &mut RowsFrom<R>,
    dropped: &mut Vec<Dropped>,
) -> RunEnd
    requires sizes { AreSizes sizes }
    requires room { length (items_in checkpoint) ≤ checkpoint.lines }
    ensures ends { (rest : List ℕ) × AllReadOrNoneOfTheSource rest (S.left input.old) (S.left input.new)
        × Ends plan sizes
        (prepend_known (items_text (with_comments checkpoint.lines (items_in checkpoint))) (S.left input.old))
        (prepend_known rest (S.left input.new)) (Hands R.after) (Hands R.part) out.old out.new [] []
        dropped.old.items dropped.new.items result }
    ensures input { SharedInputCause (S.faults input.old) (S.faults input.new) result }
    ensures end { IsDone result → S.has_ended input.new }
    ensures output { OutputCause (R.row_state out.old.out) (R.row_state out.new.out) result }
    ensures name { S.name input.new ≡ S.name input.old }
{
    let mut taps = Vec::new(rt.alloc());
    let mut resumed = Resumed::new(checkpoint, &mut *input);
    let end = run(rt, plan, sizes, &mut resumed, out, &mut taps, dropped);
    let _source = resumed.into_source();
    end
}
