//! Running a plan over a first part of an input.

ghost use Rattle.std.specs.Prelude.{◌≡◌};
ghost use Rattle.sb_engines.specs.alone.RunEnds.{AreSizes};
ghost use Rattle.sb_run.specs.CutEnds.{CutCause, CutOutputCause, PartEnds};

use crate::cut::cut_end::CutEnd;
use crate::cut::first_part::FirstPart;
use crate::running::run;
use sb_engines::{Dropped, Plan, RowOut, Sizes, Source};
use std::sync::Wait;
use std::thread::Threads;
use std::time::Clock;

/// Runs a plan over a first part of an input, which is all that the source has, and writes the rows below the low
/// watermark of the part. A rest behind the last line feed is no line. The late records that the plan drops go to the
/// end of `dropped`. After a failed write nothing more is written.
///
/// Whether the call returns is not said: workers wait for one another.
pub fn run_part<W: AllocGlobal + Threads + Wait + Clock + Sync, S: Source, R: RowOut>(
    rt: &W,
    plan: Plan,
    sizes: Sizes,
    input: &mut S,
    out: &mut R,
    dropped: &mut Vec<Dropped>,
) -> CutEnd
    requires sizes { AreSizes sizes }
    ensures ends { PartEnds plan (S.left input.old) (S.left input.new) R.after R.part out.old out.new
        dropped.old.items dropped.new.items result }
    ensures input { CutCause (S.faults input.old) (S.faults input.new) result }
    ensures end { result ≡ CutEnd.Done → S.has_ended input.new }
    ensures output { CutOutputCause (R.row_state out.old) (R.row_state out.new) result }
    ensures name { S.name input.new ≡ S.name input.old }
{
    let mut taps = Vec::new(rt.alloc());
    let mut part = FirstPart::new(&mut *input);
    let end = run(rt, plan, sizes, &mut part, out, &mut taps, dropped);
    let is_whole = part.is_whole();
    let _source = part.into_source();
    CutEnd::of(end, is_whole)
}
