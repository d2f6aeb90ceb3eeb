//! A run with one worker.

ghost use Rattle.std.specs.Prelude.{◌≡◌, ◌<◌, ◌^◌, map, length};
ghost use Rattle.sb_alone.specs.RunEnds.{AreSizes, Ends, InputCause, IsDone, OutputCause};

use crate::ending::end_of;
use crate::one_hand::OneHand;
use crate::run_end::RunEnd;
use crate::sizes::Sizes;
use sb_feeds::{Dropped, NoMemory, Plan, RowOut, Source, Tap, feed};
use sb_hand::Hand;
use std::alloc::Global;

/// Runs a plan over an input with one worker: it waits for nobody but its input, its output and its taps, and starts no
/// thread.
///
/// After each bundle and each watermark that comes it works off all that can be worked off, and writes and offers the
/// rows that no later line can change: each row that can be written is written before the next read. The late records
/// that the plan drops go to the end of `dropped`. After a failed write or offer nothing more is written or offered.
pub fn execute_alone<S: Source, R: RowOut>(
    alloc: Global,
    plan: Plan,
    sizes: Sizes,
    input: &mut S,
    out: &mut R,
    taps: &mut Vec<Box<dyn Tap>>,
    dropped: &mut Vec<Dropped>,
) -> RunEnd
    requires sizes { AreSizes sizes }
    requires few { length taps.old.items < 2 ^ 32 }
    ensures ends { Ends plan sizes (S.left input.old) (S.left input.new) R.after R.part out.old out.new
        (map (λ t. tap_state t) taps.old.items) (map (λ t. tap_state t) taps.new.items)
        dropped.old.items dropped.new.items result }
    ensures input { InputCause (S.faults input.old) (S.faults input.new) result }
    ensures end { IsDone result → S.has_ended input.new }
    ensures name { S.name input.new ≡ S.name input.old }
    ensures output { OutputCause (R.row_state out.old) (R.row_state out.new) result }
{
    // For the proof: a plan keeps its rules.
    let _ = plan.transforms();
    let made = Hand::new(
        alloc,
        plan,
        sizes.bundle,
        sizes.pending,
        sizes.keeps_diaries,
    );
    let hand = match made {
        Ok(hand) => hand,
        Err(NoMemory) => return RunEnd::Memory,
    };
    let mut engine = OneHand { hand };
    let fed = feed(alloc, &mut engine, sizes.bundle, input, out, taps, dropped);
    end_of(engine.hand, fed)
}
