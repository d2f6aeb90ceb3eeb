//! A run by several workers.

ghost use Rattle.std.specs.Prelude.{◌≡◌, ◌<◌, ◌^◌, map, length};
ghost use Rattle.sb_engines.specs.alone.RunEnds.{AreSizes, Ends, IsDone, OutputCause, SharedInputCause};

use crate::ahead::Ahead;
use crate::printing::work_and_print;
use sb_engines::{
    Begun, Common, Dropped, Gate, NoMemory, Plan, RowOut, RunEnd, Sizes, Source, Tap, Team, begin,
    come_back, early_end, end_of,
};
use std::sync::Wait;
use std::thread::Threads;
use std::time::Clock;

/// Runs a plan over an input with `sizes.workers` workers, one of which feeds, while the others help, each in a thread of
/// its own if one can be made. The input is read in another thread, and what comes out is written and offered by the
/// caller's. If no thread can be made for the feeder, the caller's thread feeds as well, and if none can be made for the
/// reader, the feeder reads too.
///
/// What is written, offered and dropped is what one worker writes, offers and drops. Rows come out as watermarks come,
/// as a lane is full, or as nothing comes for a while, and at the end. The input may be read further than it was fed,
/// and where a run ends early, it waits for a read that has begun. The gate is passed with each bundle in hand, outside
/// of every turn. Whether the call returns is not said: workers wait for one another.
pub fn execute<
    W: AllocGlobal + Threads + Wait + Clock + Sync,
    S: Source,
    R: RowOut,
    G: Gate + Sync,
>(
    team: Team<'_, W, G>,
    plan: Plan,
    sizes: Sizes,
    input: &mut S,
    out: &mut R,
    taps: &mut Vec<Box<dyn Tap>>,
    dropped: &mut Vec<Dropped>,
) -> RunEnd
    requires sizes { AreSizes sizes }
    requires few { length taps.old.items < 2 ^ 32 }
    ensures ends { Ends plan sizes (S.left input.old) (S.left input.new) R.after R.part out.old out.new
        (map (λ t. tap_state t) taps.old.items) (map (λ t. tap_state t) taps.new.items)
        dropped.old.items dropped.new.items result }
    ensures input { SharedInputCause (S.faults input.old) (S.faults input.new) result }
    ensures end { IsDone result → S.has_ended input.new }
    ensures name { S.name input.new ≡ S.name input.old }
    ensures output { OutputCause (R.row_state out.old) (R.row_state out.new) result }
{
    let Team { rt, gate } = team;
    let alloc = rt.alloc();
    let begun = match begin(alloc, plan, sizes) {
        Ok(begun) => begun,
        Err(NoMemory) => return RunEnd::Memory,
    };
    let Begun {
        cascade,
        mut passes,
    } = begun;
    let ahead = Ahead::new(gate, cascade.plan(), passes.helpers.len());
    let common = Common {
        rt,
        alloc,
        cascade: &cascade,
        gate: &ahead,
        size: sizes.bundle,
    };
    let (clear, fed) = work_and_print(&common, &mut passes, input, out, taps, dropped);
    if !clear {
        return RunEnd::Memory;
    }
    let stop = match fed {
        Ok(stop) => stop,
        Err(why) => return early_end(why),
    };
    match come_back(rt, alloc, cascade, passes, gate, out, taps) {
        Ok(hand) => end_of(hand, Ok(stop)),
        Err(why) => early_end(why),
    }
}
