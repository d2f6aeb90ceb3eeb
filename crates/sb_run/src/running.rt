//! A run by as many workers as its sizes say.

ghost use Rattle.std.specs.Prelude.{◌≡◌, ◌<◌, ◌^◌, map, length};
ghost use Rattle.sb_engines.specs.alone.RunEnds.{AreSizes, Ends, InputCause, IsDone, OutputCause, SharedInputCause};

use crate::together::execute;
use sb_engines::{
    Dropped, OpenGate, Plan, RowOut, RunEnd, Sizes, Source, Tap, Team, execute_alone,
};
use std::sync::Wait;
use std::thread::Threads;
use std::time::Clock;

/// Runs a plan over an input: by [`execute_alone`] if `sizes.workers` is 1, else by [`execute`] with a gate that is
/// always open.
pub fn run<W: AllocGlobal + Threads + Wait + Clock + Sync, S: Source, R: RowOut>(
    rt: &W,
    plan: Plan,
    sizes: Sizes,
    input: &mut S,
    out: &mut R,
    taps: &mut Vec<Box<dyn Tap>>,
    dropped: &mut Vec<Dropped>,
) -> RunEnd
    requires sizes { AreSizes sizes }
    requires few { length taps.old.items < 2 ^ 32 }
    ensures ends { Ends plan sizes (S.left input.old) (S.left input.new) R.after R.part out.old out.new
        (map (λ t. tap_state t) taps.old.items) (map (λ t. tap_state t) taps.new.items)
        dropped.old.items dropped.new.items result }
    ensures input { SharedInputCause (S.faults input.old) (S.faults input.new) result }
    ensures alone { sizes.workers ≡ 1 → InputCause (S.faults input.old) (S.faults input.new) result }
    ensures end { IsDone result → S.has_ended input.new }
    ensures name { S.name input.new ≡ S.name input.old }
    ensures output { OutputCause (R.row_state out.old) (R.row_state out.new) result }
{
    if sizes.workers == 1 {
        execute_alone(rt.alloc(), plan, sizes, input, out, taps, dropped)
    } else {
        let team = Team {
            rt,
            gate: &OpenGate,
        };
        execute(team, plan, sizes, input, out, taps, dropped)
    }
}
