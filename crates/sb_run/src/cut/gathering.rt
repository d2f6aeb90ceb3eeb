//! Reading an input, of which only what a checkpoint needs is kept.

ghost use Rattle.std.specs.Prelude.{◌≡◌, IfOk, OnErr};
ghost use Rattle.sb_engines.specs.feeds.one_feed.Reads.{FaultCause};
ghost use Rattle.sb_checkpoint.specs.Reach.{HasNoSession};
ghost use Rattle.sb_run.specs.Saves.{Gathers, GathersNone};

use sb_checkpoint::Keeper;
use sb_engines::{
    Dropped, Intake, LineBuffer, NoMemory, Plan, Source, Stop, keep_dropped, next_item,
};
use std::alloc::Global;

/// What was kept of an input, and where reading stopped.
#[derive(Drop)]
pub(crate) struct Gathered {
    pub(crate) keeper: Keeper,
    pub(crate) stop: Stop,
}

/// Reads an input to its end, to a line that is refused, or to a fault. The late records that the plan drops go to the
/// end of `dropped`.
///
/// # Errors
///
/// There is no memory for a record.
pub(crate) fn gather<S: Source>(
    alloc: Global,
    plan: &Plan,
    source: &mut S,
    dropped: &mut Vec<Dropped>,
) -> Result<Gathered, NoMemory>
    requires { HasNoSession plan.now }
    ensures gathers { IfOk result (λ g. Gathers plan.now (S.left source.old) (S.left source.new) g.keeper g.stop
        dropped.old.items dropped.new.items) }
    ensures none { OnErr result (GathersNone plan.now (S.left source.old) (S.left source.new)
        dropped.old.items dropped.new.items) }
    ensures cause { IfOk result (λ g. FaultCause (S.faults source.old) (S.faults source.new) g.stop) }
    ensures unfailed { OnErr result (S.faults source.new ≡ S.faults source.old) }
    ensures end { IfOk result (λ g. g.stop ≡ Stop.End → S.has_ended source.new) }
    ensures name { S.name source.new ≡ S.name source.old }
{
    let mut keeper = Keeper::new(alloc, plan);
    let mut intake = Intake::new(plan.streams(), 0, plan.late(), plan.keys());
    let mut lines = LineBuffer::new();
    'items: loop {
        match next_item(source, &mut lines, &mut intake) {
            Ok(item) => {
                keep_dropped(dropped, &item)?;
                keeper.keep(&item)?;
            }
            Err(stop) => return Ok(Gathered { keeper, stop }),
        }
    }
}
