//! Saving a first part of an input.

ghost use Rattle.std.specs.Prelude.{◌≡◌, IfOk, OnErr};
ghost use Rattle.sb_engines.specs.feeds.one_feed.Reads.{FaultCause};
ghost use Rattle.sb_checkpoint.specs.Reach.{HasNoSession};
ghost use Rattle.sb_run.specs.Saves.{Saves, SavesNone, cut_stop};

use crate::cut::first_part::FirstPart;
use crate::cut::gathering::{Gathered, gather};
use sb_checkpoint::Checkpoint;
use sb_engines::{Dropped, NoMemory, Plan, Source, Stop};
use std::alloc::Global;

/// The checkpoint of a first part of an input, and where reading it stopped.
#[derive(Drop)]
pub struct Saved {
    pub checkpoint: Checkpoint,
    pub stop: Stop,
}

/// The checkpoint of a first part of an input, which is all that the source has: of its lines up to its end, up to one
/// that is refused, or up to a fault of the source. A rest behind the last line feed is no line. The late records that
/// the plan drops go to the end of `dropped`. No transform of the plan gathers records by session.
///
/// Only records that can still be part of a row are held, and at most as many others.
///
/// # Errors
///
/// There is no memory for a record.
pub fn save<S: Source>(
    alloc: Global,
    plan: &Plan,
    input: &mut S,
    dropped: &mut Vec<Dropped>,
) -> Result<Saved, NoMemory>
    requires { HasNoSession plan.now }
    ensures saves { IfOk result (λ s. Saves plan.now (S.left input.old) (S.left input.new) s.checkpoint s.stop
        dropped.old.items dropped.new.items) }
    ensures none { OnErr result (SavesNone plan.now (S.left input.old) (S.left input.new)
        dropped.old.items dropped.new.items) }
    ensures cause { IfOk result (λ s. FaultCause (S.faults input.old) (S.faults input.new) s.stop) }
    ensures unfailed { OnErr result (S.faults input.new ≡ S.faults input.old) }
    ensures end { IfOk result (λ s. s.stop ≡ Stop.End → S.has_ended input.new) }
    ensures name { S.name input.new ≡ S.name input.old }
{
    let mut part = FirstPart::new(&mut *input);
    let gathered = gather(alloc, plan, &mut part, dropped);
    let is_whole = part.is_whole();
    let _source = part.into_source();
    match gathered {
        Ok(Gathered { keeper, stop }) => Ok(Saved {
            checkpoint: keeper.into_checkpoint(),
            stop: stop_by(is_whole, stop),
        }),
        Err(NoMemory) => Err(NoMemory),
    }
}

/// Where reading a first part stopped: its end is answered as a fault.
fn stop_by(is_whole: bool, stop: Stop) -> Stop
    ensures { result ≡ cut_stop is_whole stop }
{
    match stop {
        Stop::Fault if is_whole => Stop::End,
        other => other,
    }
}
