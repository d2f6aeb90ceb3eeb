//! Reading an input: what is kept of the items of its lines, up to where reading stops.

ghost use Rattle.std.specs.Prelude.{◌≡◌, IfOk};
ghost use Rattle.sb_feed.specs.base.pipeline.Plans.{IsPlan};
ghost use Rattle.sb_feed.specs.Reads.{FaultCause};
ghost use Rattle.sb_told.specs.Reads.{ReadsAll};

use crate::kept::Kept;
use sb_feed::{Intake, LineBuffer, NoMemory, Plan, Source, Stop, next_item};
use std::alloc::Global;

/// What was read of an input.
#[derive(Drop)]
pub struct Input {
    /// What is kept of the accepted items.
    pub kept: Kept,
    /// Their low watermark.
    pub low: u64,
    /// Where reading stopped.
    pub stop: Stop,
}

/// What is kept of the items of an input, up to where reading stops, by the plan's rules for lines.
pub fn read_input<S: Source>(alloc: Global, plan: &Plan, source: &mut S) -> Result<Input, NoMemory>
    ensures reads { ReadsAll plan.now (S.left source.old) (S.left source.new) result }
    ensures cause { IfOk result (λ input. FaultCause (S.faults source.old) (S.faults source.new) input.stop) }
    ensures end { IfOk result (λ input. input.stop ≡ Stop.End → S.has_ended source.new) }
    ensures plan { IsPlan plan.now }
{
    let mut lines = LineBuffer::new();
    let mut intake = Intake::new(plan.streams(), 0, plan.late(), plan.keys());
    let mut kept = Kept::nothing(alloc);
    'items: loop {
        match next_item(source, &mut lines, &mut intake) {
            Ok(item) => kept.keep(item)?,
            Err(stop) => {
                let low = intake.low();
                return Ok(Input { kept, low, stop });
            }
        }
    }
}
