//! Events once more: what a list of events keeps is not what is done.

ghost use Rattle.std.specs.Prelude.{◌≡◌, true, IfOk, OnErr};
ghost use Rattle.sb_core.specs.declared.moment.Moment.{Moment as AMoment};
ghost use Rattle.sb_machine.specs.Steps.{asks_for_memory};

use sb_core::Event;
use sb_slow::{NoMemory, Sequence};
use std::alloc::Global;

/// An event once more, with records of its own. Only an [`Event::Arrive`] has records, and takes memory.
pub(crate) fn copy_of(alloc: Global, event: &Event) -> Result<Event, NoMemory>
    ensures value { IfOk result (λ copied. copied ≡ event.now) }
    ensures memory { OnErr result ((moment : AMoment) → asks_for_memory moment event.now ≡ true) }
{
    Ok(match event {
        Event::Arrive { stream, records } => {
            let mut copied = Vec::new(alloc);
            copied.extend_from_slice(records.as_slice())?;
            Event::Arrive {
                stream: *stream,
                records: Sequence::new(copied),
            }
        }
        Event::Seal { stream, mark } => Event::Seal {
            stream: *stream,
            mark: *mark,
        },
        Event::Take { node, lane, number } => Event::Take {
            node: *node,
            lane: *lane,
            number: *number,
        },
        Event::Deliver { node, lane, number } => Event::Deliver {
            node: *node,
            lane: *lane,
            number: *number,
        },
        Event::Finish { node, lane, number } => Event::Finish {
            node: *node,
            lane: *lane,
            number: *number,
        },
        Event::Begin { node, lane } => Event::Begin {
            node: *node,
            lane: *lane,
        },
        Event::Pass { node } => Event::Pass { node: *node },
        Event::End { node } => Event::End { node: *node },
    })
}
