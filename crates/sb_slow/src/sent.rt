//! Lists of records on their way through a plan. Each is moved from transform to transform, and none is kept once its
//! node has taken it, so that a run holds no record twice.

ghost use Rattle.std.specs.Prelude.{◌≡◌, ◌++◌, [], ◌∷◌, OnOk, IfOk};
ghost use Rattle.sb_base.specs.pipeline.Flow as flow;
ghost use Rattle.sb_base.specs.pipeline.Shapes.{source};
ghost use Rattle.sb_base.specs.Inputs.{by_stream};
ghost use Rattle.sb_slow.specs.Sendings as spec;

use sb_base::{Down, NoMemory, Plan, Record, Sequence, Stream};
use std::alloc::Global;
use std::marker::Model;

/// A list on its way to a lane of a node.
#[derive(Drop)]
pub(crate) struct Sent {
    down: Down,
    records: Sequence<Record>,
}

impl Model for Sent {
    ghost use Rattle.sb_base.specs.pipeline.Flow as flow;

    ghost Value = { flow.Sent };

    ghost view = { λ s. record { down = s.down; records = s.records } };
}

/// What both streams send.
pub(crate) fn from_streams(
    alloc: Global,
    plan: &Plan,
    a: Vec<Record>,
    b: Vec<Record>,
) -> Result<Vec<Sent>, NoMemory>
    ensures { IfOk result (λ sent. sent.items ≡ flow.from_streams plan.now (by_stream a.items b.items)) }
{
    let mut sent = Vec::new(alloc);
    send_stream(plan, Stream::A, a, &mut sent)?;
    send_stream(plan, Stream::B, b, &mut sent)?;
    Ok(sent)
}

/// Sends the records of a stream where they go, if the plan uses them.
fn send_stream(
    plan: &Plan,
    stream: Stream,
    records: Vec<Record>,
    sent: &mut Vec<Sent>,
) -> Result<(), NoMemory>
    ensures { OnOk result
        (sent.new.items ≡ sent.old.items ++ flow.from_stream (source plan.now stream) records.items) }
{
    match plan.source(stream) {
        Some(down) => send(down, records, sent),
        None => Ok(()),
    }
}

/// Sends records to a lane of a node.
pub(crate) fn send(down: Down, records: Vec<Record>, sent: &mut Vec<Sent>) -> Result<(), NoMemory>
    ensures { OnOk result (sent.new.items ≡ sent.old.items ++ record { down = down; records = records.items } ∷ []) }
{
    let records = Sequence::new(records);
    sent.push(Sent { down, records })?;
    Ok(())
}

/// The records that were sent to a lane of a node, or where no lane is named to any lane of it; and the lists that were
/// sent elsewhere.
pub(crate) fn take_sent(
    alloc: Global,
    node: u32,
    lane: Option<u32>,
    sent: Vec<Sent>,
) -> Result<(Vec<Record>, Vec<Sent>), NoMemory>
    ensures records { IfOk result (λ taken. taken.0.items ≡ spec.records_to node lane sent.items) }
    ensures others { IfOk result (λ taken. taken.1.items ≡ spec.sent_elsewhere node lane sent.items) }
{
    let mut records = Vec::new(alloc);
    let mut others = Vec::new(alloc);
    for list in sent {
        if is_to(node, lane, list.down) {
            records = followed_by(records, list.records.into_vec())?;
        } else {
            others.push(list)?;
        }
    }
    Ok((records, others))
}

/// Whether the place is this lane of the node, or where no lane is named any lane of it.
fn is_to(node: u32, lane: Option<u32>, place: Down) -> bool
    ensures { result ≡ spec.is_to node lane place }
{
    match lane {
        None => place.node == node,
        Some(lane) => place.node == node && place.lane == lane,
    }
}

/// The records, and behind them the others. Where there are no first ones nothing is moved.
fn followed_by(mut records: Vec<Record>, mut others: Vec<Record>) -> Result<Vec<Record>, NoMemory>
    ensures { IfOk result (λ all. all.items ≡ records.items ++ others.items) }
{
    if records.is_empty() {
        return Ok(others);
    }
    records.append(&mut others)?;
    Ok(records)
}
