//! How records flow through a plan, where each transform takes whole lists.

ghost use Rattle.std.specs.Prelude.{◌≡◌, ◌≤◌, ◌<◌, ◌++◌, [], ◌∷◌, ℕ, All, IfOk};
ghost use Rattle.sb_base.specs.records.Streams as streams_spec;
ghost use Rattle.sb_base.specs.pipeline.Flow as flow;
ghost use Rattle.sb_base.specs.pipeline.Operators as operators;
ghost use Rattle.sb_base.specs.pipeline.Plans.{IsValidKind};
ghost use Rattle.sb_base.specs.pipeline.Results as results;
ghost use Rattle.sb_base.specs.Inputs.{by_stream};

use crate::gather::records_of;
use crate::operate::{first_lane, given_for};
use crate::rows::sort_below;
use crate::sent::{Sent, from_streams, send, take_sent};
use sb_base::{Down, END_MARK, Item, Kind, MAX_TIME, NoMemory, Plan, Record, Stream};
use std::alloc::Global;

/// The rows with a time below `below` that the plan gives for the records of the items, in order.
pub fn slow_rows(
    alloc: Global,
    plan: &Plan,
    items: &[Item],
    below: u64,
) -> Result<Vec<Record>, NoMemory>
    requires times { All (λ r. r.time ≤ MAX_TIME) (streams_spec.records_of Stream.A items.now)
        × All (λ r. r.time ≤ MAX_TIME) (streams_spec.records_of Stream.B items.now) }
    ensures rows { IfOk result
        (λ rows. rows.items ≡ results.rows_below below plan.now (λ s. streams_spec.records_of s items.now)) }
    ensures times { IfOk result (λ rows. All (λ r. r.time < END_MARK) rows.items) }
{
    let a = records_of(alloc, Stream::A, items)?;
    let b = records_of(alloc, Stream::B, items)?;
    rows_of_streams(alloc, plan, a, b, below)
}

/// The rows with a time below `below` that the plan gives for the records of streams a and b, in order. Both lists are
/// given up on the way.
pub fn rows_of_streams(
    alloc: Global,
    plan: &Plan,
    a: Vec<Record>,
    b: Vec<Record>,
    below: u64,
) -> Result<Vec<Record>, NoMemory>
    requires times { All (λ r. r.time ≤ MAX_TIME) a.items × All (λ r. r.time ≤ MAX_TIME) b.items }
    ensures rows { IfOk result (λ rows. rows.items ≡ results.rows_below below plan.now (by_stream a.items b.items)) }
    ensures times { IfOk result (λ rows. All (λ r. r.time < END_MARK) rows.items) }
{
    let mut rows = output_of(alloc, plan, a, b)?;
    sort_below(&mut rows, below)?;
    Ok(rows)
}

/// What arrives at the sink once each transform has given what it gives.
fn output_of(
    alloc: Global,
    plan: &Plan,
    a: Vec<Record>,
    b: Vec<Record>,
) -> Result<Vec<Record>, NoMemory>
    requires times { All (λ r. r.time ≤ MAX_TIME) a.items × All (λ r. r.time ≤ MAX_TIME) b.items }
    ensures rows { IfOk result (λ rows. rows.items ≡ results.output_of plan.now (by_stream a.items b.items)) }
    ensures times { IfOk result (λ rows. All (λ r. r.time < END_MARK) rows.items) }
{
    let mut sent = from_streams(alloc, plan, a, b)?;
    for node in 0..plan.transforms() {
        sent = pass_on(alloc, node, plan.kind(node), plan.down(node), sent)?;
    }
    let (rows, _) = take_sent(alloc, plan.transforms(), None, sent)?;
    Ok(rows)
}

/// What is sent once a transform has given what it gives, without what it took: what arrives at the nodes behind it.
fn pass_on(
    alloc: Global,
    node: u32,
    kind: &Kind,
    down: Down,
    sent: Vec<Sent>,
) -> Result<Vec<Sent>, NoMemory>
    requires valid { IsValidKind kind.now }
    requires times { All (λ e. e.rec.time < END_MARK) (flow.arrivals_at node sent.items) }
    ensures { IfOk result (λ next. (behind : ℕ) → node < behind → flow.arrivals_at behind next.items
        ≡ flow.arrivals_at behind (sent.items ++ record {
          down = down;
          records = operators.output (operators.operator_of kind.now) (flow.arrivals_at node sent.items);
        } ∷ [])) }
{
    let (first, sent) = take_sent(alloc, node, first_lane(kind), sent)?;
    let (second, mut sent) = take_sent(alloc, node, Some(1), sent)?;
    let records = given_for(alloc, kind, first, second)?;
    send(down, records, &mut sent)?;
    Ok(sent)
}
