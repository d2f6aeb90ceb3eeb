//! What becomes of a bundle.

ghost use Rattle.std.specs.Prelude.{◌≡◌, ◌<◌, ◌≤◌, All, length, slice_get, IfOk};
ghost use Rattle.sb_base.specs.pipeline.Operators.{operator_at};
ghost use Rattle.sb_work.specs.Processing as spec;
ghost use Rattle.sb_work.specs.Processing.{IsOutput};

use crate::claim::Claim;
use crate::receipt::Receipt;
use sb_aggregate::{AggPart, part_of};
use sb_base::{END_MARK, Kind, NoMemory, Plan, Record, Side, apply};
use sb_join::{JoinPart, join_part_of};
use std::alloc::Global;

/// What a node that gathers records takes in of a bundle.
#[derive(Drop)]
pub enum Part {
    /// Partial values, for an aggregate.
    Agg(AggPart),
    /// The values of one side, for a join.
    Join(JoinPart),
    /// The records, for sessions and for the sink.
    Rows(Vec<Record>),
}

/// What becomes of a bundle.
#[derive(Drop)]
pub enum Output {
    /// What a transform of single records gives, which goes to the lane below.
    Records(Vec<Record>),
    /// What a node that gathers records takes in.
    Part(Part),
}

/// Works out what becomes of a bundle at its node, by the plan. Of the claim a receipt is left: its records are moved
/// to where they are wanted whole, at the sink and for sessions, and are dropped elsewhere.
///
/// # Errors
///
/// [`NoMemory`]; then the records are dropped.
pub fn process(alloc: Global, plan: &Plan, claim: Claim) -> Result<(Receipt, Output), NoMemory>
    requires node { claim.node ≤ length plan.now.steps }
    requires times { All (λ r. r.time < END_MARK) claim.bundle.records }
    ensures kept { IfOk result (λ given. given.0 ≡ claim) }
    ensures output { IfOk result (λ given. IsOutput (operator_at (slice_get plan.now.steps claim.node))
        claim.lane claim.bundle.records given.1) }
{
    let receipt = Receipt::of(&claim);
    let output = output_of(alloc, plan, claim)?;
    Ok((receipt, output))
}

// What becomes of a bundle at its node.
fn output_of(alloc: Global, plan: &Plan, claim: Claim) -> Result<Output, NoMemory>
    requires node { claim.node ≤ length plan.now.steps }
    requires times { All (λ r. r.time < END_MARK) claim.bundle.records }
    ensures { IfOk result (λ output. IsOutput (operator_at (slice_get plan.now.steps claim.node))
        claim.lane claim.bundle.records output) }
{
    let Claim { node, lane, bundle } = claim;
    let records = bundle.records;
    if node == plan.transforms() {
        return Ok(Output::Part(Part::Rows(records.into_vec())));
    }
    match plan.kind(node) {
        Kind::Do(op) => {
            let mut given = Vec::new(alloc);
            apply(op, records.as_slice(), &mut given)?;
            Ok(Output::Records(given))
        }
        Kind::Group(agg, windows) => {
            let part = part_of(alloc, *agg, windows, records.as_slice())?;
            Ok(Output::Part(Part::Agg(part)))
        }
        Kind::Session(_, _) => Ok(Output::Part(Part::Rows(records.into_vec()))),
        Kind::Join(_, windows) => {
            let part = join_part_of(alloc, windows, side_of(lane), records.as_slice())?;
            Ok(Output::Part(Part::Join(part)))
        }
    }
}

// The side of a join that its lane is.
fn side_of(lane: u32) -> Side
    ensures { result ≡ spec.side_of lane }
{
    if lane == 0 { Side::Left } else { Side::Right }
}
