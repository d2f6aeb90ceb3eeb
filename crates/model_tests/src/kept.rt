//! What nodes of each kind keep and give.

ghost use Rattle.std.specs.Prelude.{◌≡◌, ◌≤◌, length, slice_get, OnOk, IfOk};
ghost use Rattle.sb_hand.specs.base.pipeline.Operators.{operator_at};
ghost use Rattle.sb_hand.specs.node.Keeping.{IsMadeFor, closed_mark};

use crate::plans::{alone, expanded, join, joined};
use sb_base::{Agg, Bundle, Combine, END_MARK, Key, Kind, NoMemory, Plan, Record, Sequence};
use sb_hand::{Claim, Kept, Output, process};
use std::alloc::Global;
use std::test::Fail;

/// A time and a value, of key 1.
type Line = (u64, i64);

fn records(alloc: Global, lines: &[Line]) -> Result<Vec<Record>, NoMemory> {
    let mut records = Vec::new(alloc);
    for (time, value) in lines {
        records.push(Record {
            time: *time,
            key: Key::Number(1),
            value: *value,
        })?;
    }
    Ok(records)
}

fn claim(alloc: Global, node: u32, lane: u32, lines: &[Line]) -> Result<Claim, NoMemory>
    ensures { IfOk result (λ claim. claim.node ≡ node) }
{
    Ok(Claim {
        node,
        lane,
        bundle: Bundle {
            number: 1,
            epoch: 0,
            floor: 0,
            records: Sequence::new(records(alloc, lines)?),
        },
    })
}

/// Takes in what becomes of a bundle, if there is such a lane and its times are in range.
fn take(alloc: Global, plan: &Plan, kept: &mut Kept, claim: Claim) -> Result<(), NoMemory>
    requires node { claim.node ≤ length plan.now.steps }
    requires made { IsMadeFor (operator_at (slice_get plan.now.steps claim.node)) kept.old }
    requires closed { closed_mark kept.old ≡ 0 }
    ensures made { OnOk result (IsMadeFor (operator_at (slice_get plan.now.steps claim.node)) kept.new) }
    ensures closed { OnOk result (closed_mark kept.new ≡ 0) }
{
    let is_in_time = claim
        .bundle
        .records
        .as_slice()
        .iter()
        .all(|r| r.time < END_MARK);
    if !is_in_time || claim.lane >= plan.lanes(claim.node) {
        return Err(NoMemory);
    }
    let (_, output) = process(alloc, plan, claim)?;
    match output {
        Output::Records(_) => Ok(()),
        Output::Part(part) => kept.absorb(part),
    }
}

/// What a node keeps of two bundles, the second one on its last lane.
fn kept_of_two_bundles(alloc: Global, plan: &Plan, node: u32) -> Result<Kept, NoMemory>
    requires { node ≤ length plan.now.steps }
    ensures { IfOk result (λ kept. closed_mark kept ≡ 0) }
{
    let mut kept = Kept::new(alloc, plan, node);
    let first = claim(alloc, node, 0, &[(3, 5), (7, 2), (12, 4)])?;
    take(alloc, plan, &mut kept, first)?;
    let last = plan.lanes(node).saturating_sub(1);
    let second = claim(alloc, node, last, &[(8, 1)])?;
    take(alloc, plan, &mut kept, second)?;
    Ok(kept)
}

/// The rows of a closing at 10, and those of one at the end.
fn rows_of_two_closings(mut kept: Kept) -> Result<(Vec<Record>, Vec<Record>), NoMemory>
    requires { closed_mark kept ≡ 0 }
{
    let early = kept.close(10)?;
    let rest = kept.close(END_MARK)?;
    Ok((early, rest))
}

/// Whether a node gives these rows at a closing at 10, and those at one at the end.
fn gives(
    alloc: Global,
    plan: &Plan,
    node: u32,
    early: &[Line],
    rest: &[Line],
) -> Result<bool, NoMemory> {
    if node > plan.transforms() {
        return Ok(false);
    }
    let rows = rows_of_two_closings(kept_of_two_bundles(alloc, plan, node)?)?;
    Ok(rows == (records(alloc, early)?, records(alloc, rest)?))
}

/// Nodes of sums of what is expanded, and the rows of two closings.
const OF_SUMS: [(&str, u32, &[Line], &[Line]); 3] = [
    // What it gives of a bundle goes to the lane below, and none of it is kept.
    ("a transform of single records", 0, &[], &[]),
    ("an aggregate", 1, &[(9, 8)], &[(19, 4)]),
    ("the sink", 2, &[(3, 5), (7, 2), (8, 1)], &[(12, 4)]),
];

#[test]
fn nodes_of_a_chain(rt: HostRuntime) -> Result<(), Fail> {
    let alloc = rt.alloc();
    let plan = expanded(alloc, vec![in alloc; 0, 10]?, Agg::Sum)?.ok_or("no plan")?;
    for (name, node, early, rest) in &OF_SUMS {
        assert!(rt; gives(alloc, &plan, *node, early, rest)?, "{name}");
    }
    Ok(())
}

#[test]
fn a_node_of_sessions(rt: HostRuntime) -> Result<(), Fail> {
    let alloc = rt.alloc();
    let plan = alone(alloc, Kind::Session(Agg::Sum, 5))?.ok_or("no plan")?;
    // No two times in turn are 5 or more apart.
    assert!(rt; gives(alloc, &plan, 0, &[], &[(16, 12)])?);
    Ok(())
}

#[test]
fn a_node_of_a_join(rt: HostRuntime) -> Result<(), Fail> {
    let alloc = rt.alloc();
    let plan = joined(alloc, join(Combine::Add, 10)?)?.ok_or("no plan")?;
    // The record of the second bundle comes on the right.
    assert!(rt; gives(alloc, &plan, 0, &[(9, 3), (9, 6)], &[])?);
    Ok(())
}
