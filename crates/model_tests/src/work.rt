//! Bundles at a node of each kind.

use crate::plans::{alone, expanded, join, joined};
use sb_base::{Agg, Bundle, Combine, END_MARK, Key, Kind, NoMemory, Plan, Record, Sequence};
use sb_hand::{Claim, Gate, OpenGate, Output, Part, Receipt, process};
use std::alloc::Global;
use std::test::Fail;

/// A bundle of two records.
fn claim(alloc: Global, node: u32, lane: u32) -> Result<Claim, Fail> {
    let record = |time, value| Record {
        time,
        key: Key::Number(1),
        value,
    };
    Ok(Claim {
        node,
        lane,
        bundle: Bundle {
            number: 4,
            epoch: 2,
            floor: 3,
            records: Sequence::new(vec![in alloc; record(3, 5), record(7, 2)]?),
        },
    })
}

/// What becomes of a bundle whose node and times are in range.
fn processed(alloc: Global, plan: &Plan, claim: Claim) -> Result<(Receipt, Output), NoMemory> {
    let is_in_time = claim
        .bundle
        .records
        .as_slice()
        .iter()
        .all(|r| r.time < END_MARK);
    if !is_in_time || claim.node > plan.transforms() {
        return Err(NoMemory);
    }
    OpenGate.pass(claim.node, claim.lane, claim.bundle.number);
    process(alloc, plan, claim)
}

/// The kind of what became of a bundle, and how many records it has: a part of an aggregate or of a join doesn't tell.
fn told(output: &Output) -> (&str, usize) {
    match output {
        Output::Records(given) => ("given", given.len()),
        Output::Part(Part::Agg(_)) => ("partial values", 0),
        Output::Part(Part::Join(_)) => ("values of a side", 0),
        Output::Part(Part::Rows(rows)) => ("rows", rows.len()),
    }
}

/// Whether a bundle at a lane of a node becomes this.
fn becomes(
    alloc: Global,
    plan: &Plan,
    node: u32,
    lane: u32,
    want: (&str, usize),
) -> Result<bool, Fail> {
    let (_, output) = processed(alloc, plan, claim(alloc, node, lane)?)?;
    Ok(told(&output) == want)
}

#[test]
fn bundles_of_a_chain(rt: HostRuntime) -> Result<(), Fail> {
    let alloc = rt.alloc();
    let plan = expanded(alloc, vec![in alloc; 0, 10]?, Agg::Count)?.ok_or("no plan")?;
    assert!(rt; becomes(alloc, &plan, 0, 0, ("given", 4))?);
    assert!(rt; becomes(alloc, &plan, 1, 0, ("partial values", 0))?);
    assert!(rt; becomes(alloc, &plan, 2, 0, ("rows", 2))?);
    Ok(())
}

#[test]
fn bundles_of_sessions(rt: HostRuntime) -> Result<(), Fail> {
    let alloc = rt.alloc();
    let plan = alone(alloc, Kind::Session(Agg::Sum, 5))?.ok_or("no plan")?;
    assert!(rt; becomes(alloc, &plan, 0, 0, ("rows", 2))?);
    Ok(())
}

#[test]
fn bundles_of_a_join(rt: HostRuntime) -> Result<(), Fail> {
    let alloc = rt.alloc();
    let plan = joined(alloc, join(Combine::Add, 10)?)?.ok_or("no plan")?;
    assert!(rt; becomes(alloc, &plan, 0, 0, ("values of a side", 0))?);
    assert!(rt; becomes(alloc, &plan, 0, 1, ("values of a side", 0))?);
    Ok(())
}

#[test]
fn a_receipt_tells_of_its_bundle(rt: HostRuntime) -> Result<(), Fail> {
    let alloc = rt.alloc();
    let plan = joined(alloc, join(Combine::Add, 10)?)?.ok_or("no plan")?;
    let (receipt, _) = processed(alloc, &plan, claim(alloc, 0, 1)?)?;
    assert!(rt; (receipt.node(), receipt.lane()) == (0, 1));
    assert!(rt; (receipt.number(), receipt.epoch(), receipt.floor()) == (4, 2, 3));
    Ok(())
}
