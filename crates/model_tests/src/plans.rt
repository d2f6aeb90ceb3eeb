//! Plans of a few transforms, which the tests share.

use sb_base::{Agg, BadWindow, Combine, Down, Kind, Op, Plan, Sequence, Step, Windows};
use std::alloc::{AllocError, Global};
use std::test::Fail;

pub(crate) const fn place(node: u32, lane: u32) -> Down {
    Down { node, lane }
}

pub(crate) fn group(agg: Agg, size: u64, every: u64) -> Result<Kind, BadWindow> {
    Ok(Kind::Group(agg, Windows::new(size, every)?))
}

pub(crate) fn join(combine: Combine, size: u64) -> Result<Kind, BadWindow> {
    Ok(Kind::Join(combine, Windows::new(size, size)?))
}

/// The plan where each transform sends to the next, and stream a goes to the first.
pub(crate) fn chain(
    alloc: Global,
    kinds: Vec<Kind>,
    source_b: Option<Down>,
) -> Result<Option<Plan>, AllocError> {
    let mut steps = Vec::new(alloc);
    let mut node = 0_u32;
    for kind in kinds {
        node = node.saturating_add(1);
        let down = place(node, 0);
        steps.push(Step { kind, down })?;
    }
    Ok(Plan::new(steps, Some(place(0, 0)), source_b))
}

/// The plan of one transform that gathers records of stream a.
pub(crate) fn alone(alloc: Global, kind: Kind) -> Result<Option<Plan>, AllocError> {
    chain(alloc, vec![in alloc; kind]?, None)
}

/// The plan of a join of stream a with stream b.
pub(crate) fn joined(alloc: Global, kind: Kind) -> Result<Option<Plan>, AllocError> {
    chain(alloc, vec![in alloc; kind]?, Some(place(0, 1)))
}

/// The plan that aggregates by windows of 10 what is expanded by these addends.
pub(crate) fn expanded(alloc: Global, addends: Vec<i64>, agg: Agg) -> Result<Option<Plan>, Fail> {
    let expand = Kind::Do(Op::Expand(Sequence::new(addends)));
    let kinds = vec![in alloc; expand, group(agg, 10, 10)?]?;
    Ok(chain(alloc, kinds, None)?)
}
