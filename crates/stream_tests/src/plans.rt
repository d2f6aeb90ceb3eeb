//! Which shapes are plans, and what a plan says of itself.

use sb_base::{
    Agg, Change, Combine, Down, Field, Keys, Kind, LatePolicy, Op, Plan, Step, Stream, Streams,
    Test, Windows, sum_plan,
};
use std::alloc::{AllocError, Global};

/// A transform, and the node and the lane that take its output.
#[derive(Clone, Copy)]
enum Shape {
    /// It keeps records with small values.
    Filter(u32, u32),
    /// It divides keys by the first number. Its output goes to lane 0 of the node.
    Divide(u64, u32),
    Group(Agg, u32, u32),
    /// Sessions with this gap. Their rows go to lane 0 of node 1.
    Session(Agg, u64),
    /// A join. Its pairs go to lane 0 of the node.
    Join(u32),
    /// A join of windows that overlap.
    SlidingJoin(u32),
}

fn place(node: u32, lane: u32) -> Down {
    Down { node, lane }
}

fn source(node: u32, lane: u32) -> Option<Down> {
    Some(place(node, lane))
}

fn kind_of(shape: Shape) -> Kind {
    match shape {
        Shape::Filter(_, _) => Kind::Do(Op::Filter(Field::Value, Test::Less, 10)),
        Shape::Divide(divisor, _) => Kind::Do(Op::Map(Change::KeyMod(divisor))),
        Shape::Group(agg, _, _) => Kind::Group(agg, Windows::new(10, 5).unwrap()),
        Shape::Session(agg, gap) => Kind::Session(agg, gap),
        Shape::Join(_) => Kind::Join(Combine::Add, Windows::new(10, 10).unwrap()),
        Shape::SlidingJoin(_) => Kind::Join(Combine::Add, Windows::new(10, 5).unwrap()),
    }
}

fn step_of(shape: Shape) -> Step {
    let down = match shape {
        Shape::Filter(node, lane) | Shape::Group(_, node, lane) => place(node, lane),
        Shape::Divide(_, node) | Shape::Join(node) | Shape::SlidingJoin(node) => place(node, 0),
        Shape::Session(_, _) => place(1, 0),
    };
    Step {
        kind: kind_of(shape),
        down,
    }
}

/// The plan of these transforms, if they are one.
fn plan_of(
    alloc: Global,
    shapes: &[Shape],
    source_a: Option<Down>,
    source_b: Option<Down>,
) -> Result<Option<Plan>, AllocError> {
    let mut steps = Vec::new(alloc);
    for shape in shapes {
        steps.push(step_of(*shape))?;
    }
    Ok(Plan::new(steps, source_a, source_b))
}

/// Whether these transforms are a plan.
fn is_plan(
    alloc: Global,
    shapes: &[Shape],
    source_a: Option<Down>,
    source_b: Option<Down>,
) -> Option<bool> {
    match plan_of(alloc, shapes, source_a, source_b) {
        Ok(plan) => Some(plan.is_some()),
        Err(AllocError) => None,
    }
}

/// Whether so many transforms one after another, the last of them a sum, are a plan.
fn is_chain(alloc: Global, transforms: u32) -> Option<bool> {
    let mut shapes = Vec::new(alloc);
    for node in 1..transforms {
        shapes.push(Shape::Filter(node, 0)).ok()?;
    }
    shapes.push(Shape::Group(Agg::Sum, transforms, 0)).ok()?;
    is_plan(alloc, &shapes, source(0, 0), None)
}

const SUM: Shape = Shape::Group(Agg::Sum, 1, 0);

/// Nodes and lanes that streams a and b go to, and whether the sum of what comes is a plan.
const SOURCES: [(Option<Down>, Option<Down>, bool); 6] = [
    (A_LANE, None, true),
    (None, A_LANE, true),
    (None, None, false),
    (A_LANE, A_LANE, false),
    (Some(Down { node: 0, lane: 1 }), None, false),
    // Past the sink.
    (A_LANE, Some(Down { node: 2, lane: 0 }), false),
];

const A_LANE: Option<Down> = Some(Down { node: 0, lane: 0 });

#[test]
fn plans_of_a_sum(rt: HostRuntime) {
    for (source_a, source_b, want) in &SOURCES {
        let is_so = is_plan(rt.alloc(), &[SUM], *source_a, *source_b);
        assert!(rt; is_so == Some(*want), "{source_a:?} {source_b:?}");
    }
}

#[test]
fn plans_have_1_to_12_transforms(rt: HostRuntime) {
    let alloc = rt.alloc();
    assert!(rt; is_chain(alloc, 1) == Some(true));
    assert!(rt; is_chain(alloc, 12) == Some(true));
    assert!(rt; is_chain(alloc, 13) == Some(false));
    assert!(rt; is_plan(alloc, &[], A_LANE, None) == Some(false));
}

/// Whether these transforms are a plan of stream a, which goes to the first of them.
fn is_plan_of_a(alloc: Global, shapes: &[Shape]) -> Option<bool> {
    is_plan(alloc, shapes, A_LANE, None)
}

#[test]
fn plans_of_one_stream(rt: HostRuntime) {
    let alloc = rt.alloc();
    // No window.
    assert!(rt; is_plan_of_a(alloc, &[Shape::Filter(1, 0)]) == Some(false));
    assert!(rt; is_plan_of_a(alloc, &[Shape::Group(Agg::Top(16), 1, 0)]) == Some(true));
    assert!(rt; is_plan_of_a(alloc, &[Shape::Group(Agg::Top(17), 1, 0)]) == Some(false));
    let last = Shape::Group(Agg::Sum, 2, 0);
    assert!(rt; is_plan_of_a(alloc, &[Shape::Divide(3, 1), last]) == Some(true));
    assert!(rt; is_plan_of_a(alloc, &[Shape::Divide(0, 1), last]) == Some(false));
    // To an earlier node, and to itself.
    let earlier = [Shape::Filter(2, 0), Shape::Group(Agg::Sum, 0, 0)];
    assert!(rt; is_plan(alloc, &earlier, source(1, 0), None) == Some(false));
    assert!(rt; is_plan_of_a(alloc, &[Shape::Filter(2, 0), SUM]) == Some(false));
    // A lane that is not fed, and one that is none.
    assert!(rt; is_plan_of_a(alloc, &[last, Shape::Filter(2, 0)]) == Some(false));
    assert!(rt; is_plan_of_a(alloc, &[Shape::Filter(1, 1), last]) == Some(false));
}

/// What sessions give, their gap, and whether they are a plan.
const SESSIONS: [(Agg, u64, bool); 5] = [
    (Agg::Sum, 1, true),
    (Agg::Distinct, 1_000_000_000_000, true),
    (Agg::Sum, 0, false),
    (Agg::Sum, 1_000_000_000_001, false),
    (Agg::Top(1), 1, false),
];

#[test]
fn plans_of_sessions(rt: HostRuntime) {
    for (agg, gap, want) in &SESSIONS {
        let is_so = is_plan_of_a(rt.alloc(), &[Shape::Session(*agg, *gap)]);
        assert!(rt; is_so == Some(*want), "{agg:?} with the gap {gap}");
    }
}

/// Whether these transforms are a plan of both streams, where b goes to node 1.
fn is_plan_of_both(alloc: Global, shapes: &[Shape]) -> Option<bool> {
    is_plan(alloc, shapes, A_LANE, source(1, 0))
}

#[test]
fn plans_with_joins(rt: HostRuntime) {
    let alloc = rt.alloc();
    let join = [Shape::Join(1)];
    assert!(rt; is_plan(alloc, &join, A_LANE, source(0, 1)) == Some(true));
    // Of one lane, and not fed.
    assert!(rt; is_plan(alloc, &join, A_LANE, A_LANE) == Some(false));
    assert!(rt; is_plan_of_a(alloc, &join) == Some(false));
    let sliding = [Shape::SlidingJoin(1)];
    assert!(rt; is_plan(alloc, &sliding, A_LANE, source(0, 1)) == Some(false));
    // Of sums, one that is fed twice, and two joins.
    let (left, right) = (Shape::Group(Agg::Max, 2, 0), Shape::Group(Agg::Sum, 2, 1));
    assert!(rt; is_plan_of_both(alloc, &[right, left, Shape::Join(3)]) == Some(true));
    let twice = Shape::Group(Agg::Max, 2, 1);
    assert!(rt; is_plan_of_both(alloc, &[right, twice, Shape::Join(3)]) == Some(false));
    let first = Shape::Group(Agg::Sum, 1, 1);
    assert!(rt; is_plan_of_both(alloc, &[first, Shape::Join(2), Shape::Join(3)]) == Some(false));
}

#[test]
fn parts_of_plans(rt: HostRuntime) -> Result<(), AllocError> {
    let shapes = [Shape::Filter(1, 1), Shape::Join(2)];
    let Some(plan) = plan_of(rt.alloc(), &shapes, source(1, 0), source(0, 0))? else {
        panic!(rt; "no plan");
    };
    assert!(rt; plan.transforms() == 2);
    assert!(rt; plan.streams() == Streams { a: true, b: true });
    assert!(rt; plan.source(Stream::A) == source(1, 0));
    assert!(rt; plan.source(Stream::B) == source(0, 0));
    assert!(rt; plan.down(0) == place(1, 1));
    assert!(rt; plan.down(1) == place(2, 0));
    assert!(rt; matches!(plan.kind(0), Kind::Do(_)));
    assert!(rt; matches!(plan.kind(1), Kind::Join(Combine::Add, _)));
    assert!(rt; plan.lanes(0) == 1);
    assert!(rt; plan.lanes(1) == 2);
    assert!(rt; plan.lanes(2) == 1);
    Ok(())
}

#[test]
fn plan_of_a_sum(rt: HostRuntime) {
    let Ok(plan) = sum_plan(rt.alloc(), 1_000) else {
        panic!(rt; "no memory");
    };
    assert!(rt; plan.transforms() == 1);
    assert!(rt; plan.streams() == Streams { a: true, b: false });
}

/// Whether a plan does so with late records, and has these keys.
fn is_set(plan: &Plan, late: LatePolicy, keys: Keys) -> bool {
    plan.late() == late && plan.keys() == keys
}

#[test]
fn plans_of_words_that_drop_late_records(rt: HostRuntime) {
    let Ok(plan) = sum_plan(rt.alloc(), 1_000) else {
        panic!(rt; "no memory");
    };
    assert!(rt; is_set(&plan, LatePolicy::Refuse, Keys::Numbers));
    let plan = plan.with_keys(Keys::Words);
    assert!(rt; is_set(&plan, LatePolicy::Refuse, Keys::Words));
    let plan = plan.with_late(LatePolicy::Drop);
    assert!(rt; is_set(&plan, LatePolicy::Drop, Keys::Words));
    assert!(rt; plan.transforms() == 1);
}
