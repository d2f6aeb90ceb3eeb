//! Plans: the pipelines that can be run.

ghost use Rattle.std.specs.Prelude.{◌≡◌, ◌≤◌, ◌<◌, ◌↔◌, Some, IsSome, IfSome, IfOk, length, slice_get};
ghost use Rattle.std.specs.Option.{option_map};
ghost use Rattle.sb_pipeline.specs.Operators.{lanes_of, operator_at, operator_of};
ghost use Rattle.sb_pipeline.specs.Plans.{IsPlace, IsPlan, IsValidKind};
ghost use Rattle.sb_pipeline.specs.Shapes as shape;

use crate::transform::{Down, Kind, Step};
use crate::validity::{is_plan, lanes_at};
use sb_windowed::{Agg, Keys, LatePolicy, MAX_SIZE, NoMemory, Sequence, Stream, Streams, Windows};
use std::alloc::Global;
use std::marker::Model;

/// A pipeline that can be run. It keeps these rules:
///
/// - There are 1 to [`MAX_TRANSFORMS`](crate::MAX_TRANSFORMS) transforms, at most one of them a join, and at least one
///   an aggregation or a join.
/// - Each operation and each aggregation is valid, and a join has fixed windows.
/// - Each transform sends to a lane of a later node, and each stream that is used to a lane of a node.
/// - Each lane of each node is fed once.
///
/// It also says what becomes of late records of its input, and what the keys of its input are.
#[derive(Drop)]
pub struct Plan {
    steps: Sequence<Step>,
    source_a: Option<Down>,
    source_b: Option<Down>,
    late: LatePolicy,
    keys: Keys,
}

impl Model for Plan {
    ghost use Rattle.sb_pipeline.specs.Shapes.{Shape};
    ghost use Rattle.sb_pipeline.specs.Plans.{IsPlan};
    ghost use Rattle.std.specs.Coded.{codes};
    ghost use Rattle.sb_pipeline.specs.contracts.transform.Step as step;

    ghost Value = { Shape };

    ghost coded = { Prim.hlevel (codes, step.the_row.coded) };

    ghost view = { λ p.
        record { steps = p.steps; source_a = p.source_a; source_b = p.source_b; late = p.late; keys = p.keys } };

    ghost invariant = { λ p. IsPlan
        (record { steps = p.steps; source_a = p.source_a; source_b = p.source_b; late = p.late; keys = p.keys }) };
}

impl Plan {
    /// The plan of these transforms in their order, where each stream goes to its source, if it has one. There is none
    /// just where a rule of plans is broken. It refuses late records, and its keys are numbers. It takes no memory.
    pub fn new(steps: Vec<Step>, source_a: Option<Down>, source_b: Option<Down>) -> Option<Plan>
        ensures valid { IsSome result ↔ IsPlan (shape.shape_of steps.items source_a source_b) }
        ensures value { IfSome result (λ plan. plan ≡ shape.shape_of steps.items source_a source_b) }
    {
        if !is_plan(&steps, source_a, source_b) {
            return None;
        }
        Some(Plan {
            steps: Sequence::new(steps),
            source_a,
            source_b,
            late: LatePolicy::Refuse,
            keys: Keys::Numbers,
        })
    }

    /// The same plan with this policy on late records of its input.
    pub fn with_late(self, late: LatePolicy) -> Plan
        ensures { result ≡ record self { late = late } }
    {
        Plan { late, ..self }
    }

    /// The same plan with these keys in its input.
    pub fn with_keys(self, keys: Keys) -> Plan
        ensures { result ≡ record self { keys = keys } }
    {
        Plan { keys, ..self }
    }

    /// What becomes of late records of its input.
    pub fn late(&self) -> LatePolicy
        ensures { result ≡ self.now.late }
    {
        self.late
    }

    /// What the keys of its input are.
    pub fn keys(&self) -> Keys
        ensures { result ≡ self.now.keys }
    {
        self.keys
    }

    /// How many transforms there are: the nodes below this are transforms, and this node is the sink.
    pub fn transforms(&self) -> u32
        ensures value { result ≡ length self.now.steps }
        ensures sound { IsPlan self.now }
    {
        self.steps.as_slice().len() as u32
    }

    /// What a transform does.
    pub fn kind(&self, node: u32) -> &Kind
        requires { node < length self.now.steps }
        ensures kind { option_map (λ s. s.kind) (slice_get self.now.steps node) ≡ Some result.now }
        ensures operator { operator_at (slice_get self.now.steps node) ≡ operator_of result.now }
        ensures valid { IsValidKind result.now }
    {
        &self.steps.as_slice()[node as usize].kind
    }

    /// Where what a transform gives goes.
    pub fn down(&self, node: u32) -> Down
        requires { node < length self.now.steps }
        ensures down { option_map (λ s. s.down) (slice_get self.now.steps node) ≡ Some result }
        ensures later { node < result.node }
        ensures place { IsPlace self.now.steps result }
    {
        self.steps.as_slice()[node as usize].down
    }

    /// How many lanes a transform or the sink has.
    pub fn lanes(&self, node: u32) -> u32
        requires { node ≤ length self.now.steps }
        ensures { result ≡ lanes_of (operator_at (slice_get self.now.steps node)) }
    {
        lanes_at(self.steps.as_slice(), node)
    }

    /// Where a stream goes, if the plan uses it.
    pub fn source(&self, stream: Stream) -> Option<Down>
        ensures value { result ≡ shape.source self.now stream }
        ensures place { IfSome result (IsPlace self.now.steps) }
    {
        match stream {
            Stream::A => self.source_a,
            Stream::B => self.source_b,
        }
    }

    /// The streams that the plan uses.
    pub fn streams(&self) -> Streams
        ensures value { result ≡ shape.streams_of self.now }
        ensures sound { IsPlan self.now }
    {
        Streams {
            a: self.source_a.is_some(),
            b: self.source_b.is_some(),
        }
    }
}

/// The plan of the sums of stream a, by key, over fixed windows of a size from 1 to 10^12. It refuses late records, and
/// its keys are numbers.
pub fn sum_plan(alloc: Global, size: u64) -> Result<Plan, NoMemory>
    requires some_size { 1 ≤ size }
    requires most_size { size ≤ MAX_SIZE }
    ensures { IfOk result (λ plan. plan ≡ shape.sum_shape size) }
{
    let windows = Windows::new(size, size).unwrap();
    let sum = Step {
        kind: Kind::Group(Agg::Sum, windows),
        down: Down { node: 1, lane: 0 },
    };
    let steps = vec![in alloc; sum]?;
    Ok(Plan {
        steps: Sequence::new(steps),
        source_a: Some(Down { node: 0, lane: 0 }),
        source_b: None,
        late: LatePolicy::Refuse,
        keys: Keys::Numbers,
    })
}
