//! Which lists of transforms and sources are plans.

ghost use Rattle.std.specs.Prelude.{◌≡◌, ◌≤◌, ◌<◌, ◌↔◌, IsTrue, IfSome, All, ℕ, Some, length, slice_get, count_by};
ghost use Rattle.sb_pipeline.specs.declared.transform.Step.{Step as AStep};
ghost use Rattle.sb_pipeline.specs.declared.transform.Down.{Down as ADown};
ghost use Rattle.sb_pipeline.specs.Operators.{lanes_of, operator_at, operator_of};
ghost use Rattle.sb_pipeline.specs.Plans.{IsPlace, IsPlan, IsValidKind, is_join, has_windows};
ghost use Rattle.sb_pipeline.specs.Shapes as shape;

use crate::transform::{Down, Kind, MAX_TRANSFORMS, Step};
use sb_windowed::{Agg, MAX_GAP};

/// Whether the transforms, with the streams going to their sources, are a plan.
pub(crate) fn is_plan(steps: &[Step], source_a: Option<Down>, source_b: Option<Down>) -> bool
    ensures { IsTrue result ↔ IsPlan (shape.shape_of steps.now source_a source_b) }
{
    are_transforms(steps)
        && send_further(steps)
        && send_to_places(steps)
        && is_source(steps, source_a)
        && is_source(steps, source_b)
        && are_fed_once(steps, source_a, source_b)
}

/// Whether there are as many transforms of each kind as a plan has.
fn are_transforms(steps: &[Step]) -> bool
    ensures { IsTrue result
        ↔ ((1 ≤ length steps.now) × (length steps.now ≤ MAX_TRANSFORMS) × All (λ s. IsValidKind s.kind) steps.now
        × (count_by (λ s. is_join s.kind) steps.now ≤ 1) × (1 ≤ count_by (λ s. has_windows s.kind) steps.now)) }
{
    (1..=MAX_TRANSFORMS).contains(&steps.len())
        && are_valid(steps)
        && joins(steps) <= 1
        && groupings(steps) >= 1
}

/// Whether what each transform does can be asked for.
fn are_valid(steps: &[Step]) -> bool
    ensures { IsTrue result ↔ All (λ s. IsValidKind s.kind) steps.now }
{
    steps.iter().all(|step| is_valid(&step.kind))
}

fn is_valid(kind: &Kind) -> bool
    ensures { IsTrue result ↔ IsValidKind kind.now }
{
    match kind {
        Kind::Do(op) => sb_pardo::is_valid(op),
        Kind::Group(agg, windows) => {
            // For the proof: windows are valid by their type.
            let _ = windows.size();
            agg.is_valid()
        }
        Kind::Session(agg, gap) => !matches!(agg, Agg::Top(_)) && (1..=MAX_GAP).contains(gap),
        Kind::Join(_, windows) => windows.size() == windows.every(),
    }
}

/// How many of the transforms are joins.
fn joins(steps: &[Step]) -> usize
    ensures { result ≡ count_by (λ s. is_join s.kind) steps.now }
{
    steps.iter().filter(|step| step.kind.is_join()).count()
}

/// How many of the transforms gather records by window: they are aggregations, of windows or of sessions, or joins.
fn groupings(steps: &[Step]) -> usize
    ensures { result ≡ count_by (λ s. has_windows s.kind) steps.now }
{
    steps.iter().filter(|step| step.kind.has_windows()).count()
}

/// Whether each transform sends to a later node.
fn send_further(steps: &[Step]) -> bool
    ensures { IsTrue result ↔ ((k : ℕ) (s : AStep) → slice_get steps.now k ≡ Some s → k < s.down.node) }
{
    for (node, step) in steps.iter().enumerate() {
        if step.down.node as usize <= node {
            return false;
        }
    }
    true
}

/// Whether each transform sends to a lane of a node.
fn send_to_places(steps: &[Step]) -> bool
    ensures { IsTrue result ↔ All (λ s. IsPlace steps.now s.down) steps.now }
{
    steps.iter().all(|step| is_place(steps, step.down))
}

/// Whether the stream, if it is used, goes to a lane of a node.
fn is_source(steps: &[Step], source: Option<Down>) -> bool
    ensures { IsTrue result ↔ IfSome source (IsPlace steps.now) }
{
    match source {
        Some(place) => is_place(steps, place),
        None => true,
    }
}

fn is_place(steps: &[Step], place: Down) -> bool
    ensures { IsTrue result ↔ IsPlace steps.now place }
{
    place.node as usize <= steps.len() && place.lane < lanes_at(steps, place.node)
}

/// How many lanes a node has.
pub(crate) fn lanes_at(steps: &[Step], node: u32) -> u32
    ensures { result ≡ lanes_of (operator_at (slice_get steps.now node)) }
{
    match steps.get(node as usize) {
        Some(step) => lanes_of(&step.kind),
        None => 1,
    }
}

fn lanes_of(kind: &Kind) -> u32
    ensures { result ≡ lanes_of (operator_of kind.now) }
{
    match kind {
        Kind::Do(_) | Kind::Group(_, _) | Kind::Session(_, _) => 1,
        Kind::Join(_, _) => 2,
    }
}

/// Whether each lane of each node is fed once.
fn are_fed_once(steps: &[Step], source_a: Option<Down>, source_b: Option<Down>) -> bool
    requires { length steps.now ≤ MAX_TRANSFORMS }
    ensures { IsTrue result ↔ ((place : ADown) → IsPlace steps.now place
        → shape.feeds (shape.shape_of steps.now source_a source_b) place ≡ 1) }
{
    for node in 0..=steps.len() as u32 {
        if !are_lanes_fed_once(steps, source_a, source_b, node) {
            return false;
        }
    }
    true
}

/// Whether each lane of a node is fed once.
fn are_lanes_fed_once(
    steps: &[Step],
    source_a: Option<Down>,
    source_b: Option<Down>,
    node: u32,
) -> bool
    requires { length steps.now ≤ MAX_TRANSFORMS }
    ensures { IsTrue result ↔ ((lane : ℕ) → lane < lanes_of (operator_at (slice_get steps.now node))
        → shape.feeds (shape.shape_of steps.now source_a source_b)
        (record { node = node; lane = lane }) ≡ 1) }
{
    for lane in 0..lanes_at(steps, node) {
        if feeds(steps, source_a, source_b, Down { node, lane }) != 1 {
            return false;
        }
    }
    true
}

/// How many transforms and streams send to the place.
fn feeds(steps: &[Step], source_a: Option<Down>, source_b: Option<Down>, place: Down) -> usize
    requires { length steps.now ≤ MAX_TRANSFORMS }
    ensures { result ≡ shape.feeds (shape.shape_of steps.now source_a source_b) place }
{
    step_feeds(steps, place) + source_feeds(source_a, place) + source_feeds(source_b, place)
}

/// How many transforms send to the place.
fn step_feeds(steps: &[Step], place: Down) -> usize
    ensures few { result ≤ length steps.now }
    ensures count { result ≡ count_by (λ s. shape.is_same_place place s.down) steps.now }
{
    steps.iter().filter(|step| place == step.down).count()
}

/// 1 where the stream goes to the place, and else 0.
fn source_feeds(source: Option<Down>, place: Down) -> usize
    ensures few { result ≤ 1 }
    ensures count { result ≡ count_by (shape.is_same_place place) (shape.if_any source) }
{
    match source {
        Some(down) => usize::from(place == down),
        None => 0,
    }
}
