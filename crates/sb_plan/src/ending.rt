//! The tests of a whole plan file, once its transforms are connected.

ghost use Rattle.std.specs.Prelude.{◌≡◌, ◌≢◌, ◌≤◌, ◌-◌, length, map, take, is_none, IfOk};
ghost use Rattle.std.specs.Option.{option_map};
ghost use Rattle.std.specs.List.{list_any, position};
ghost use Rattle.sb_pipeline.specs.Plans.{has_windows};
ghost use Rattle.sb_plan.specs.Failures.{by_text};
ghost use Rattle.sb_plan.specs.PlanFiles.{AnswersPlan};
ghost use Rattle.sb_plan.specs.PlanFiles as spec;
ghost use Rattle.sb_plan.specs.Soundness.{IsSound};

use crate::fault::{PlanCause, PlanFault, PlanStop};
use crate::wiring::{Part, Wiring};
use sb_pipeline::{Down, MAX_TRANSFORMS, NoMemory, Plan, Step};
use std::alloc::Global;

/// The plan of the transforms, if each but the last goes somewhere, and one is an aggregation or a join.
#[tactic(auto, unfolding(crate::specs::PlanFiles::finished_plan))]
pub(crate) fn finish(alloc: Global, wiring: Wiring) -> Result<Plan, PlanStop>
    requires some { 1 ≤ length wiring.parts }
    requires most { length wiring.parts ≤ MAX_TRANSFORMS }
    requires sound { IsSound wiring }
    ensures exact { AnswersPlan result (by_text (spec.finished_plan wiring)) }
    ensures cause { result ≢ Err PlanStop.Folder }
{
    let parts = wiring.parts.as_slice();
    if let Some(k) = first_unused(parts) {
        let at = k as u32 + 1;
        let what = PlanCause::Unused;
        return Err(PlanStop::Fault(PlanFault { at, what }));
    }
    if !has_windows(parts) {
        let what = PlanCause::NoWindow;
        return Err(PlanStop::Fault(PlanFault { at: 0, what }));
    }
    let sink = Down {
        node: parts.len() as u32,
        lane: 0,
    };
    let Ok(steps) = steps_of(alloc, sink, wiring.parts.into_vec()) else {
        return Err(PlanStop::Memory);
    };
    let plan = Plan::new(steps, wiring.source_a, wiring.source_b).unwrap();
    Ok(plan.with_late(wiring.late).with_keys(wiring.keys))
}

/// The first transform that goes nowhere, of all but the last.
fn first_unused(parts: &[Part]) -> Option<usize>
    ensures { result ≡ spec.first_unused parts.now }
{
    match parts.split_last() {
        Some((_, earlier)) => first_without_down(earlier),
        None => None,
    }
}

fn first_without_down(parts: &[Part]) -> Option<usize>
    ensures { result ≡ position (λ part. is_none part.down) parts.now }
{
    parts.iter().position(|part| part.down.is_none())
}

/// Whether a transform is an aggregation or a join.
fn has_windows(parts: &[Part]) -> bool
    ensures { result ≡ list_any (λ part. has_windows part.kind) parts.now }
{
    parts.iter().any(|part| part.kind.has_windows())
}

/// The transforms of the plan: what goes nowhere goes to the sink.
fn steps_of(alloc: Global, sink: Down, parts: Vec<Part>) -> Result<Vec<Step>, NoMemory>
    ensures { IfOk result (λ steps. steps.items ≡ map (spec.step_of sink) parts.items) }
{
    match parts
        .into_iter()
        .map(|part| step_of(sink, part))
        .collect(alloc)
    {
        Ok(steps) => Ok(steps),
        Err(_) => Err(NoMemory),
    }
}

fn step_of(sink: Down, part: Part) -> Step
    ensures { result ≡ spec.step_of sink part }
{
    Step {
        kind: part.kind,
        down: part.down.unwrap_or(sink),
    }
}
