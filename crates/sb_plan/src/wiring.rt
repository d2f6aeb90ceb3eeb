//! How the transforms of a plan file are connected.

ghost use Rattle.std.specs.Prelude.{◌≡◌, ◌≢◌, ◌<◌, ◌+◌, bytes_eq, length, MatchResult, OnOk, Ok, Err};
ghost use Rattle.std.specs.List.{list_any, position};
ghost use Rattle.sb_pipeline.specs.Plans.{is_join};
ghost use Rattle.sb_plan.specs.Answers.{ChangesTo};
ghost use Rattle.sb_plan.specs.Failures.{by_text};
ghost use Rattle.sb_plan.specs.Soundness.{IsSound, IsValidEntry};
ghost use Rattle.sb_plan.specs.Wiring as spec;

use crate::entry::Entry;
use crate::fault::{PlanCause, PlanKey};
use crate::name::Name;
use crate::stop::Stop;
use sb_pipeline::{Down, Keys, Kind, LatePolicy, MAX_TRANSFORMS, Sequence};

/// A transform of the file, and where what it gives goes, once a later transform takes it.
#[derive(Drop)]
pub(crate) struct Part {
    pub name: Name,
    pub kind: Kind,
    pub down: Option<Down>,
}

/// The plan so far: its transforms, where the streams go, and what the document says of late records and of keys.
#[derive(Drop)]
pub(crate) struct Wiring {
    pub parts: Sequence<Part>,
    pub source_a: Option<Down>,
    pub source_b: Option<Down>,
    pub late: LatePolicy,
    pub keys: Keys,
}

/// Connects one transform more with its inputs.
///
/// # Errors
///
/// A second join, and then what is wrong with its inputs, the left one first. The wiring is then of no more use.
#[tactic(auto, unfolding(crate::specs::Wiring::with_transform))]
pub(crate) fn connect(entry: Entry, wiring: &mut Wiring) -> Result<(), Stop>
    requires { length wiring.old.parts < MAX_TRANSFORMS }
    ensures exact { ChangesTo result (by_text (spec.with_transform entry wiring.old)) wiring.new }
    ensures sound { IsValidEntry entry → IsSound wiring.old
        → OnOk result (IsSound wiring.new × (length wiring.new.parts ≡ length wiring.old.parts + 1)) }
    ensures cause { result ≢ Err Stop.Folder }
{
    if is_second_join(&entry.kind, wiring.parts.as_slice()) {
        return Err(Stop::Cause(PlanCause::TwoJoins));
    }
    let node = next_node(wiring.parts.as_slice());
    match send_inputs(node, &entry, wiring) {
        Ok(()) => push(entry, wiring),
        Err(cause) => Err(Stop::Cause(cause)),
    }
}

/// Adds the transform of an entry.
fn push(entry: Entry, wiring: &mut Wiring) -> Result<(), Stop>
    ensures exact { ChangesTo result (Ok (spec.with_part entry wiring.old)) wiring.new }
    ensures cause { result ≢ Err Stop.Folder }
{
    let part = Part {
        name: entry.name,
        kind: entry.kind,
        down: None,
    };
    match wiring.parts.items.push(part) {
        Ok(()) => Ok(()),
        Err(_) => Err(Stop::Memory),
    }
}

/// The node of the transform after these.
fn next_node(parts: &[Part]) -> u32
    requires { length parts.now < MAX_TRANSFORMS }
    ensures { result ≡ length parts.now }
{
    parts.len() as u32
}

fn is_second_join(kind: &Kind, parts: &[Part]) -> bool
    ensures { result ≡ spec.is_second_join kind.now parts.now }
{
    kind.is_join() && has_join(parts)
}

fn has_join(parts: &[Part]) -> bool
    ensures { result ≡ list_any (λ part. is_join part.kind) parts.now }
{
    parts.iter().any(|part| part.kind.is_join())
}

/// Sends the inputs of an entry to the lanes of its node.
#[tactic(auto, unfolding(crate::specs::Wiring::with_inputs))]
fn send_inputs(node: u32, entry: &Entry, wiring: &mut Wiring) -> Result<(), PlanCause>
    ensures { MatchResult result (λ _. spec.with_inputs node entry.now wiring.old ≡ Ok wiring.new)
        (λ e. spec.with_inputs node entry.now wiring.old ≡ Err e) }
{
    let left = Down { node, lane: 0 };
    let right = Down { node, lane: 1 };
    send_input(PlanKey::From, entry.left.as_str(), left, wiring)?;
    send_right(&entry.right, right, wiring)
}

/// Sends the right input to the place, if there is one.
fn send_right(right: &Option<Name>, place: Down, wiring: &mut Wiring) -> Result<(), PlanCause>
    ensures { MatchResult result (λ _. spec.with_right_input right.now place wiring.old ≡ Ok wiring.new)
        (λ e. spec.with_right_input right.now place wiring.old ≡ Err e) }
{
    match right {
        Some(input) => send_input(PlanKey::With, input.as_str(), place, wiring),
        None => Ok(()),
    }
}

/// Sends the input, a stream or a transform, to the place.
#[tactic(auto, unfolding(crate::specs::Wiring::with_input))]
fn send_input(key: PlanKey, input: &str, place: Down, wiring: &mut Wiring) -> Result<(), PlanCause>
    ensures { MatchResult result (λ _. spec.with_input key input.now place wiring.old ≡ Ok wiring.new)
        (λ e. spec.with_input key input.now place wiring.old ≡ Err e) }
{
    match input {
        "a" => wiring.source_a = place_if_unused(key, place, wiring.source_a)?,
        "b" => wiring.source_b = place_if_unused(key, place, wiring.source_b)?,
        _ => send_part(key, input, place, &mut wiring.parts)?,
    }
    Ok(())
}

/// Sends what the transform of this name gives to the place.
fn send_part(
    key: PlanKey,
    input: &str,
    place: Down,
    parts: &mut Sequence<Part>,
) -> Result<(), PlanCause>
    ensures { MatchResult result (λ _. spec.parts_with_down key input.now place parts.old ≡ Ok parts.new)
        (λ e. spec.parts_with_down key input.now place parts.old ≡ Err e) }
{
    let Some(at) = position_of(input, parts.as_slice()) else {
        return Err(PlanCause::UnknownFrom(key));
    };
    let down = place_if_unused(key, place, parts.items[at].down)?;
    parts.items[at].down = down;
    Ok(())
}

fn position_of(input: &str, parts: &[Part]) -> Option<usize>
    ensures { result ≡ position (λ part. bytes_eq part.name input.now) parts.now }
{
    parts.iter().position(|part| part.name.as_str() == input)
}

/// Where something goes that is sent to the place: there, if it has gone nowhere yet.
fn place_if_unused(key: PlanKey, place: Down, down: Option<Down>) -> Result<Option<Down>, PlanCause>
    ensures { result ≡ spec.place_if_unused key place down }
{
    match down {
        None => Ok(Some(place)),
        Some(_) => Err(PlanCause::UsedTwice(key)),
    }
}
