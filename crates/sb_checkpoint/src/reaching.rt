//! How far back a plan reaches.

ghost use Rattle.std.specs.Prelude.{◌≡◌, ◌≤◌, ◌↔◌, ℕ, None, Some, false};
ghost use Rattle.sb_checkpoint.specs.Reach as spec;

use sb_pipeline::{Kind, MAX_SIZE, MAX_TRANSFORMS, Plan};

/// The most that a plan reaches back.
pub const MAX_REACH: u64 = MAX_TRANSFORMS as u64 * MAX_SIZE;

/// How long the windows of a transform are, 0 where it has none.
fn window_size(kind: &Kind) -> u64
    ensures value { result ≡ spec.size_in kind.now }
    ensures bound { result ≤ MAX_SIZE }
{
    match kind {
        Kind::Do(_) | Kind::Session(_, _) => 0,
        Kind::Group(_, windows) | Kind::Join(_, windows) => windows.size(),
    }
}

/// The first transform of the plan, from 0, that gathers records by session, if one does. Nothing bounds how far back
/// such a plan reaches.
pub fn first_session(plan: &Plan) -> Option<u32>
    ensures none { (result ≡ None) ↔ spec.HasNoSession plan.now }
    ensures some { (place : ℕ) → result ≡ Some place → spec.IsFirstSession plan.now place }
{
    for node in 0..plan.transforms() {
        if let Kind::Session(_, _) = plan.kind(node) {
            return Some(node);
        }
    }
    None
}

/// Whether a transform of the plan gathers records by session.
pub fn has_session(plan: &Plan) -> bool
    ensures { (result ≡ false) ↔ spec.HasNoSession plan.now }
{
    first_session(plan).is_some()
}

/// How far back the plan reaches, in the unit of the times of records: a record whose time is more than this before a
/// time is part of no row from that time on. It is the sum of the sizes of all windows of the plan.
pub fn reach(plan: &Plan) -> u64
    requires { spec.HasNoSession plan.now }
    ensures value { result ≡ spec.reach plan.now }
    ensures bound { result ≤ MAX_REACH }
{
    let mut sum = 0u64;
    for node in 0..plan.transforms() {
        sum += window_size(plan.kind(node));
    }
    sum
}
