//! The next bundle for a worker: one of the shelf, or one that waits in a node.

ghost use Rattle.std.specs.Prelude.{◌≤◌, false, length, IfNone, IfSome};
ghost use Rattle.sb_cascade.specs.Calls.{HasBundle, IsEmptyHanded, IsReady, IsSame, plan_of, setting_of};
ghost use Rattle.sb_cascade.specs.shared.Found.{IsClaim};
ghost use Rattle.sb_worker.specs.Entries.{Gains};
ghost use Rattle.sb_worker.specs.Steps.{IsBareAndIdle, IsClaiming, IsIdle, IsIdleAt, IsShelfBare};

use sb_cascade::{Cascade, CascadePass, Claim};
use std::sync::Wait;

/// A bundle of the shelf. It enters no turn.
pub(crate) fn shelved_claim(cascade: &Cascade, pass: &mut CascadePass) -> Option<Claim>
    requires pass { IsReady cascade.now pass.old × IsEmptyHanded pass.old }
    ensures pass { IsReady cascade.now pass.new × IsSame pass.old pass.new }
    ensures some { IfSome result (λ c. IsClaim (setting_of cascade.now) c × HasBundle c false pass.new
        × Gains IsClaiming pass.old pass.new) }
    ensures none { IfNone result (IsEmptyHanded pass.new × Gains IsShelfBare pass.old pass.new) }
{
    cascade.claim(pass)
}

/// A bundle of the shelf, once those that wait in a node are there.
fn claim_at<R: Wait>(rt: &R, cascade: &Cascade, pass: &mut CascadePass, node: u32) -> Option<Claim>
    requires pass { IsReady cascade.now pass.old × IsEmptyHanded pass.old }
    requires node { node ≤ length (plan_of cascade.now).steps }
    ensures pass { IsReady cascade.now pass.new × IsSame pass.old pass.new }
    ensures some { IfSome result (λ c. IsClaim (setting_of cascade.now) c × HasBundle c false pass.new
        × Gains IsClaiming pass.old pass.new) }
    ensures none { IfNone result (IsEmptyHanded pass.new × Gains (IsIdleAt node) pass.old pass.new) }
{
    cascade.fill(rt, pass, node);
    cascade.claim(pass)
}

/// A bundle of the last node where one waits.
fn waiting_claim<R: Wait>(rt: &R, cascade: &Cascade, pass: &mut CascadePass) -> Option<Claim>
    requires pass { IsReady cascade.now pass.old × IsEmptyHanded pass.old }
    ensures pass { IsReady cascade.now pass.new × IsSame pass.old pass.new }
    ensures some { IfSome result (λ c. IsClaim (setting_of cascade.now) c × HasBundle c false pass.new
        × Gains IsClaiming pass.old pass.new) }
    ensures none { IfNone result (IsEmptyHanded pass.new
        × Gains (IsIdle (length (plan_of cascade.now).steps)) pass.old pass.new) }
{
    for node in (0..cascade.plan().transforms() + 1).rev() {
        if let Some(claim) = claim_at(rt, cascade, pass, node) {
            return Some(claim);
        }
    }
    None
}

/// A bundle of the shelf, or else of the last node where one waits.
pub(crate) fn next_claim<R: Wait>(
    rt: &R,
    cascade: &Cascade,
    pass: &mut CascadePass,
) -> Option<Claim>
    requires pass { IsReady cascade.now pass.old × IsEmptyHanded pass.old }
    ensures pass { IsReady cascade.now pass.new × IsSame pass.old pass.new }
    ensures some { IfSome result (λ c. IsClaim (setting_of cascade.now) c × HasBundle c false pass.new
        × Gains IsClaiming pass.old pass.new) }
    ensures none { IfNone result (IsEmptyHanded pass.new
        × Gains (IsBareAndIdle (length (plan_of cascade.now).steps)) pass.old pass.new) }
{
    if let Some(claim) = shelved_claim(cascade, pass) {
        return Some(claim);
    }
    waiting_claim(rt, cascade, pass)
}
