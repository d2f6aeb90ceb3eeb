//! A bundle is worked off.

ghost use Rattle.std.specs.Prelude.{◌≡◌, ◌≤◌, Bool, true, false, length, OnErr, IfOk, OnOk};
ghost use Rattle.sb_cascade.specs.core.Closings.{delivery, is_pardo};
ghost use Rattle.sb_cascade.specs.Calls.{HasBundle, IsEmptyHanded, IsReady, IsSame, plan_of, setting_of};
ghost use Rattle.sb_cascade.specs.shared.Found.{IsClaim};
ghost use Rattle.sb_cascade.specs.shared.Shown.{operator_of};
ghost use Rattle.sb_cascade.specs.Working.{NeedsNoPart};
ghost use Rattle.sb_cascade.specs.work.Processing.{IsOutput};
ghost use Rattle.sb_worker.specs.Entries.{Does, Gains, Grows};

use sb_cascade::{Cascade, CascadePass, Claim, Gate, NoMemory, Output, Receipt, Record, process};
use std::alloc::Global;
use std::sync::Wait;

/// What a transform of single records gives for a bundle in hand goes below, if it is something.
fn give<R: Wait>(
    rt: &R,
    cascade: &Cascade,
    pass: &mut CascadePass,
    claim: &Receipt,
    given: Vec<Record>,
) -> Result<(), NoMemory>
    requires pass { IsReady cascade.now pass.old × HasBundle claim.now false pass.old }
    requires pardo { is_pardo (operator_of (setting_of cascade.now) claim.now.node) ≡ true }
    requires given { given.items
        ≡ delivery (operator_of (setting_of cascade.now) claim.now.node) claim.now.bundle.records }
    ensures pass { IsReady cascade.now pass.new × IsSame pass.old pass.new }
    ensures given { OnOk result ((delivered : Bool) × HasBundle claim.now delivered pass.new
        × NeedsNoPart (operator_of (setting_of cascade.now) claim.now.node) claim.now.bundle.records delivered) }
    ensures trace { OnOk result (Gains (Does 0 0) pass.old pass.new) }
    ensures failed { OnErr result (Grows pass.old pass.new) }
{
    if given.is_empty() {
        return Ok(());
    }
    cascade.deliver(rt, pass, claim, given)
}

/// What becomes of a bundle in hand, and its end.
fn finish_bundle<R: Wait>(
    rt: &R,
    cascade: &Cascade,
    pass: &mut CascadePass,
    claim: Receipt,
    output: Output,
) -> Result<(), NoMemory>
    requires pass { IsReady cascade.now pass.old × HasBundle claim false pass.old }
    requires node { claim.node ≤ length (plan_of cascade.now).steps }
    requires output { IsOutput (operator_of (setting_of cascade.now) claim.node) claim.lane
        claim.bundle.records output }
    ensures pass { IsReady cascade.now pass.new × IsSame pass.old pass.new }
    ensures done { OnOk result (IsEmptyHanded pass.new × Gains (Does 1 0) pass.old pass.new) }
    ensures failed { OnErr result (Grows pass.old pass.new) }
{
    match output {
        Output::Records(given) => {
            give(rt, cascade, pass, &claim, given)?;
            cascade.finish(rt, pass, claim, None)
        }
        Output::Part(part) => cascade.finish(rt, pass, claim, Some(part)),
    }
}

/// Works off a bundle in hand. The gate is passed before it is processed.
pub fn work_off<R: Wait, G: Gate>(
    rt: &R,
    alloc: Global,
    cascade: &Cascade,
    pass: &mut CascadePass,
    gate: &G,
    claim: Claim,
) -> Result<(), NoMemory>
    requires pass { IsReady cascade.now pass.old × HasBundle claim false pass.old }
    requires claim { IsClaim (setting_of cascade.now) claim }
    ensures pass { IsReady cascade.now pass.new × IsSame pass.old pass.new }
    ensures done { OnOk result (IsEmptyHanded pass.new × Gains (Does 1 0) pass.old pass.new) }
    ensures failed { OnErr result (Grows pass.old pass.new) }
{
    gate.pass(claim.node, claim.lane, claim.bundle.number);
    let (claim, output) = process(alloc, cascade.plan(), claim)?;
    finish_bundle(rt, cascade, pass, claim, output)
}
