//! A whole closing.

ghost use Rattle.std.specs.Prelude.{◌≡◌, ◌<◌, ◌≤◌, true, false, [], length, IfOk, MatchBool, OnErr, OnOk};
ghost use Rattle.sb_cascade.specs.core.Closings.{is_sink};
ghost use Rattle.sb_cascade.specs.Calls.{HasClosing, IsEmptyHanded, IsReady, IsSame, plan_of, rows_left, setting_of};
ghost use Rattle.sb_cascade.specs.shared.Shown.{operator_of};
ghost use Rattle.sb_worker.specs.Entries.{Does, Gains, Grows};
ghost use Rattle.sb_worker.specs.Steps.{IsNotYet, IsNotYetAt};

use sb_cascade::{Cascade, CascadePass, CloseStop, Closing, NoMemory};
use std::sync::Wait;

/// All rows of a closing in hand go below.
fn deliver_all<R: Wait>(
    rt: &R,
    cascade: &Cascade,
    pass: &mut CascadePass,
    closing: &Closing,
) -> Result<(), NoMemory>
    requires pass { IsReady cascade.now pass.old × HasClosing closing.now false pass.old }
    requires node { closing.now.node < length (plan_of cascade.now).steps }
    ensures pass { IsReady cascade.now pass.new × IsSame pass.old pass.new }
    ensures rows { OnOk result (HasClosing closing.now false pass.new × (rows_left closing.now pass.new ≡ [])) }
    ensures trace { OnOk result (Gains (Does 0 0) pass.old pass.new) }
    ensures failed { OnErr result (Grows pass.old pass.new) }
{
    let mut more = true;
    while more {
        more = cascade.deliver_rows(rt, pass, closing)?;
    }
    Ok(())
}

/// All rows of a closing in hand go below, and its mark.
fn pass_all<R: Wait>(
    rt: &R,
    cascade: &Cascade,
    pass: &mut CascadePass,
    closing: &Closing,
) -> Result<(), NoMemory>
    requires pass { IsReady cascade.now pass.old × HasClosing closing.now false pass.old }
    requires node { closing.now.node < length (plan_of cascade.now).steps }
    ensures pass { IsReady cascade.now pass.new × IsSame pass.old pass.new }
    ensures passed { OnOk result (HasClosing closing.now true pass.new × (rows_left closing.now pass.new ≡ [])) }
    ensures trace { OnOk result (Gains (Does 0 0) pass.old pass.new) }
    ensures failed { OnErr result (Grows pass.old pass.new) }
{
    deliver_all(rt, cascade, pass, closing)?;
    cascade.pass_mark(rt, pass, closing)
}

/// A closing in hand, which has just begun, comes to its end.
fn finish_closing<R: Wait>(
    rt: &R,
    cascade: &Cascade,
    pass: &mut CascadePass,
    closing: Closing,
) -> Result<(), NoMemory>
    requires pass { IsReady cascade.now pass.old
        × HasClosing closing (is_sink (operator_of (setting_of cascade.now) closing.node)) pass.old }
    requires node { closing.node ≤ length (plan_of cascade.now).steps }
    requires none { is_sink (operator_of (setting_of cascade.now) closing.node) ≡ true
        → rows_left closing pass.old ≡ [] }
    ensures pass { IsReady cascade.now pass.new × IsSame pass.old pass.new }
    ensures done { OnOk result (IsEmptyHanded pass.new × Gains (Does 0 1) pass.old pass.new) }
    ensures failed { OnErr result (Grows pass.old pass.new) }
{
    if closing.node < cascade.plan().transforms() {
        pass_all(rt, cascade, pass, &closing)?;
    }
    cascade.end_close(rt, pass, closing);
    Ok(())
}

/// Makes a whole closing of a node, if one can begin.
pub(crate) fn close_node<R: Wait>(
    rt: &R,
    cascade: &Cascade,
    pass: &mut CascadePass,
    node: u32,
) -> Result<bool, NoMemory>
    requires pass { IsReady cascade.now pass.old × IsEmptyHanded pass.old }
    requires node { node ≤ length (plan_of cascade.now).steps }
    ensures pass { IsReady cascade.now pass.new × IsSame pass.old pass.new }
    ensures empty { OnOk result (IsEmptyHanded pass.new) }
    ensures trace { IfOk result (λ closed. MatchBool closed (Gains (Does 0 1) pass.old pass.new)
        (Gains (IsNotYetAt node) pass.old pass.new)) }
    ensures failed { OnErr result (Grows pass.old pass.new) }
{
    match cascade.begin_close(rt, pass, node) {
        Ok(closing) => {
            finish_closing(rt, cascade, pass, closing)?;
            Ok(true)
        }
        Err(CloseStop::NotYet(_)) => Ok(false),
        Err(CloseStop::Memory) => Err(NoMemory),
    }
}

/// Makes a whole closing of the last node that allows it, if one does.
pub(crate) fn close_any<R: Wait>(
    rt: &R,
    cascade: &Cascade,
    pass: &mut CascadePass,
) -> Result<bool, NoMemory>
    requires pass { IsReady cascade.now pass.old × IsEmptyHanded pass.old }
    ensures pass { IsReady cascade.now pass.new × IsSame pass.old pass.new }
    ensures empty { OnOk result (IsEmptyHanded pass.new) }
    ensures trace { IfOk result (λ closed. MatchBool closed (Gains (Does 0 1) pass.old pass.new)
        (Gains (IsNotYet (length (plan_of cascade.now).steps)) pass.old pass.new)) }
    ensures failed { OnErr result (Grows pass.old pass.new) }
{
    for node in (0..cascade.plan().transforms() + 1).rev() {
        if close_node(rt, cascade, pass, node)? {
            return Ok(true);
        }
    }
    Ok(false)
}
