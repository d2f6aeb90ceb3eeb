//! The helpers: each steps with a pass of its own until the run ends.

ghost use Rattle.std.specs.Prelude.{◌≡◌, true, length, IfSome};
ghost use Rattle.std.specs.List.{AllByRecursion};
ghost use Rattle.std.specs.Thread.{IsSync};
ghost use Rattle.std.specs.Vec.{vec_capacity};
ghost use Rattle.sb_worker.specs.Helping.{IsHelper};

use sb_worker::{Cascade, CascadePass, Gate, help};
use std::alloc::Global;
use std::mem;
use std::sync::Wait;
use std::thread::{Threads, join};

// Each of the passes helps, in a thread of its own if one can be made. None if one of them found no memory.
fn help_each<W: Threads + Wait + Sync, G: Gate + Sync>(
    rt: &W,
    alloc: Global,
    cascade: &Cascade,
    gate: &G,
    mut passes: Vec<CascadePass>,
) -> Option<Vec<CascadePass>>
    requires { AllByRecursion (IsHelper cascade.now) passes.items × IsSync W.row × IsSync G.row }
    ensures { IfSome result (λ back. AllByRecursion (IsHelper cascade.now) back.items
        × (length back.items ≡ length passes.items) × (vec_capacity back ≡ vec_capacity passes)) }
{
    let Some(pass) = passes.pop() else {
        return Some(passes);
    };
    let (one, others) = join(
        rt,
        || -> Option<CascadePass>
            requires { IsHelper cascade.now pass × IsSync G.row }
            ensures { IfSome result (IsHelper cascade.entry.now) }
        { help(rt, alloc, cascade, pass, gate) },
        || -> Option<Vec<CascadePass>>
            requires { AllByRecursion (IsHelper cascade.now) passes.items × IsSync W.row × IsSync G.row }
            ensures { IfSome result (λ back. AllByRecursion (IsHelper cascade.entry.now) back.items
                × (length back.items ≡ length passes.items) × (vec_capacity back ≡ vec_capacity passes)) }
        { help_each(rt, alloc, cascade, gate, passes) },
    );
    let Some(pass) = one else {
        return None;
    };
    let Some(mut passes) = others else {
        return None;
    };
    passes.push_reserved(pass);
    Some(passes)
}

/// Each of the passes helps until the run ends, in a thread of its own if one can be made. It takes no memory. False if
/// one of them found none: then the passes are gone, with what they have in hand.
pub fn help_all<W: Threads + Wait + Sync, G: Gate + Sync>(
    rt: &W,
    alloc: Global,
    cascade: &Cascade,
    gate: &G,
    passes: &mut Vec<CascadePass>,
) -> bool
    requires { AllByRecursion (IsHelper cascade.now) passes.old.items }
    ensures { result ≡ true → AllByRecursion (IsHelper cascade.now) passes.new.items
        × (length passes.new.items ≡ length passes.old.items) }
{
    let own = mem::replace(passes, Vec::new(alloc));
    match help_each(rt, alloc, cascade, gate, own) {
        Some(back) => {
            *passes = back;
            true
        }
        None => false,
    }
}
