//! How the workers of a run begin.

ghost use Rattle.std.specs.Prelude.{IfOk};
ghost use Rattle.sb_engines.specs.Feeders.{IsBegun};
ghost use Rattle.sb_alone.specs.RunEnds.{AreSizes};

use crate::shared::common::Passes;
use crate::shared::handing::split_all;
use sb_alone::{NoMemory, Plan, Sizes};
use sb_worker::{Cascade, Hand};
use std::alloc::Global;

/// A cascade, and the passes of its workers.
#[derive(Drop)]
pub struct Begun {
    pub cascade: Cascade,
    pub passes: Passes,
}

/// A cascade of the plan, for so many workers.
///
/// # Errors
///
/// [`NoMemory`].
pub fn begin(alloc: Global, plan: Plan, sizes: Sizes) -> Result<Begun, NoMemory>
    requires sizes { AreSizes sizes }
    ensures { IfOk result (λ b. IsBegun plan sizes b.cascade b.passes.feeder b.passes.helpers.items) }
{
    // For the proof: a plan keeps its rules.
    let _ = plan.transforms();
    let hand = Hand::new(
        alloc,
        plan,
        sizes.bundle,
        sizes.pending,
        sizes.keeps_diaries,
    )?;
    let (cascade, mut feeder) = Cascade::share(alloc, hand)?;
    let helpers = split_all(alloc, &cascade, &mut feeder, sizes.workers - 1)?;
    let passes = Passes { feeder, helpers };
    Ok(Begun { cascade, passes })
}
