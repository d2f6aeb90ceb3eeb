//! Why a table of a plan file gives no transform.

use crate::fault::PlanCause;
use sb_pipeline::NoMemory;

#[derive(Clone, Copy, Debug, PartialEq, Eq, Drop)]
pub(crate) enum Stop {
    /// The first test that the table fails.
    Cause(PlanCause),
    /// The folder could not load a file, and has listed the load.
    Folder,
    /// There was not enough memory.
    Memory,
}

impl From<PlanCause> for Stop {
    ghost use Rattle.std.specs.Prelude.{◌≡◌};
    ghost use Rattle.sb_plan.specs.declared.stop.Stop.TheVariants.{Cause};

    ghost from_gives = { λ cause stop. stop ≡ Cause cause };

    fn from(cause: PlanCause) -> Stop {
        Stop::Cause(cause)
    }
}

impl From<NoMemory> for Stop {
    ghost use Rattle.std.specs.Prelude.{◌≡◌};
    ghost use Rattle.sb_plan.specs.declared.stop.Stop.TheVariants.{Memory};

    ghost from_gives = { λ _ stop. stop ≡ Memory };

    fn from(_: NoMemory) -> Stop {
        Stop::Memory
    }
}
