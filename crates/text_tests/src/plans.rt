//! Plans by example. What else is no plan, and what else is one, are data of the program `trials`, in
//! `crates/trials/data/refusals.toml`.

use sb_outside::MemFolder;
use sb_plan::{PlanCause, PlanFault, PlanKey, PlanStop, plan_of};
use sb_record::{Keys, LatePolicy};
use std::alloc::{AllocError, Global};
use std::collections::BTreeMap;

/// Texts that are no plan, and the first test that each fails.
const REFUSED: [(&str, u32, PlanCause); 3] = [
    ("transform = [", 0, PlanCause::NotToml),
    (
        "transform = [{name = \"s\", kind = \"sum\", from = \"a\", size = 0}]",
        1,
        PlanCause::OutOfRange(PlanKey::Size),
    ),
    (
        "late = 1\ntransform = [1]",
        0,
        PlanCause::WrongType(PlanKey::Late),
    ),
];

/// A folder without a file.
fn no_files(alloc: Global) -> MemFolder {
    MemFolder::new(alloc, BTreeMap::new(alloc), Vec::new(alloc))
}

#[test]
fn the_first_fault_is_named(rt: HostRuntime) -> Result<(), AllocError> {
    let mut folder = no_files(rt.alloc());
    for (text, at, what) in &REFUSED {
        let fault = PlanFault {
            at: *at,
            what: *what,
        };
        let stop = plan_of(rt.alloc(), text.as_bytes(), &mut folder).err();
        assert!(rt; stop == Some(PlanStop::Fault(fault)));
    }
    Ok(())
}

#[test]
fn a_plan_is_read(rt: HostRuntime) -> Result<(), AllocError> {
    let mut folder = no_files(rt.alloc());
    let text = "late = \"drop\"\nkeys = \"words\"\n\
        transform = [{name = \"s\", kind = \"sum\", from = \"a\", size = 10}]";
    let Ok(plan) = plan_of(rt.alloc(), text.as_bytes(), &mut folder) else {
        panic!(rt; "refused");
    };
    assert!(rt; plan.transforms() == 1);
    assert!(rt; plan.late() == LatePolicy::Drop);
    assert!(rt; plan.keys() == Keys::Words);
    Ok(())
}
