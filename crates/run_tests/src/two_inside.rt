//! Two workers have a bundle in hand at the same time: the gate holds the first of them until the other comes.

use crate::one_input::{FIRST, run, said, source, sums};
use sb_base::LatePolicy;
use sb_run::{Gate, Team};
use std::sync::atomic::{AtomicU64, Ordering};
use std::test::Fail;
use std::thread;

/// How often the first call looks for a second at most.
const LOOKS: u32 = 10_000_000;

/// A gate that holds its first call until a second is inside.
#[derive(Drop)]
struct HoldingGate {
    /// How many calls there were.
    calls: AtomicU64,
    /// 1 once the first call has seen a second.
    both: AtomicU64,
}

impl HoldingGate {
    /// Waits for a second call. Between two looks, others may run.
    fn hold(&self) {
        for _ in 0..LOOKS {
            if self.calls.load(Ordering::SeqCst) > 1 {
                self.both.store(1, Ordering::SeqCst);
                return;
            }
            thread::yield_now();
        }
    }
}

impl Gate for HoldingGate {
    fn pass(&self, _node: u32, _lane: u32, _number: u64) {
        if self.calls.fetch_add(1, Ordering::SeqCst) == 0 {
            self.hold();
        }
    }
}

// Of the three bundles of the sum, who comes first holds one, so another is left for the other: the helper looks for
// bundles until the run ends, and the feeder does, once it has read all lines.
#[test]
fn two_inside(rt: HostRuntime) -> Result<(), Fail> {
    let alloc = rt.alloc();
    let gate = HoldingGate {
        calls: AtomicU64::new(0),
        both: AtomicU64::new(0),
    };
    let plan = sums(alloc, 10, LatePolicy::Refuse)?;
    let mut input = source(alloc, FIRST, &[])?;
    let team = Team {
        rt: &rt,
        gate: &gate,
    };
    let ran = run(team, plan, 2, 1, &mut input, &[], &[])?;
    assert!(rt; said(&ran.end) == "done");
    assert!(rt; ran.rows.as_slice() == b"10,1,7\n20,1,4\n".as_slice());
    assert!(rt; gate.both.load(Ordering::SeqCst) == 1);
    Ok(())
}
