//! Whole runs with one worker and with several, by example.

ghost use Rattle.std.specs.Prelude.{◌≤◌, All, IfOk};

use sb_base::{
    Agg, Down, Dropped, Kind, LatePolicy, MAX_BUNDLE, Op, Plan, Refusal, Sequence, Step, Windows,
};
use sb_emit::{CountTap, Printing, Tap};
use sb_outside::{MemSink, MemSource};
use sb_run::{Gate, MAX_WORKERS, OpenGate, RunEnd, Sizes, Team, execute, execute_alone};
use std::alloc::{AllocError, Global};
use std::sync::Wait;
use std::test::Fail;
use std::thread::Threads;
use std::time::Clock;

/// What a run left: its end, the text of the rows that were written, and the late records that were dropped.
#[derive(Drop)]
pub(crate) struct Ran {
    pub(crate) end: RunEnd,
    pub(crate) rows: Vec<u8>,
    dropped: Vec<Dropped>,
}

/// The sums of stream a over windows of 10 units that start so many units apart.
pub(crate) fn sums(alloc: Global, every: u64, late: LatePolicy) -> Result<Plan, Fail> {
    let kind = Kind::Group(Agg::Sum, Windows::new(10, every)?);
    let down = Down { node: 1, lane: 0 };
    let steps = vec![in alloc; Step { kind, down }]?;
    let plan = Plan::new(steps, Some(Down { node: 0, lane: 0 }), None).ok_or("no plan")?;
    Ok(plan.with_late(late))
}

/// A source that gives the bytes in pieces of 27, and whose calls with these numbers fail.
pub(crate) fn source(alloc: Global, text: &[u8], failing: &[u64]) -> Result<MemSource, AllocError> {
    let bytes = Vec::from_slice(alloc, text)?;
    let failing = Vec::from_slice(alloc, failing)?;
    Ok(MemSource::new(bytes, pieces(alloc)?, failing))
}

fn pieces(alloc: Global) -> Result<Vec<usize>, AllocError>
    ensures { IfOk result (λ pieces. All (λ n. 1 ≤ n) pieces.items) }
{
    vec![in alloc; 27; 20]
}

/// Workers whose gate is open.
fn open<W>(rt: &W) -> Team<'_, W, OpenGate> {
    Team {
        rt,
        gate: &OpenGate,
    }
}

/// Runs a plan with so many workers, who pass the gate, and bundles of a size. The writes with these numbers fail, and
/// so does the tap at these calls.
pub(crate) fn run<W: AllocGlobal + Threads + Wait + Clock + Sync, G: Gate + Sync>(
    team: Team<'_, W, G>,
    plan: Plan,
    workers: u32,
    bundle: u32,
    input: &mut MemSource,
    writes: &[u64],
    calls: &[u64],
) -> Result<Ran, AllocError>
    requires some { 1 ≤ bundle }
    requires most { bundle ≤ MAX_BUNDLE }
    requires some_workers { 1 ≤ workers }
    requires most_workers { workers ≤ MAX_WORKERS }
{
    let sizes = Sizes {
        workers,
        bundle,
        pending: 4,
        keeps_diaries: true,
    };
    let alloc = team.rt.alloc();
    let mut sink = MemSink::new(alloc, Vec::new(alloc), Vec::from_slice(alloc, writes)?);
    let mut taps: Vec<Box<dyn Tap>> = Vec::new(alloc);
    taps.push(Box::new(alloc, CountTap::new(Vec::from_slice(alloc, calls)?))?)?;
    let mut dropped = Vec::new(alloc);
    let mut out = Printing::new(&mut sink);
    let end = if workers == 1 {
        execute_alone(alloc, plan, sizes, input, &mut out, &mut taps, &mut dropped)
    } else {
        execute(team, plan, sizes, input, &mut out, &mut taps, &mut dropped)
    };
    let rows = Vec::from_slice(alloc, sink.taken())?;
    Ok(Ran { end, rows, dropped })
}

/// How a run ended, in words.
pub(crate) fn said(end: &RunEnd) -> &'static str {
    match end {
        RunEnd::Done(hand) => {
            if hand.is_settled() {
                "done"
            } else {
                "done too early"
            }
        }
        RunEnd::Refused(
            Refusal::Late {
                line: 4,
                time: 9,
                mark: 10,
            },
        ) => "line 4 is late",
        RunEnd::Refused(
            Refusal::Back {
                line: 2,
                time: 9,
                mark: 10,
            },
        ) => "line 2 goes back",
        RunEnd::Refused(_) => "another line is refused",
        RunEnd::Input => "input failed",
        RunEnd::Output => "output failed",
        RunEnd::Tap { place: 0 } => "tap 0 failed",
        RunEnd::Tap { .. } => "another tap failed",
        RunEnd::Memory => "out of memory",
    }
}

pub(crate) const FIRST: &[u8] = b"r,a,3,1,5\nr,a,7,1,2\nw,a,10\nr,a,12,1,4\n";

const LATE: &[u8] = b"r,a,3,1,5\nw,a,10\nr,a,12,1,4\nr,a,9,1,1\n";

/// Lines of an input, how far apart windows start, the rows and the end.
type Case = (&'static [u8], u64, &'static str, &'static str);

const CASES: [Case; 8] = [
    (FIRST, 10, "10,1,7\n20,1,4\n", "done"),
    (b"", 10, "", "done"),
    (b"w,a,10\nr,a,10,1,1\n", 10, "20,1,1\n", "done"),
    (LATE, 10, "10,1,5\n", "line 4 is late"),
    (b"w,a,10\nw,a,10\nr,a,11,1,1\n", 10, "20,1,1\n", "done"),
    (b"w,a,10\nw,a,9\n", 10, "", "line 2 goes back"),
    (b"r,a,7,1,2\n", 5, "10,1,2\n15,1,2\n", "done"),
    (b"r,a,5,1,2\n", 5, "10,1,2\n15,1,2\n", "done"),
];

/// Whether a run with so many workers and bundles of this size has the rows and the end of a case.
fn gives<W: AllocGlobal + Threads + Wait + Clock + Sync>(
    rt: &W,
    case: &Case,
    workers: u32,
    bundle: u32,
) -> Result<bool, Fail>
    requires some { 1 ≤ bundle }
    requires most { bundle ≤ MAX_BUNDLE }
    requires some_workers { 1 ≤ workers }
    requires most_workers { workers ≤ MAX_WORKERS }
{
    let (lines, every, rows, end) = case;
    let alloc = rt.alloc();
    let plan = sums(alloc, *every, LatePolicy::Refuse)?;
    let mut input = source(alloc, lines, &[])?;
    let ran = run(open(rt), plan, workers, bundle, &mut input, &[], &[])?;
    Ok(ran.rows.as_slice() == rows.as_bytes() && said(&ran.end) == *end)
}

#[test]
fn rows_do_not_depend_on_the_size_of_bundles(rt: HostRuntime) -> Result<(), Fail> {
    for case in &CASES {
        for bundle in [1, 2, 1_024] {
            assert!(rt; gives(&rt, case, 1, bundle)?, "{case:?}");
        }
    }
    Ok(())
}

#[test]
fn rows_do_not_depend_on_the_number_of_workers(rt: HostRuntime) -> Result<(), Fail> {
    for case in &CASES {
        for workers in [2, 4, 8] {
            for bundle in [1, 2, 1_024] {
                assert!(rt; gives(&rt, case, workers, bundle)?, "{case:?}");
            }
        }
    }
    Ok(())
}

/// The reads that fail, the writes and the calls of the tap, the rows and the end.
type Fault = (
    &'static [u64],
    &'static [u64],
    &'static [u64],
    &'static str,
    &'static str,
);

const FAULTS: [Fault; 3] = [
    (&[2], &[], &[], "10,1,7\n", "input failed"),
    (&[], &[2], &[], "10,1,7\n", "output failed"),
    (&[], &[], &[2], "10,1,7\n20,1,4\n", "tap 0 failed"),
];

/// Whether a run with so many workers ends by a fault so.
fn ends_so<W: AllocGlobal + Threads + Wait + Clock + Sync>(
    rt: &W,
    fault: &Fault,
    workers: u32,
) -> Result<bool, Fail>
    requires some_workers { 1 ≤ workers }
    requires most_workers { workers ≤ MAX_WORKERS }
{
    let (reads, writes, calls, rows, end) = fault;
    let alloc = rt.alloc();
    let plan = sums(alloc, 10, LatePolicy::Refuse)?;
    let mut input = source(alloc, FIRST, reads)?;
    let ran = run(open(rt), plan, workers, 1, &mut input, writes, calls)?;
    Ok(ran.rows.as_slice() == rows.as_bytes() && said(&ran.end) == *end)
}

#[test]
fn faults_end_a_run_of_several_workers(rt: HostRuntime) -> Result<(), Fail> {
    for fault in &FAULTS {
        assert!(rt; ends_so(&rt, fault, 4)?, "{fault:?}");
    }
    Ok(())
}

#[test]
fn faults_end_a_run_behind_what_was_written(rt: HostRuntime) -> Result<(), Fail> {
    for fault in &FAULTS {
        assert!(rt; ends_so(&rt, fault, 1)?, "{fault:?}");
    }
    let first_row: Fault = (&[], &[], &[1], "10,1,7\n", "tap 0 failed");
    assert!(rt; ends_so(&rt, &first_row, 1)?);
    Ok(())
}

#[test]
fn late_records_are_listed_if_the_plan_drops_them(rt: HostRuntime) -> Result<(), Fail> {
    let alloc = rt.alloc();
    let plan = sums(alloc, 10, LatePolicy::Drop)?;
    let mut input = source(alloc, LATE, &[])?;
    let ran = run(open(&rt), plan, 1, 2, &mut input, &[], &[])?;
    assert!(rt; ran.rows.as_slice() == b"10,1,5\n20,1,4\n".as_slice());
    assert!(rt; said(&ran.end) == "done");
    let late = Dropped {
        line: 4,
        time: 9,
        mark: 10,
    };
    assert!(rt; ran.dropped.as_slice() == [late].as_slice());
    Ok(())
}

/// The sums over windows of 10 of what an expansion by 0 alone gives.
fn sums_of_expanded(alloc: Global) -> Result<Plan, Fail> {
    let expand = Kind::Do(Op::Expand(Sequence::new(vec![in alloc; 0]?)));
    let sum = Kind::Group(Agg::Sum, Windows::new(10, 10)?);
    let steps = vec![in alloc;
        Step {
            kind: expand,
            down: Down { node: 1, lane: 0 }
        },
        Step {
            kind: sum,
            down: Down { node: 2, lane: 0 }
        },
    ]?;
    let plan = Plan::new(steps, Some(Down { node: 0, lane: 0 }), None).ok_or("no plan")?;
    Ok(plan)
}

/// How often the lanes of all nodes but the first have looked for a container in a run that is done.
fn searches_below(alloc: Global, end: RunEnd) -> Result<Vec<u64>, Fail> {
    let RunEnd::Done(hand) = end else {
        return Err("not done".into());
    };
    let parts = hand.into_parts();
    let mut searches = Vec::new(alloc);
    for node in parts.nodes.iter().skip(1) {
        for lane in &node.lanes {
            searches.push(lane.searches())?;
        }
    }
    Ok(searches)
}

#[test]
fn one_worker_looks_for_a_container_once_in_an_epoch(rt: HostRuntime) -> Result<(), Fail> {
    let alloc = rt.alloc();
    let plan = sums_of_expanded(alloc)?;
    let mut input = source(alloc, FIRST, &[])?;
    let ran = run(open(&rt), plan, 1, 1, &mut input, &[], &[])?;
    let Ran { end, rows, .. } = ran;
    assert!(rt; rows.as_slice() == b"10,1,7\n20,1,4\n".as_slice());
    assert!(rt; searches_below(alloc, end)?.as_slice() == [2, 2].as_slice());
    Ok(())
}
