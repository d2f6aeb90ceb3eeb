//! Runs over two record files, by example.

ghost use Rattle.std.specs.Prelude.{◌≤◌, length, IfOk};

use sb_base::{Combine, Down, Dropped, Kind, LatePolicy, Plan, Refusal, Step, Stream, Windows};
use sb_emit::{CountTap, Printing, Tap};
use sb_outside::MemSink;
use sb_run::{ByStream, MAX_FILE_LENGTH, MAX_WORKERS, OpenGate, Sizes, Team, TwoEnd, execute_two};
use std::alloc::{AllocError, Global};
use std::sync::Wait;
use std::test::Fail;
use std::thread::Threads;
use std::time::Clock;

/// What a run left: its end, the text of the rows that were written, and the late records of each file.
#[derive(Drop)]
struct Ran {
    end: TwoEnd,
    rows: Vec<u8>,
    dropped: ByStream<Vec<Dropped>>,
}

/// The join of both streams over windows of 10 units, which adds the values.
fn join_plan(alloc: Global) -> Result<Plan, Fail> {
    let kind = Kind::Join(Combine::Add, Windows::new(10, 10)?);
    let down = Down { node: 1, lane: 0 };
    let steps = vec![in alloc; Step { kind, down }]?;
    let (a, b) = (Down { node: 0, lane: 0 }, Down { node: 0, lane: 1 });
    let plan = Plan::new(steps, Some(a), Some(b)).ok_or("no plan")?;
    Ok(plan)
}

/// A record file with this text.
fn file_of(alloc: Global, text: &[u8]) -> Result<Vec<u8>, Fail>
    ensures { IfOk result (λ bytes. length bytes.items ≤ MAX_FILE_LENGTH) }
{
    if text.len() > MAX_FILE_LENGTH {
        return Err(Fail::new("too long a file"));
    }
    let bytes = Vec::from_slice(alloc, text)?;
    Ok(bytes)
}

/// Runs a plan over two files with so many workers. The writes with these numbers fail, and so does the tap at these
/// calls.
fn run_two<W: AllocGlobal + Threads + Wait + Clock + Sync>(
    rt: &W,
    plan: Plan,
    workers: u32,
    texts: (&[u8], &[u8]),
    writes: &[u64],
    calls: &[u64],
) -> Result<Ran, Fail>
    requires some_workers { 1 ≤ workers }
    requires most_workers { workers ≤ MAX_WORKERS }
{
    let sizes = Sizes {
        workers,
        bundle: 2,
        pending: 4,
        keeps_diaries: true,
    };
    let alloc = rt.alloc();
    let files = ByStream {
        a: file_of(alloc, texts.0)?,
        b: file_of(alloc, texts.1)?,
    };
    let mut sink = MemSink::new(alloc, Vec::new(alloc), Vec::from_slice(alloc, writes)?);
    let mut taps: Vec<Box<dyn Tap>> = Vec::new(alloc);
    taps.push(Box::new(alloc, CountTap::new(Vec::from_slice(alloc, calls)?))?)?;
    let mut dropped = ByStream {
        a: Vec::new(alloc),
        b: Vec::new(alloc),
    };
    let team = Team {
        rt,
        gate: &OpenGate,
    };
    let mut out = Printing::new(&mut sink);
    let end = execute_two(team, plan, sizes, files, &mut out, &mut taps, &mut dropped);
    let rows = Vec::from_slice(alloc, sink.taken())?;
    Ok(Ran { end, rows, dropped })
}

/// How a run ended, in words.
fn said(end: &TwoEnd) -> &'static str {
    match end {
        TwoEnd::Done(hand) => {
            if hand.is_settled() {
                "done"
            } else {
                "done too early"
            }
        }
        TwoEnd::Refused {
            stream: Stream::A,
            refusal: Refusal::Malformed { line: 3 },
        } => "file a: line 3",
        TwoEnd::Refused {
            stream: Stream::A,
            refusal: Refusal::Malformed { line: 1 },
        } => "file a: line 1",
        TwoEnd::Refused {
            stream: Stream::A,
            refusal: Refusal::WrongStream { line: 1 },
        } => "file a: line 1 is of stream b",
        TwoEnd::Refused {
            stream: Stream::B,
            refusal: Refusal::Malformed { line: 2 },
        } => "file b: line 2",
        TwoEnd::Refused { .. } => "another line is refused",
        TwoEnd::Output => "output failed",
        TwoEnd::Tap { place: 0 } => "tap 0 failed",
        TwoEnd::Tap { .. } => "another tap failed",
        TwoEnd::Memory => "out of memory",
    }
}

/// The lines of file a and those of file b, the rows and the end.
type Case = (&'static [u8], &'static [u8], &'static str, &'static str);

const CASES: [Case; 6] = [
    (
        b"r,a,3,1,5\nr,a,4,1,6\n",
        b"r,b,8,1,100\n",
        "10,1,105\n10,1,106\n",
        "done",
    ),
    (
        b"r,a,3,1,5\nw,a,10\nx\n",
        b"r,b,8,1,100\nw,b,10\nr,b,11,1,1\n",
        "10,1,105\n",
        "file a: line 3",
    ),
    (b"x\n", b"y\n", "", "file a: line 1"),
    (b"r,b,3,1,5\n", b"", "", "file a: line 1 is of stream b"),
    (
        b"r,a,3,1,5\nw,a,20\nr,a,21,1,7\nw,a,30\n",
        b"r,b,8,1,100\ny\n",
        "",
        "file b: line 2",
    ),
    (b"", b"", "", "done"),
];

/// Whether a run over these two files has these rows and this end.
fn gives<W: AllocGlobal + Threads + Wait + Clock + Sync>(
    rt: &W,
    workers: u32,
    texts: (&[u8], &[u8]),
    rows: &str,
    end: &str,
) -> Result<bool, Fail>
    requires some_workers { 1 ≤ workers }
    requires most_workers { workers ≤ MAX_WORKERS }
{
    let ran = run_two(rt, join_plan(rt.alloc())?, workers, texts, &[], &[])?;
    Ok(ran.rows.as_slice() == rows.as_bytes() && said(&ran.end) == end)
}

#[test]
fn rows_are_those_over_both_files(rt: HostRuntime) -> Result<(), Fail> {
    for (a, b, rows, end) in &CASES {
        for workers in [1, 2, 8] {
            let holds = gives(&rt, workers, (*a, *b), rows, end)?;
            assert!(rt; holds, "{workers} workers, {a:?} and {b:?}");
        }
    }
    Ok(())
}

/// So many records of a stream, at the times from 0 on.
fn records_text(alloc: Global, stream: char, count: u32) -> Result<Vec<u8>, AllocError> {
    let mut text = Vec::new(alloc);
    for n in 0..count {
        let line = format!(in alloc; "r,{stream},{n},1,{n}\n")?;
        text.extend_from_slice(line.as_bytes())?;
    }
    Ok(text)
}

/// The rows of record a,3,1,5 with those of stream b in its window.
const TEN_ROWS: &str =
    "10,1,5\n10,1,6\n10,1,7\n10,1,8\n10,1,9\n10,1,10\n10,1,11\n10,1,12\n10,1,13\n10,1,14\n";

#[test]
fn a_refused_file_does_not_stop_the_other(rt: HostRuntime) -> Result<(), Fail> {
    let alloc = rt.alloc();
    let mut b = records_text(alloc, 'b', 1_000)?;
    b.extend_from_slice(b"w,b,999\n")?;
    for workers in [1, 4] {
        let a = b"r,a,3,1,5\nw,a,2000\nx\n".as_slice();
        let texts = (a, b.as_slice());
        let holds = gives(&rt, workers, texts, TEN_ROWS, "file a: line 3")?;
        assert!(rt; holds, "{workers} workers");
    }
    Ok(())
}

/// A record at time 3 and the watermark 10 of a stream, and then many more records.
fn long_text(alloc: Global, stream: char) -> Result<Vec<u8>, AllocError> {
    let head = format!(in alloc; "r,{stream},3,1,5\nw,{stream},10\n")?;
    let mut text = Vec::from_slice(alloc, head.as_bytes())?;
    for n in 10..1_010u32 {
        let line = format!(in alloc; "r,{stream},{n},1,{n}\n")?;
        text.extend_from_slice(line.as_bytes())?;
    }
    Ok(text)
}

/// The writes that fail and the calls of the tap, the rows and the end.
type Fault = (&'static [u64], &'static [u64], &'static str, &'static str);

const FAULTS: [Fault; 2] = [
    (&[1], &[], "", "output failed"),
    (&[], &[1], "10,1,10\n", "tap 0 failed"),
];

/// Whether a run over two long files ends by a fault so.
fn ends_so<W: AllocGlobal + Threads + Wait + Clock + Sync>(
    rt: &W,
    fault: &Fault,
    workers: u32,
) -> Result<bool, Fail>
    requires some_workers { 1 ≤ workers }
    requires most_workers { workers ≤ MAX_WORKERS }
{
    let (writes, calls, rows, end) = fault;
    let alloc = rt.alloc();
    let (a, b) = (long_text(alloc, 'a')?, long_text(alloc, 'b')?);
    let texts = (a.as_slice(), b.as_slice());
    let ran = run_two(rt, join_plan(rt.alloc())?, workers, texts, writes, calls)?;
    Ok(ran.rows.as_slice() == rows.as_bytes() && said(&ran.end) == *end)
}

#[test]
fn faults_end_a_run_though_the_files_have_more(rt: HostRuntime) -> Result<(), Fail> {
    for fault in &FAULTS {
        for workers in [1, 4] {
            assert!(rt;
                ends_so(&rt, fault, workers)?,
                "{workers} workers, {fault:?}"
            );
        }
    }
    Ok(())
}

#[test]
fn late_records_are_listed_with_their_file(rt: HostRuntime) -> Result<(), Fail> {
    let alloc = rt.alloc();
    let plan = join_plan(alloc)?.with_late(LatePolicy::Drop);
    let a = b"w,a,10\nr,a,9,1,1\n".as_slice();
    let b = b"w,b,5\n# a comment\nr,b,4,1,1\nr,b,7,1,2\n".as_slice();
    let ran = run_two(&rt, plan, 2, (a, b), &[], &[])?;
    assert!(rt; said(&ran.end) == "done");
    let late = |line, time, mark| Dropped { line, time, mark };
    assert!(rt; ran.dropped.a.as_slice() == [late(2, 9, 10)].as_slice());
    assert!(rt; ran.dropped.b.as_slice() == [late(3, 4, 5)].as_slice());
    Ok(())
}
