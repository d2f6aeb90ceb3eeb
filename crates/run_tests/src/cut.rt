//! What no clause says: worked rows of an input that is cut and goes on.

ghost use Rattle.std.specs.Prelude.{◌≤◌, IfOk, IfSome, length};
ghost use Rattle.sb_run.specs.checkpoint.Saved.{items_in};
ghost use Rattle.sb_run.specs.alone.RunEnds.{AreSizes};

use sb_base::{Refusal, Stop, sum_plan};
use sb_emit::Printing;
use sb_outside::{MemSink, MemSource};
use sb_run::{
    CutEnd, MAX_WORKERS, RowsFrom, RunEnd, Saved, Sizes, has_session, run_part, run_rest, save,
    write_checkpoint,
};
use std::alloc::{AllocError, Global};
use std::sync::Wait;
use std::test::Fail;
use std::thread::Threads;
use std::time::Clock;

const FIRST: &[u8] = b"r,a,3,1,5\nw,a,10\nr,a,12,1,4\n";

const SAVED: &[u8] = b"checkpoint 3 10\nr,a,3,1,5\nr,a,12,1,4\nw,a,10\nend 3\n";

const REFUSED: Refusal = Refusal::Late {
    line: 3,
    time: 9,
    mark: 10,
};

/// A source of these bytes, of which the reads with these numbers fail.
fn source(alloc: Global, text: &[u8], failing: &[u64]) -> Result<MemSource, AllocError> {
    let bytes = Vec::from_slice(alloc, text)?;
    let failing = Vec::from_slice(alloc, failing)?;
    Ok(MemSource::new(bytes, Vec::new(alloc), failing))
}

fn sink(alloc: Global) -> MemSink {
    MemSink::new(alloc, Vec::new(alloc), Vec::new(alloc))
}

/// What is saved of an input, for sums over windows of 10.
fn saved_part(alloc: Global, input: &mut MemSource) -> Result<Option<Saved>, Fail>
    ensures { IfOk result (λ some. IfSome some (λ s. length (items_in s.checkpoint) ≤ s.checkpoint.lines)) }
{
    let plan = sum_plan(alloc, 10).map_err(|_| AllocError)?;
    if has_session(&plan) {
        return Ok(None);
    }
    let mut dropped = Vec::new(alloc);
    let saved = save(alloc, &plan, input, &mut dropped).map_err(|_| AllocError)?;
    Ok(Some(saved))
}

/// An input, the reads of it that fail, why reading stops, and the text of the checkpoint.
type Part = (&'static [u8], &'static [u64], Stop, &'static [u8]);

const PARTS: [Part; 5] = [
    (FIRST, &[], Stop::End, SAVED),
    // A rest behind the last line feed is no line.
    (
        b"r,a,3,1,5\nw,a,10\nr,a,12,1,4\nr,a,13",
        &[],
        Stop::End,
        SAVED,
    ),
    (
        b"r,a,3,1,5\nw,a,50\nw,a,60\n",
        &[],
        Stop::End,
        b"checkpoint 3 60\nw,a,60\nend 1\n",
    ),
    (
        b"r,a,3,1,5\nw,a,10\nr,a,9,1,1\n",
        &[],
        Stop::Refused(REFUSED),
        b"checkpoint 2 10\nr,a,3,1,5\nw,a,10\nend 2\n",
    ),
    (FIRST, &[2], Stop::Fault, SAVED),
];

/// Whether this is saved of a first part.
fn saves(alloc: Global, part: &Part) -> Result<bool, Fail> {
    let (text, failing, stop, want) = part;
    let mut input = source(alloc, text, failing)?;
    let Some(saved) = saved_part(alloc, &mut input)? else {
        return Ok(false);
    };
    let mut sink = sink(alloc);
    let is_written = write_checkpoint(&saved.checkpoint, &mut sink) == Ok(());
    Ok(is_written && saved.stop == *stop && sink.taken() == *want)
}

#[test]
fn what_is_saved_of_a_first_part(rt: HostRuntime) -> Result<(), Fail> {
    for part in &PARTS {
        assert!(rt; saves(rt.alloc(), part)?, "{part:?}");
    }
    Ok(())
}

/// Sizes of a run by so many workers.
fn sizes(workers: u32) -> Sizes
    ensures { AreSizes result }
{
    Sizes {
        workers: workers.clamp(1, MAX_WORKERS),
        bundle: 2,
        pending: 4,
        keeps_diaries: false,
    }
}

/// An input, the reads of it that fail, and how a run over it as a first part ends.
type FirstPart = (&'static [u8], &'static [u64], CutEnd);

const FIRST_PARTS: [FirstPart; 4] = [
    (FIRST, &[], CutEnd::Done),
    (b"r,a,3,1,5\nw,a,10\nr,a,12,1,4\nr,a,13", &[], CutEnd::Done),
    (
        b"r,a,3,1,5\nw,a,10\nr,a,9,1,1\n",
        &[],
        CutEnd::Refused(REFUSED),
    ),
    (FIRST, &[2], CutEnd::Input),
];

/// Whether a run over a first part ends so, and writes the row below its low watermark.
fn ends_so<W: AllocGlobal + Threads + Wait + Clock + Sync>(
    rt: &W,
    part: &FirstPart,
    workers: u32,
) -> Result<bool, Fail> {
    let (text, failing, end) = part;
    let alloc = rt.alloc();
    let plan = sum_plan(alloc, 10)?;
    let mut input = source(alloc, text, failing)?;
    let mut sink = sink(alloc);
    let mut out = Printing::new(&mut sink);
    let mut dropped = Vec::new(alloc);
    let sizes = sizes(workers);
    let ended = run_part(rt, plan, sizes, &mut input, &mut out, &mut dropped);
    Ok(ended == *end && sink.taken() == b"10,1,5\n".as_slice())
}

#[test]
fn a_first_part_writes_the_rows_below_its_low_watermark(rt: HostRuntime) -> Result<(), Fail> {
    for part in &FIRST_PARTS {
        for workers in [1, 2] {
            assert!(rt; ends_so(&rt, part, workers)?, "{workers} workers, {part:?}");
        }
    }
    Ok(())
}

/// Whether a run ended with this refusal, or with none where there is none.
fn is_end(end: &RunEnd, refusal: Option<Refusal>) -> bool {
    match end {
        RunEnd::Done(_) => refusal.is_none(),
        RunEnd::Refused(found) => refusal == Some(*found),
        _ => false,
    }
}

/// What comes after the first part, the refusal of it, and the rows.
type Rest = (&'static [u8], Option<Refusal>, &'static [u8]);

const RESTS: [Rest; 2] = [
    (b"r,a,13,1,1\n", None, b"20,1,5\n"),
    (
        b"r,a,9,1,1\n",
        Some(Refusal::Late {
            line: 4,
            time: 9,
            mark: 10,
        }),
        b"",
    ),
];

/// Whether a run that goes on after the first part ends so, and writes these rows.
fn goes_on<W: AllocGlobal + Threads + Wait + Clock + Sync>(
    rt: &W,
    rest: &Rest,
    workers: u32,
) -> Result<bool, Fail> {
    let (text, refusal, rows) = rest;
    let alloc = rt.alloc();
    let mut first = source(alloc, FIRST, &[])?;
    let Some(saved) = saved_part(alloc, &mut first)? else {
        return Ok(false);
    };
    let plan = sum_plan(alloc, 10)?;
    let mut input = source(alloc, text, &[])?;
    let mut sink = sink(alloc);
    let low = saved.checkpoint.low;
    let mut out = RowsFrom::new(low, Printing::new(&mut sink));
    let mut dropped = Vec::new(alloc);
    let end = run_rest(
        rt,
        plan,
        sizes(workers),
        saved.checkpoint,
        &mut input,
        &mut out,
        &mut dropped,
    );
    Ok(is_end(&end, *refusal) && sink.taken() == *rows)
}

#[test]
fn the_rest_writes_the_rows_from_there_on(rt: HostRuntime) -> Result<(), Fail> {
    for rest in &RESTS {
        for workers in [1, 2] {
            assert!(rt; goes_on(&rt, rest, workers)?, "{workers} workers, {rest:?}");
        }
    }
    Ok(())
}
