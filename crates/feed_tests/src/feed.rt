//! Giving out rows, by example.

ghost use Rattle.std.specs.Prelude.{◌≡◌, ◌<◌, All, IsTrue};

use sb_feeds::{
    CountTap, END_MARK, GiveStop, HeadTap, Key, MemSink, Printing, Record, Tap, give_out,
};
use std::alloc::{AllocError, Global};
use std::test::Fail;

fn row(time: u64, value: i64) -> Record {
    let key = Key::Number(1);
    Record { time, key, value }
}

/// Whether all rows are of times that rows may have.
fn are_timely(rows: &[Record]) -> bool
    ensures { IsTrue result → All (λ r. r.time < END_MARK) rows.now }
{
    rows.iter().all(|row| row.time < END_MARK)
}

/// A sink whose calls with these numbers fail.
fn sink(alloc: Global, failing: &[u64]) -> Result<MemSink, AllocError> {
    let failing = Vec::from_slice(alloc, failing)?;
    Ok(MemSink::new(alloc, Vec::new(alloc), failing))
}

/// There are two taps: one that has enough after one row, and behind it one that fails in some calls. Calls of the sink
/// that fail, those of the last tap that do, the answer, what is written, how many taps are left, and how many rows the
/// last one has seen.
type Case = (
    &'static [u64],
    &'static [u64],
    Result<(), GiveStop>,
    &'static [u8],
    usize,
    u64,
);

const CASES: [Case; 4] = [
    (&[], &[], Ok(()), b"10,1,7\n20,1,4\n", 1, 2),
    (&[2], &[1], Err(GiveStop::Output), b"10,1,7\n", 2, 0),
    // The place is that of the list as the row was offered.
    (
        &[],
        &[1],
        Err(GiveStop::Tap { place: 1 }),
        b"10,1,7\n20,1,4\n",
        1,
        0,
    ),
    (
        &[],
        &[2],
        Err(GiveStop::Tap { place: 0 }),
        b"10,1,7\n20,1,4\n",
        1,
        1,
    ),
];

/// Whether two rows are given out so.
fn gives(alloc: Global, case: &Case) -> Result<bool, Fail> {
    let (writes, calls, answer, text, left, seen) = case;
    let rows = [row(9, 7), row(19, 4)];
    let mut taps: Vec<Box<dyn Tap>> = Vec::new(alloc);
    taps.push(Box::new(alloc, HeadTap::new(1, sink(alloc, &[])?))?)?;
    let failing = Vec::from_slice(alloc, calls)?;
    taps.push(Box::new(alloc, CountTap::new(failing))?)?;
    let mut sink = sink(alloc, writes)?;
    if !are_timely(&rows) || taps.len() > 2 {
        return Ok(false);
    }
    let gave = give_out(&rows, &mut Printing::new(&mut sink), &mut taps);
    if gave != *answer || sink.taken() != *text || taps.len() != *left {
        return Ok(false);
    }
    Ok(taps.last().is_some_and(|tap| tap.seen() == *seen))
}

#[test]
fn rows_are_written_and_then_offered(rt: HostRuntime) -> Result<(), Fail> {
    for case in &CASES {
        assert!(rt; gives(rt.alloc(), case)?, "{case:?}");
    }
    Ok(())
}
