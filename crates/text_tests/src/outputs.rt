//! Outputs and taps, by example.

ghost use Rattle.std.specs.Prelude.{◌≡◌, ◌≤◌, ◌<◌, All, IsTrue};

use sb_emit::{CountTap, HeadTap, Printing, RowOut, Summary, Tap, TapFault, TapStop, Wish, offer};
use sb_outside::{MemSink, Sink, SinkFault};
use sb_record::{END_MARK, Key, MAX_TIME, Record};
use std::alloc::{AllocError, Global};
use std::test::Fail;

fn row(time: u64, number: u64, value: i64) -> Record
    ensures { result.time ≡ time }
{
    let key = Key::Number(number);
    Record { time, key, value }
}

/// No pieces: what a sink takes at a call has no limit.
fn no_pieces(alloc: Global) -> Vec<usize>
    ensures { All (λ n. 1 ≤ n) result.items }
{
    Vec::new(alloc)
}

/// A sink that takes all that it is offered, but for calls with these numbers, which fail.
fn sink(alloc: Global, failing: &[u64]) -> Result<MemSink, AllocError> {
    let failing = Vec::from_slice(alloc, failing)?;
    Ok(MemSink::new(alloc, no_pieces(alloc), failing))
}

/// A sink in memory that counts its writes.
#[derive(Drop)]
struct CountsWrites {
    sink: MemSink,
    writes: u32,
}

impl Sink for CountsWrites {
    ghost use Rattle.std.specs.Prelude.{Some};
    ghost use Rattle.sb_outside.specs.MemoryForms.{state_of};

    ghost taken = { λ s. Some s.sink.taken };

    ghost sink_state = { λ s. state_of s.sink };

    fn write(&mut self, piece: &[u8]) -> Result<usize, SinkFault> {
        self.writes = self.writes.saturating_add(1);
        self.sink.write(piece)
    }

    fn finish(&mut self) -> Result<(), SinkFault> {
        self.sink.finish()
    }
}

/// A sink that takes all that it is offered and counts its writes.
fn counting(alloc: Global) -> CountsWrites {
    CountsWrites {
        sink: MemSink::new(alloc, no_pieces(alloc), Vec::new(alloc)),
        writes: 0,
    }
}

/// Whether all rows are of times that rows may have.
fn are_timely(rows: &[Record]) -> bool
    ensures { IsTrue result → All (λ r. r.time < END_MARK) rows.now }
{
    rows.iter().all(|row| row.time < END_MARK)
}

/// Gives rows to an output in calls of so many rows each.
fn give<R: RowOut>(out: &mut R, mut rows: &[Record], calls: &[usize]) -> Result<(), SinkFault> {
    for count in calls {
        let (first, rest) = rows.split_at((*count).min(rows.len()));
        if are_timely(first) {
            out.rows(first)?;
        }
        rows = rest;
    }
    out.finish()
}

/// Whether rows in calls of so many rows each are printed by two writes, of all rows of a window together.
fn is_printed_by_two_writes(alloc: Global, calls: &[usize]) -> bool {
    let rows = [row(9, 1, 7), row(9, 2, -8), row(19, 1, 4)];
    let mut sink = counting(alloc);
    give(&mut Printing::new(&mut sink), &rows, calls) == Ok(())
        && sink.sink.taken() == b"10,1,7\n10,2,-8\n20,1,4\n".as_slice()
        && sink.writes == 2
}

#[test]
fn the_rows_of_a_window_are_written_together(rt: HostRuntime) {
    for calls in [[3].as_slice(), &[2, 1], &[0, 2, 0, 1]] {
        assert!(rt; is_printed_by_two_writes(rt.alloc(), calls), "{calls:?}");
    }
}

/// Whether so many of the longest rows, of 58 bytes each, are printed by so many writes.
fn is_printed_by(alloc: Global, count: usize, writes: u32) -> Result<bool, AllocError>
    requires { count ≤ 300 }
{
    let rows = vec![in alloc; row(MAX_TIME, 1_000_000_000_000_000_000, i64::MIN); count]?;
    let mut sink = counting(alloc);
    Ok(
        give(&mut Printing::new(&mut sink), &rows, &[count]) == Ok(())
            && sink.sink.taken().len() == 58 * count
            && sink.writes == writes,
    )
}

/// A row is gathered behind at most 8,129 bytes, so 141 rows are written together.
#[test]
fn a_large_window_takes_few_writes(rt: HostRuntime) {
    for (count, writes) in [(141, 1), (142, 2), (282, 2), (300, 3)] {
        assert!(rt;
            is_printed_by(rt.alloc(), count, writes) == Ok(true),
            "{count}"
        );
    }
}

/// Whether a sink whose call of this number fails has taken this text of two rows.
fn fails_behind(alloc: Global, failing: u64, text: &[u8]) -> Result<bool, AllocError> {
    let rows = [row(9, 1, 7), row(19, 1, 4)];
    let mut sink = sink(alloc, &[failing])?;
    let given = give(&mut Printing::new(&mut sink), &rows, &[2]);
    Ok(given == Err(SinkFault::Failed) && sink.taken() == text && sink.faults() == 1)
}

#[test]
fn a_sink_that_fails_has_taken_the_rows_before(rt: HostRuntime) {
    for (failing, taken) in [
        (1, b"".as_slice()),
        (2, b"10,1,7\n"),
        // The third call is that of `finish`.
        (3, b"10,1,7\n20,1,4\n"),
    ] {
        assert!(rt;
            fails_behind(rt.alloc(), failing, taken) == Ok(true),
            "{failing}"
        );
    }
}

/// How many rows there are, and their sums.
fn sums_of(rows: &[Record]) -> (u64, i64, i64) {
    let mut out = Summary::new();
    let _ = give(&mut out, rows, &[1, 2]);
    (out.count(), out.sum(), out.check())
}

#[test]
fn sums_wrap(rt: HostRuntime) {
    let (most, least) = (i64::MAX, i64::MIN);
    assert!(rt; sums_of(&[]) == (0, 0, 0));
    // 10 * 7 - 10 * 3 + 20 * 4
    let rows = [row(9, 1, 7), row(9, 2, -3), row(19, 1, 4)];
    assert!(rt; sums_of(&rows) == (3, 8, 120));
    // 2^63 - 1 + 1, and 1 * (2^63 - 1) + 2 * 1
    let rows = [row(0, 1, most), row(1, 1, 1)];
    assert!(rt; sums_of(&rows) == (2, least, least + 1));
    // -2^63 - 2^63, and -11 * 2^63 - 10 * 2^63, of which -2^63 is left
    let rows = [row(10, 1, least), row(9, 1, least)];
    assert!(rt; sums_of(&rows) == (2, 0, least));
}

/// Taps in a list.
type Taps = Vec<Box<dyn Tap>>;

/// How many rows each tap has seen.
fn have_seen(taps: &Taps, seen: &[u64]) -> bool {
    taps.len() == seen.len()
        && taps
            .iter()
            .zip(seen)
            .all(|(tap, count)| tap.seen() == *count)
}

/// Whether a row that is offered gets this answer, and each tap that stays has then seen so many rows.
fn is_offered(taps: &mut Taps, answer: Result<(), TapStop>, seen: &[u64]) -> bool {
    taps.len() <= 3 && offer(taps, &row(9, 1, 7)) == answer && have_seen(taps, seen)
}

/// The answer where the tap at place 1 fails.
const FAILED: Result<(), TapStop> = Err(TapStop::Failed { place: 1 });

#[test]
fn a_tap_goes_once_it_has_enough(rt: HostRuntime) -> Result<(), Fail> {
    let alloc = rt.alloc();
    let mut taps: Taps = Vec::new(alloc);
    taps.push(Box::new(alloc, HeadTap::new(1, sink(alloc, &[])?))?)?;
    taps.push(Box::new(alloc, CountTap::new(Vec::new(alloc)))?)?;
    taps.push(Box::new(alloc, HeadTap::new(2, sink(alloc, &[])?))?)?;
    for seen in [[1, 1].as_slice(), &[2], &[3]] {
        assert!(rt; is_offered(&mut taps, Ok(()), seen));
    }
    Ok(())
}

#[test]
fn a_tap_that_fails_is_named_by_its_place(rt: HostRuntime) -> Result<(), Fail> {
    let alloc = rt.alloc();
    let mut taps: Taps = Vec::new(alloc);
    taps.push(Box::new(alloc, CountTap::new(Vec::new(alloc)))?)?;
    taps.push(Box::new(alloc, CountTap::new(vec![in alloc; 1, 3]?))?)?;
    for (answer, seen) in [(FAILED, [1, 0]), (Ok(()), [2, 1]), (FAILED, [3, 1])] {
        assert!(rt; is_offered(&mut taps, answer, &seen));
    }
    Ok(())
}

/// The place is that of the list as the offer began, before the first tap was dropped.
#[test]
fn a_tap_before_the_one_that_fails_goes_at_once(rt: HostRuntime) -> Result<(), Fail> {
    let alloc = rt.alloc();
    let mut taps: Taps = Vec::new(alloc);
    taps.push(Box::new(alloc, HeadTap::new(1, sink(alloc, &[])?))?)?;
    taps.push(Box::new(alloc, HeadTap::new(9, sink(alloc, &[1])?))?)?;
    assert!(rt; is_offered(&mut taps, FAILED, &[0]));
    Ok(())
}

#[test]
fn a_head_is_written_row_by_row(rt: HostRuntime) -> Result<(), AllocError> {
    let mut tap = HeadTap::new(2, sink(rt.alloc(), &[2])?);
    for (value, answer, seen) in [
        (7, Ok(Wish::More), 1),
        (8, Err(TapFault::Failed), 1),
        (9, Ok(Wish::Enough), 2),
        (0, Ok(Wish::Enough), 3),
    ] {
        assert!(rt; tap.row(&row(9, 1, value)) == answer && tap.seen() == seen);
    }
    assert!(rt; tap.into_sink().taken() == b"10,1,7\n10,1,9\n10,1,0\n".as_slice());
    Ok(())
}
