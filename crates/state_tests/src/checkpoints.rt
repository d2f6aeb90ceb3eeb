//! What no clause says: worked rows, and that calls succeed.

ghost use Rattle.std.specs.Prelude.{◌≡◌, ◌≤◌, ◌<◌, All, IsTrue};

use sb_checkpoint::{
    Checkpoint, Cutoff, Resumed, RowsFrom, StreamRec, checkpoint_of, has_session, reach,
    write_checkpoint,
};
use sb_emit::{Printing, RowOut};
use sb_outside::{MemSink, MemSource, Source, SourceFault};
use sb_pipeline::{Down, Kind, Plan, Step, sum_plan};
use sb_record::{END_MARK, Item, Key, Record, Stream};
use sb_windowed::Agg;
use std::alloc::{AllocError, Global};
use std::test::Fail;

/// A record of stream a with key 1.
fn record(time: u64, value: i64) -> Item {
    Item::Rec(Stream::A, row(time, value))
}

fn record_of_a(time: u64, value: i64) -> StreamRec {
    StreamRec {
        stream: Stream::A,
        rec: row(time, value),
    }
}

/// A watermark of stream a.
fn mark(time: u64) -> Item {
    Item::Mark(Stream::A, time)
}

/// No pieces: what a source or a sink has without a limit.
fn no_pieces(alloc: Global) -> Vec<usize>
    ensures { All (λ n. 1 ≤ n) result.items }
{
    Vec::new(alloc)
}

pub(crate) fn sink(alloc: Global) -> MemSink {
    MemSink::new(alloc, no_pieces(alloc), Vec::new(alloc))
}

/// A source of these bytes, of which the calls with these numbers fail.
fn source_of(alloc: Global, bytes: &[u8], failing: Vec<u64>) -> Result<MemSource, AllocError> {
    let bytes = Vec::from_slice(alloc, bytes)?;
    Ok(MemSource::new(bytes, no_pieces(alloc), failing))
}

/// The text of the checkpoint of these items, one of each line, for sums over windows of 10.
fn checkpoint_sink(alloc: Global, items: &[Item]) -> Result<MemSink, Fail> {
    let plan = sum_plan(alloc, 10).map_err(|_| AllocError)?;
    let mut sink = sink(alloc);
    if !has_session(&plan) {
        let lines = items.len() as u64;
        let checkpoint = checkpoint_of(alloc, &plan, items, lines).map_err(|_| AllocError)?;
        write_checkpoint(&checkpoint, &mut sink).map_err(|_| AllocError)?;
    }
    Ok(sink)
}

#[test]
fn texts_of_checkpoints(rt: HostRuntime) -> Result<(), Fail> {
    let late = Item::Late {
        line: 3,
        time: 29,
        mark: 30,
    };
    let cases: [(&[Item], &[u8]); 6] = [
        (
            &[record(3, 5), mark(10), record(12, 4)],
            b"checkpoint 3 10\nr,a,3,1,5\nr,a,12,1,4\nw,a,10\nend 3\n",
        ),
        (
            &[record(3, 5), mark(50), mark(60)],
            b"checkpoint 3 60\nw,a,60\nend 1\n",
        ),
        (&[], b"checkpoint 0 0\nend 0\n"),
        // A comment and a dropped record are lines, and nothing is kept of them.
        (
            &[Item::Skip, mark(30), late, record(30, -2)],
            b"checkpoint 4 30\nr,a,30,1,-2\nw,a,30\nend 2\n",
        ),
        // A record as far before the low watermark as the window is long is kept, and one before it is not.
        (
            &[record(20, 1), record(19, 1), mark(30)],
            b"checkpoint 3 30\nr,a,20,1,1\nw,a,30\nend 2\n",
        ),
        // A watermark at 0 is as good as none.
        (
            &[mark(0), record(0, 1)],
            b"checkpoint 2 0\nr,a,0,1,1\nend 1\n",
        ),
    ];
    for (items, want) in cases {
        assert!(rt; checkpoint_sink(rt.alloc(), items)?.taken() == want);
    }
    Ok(())
}

/// All bytes of a source that is read in pieces of at most so many, up to the first fault.
fn bytes_of<S: Source>(alloc: Global, source: &mut S, piece: usize) -> Result<Vec<u8>, AllocError> {
    let mut room = [0u8; 16];
    let mut bytes = Vec::new(alloc);
    for _ in 0..200 {
        if let Ok(count) = source.read(&mut room[..piece.clamp(1, 16)])
            && let Some(given) = room.get(..count)
        {
            bytes.extend_from_slice(given)?;
        }
    }
    Ok(bytes)
}

const KEPT_AND_REST: &[u8] = b"r,a,3,1,5\nr,a,12,1,4\nw,a,10\nr,a,13,1,1";

/// What was kept of so many lines, and then the rest.
fn resumed(alloc: Global, lines: u64) -> Result<Resumed<MemSource>, AllocError>
    requires { 3 ≤ lines }
{
    let rest = source_of(alloc, b"r,a,13,1,1", Vec::new(alloc))?;
    let records = vec![in alloc; record_of_a(3, 5), record_of_a(12, 4)]?;
    let checkpoint = Checkpoint {
        lines,
        low: 10,
        records,
        mark_a: 10,
        mark_b: 0,
    };
    Ok(Resumed::new(checkpoint, rest))
}

/// Whether what was kept, of so many lines, and then the rest, read in pieces of at most so many bytes, is this.
fn comes_as(alloc: Global, lines: u64, piece: usize, want: &[u8]) -> Result<bool, AllocError>
    requires { 3 ≤ lines }
{
    let mut source = resumed(alloc, lines)?;
    let bytes = bytes_of(alloc, &mut source, piece)?;
    Ok(bytes.as_slice() == want)
}

/// Whether so many comments are taken of so many lines, and none is left.
fn are_taken(alloc: Global, lines: u64, count: u32) -> Result<bool, AllocError>
    requires { 3 ≤ lines }
{
    let mut source = resumed(alloc, lines)?;
    let taken = source.take_comments();
    let bytes = bytes_of(alloc, &mut source, 16)?;
    Ok(taken == count && bytes.as_slice() == KEPT_AND_REST)
}

#[test]
fn what_was_kept_comes_before_the_rest(rt: HostRuntime) {
    let cases: [(u64, &[u8]); 2] = [
        (3, KEPT_AND_REST),
        (5, b"#\n#\nr,a,3,1,5\nr,a,12,1,4\nw,a,10\nr,a,13,1,1"),
    ];
    for (lines, want) in cases {
        for piece in [1, 7, 16] {
            assert!(rt;
                comes_as(rt.alloc(), lines, piece, want) == Ok(true),
                "{lines} lines in pieces of {piece}"
            );
        }
    }
}

#[test]
fn all_comments_are_taken_at_once(rt: HostRuntime) {
    let cases: [(u64, u32); 3] = [(3, 0), (5, 2), (4_294_967_295, 4_294_967_292)];
    for (lines, count) in cases {
        assert!(rt;
            are_taken(rt.alloc(), lines, count) == Ok(true),
            "{lines} lines"
        );
    }
}

/// The calls of a source that is cut off, their answers, and whether it has then ended.
const CALLS: [(&str, Result<usize, SourceFault>, bool); 5] = [
    ("a fault of the source", Err(SourceFault), false),
    ("what there is", Ok(2), false),
    ("the end", Err(SourceFault), true),
    ("behind the end", Ok(0), true),
    ("again", Ok(0), true),
];

#[test]
fn the_end_of_a_first_part_is_a_fault(rt: HostRuntime) -> Result<(), Fail> {
    let alloc = rt.alloc();
    let mut source = Cutoff::new(source_of(alloc, b"ab", vec![in alloc; 1]?)?);
    let mut room = [0u8; 8];
    for (what, answer, ended) in &CALLS {
        let is_so = source.read(&mut room) == *answer && source.ended() == *ended;
        assert!(rt; is_so, "{what}");
    }
    assert!(rt; source.into_source().faults() == 1);
    Ok(())
}

fn row(time: u64, value: i64) -> Record
    ensures { result.time ≡ time }
{
    let key = Key::Number(1);
    Record { time, key, value }
}

/// Whether all rows are of times that rows may have.
fn are_timely(rows: &[Record]) -> bool
    ensures { IsTrue result → All (λ r. r.time < END_MARK) rows.now }
{
    rows.iter().all(|row| row.time < END_MARK)
}

/// Whether this is the text of the rows that are not below a low watermark.
fn gives_later(alloc: Global, low: u64, rows: &[Record], want: &[u8]) -> bool {
    let mut sink = sink(alloc);
    let mut out = RowsFrom::new(low, Printing::new(&mut sink));
    if !are_timely(rows) || out.rows(rows) != Ok(()) || out.finish() != Ok(()) {
        return false;
    }
    sink.taken() == want
}

/// A low watermark, and the text of the rows that are not below it.
const LATER: [(u64, &[u8]); 4] = [
    (0, b"4,1,1\n10,1,5\n10,1,2\n11,1,1\n20,1,4\n21,1,8\n"),
    (10, b"11,1,1\n20,1,4\n21,1,8\n"),
    (20, b"21,1,8\n"),
    (21, b""),
];

#[test]
fn rows_below_low_are_left_out(rt: HostRuntime) {
    let rows = [
        row(3, 1),
        row(9, 5),
        row(9, 2),
        row(10, 1),
        row(19, 4),
        row(20, 8),
    ];
    for (low, want) in &LATER {
        assert!(rt; gives_later(rt.alloc(), *low, &rows, want), "{low}");
    }
}

#[test]
fn plans_reach_as_far_as_all_their_windows(rt: HostRuntime) -> Result<(), Fail> {
    let plan = sum_plan(rt.alloc(), 10).map_err(|_| AllocError)?;
    if !has_session(&plan) {
        assert!(rt; reach(&plan) == 10);
    }
    let place = Down { node: 0, lane: 0 };
    let by_session = Step {
        kind: Kind::Session(Agg::Sum, 5),
        down: Down { node: 1, lane: 0 },
    };
    let plan = Plan::new(vec![in rt.alloc(); by_session]?, Some(place), None);
    let Some(plan) = plan else {
        assert!(rt; false, "a plan of sessions");
        return Ok(());
    };
    assert!(rt; has_session(&plan));
    Ok(())
}
