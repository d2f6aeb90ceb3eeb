//! The sink step by step: rows that come, closings, and the rows that leave.

ghost use Rattle.std.specs.Prelude.{◌≤◌};

use sb_record::{Key, NoMemory, Record};
use sb_sink::SinkKept;
use sb_window::Grouping;
use std::alloc::Global;

/// A row of key 1: its time and its value.
type Row = (u64, i64);

/// The rows with these times and values.
fn rows_of(alloc: Global, cells: &[Row]) -> Result<Vec<Record>, NoMemory> {
    let mut rows = Vec::new(alloc);
    for (time, value) in cells {
        let key = Key::Number(1);
        let (time, value) = (*time, *value);
        rows.push(Record { time, key, value })?;
    }
    Ok(rows)
}

/// Whether a new sink that takes these rows gives those at a closing, and leaves so many.
fn gives(
    alloc: Global,
    rows: &[Row],
    mark: u64,
    want: &[Row],
    left: usize,
) -> Result<bool, NoMemory> {
    let want = rows_of(alloc, want)?;
    let mut sink = SinkKept::new(alloc);
    sink.absorb(rows_of(alloc, rows)?)?;
    let is_held = sink.held() == rows.len();
    Ok(is_held && sink.close(mark)? == want && sink.held() == left)
}

/// What a closing shows, the rows before it, its mark, the rows that it gives, and how many it leaves.
const CLOSINGS: [(&str, &[Row], u64, &[Row], usize); 6] = [
    ("below the mark", &[(3, 1)], 4, &[(3, 1)], 0),
    ("at the mark", &[(4, 1)], 4, &[], 1),
    ("above the mark", &[(5, 1)], 4, &[], 1),
    (
        "in order, those above kept",
        &[(7, 1), (3, 2), (3, 1), (1, 9), (4, 0)],
        4,
        &[(1, 9), (3, 1), (3, 2)],
        2,
    ),
    (
        "equal rows each time",
        &[(3, 1), (9, 1), (3, 1)],
        9,
        &[(3, 1), (3, 1)],
        1,
    ),
    (
        "the greatest mark",
        &[(3, 1), (2, 1)],
        u64::MAX,
        &[(2, 1), (3, 1)],
        0,
    ),
];

#[test]
fn rows_leave_in_order_once_the_mark_lies_above_them(rt: HostRuntime) {
    for (name, rows, mark, want, left) in &CLOSINGS {
        assert!(rt;
            gives(rt.alloc(), rows, *mark, want, *left) == Ok(true),
            "{name}"
        );
    }
}

/// Whether rows come and leave in turn as they should.
fn come_and_leave_in_turn(alloc: Global) -> Result<bool, NoMemory> {
    let mut sink = SinkKept::new(alloc);
    sink.absorb(rows_of(alloc, &[(5, 1), (2, 1)])?)?;
    let first = sink.close(3)? == rows_of(alloc, &[(2, 1)])?;
    sink.absorb(rows_of(alloc, &[(5, 0), (3, 1)])?)?;
    let is_held = sink.held() == 3;
    let second = sink.close(6)? == rows_of(alloc, &[(3, 1), (5, 0), (5, 1)])?;
    let is_empty = sink.held() == 0;
    let third = sink.close(9)?.is_empty();
    Ok(first && is_held && second && is_empty && third)
}

#[test]
fn rows_come_and_leave_in_turn(rt: HostRuntime) {
    assert!(rt; come_and_leave_in_turn(rt.alloc()) == Ok(true));
}
