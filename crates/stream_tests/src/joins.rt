//! Joins step by step: records on both sides and closings, and the rows that come out.

ghost use Rattle.std.specs.Prelude.{◌≡◌, ◌≤◌};

use sb_base::{Combine, END_MARK, Grouping, Key, NoMemory, Record, Side, Windows, pair_values};
use sb_join::{JoinKept, join_part_of};
use std::alloc::{AllocError, Global};

/// What happens to a join.
#[derive(Clone, Copy)]
enum Step {
    /// A record of this time, number as key, and value comes on a side.
    Arrives(Side, u64, u64, i64),
    /// Windows are closed at this mark.
    Closes(u64),
}

/// The rows of all closings, for a join that subtracts and has windows of size 10.
fn rows_after(alloc: Global, windows: Windows, steps: &[Step]) -> Result<Vec<Record>, NoMemory>
    requires { windows.size ≡ windows.every }
{
    let mut join = JoinKept::new(alloc, Combine::Sub, windows);
    let mut closed = 0;
    let mut rows = Vec::new(alloc);
    for step in steps {
        match *step {
            Step::Arrives(side, time, key, value) => {
                if closed <= time && time < END_MARK {
                    let record = Record {
                        time,
                        key: Key::Number(key),
                        value,
                    };
                    join.absorb(join_part_of(alloc, &windows, side, &[record])?)?;
                }
            }
            Step::Closes(mark) => {
                if closed <= mark {
                    let mut closing = join.close(mark)?;
                    rows.append(&mut closing)?;
                    closed = mark;
                }
            }
        }
    }
    Ok(rows)
}

fn left(time: u64, key: u64, value: i64) -> Step {
    Step::Arrives(Side::Left, time, key, value)
}

fn right(time: u64, key: u64, value: i64) -> Step {
    Step::Arrives(Side::Right, time, key, value)
}

/// Whether a join that subtracts and has windows of size 10 gives these rows: their times, keys and values.
fn gives(alloc: Global, steps: &[Step], want: &[(u64, u64, i64)]) -> Result<bool, NoMemory> {
    let Ok(windows) = Windows::new(10, 10) else {
        return Ok(false);
    };
    let rows = rows_after(alloc, windows, steps)?;
    let are_so = rows.iter().zip(want).all(|(row, (time, key, value))| {
        row.time == *time && row.key == Key::Number(*key) && row.value == *value
    });
    Ok(are_so && rows.len() == want.len())
}

#[test]
fn pairs_come_out_once_their_window_closes(rt: HostRuntime) {
    let alloc = rt.alloc();
    // The left record first.
    assert!(rt;
        gives(
            alloc,
            &[left(1, 1, 10), right(2, 1, 3), Step::Closes(10)],
            &[(9, 1, 7)]
        ) == Ok(true)
    );
    // The right record first.
    assert!(rt;
        gives(
            alloc,
            &[right(2, 1, 3), left(1, 1, 10), Step::Closes(10)],
            &[(9, 1, 7)]
        ) == Ok(true)
    );
    // Each with each, in order.
    assert!(rt;
        gives(
            alloc,
            &[
                left(1, 1, 1),
                left(2, 1, 20),
                right(3, 1, 5),
                right(3, 1, 9),
                Step::Closes(10)
            ],
            &[(9, 1, -8), (9, 1, -4), (9, 1, 11), (9, 1, 15)]
        ) == Ok(true)
    );
    // Two windows, by two closings.
    assert!(rt;
        gives(
            alloc,
            &[
                left(9, 1, 1),
                right(10, 1, 4),
                right(9, 1, 1),
                left(19, 1, 4),
                Step::Closes(10),
                Step::Closes(20)
            ],
            &[(9, 1, 0), (19, 1, 0)]
        ) == Ok(true)
    );
    // Two keys.
    assert!(rt;
        gives(
            alloc,
            &[
                left(1, 2, 20),
                left(1, 1, 10),
                right(1, 1, 1),
                right(1, 2, 2),
                Step::Closes(10)
            ],
            &[(9, 1, 9), (9, 2, 18)]
        ) == Ok(true)
    );
    // A closing between the records of a pair.
    assert!(rt;
        gives(
            alloc,
            &[
                left(1, 1, 10),
                Step::Closes(5),
                right(6, 1, 4),
                Step::Closes(9),
                Step::Closes(10)
            ],
            &[(9, 1, 6)]
        ) == Ok(true)
    );
    // A record at the mark is of the next window.
    assert!(rt;
        gives(
            alloc,
            &[
                left(9, 1, 10),
                Step::Closes(10),
                right(10, 1, 4),
                Step::Closes(20)
            ],
            &[]
        ) == Ok(true)
    );
    // Other keys, and one side alone.
    assert!(rt;
        gives(
            alloc,
            &[
                left(1, 1, 10),
                right(1, 2, 4),
                right(11, 1, 3),
                Step::Closes(u64::MAX)
            ],
            &[]
        ) == Ok(true)
    );
}

#[test]
fn the_joint_mark_is_the_smaller(rt: HostRuntime) {
    let alloc = rt.alloc();
    if let Ok(windows) = Windows::new(10, 10) {
        let mut join = JoinKept::new(alloc, Combine::Add, windows);
        assert!(rt; join.low_mark() == 0);
        assert!(rt; join.mark(Side::Left, 7) == 0);
        assert!(rt; join.mark(Side::Right, 5) == 5);
        assert!(rt; join.mark(Side::Right, 9) == 7);
        assert!(rt; join.mark(Side::Left, 9) == 9);
        assert!(rt; join.low_mark() == 9);
    }
}

/// How two values are combined, and what that gives.
const COMBINED: [(Combine, i64, i64, i64); 15] = [
    (Combine::Add, 2, 3, 5),
    (Combine::Add, i64::MAX, 1, i64::MIN),
    (Combine::Add, i64::MIN, -1, i64::MAX),
    (Combine::Sub, 2, 3, -1),
    (Combine::Sub, i64::MIN, 1, i64::MAX),
    (Combine::Sub, 0, i64::MIN, i64::MIN),
    (Combine::Mul, -2, 3, -6),
    (Combine::Mul, i64::MAX, 2, -2),
    (Combine::Mul, i64::MIN, -1, i64::MIN),
    (Combine::Min, i64::MIN, i64::MAX, i64::MIN),
    (Combine::Min, 3, -3, -3),
    (Combine::Max, i64::MIN, i64::MAX, i64::MAX),
    (Combine::Max, 3, -3, 3),
    (Combine::Left, i64::MIN, i64::MAX, i64::MIN),
    (Combine::Right, i64::MIN, i64::MAX, i64::MAX),
];

#[test]
fn values_of_a_pair_are_combined(rt: HostRuntime) {
    for (combine, left, right, want) in &COMBINED {
        assert!(rt;
            combine.combine(*left, *right) == *want,
            "{combine:?} {left} {right}"
        );
    }
}

/// Whether the differences of these values are appended, left by left.
fn are_paired(values: &mut Vec<i64>, left: &[i64], right: &[i64]) -> bool {
    pair_values(Combine::Sub, left, right, values) == Ok(())
}

#[test]
fn pairs_left_by_left(rt: HostRuntime) -> Result<(), AllocError> {
    let mut values = vec![in rt.alloc(); 7]?;
    assert!(rt; are_paired(&mut values, &[10, 20], &[1, 2, 3]));
    assert!(rt; are_paired(&mut values, &[], &[1]));
    assert!(rt; are_paired(&mut values, &[1], &[]));
    assert!(rt; values.as_slice() == [7, 9, 8, 7, 19, 18, 17].as_slice());
    Ok(())
}
