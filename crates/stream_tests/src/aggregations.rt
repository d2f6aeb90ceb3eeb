//! Aggregations worked by hand, part by part and closing by closing.

ghost use Rattle.std.specs.Prelude.{◌≡◌, ◌≤◌, ◌<◌, [], All, IsTrue, OnOk};
ghost use Rattle.sb_base.specs.windowed.Aggregates.{IsValid};
ghost use Rattle.sb_aggregate.specs.Groups.{IsLike};

use sb_aggregate::{Aggregate, part_of};
use sb_base::{Agg, END_MARK, Grouping, Key, NoMemory, Record, Windows, aggregated};
use std::alloc::Global;
use std::test::Fail;

// Two parts and a closing at a mark, then a late part and a closing of everything.
#[derive(Drop)]
struct Steps<'a> {
    first: &'a [Record],
    second: &'a [Record],
    mark: u64,
    late: &'a [Record],
}

// Whether no time is below the mark, and all are below the mark of the end.
fn is_timely(records: &[Record], mark: u64) -> bool
    ensures from { IsTrue result → All (λ r. mark ≤ r.time) records.now }
    ensures in_time { IsTrue result → All (λ r. r.time < END_MARK) records.now }
{
    records.iter().all(|r| mark <= r.time) && records.iter().all(|r| r.time < END_MARK)
}

// Makes a part of the records, and absorbs it.
fn absorb_records(
    alloc: Global,
    agg: Agg,
    windows: &Windows,
    aggregate: &mut Aggregate,
    records: &[Record],
) -> Result<(), NoMemory>
    requires valid { IsValid agg }
    requires like { IsLike aggregate.old (record { agg = agg; windows = windows.now; records = [] }) }
    requires from { All (λ r. aggregate.old.closed ≤ r.time) records.now }
    requires in_time { All (λ r. r.time < END_MARK) records.now }
    ensures like { OnOk result (IsLike aggregate.new (record { agg = agg; windows = windows.now; records = [] })) }
    ensures closed { OnOk result (aggregate.new.closed ≡ aggregate.old.closed) }
{
    aggregate.absorb(part_of(alloc, agg, windows, records)?)
}

fn rows_of_steps(
    alloc: Global,
    agg: Agg,
    windows: &Windows,
    steps: &Steps,
) -> Result<Vec<Record>, NoMemory> {
    let is_in_time = is_timely(steps.first, 0) && is_timely(steps.second, 0);
    if !agg.is_valid() || !is_in_time || !is_timely(steps.late, steps.mark) {
        return Err(NoMemory);
    }
    let mut aggregate = Aggregate::new(alloc, agg, *windows);
    absorb_records(alloc, agg, windows, &mut aggregate, steps.first)?;
    absorb_records(alloc, agg, windows, &mut aggregate, steps.second)?;
    let mut rows = aggregate.close(steps.mark)?;
    absorb_records(alloc, agg, windows, &mut aggregate, steps.late)?;
    let mut more = aggregate.close(u64::MAX)?;
    rows.append(&mut more)?;
    Ok(rows)
}

// Whether the rows have these times and values, in this order.
fn gives(
    alloc: Global,
    agg: Agg,
    windows: &Windows,
    steps: &Steps,
    want: &[(u64, i64)],
) -> Result<bool, NoMemory> {
    let rows = rows_of_steps(alloc, agg, windows, steps)?;
    let same = rows
        .iter()
        .zip(want)
        .all(|(row, w)| row.time == w.0 && row.value == w.1);
    Ok(same && rows.len() == want.len())
}

fn of_key(time: u64, value: i64) -> Record {
    let key = Key::Number(1);
    Record { time, key, value }
}

#[test]
fn sliding_windows(rt: HostRuntime) -> Result<(), Fail> {
    let alloc = rt.alloc();
    let windows = Windows::new(10, 5)?;
    let first = [of_key(3, 5), of_key(7, -1), of_key(12, 5)];
    let second = [of_key(7, 2), of_key(3, -1), of_key(4, 5)];
    let late = [of_key(10, 7), of_key(13, 7)];
    let steps = Steps {
        first: &first,
        second: &second,
        mark: 10,
        late: &late,
    };
    let swapped = Steps {
        first: &second,
        second: &first,
        mark: 10,
        late: &late,
    };
    let cases: [(Agg, &[(u64, i64)]); 6] = [
        (Agg::Count, &[(4, 3), (9, 5), (14, 5), (19, 3)]),
        (Agg::Sum, &[(4, 9), (9, 10), (14, 20), (19, 19)]),
        (Agg::Min, &[(4, -1), (9, -1), (14, -1), (19, 5)]),
        (Agg::Max, &[(4, 5), (9, 5), (14, 7), (19, 7)]),
        (Agg::Distinct, &[(4, 2), (9, 3), (14, 4), (19, 2)]),
        (
            Agg::Top(2),
            &[
                (4, 5),
                (4, 5),
                (9, 5),
                (9, 5),
                (14, 7),
                (14, 7),
                (19, 7),
                (19, 7),
            ],
        ),
    ];
    for (agg, want) in cases {
        assert!(rt; gives(alloc, agg, &windows, &steps, want)?, "{agg:?}");
        assert!(rt;
            gives(alloc, agg, &windows, &swapped, want)?,
            "{agg:?} swapped"
        );
    }
    Ok(())
}

#[test]
fn ends_of_the_range(rt: HostRuntime) -> Result<(), Fail> {
    let alloc = rt.alloc();
    let windows = Windows::new(10, 10)?;
    let first = [of_key(1, i64::MAX), of_key(2, i64::MIN)];
    let second = [of_key(3, i64::MIN), of_key(4, 1)];
    let late = [of_key(9, i64::MAX), of_key(10, i64::MIN)];
    let steps = Steps {
        first: &first,
        second: &second,
        mark: 9,
        late: &late,
    };
    let cases: [(Agg, &[(u64, i64)]); 6] = [
        (Agg::Count, &[(9, 5), (19, 1)]),
        (Agg::Sum, &[(9, -1), (19, i64::MIN)]),
        (Agg::Min, &[(9, i64::MIN), (19, i64::MIN)]),
        (Agg::Max, &[(9, i64::MAX), (19, i64::MIN)]),
        (Agg::Distinct, &[(9, 3), (19, 1)]),
        (
            Agg::Top(3),
            &[(9, 1), (9, i64::MAX), (9, i64::MAX), (19, i64::MIN)],
        ),
    ];
    for (agg, want) in cases {
        assert!(rt; gives(alloc, agg, &windows, &steps, want)?, "{agg:?}");
    }
    Ok(())
}

/// Whether an aggregate makes this of the values of a keyed window.
fn makes(alloc: Global, agg: Agg, values: &[i64], want: &[i64]) -> Result<bool, NoMemory> {
    let mut values = Vec::from_slice(alloc, values)?;
    aggregated(agg, &mut values)?;
    Ok(values.as_slice() == want)
}

const REPEATED: [i64; 5] = [3, -1, 3, 2, -1];

/// What each aggregate makes of [`REPEATED`].
const MADE: [(Agg, &[i64]); 8] = [
    (Agg::Count, &[5]),
    (Agg::Sum, &[6]),
    (Agg::Min, &[-1]),
    (Agg::Max, &[3]),
    (Agg::Distinct, &[3]),
    (Agg::Top(1), &[3]),
    (Agg::Top(3), &[3, 3, 2]),
    (Agg::Top(16), &[3, 3, 2, -1, -1]),
];

const FAR: [i64; 4] = [i64::MAX, i64::MIN, 1, i64::MAX];

/// What each aggregate makes of [`FAR`].
const MADE_OF_FAR: [(Agg, &[i64]); 5] = [
    (Agg::Sum, &[i64::MAX]),
    (Agg::Min, &[i64::MIN]),
    (Agg::Max, &[i64::MAX]),
    (Agg::Distinct, &[3]),
    (Agg::Top(2), &[i64::MAX, i64::MAX]),
];

#[test]
fn values_are_aggregated(rt: HostRuntime) {
    let alloc = rt.alloc();
    for (agg, want) in &MADE {
        assert!(rt; makes(alloc, *agg, &REPEATED, want) == Ok(true), "{agg:?}");
    }
    for (agg, want) in &MADE_OF_FAR {
        assert!(rt; makes(alloc, *agg, &FAR, want) == Ok(true), "{agg:?}");
    }
    assert!(rt; makes(alloc, Agg::Sum, &[i64::MAX, 1], &[i64::MIN]) == Ok(true));
    assert!(rt; makes(alloc, Agg::Count, &[], &[0]) == Ok(true));
    assert!(rt; makes(alloc, Agg::Max, &[], &[]) == Ok(true));
}

const VALID: [(Agg, bool); 5] = [
    (Agg::Count, true),
    (Agg::Top(0), false),
    (Agg::Top(1), true),
    (Agg::Top(16), true),
    (Agg::Top(17), false),
];

#[test]
fn numbers_of_the_greatest_are_1_to_16(rt: HostRuntime) {
    for (agg, is_valid) in &VALID {
        assert!(rt; agg.is_valid() == *is_valid, "{agg:?}");
    }
}
