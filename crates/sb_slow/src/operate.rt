//! What one transform gives for all the records that arrive at it.

ghost use Rattle.std.specs.Prelude.{◌≡◌, ◌≤◌, ◌<◌, ◌-◌, ◌++◌, [], All, map, unwrap_or, OnOk, IfOk, flat_map};
ghost use Rattle.std.specs.BTreeMap.{IsOrdered, get};
ghost use Rattle.sb_base.specs.window.Gatherings.{rows_of_entries};
ghost use Rattle.sb_base.specs.window.Windows.{keyed_window_cmp};
ghost use Rattle.sb_base.specs.pardo.Validity.{IsValid};
ghost use Rattle.sb_base.specs.pardo.Outputs.{outputs_of};
ghost use Rattle.sb_base.specs.windowed.Aggregates.{aggregate_rows, aggregate_values};
ghost use Rattle.sb_base.specs.windowed.Sessions as session_spec;
ghost use Rattle.sb_base.specs.windowed.Joins.{join_rows};
ghost use Rattle.sb_base.specs.pipeline.Operators as operators;
ghost use Rattle.sb_base.specs.pipeline.Plans.{IsValidKind};
ghost use Rattle.sb_slow.specs.Gathered.{rows_of_pairs};
ghost use Rattle.sb_slow.specs.Taken as taken;

use crate::gather::{values_by_session, values_by_window};
use crate::lanes::{all_records, of_lane};
use sb_base::{
    Agg, Combine, END_MARK, KeptRec, KeyedWindow, Kind, MAX_GAP, NoMemory, Op, Record, Sequence,
    Windows, aggregated, apply, pair_values,
};
use std::alloc::Global;
use std::collections::BTreeMap;

/// What a transform gives for what arrives at its node.
pub fn output(alloc: Global, kind: &Kind, elements: &[KeptRec]) -> Result<Vec<Record>, NoMemory>
    requires valid { IsValidKind kind.now }
    requires times { All (λ e. e.rec.time < END_MARK) elements.now }
    ensures { IfOk result (λ rows. rows.items ≡ operators.output (operators.operator_of kind.now) elements.now) }
{
    let (first, second) = inputs(alloc, kind, elements)?;
    given_for(alloc, kind, first, second)
}

/// The records that a transform takes first, and those that a join takes beside them.
fn inputs(
    alloc: Global,
    kind: &Kind,
    elements: &[KeptRec],
) -> Result<(Vec<Record>, Vec<Record>), NoMemory>
    ensures first { IfOk result (λ inputs. inputs.0.items ≡ taken.first_input kind.now elements.now) }
    ensures second { IfOk result (λ inputs. inputs.1.items ≡ taken.second_input kind.now elements.now) }
{
    if !kind.is_join() {
        return Ok((all_records(alloc, elements)?, Vec::new(alloc)));
    }
    let left = of_lane(alloc, 0, elements)?;
    let right = of_lane(alloc, 1, elements)?;
    Ok((left, right))
}

/// The lane whose records a transform takes first: lane 0 of a join, and all lanes of any other.
pub(crate) fn first_lane(kind: &Kind) -> Option<u32>
    ensures { result ≡ taken.first_lane kind.now }
{
    if kind.is_join() { Some(0) } else { None }
}

/// What a transform gives for the records that it takes first, and where it is a join for those that it takes beside
/// them.
pub(crate) fn given_for(
    alloc: Global,
    kind: &Kind,
    first: Vec<Record>,
    second: Vec<Record>,
) -> Result<Vec<Record>, NoMemory>
    requires valid { IsValidKind kind.now }
    requires first { All (λ r. r.time < END_MARK) first.items }
    requires second { All (λ r. r.time < END_MARK) second.items }
    ensures { IfOk result (λ rows. rows.items ≡ taken.given_for kind.now first.items second.items) }
{
    match kind {
        Kind::Do(op) => outputs(alloc, op, &first),
        Kind::Group(agg, windows) => aggregates(alloc, *agg, windows, first),
        Kind::Session(agg, gap) => session_rows(alloc, *agg, *gap, &first),
        Kind::Join(combine, windows) => pairs(alloc, *combine, windows, first, second),
    }
}

/// What an operation gives for each record.
fn outputs(alloc: Global, op: &Op, records: &[Record]) -> Result<Vec<Record>, NoMemory>
    requires { IsValid op.now }
    ensures { IfOk result (λ rows. rows.items ≡ flat_map (outputs_of op.now) records.now) }
{
    let mut rows = Vec::new(alloc);
    apply(op, records, &mut rows)?;
    Ok(rows)
}

/// The rows of an aggregation over records.
fn aggregates(
    alloc: Global,
    agg: Agg,
    windows: &Windows,
    records: Vec<Record>,
) -> Result<Vec<Record>, NoMemory>
    requires { All (λ r. r.time < END_MARK) records.items }
    ensures { IfOk result (λ rows. rows.items ≡ aggregate_rows agg windows.now records.items) }
{
    let values = values_by_window(alloc, windows, &records)?;
    drop(records);
    aggregates_of(alloc, agg, values)
}

/// The rows of the sessions of records.
pub fn session_rows(
    alloc: Global,
    agg: Agg,
    gap: u64,
    records: &[Record],
) -> Result<Vec<Record>, NoMemory>
    requires gap { gap ≤ MAX_GAP }
    requires times { All (λ r. r.time < END_MARK) records.now }
    ensures { IfOk result (λ rows. rows.items ≡ session_spec.session_rows agg gap records.now) }
{
    let values = values_by_session(alloc, gap, records)?;
    aggregates_of(alloc, agg, values)
}

/// The rows of each keyed window, or session, with its values.
fn aggregates_of(
    alloc: Global,
    agg: Agg,
    values: BTreeMap<KeyedWindow, Sequence<i64>>,
) -> Result<Vec<Record>, NoMemory>
    ensures rows { IfOk result (λ rows. rows.items ≡ rows_of_entries (aggregate_values agg) values.entries) }
    ensures ordered { IsOrdered keyed_window_cmp values }
{
    let mut rows = Vec::new(alloc);
    for (window, values) in values {
        let mut values = values.into_vec();
        aggregated(agg, &mut values)?;
        push_rows(&window, &values, &mut rows)?;
    }
    Ok(rows)
}

/// The rows of a join over the records of its two inputs.
fn pairs(
    alloc: Global,
    combine: Combine,
    windows: &Windows,
    left: Vec<Record>,
    right: Vec<Record>,
) -> Result<Vec<Record>, NoMemory>
    requires left { All (λ r. r.time < END_MARK) left.items }
    requires right { All (λ r. r.time < END_MARK) right.items }
    ensures { IfOk result (λ rows. rows.items ≡ join_rows combine windows.now left.items right.items) }
{
    let left_values = values_by_window(alloc, windows, &left)?;
    drop(left);
    let right_values = values_by_window(alloc, windows, &right)?;
    drop(right);
    pairs_of(alloc, combine, left_values, &right_values)
}

/// The rows of each keyed window that has values on the left.
fn pairs_of(
    alloc: Global,
    combine: Combine,
    left: BTreeMap<KeyedWindow, Sequence<i64>>,
    right: &BTreeMap<KeyedWindow, Sequence<i64>>,
) -> Result<Vec<Record>, NoMemory>
    ensures rows { IfOk result
        (λ rows. rows.items ≡ rows_of_pairs combine (get keyed_window_cmp right.now) left.entries) }
    ensures ordered { IsOrdered keyed_window_cmp left }
{
    let mut rows = Vec::new(alloc);
    let mut values = Vec::new(alloc);
    for (window, left) in left {
        values.clear();
        let right = values_of(right, &window);
        pair_values(combine, left.as_slice(), right, &mut values)?;
        push_rows(&window, &values, &mut rows)?;
    }
    Ok(rows)
}

/// The values of a keyed window, none where nothing was gathered.
fn values_of<'a>(
    values: &'a BTreeMap<KeyedWindow, Sequence<i64>>,
    window: &KeyedWindow,
) -> &'a [i64]
    ensures { result.now ≡ unwrap_or (get keyed_window_cmp values.now window.now) [] }
{
    match values.get(window) {
        Some(values) => values.as_slice(),
        None => &[],
    }
}

/// Appends a row of a keyed window for each value.
fn push_rows(window: &KeyedWindow, values: &[i64], rows: &mut Vec<Record>) -> Result<(), NoMemory>
    ensures { OnOk result
        (rows.new.items
        ≡ rows.old.items
        ++ map (λ v. record { time = window.now.end - 1; key = window.now.key; value = v }) values.now) }
{
    for value in values {
        rows.push(Record {
            time: window.end.saturating_sub(1),
            key: window.key,
            value: *value,
        })?;
    }
    Ok(())
}
