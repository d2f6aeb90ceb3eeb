//! A closing: the sessions that end by a mark.

ghost use Rattle.std.specs.Prelude.{◌≡◌, ◌≤◌, ◌++◌, ℕ, true, false, All, map, IfOk, OnOk};
ghost use Rattle.std.specs.BTreeMap.{IsOrdered};
ghost use Rattle.sb_session.specs.Kept.{keyed_time_cmp};
ghost use Rattle.sb_session.specs.Kept.{kept_of, AreFull};
ghost use Rattle.sb_session.specs.Candidates.{AreDue};
ghost use Rattle.sb_session.specs.Closings as spec;

use crate::keyed_time::KeyedTime;
use crate::times::{first_between, take_below};
use sb_windowed::{Agg, KeyedWindow, NoMemory, Record, Sequence, aggregated};
use std::alloc::Global;
use std::collections::BTreeMap;

// Whether the key has a time less than the gap before the end, so that the candidate's session goes on to a later end.
fn goes_on(times: &BTreeMap<KeyedTime, Sequence<i64>>, session: &KeyedWindow, gap: u64) -> bool
    requires some { 1 ≤ gap }
    requires fits { gap ≤ session.now.end }
    ensures yes { result ≡ true → spec.GoesOn gap times.now session.now }
    ensures no { result ≡ false → spec.IsSilent gap times.now session.now }
    ensures ordered { IsOrdered keyed_time_cmp times.now }
{
    first_between(times, session.end - gap + 1, session).is_some()
}

// Appends the rows of a session with these values.
fn push_rows(
    agg: Agg,
    session: &KeyedWindow,
    mut values: Vec<i64>,
    rows: &mut Vec<Record>,
) -> Result<(), NoMemory>
    ensures { OnOk result (rows.new.items ≡ rows.old.items ++ spec.rows_of agg session.now values.items) }
{
    if values.is_empty() {
        return Ok(());
    }
    aggregated(agg, &mut values)?;
    push_values(session, &values, rows)
}

// Appends a row of a session for each value.
fn push_values(
    session: &KeyedWindow,
    values: &[i64],
    rows: &mut Vec<Record>,
) -> Result<(), NoMemory>
    ensures { OnOk result (rows.new.items ≡ rows.old.items
        ++ map (spec.row_of session.now) values.now) }
{
    for value in values {
        rows.push(Record {
            time: session.end.saturating_sub(1),
            key: session.key,
            value: *value,
        })?;
    }
    Ok(())
}

// A candidate: where its session has ended, its rows are appended, and its values leave.
fn close_one(
    alloc: Global,
    agg: Agg,
    gap: u64,
    times: &mut BTreeMap<KeyedTime, Sequence<i64>>,
    session: &KeyedWindow,
    rows: &mut Vec<Record>,
) -> Result<(), NoMemory>
    requires some { 1 ≤ gap }
    requires fits { gap ≤ session.now.end }
    ensures closes { OnOk result
        (spec.ClosesOne agg gap times.old session.now rows.old.items times.new rows.new.items) }
    ensures ordered { OnOk result (IsOrdered keyed_time_cmp times.old) }
{
    if goes_on(times, session, gap) {
        return Ok(());
    }
    let values = take_below(alloc, times, session)?;
    push_rows(agg, session, values, rows)
}

// The candidates of a closing, one after another.
pub(crate) fn close_due(
    alloc: Global,
    agg: Agg,
    gap: u64,
    times: &mut BTreeMap<KeyedTime, Sequence<i64>>,
    due: Vec<KeyedWindow>,
) -> Result<Vec<Record>, NoMemory>
    requires some { 1 ≤ gap }
    requires fits { All (λ q. gap ≤ q.end) due.items }
    ensures closed { IfOk result (λ rows.
        (mark : ℕ) → AreDue gap mark (kept_of times.old.entries) due.items → AreFull times.old
        → spec.IsClosed agg gap mark (kept_of times.old.entries) due.items rows.items
        (kept_of times.new.entries)) }
    ensures full { OnOk result (AreFull times.old → AreFull times.new) }
{
    let mut rows = Vec::new(alloc);
    for session in due {
        close_one(alloc, agg, gap, times, &session, &mut rows)?;
    }
    Ok(rows)
}
