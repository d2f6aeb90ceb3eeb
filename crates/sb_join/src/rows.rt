//! The rows of the windows that close.

ghost use Rattle.std.specs.Prelude.{◌≡◌, ◌-◌, ◌++◌, map, OnOk, IfOk};
ghost use Rattle.sb_runs.specs.Merged.{merged};
ghost use Rattle.sb_runs.specs.records.Records.{sorted_records};
ghost use Rattle.sb_runs.specs.records.Reorderings.{IsReordered};
ghost use Rattle.sb_runs.specs.window.Gatherings.{rows_of_entries};
ghost use Rattle.sb_join.specs.Entries.{combined_values};

use crate::side_values::{SideJoiner, SideValues};
use sb_runs::{Closed, KeyedWindow, NoMemory, Record};
use sb_windowed::{Combine, pair_values};

/// The rows of all pairs of the keyed windows that closed, in order.
///
/// # Errors
///
/// [`NoMemory`].
pub(crate) fn rows_of(
    joiner: &SideJoiner,
    combine: Combine,
    closed: Closed<SideJoiner>,
) -> Result<Vec<Record>, NoMemory>
    ensures { IfOk result (λ rows. rows.items ≡ sorted_records (rows_of_entries (combined_values combine)
        (merged (λ v w. v ++ w) closed.0 closed.1))) }
{
    let alloc = joiner.alloc;
    let mut waiting = closed;
    let mut rows = Vec::with_capacity(alloc, waiting.most())?;
    let mut left = Vec::new(alloc);
    let mut right = Vec::new(alloc);
    let mut pairs = Vec::new(alloc);
    'windows: while let Some((window, both)) = waiting.next(joiner)? {
        pair_up(combine, &both, &mut left, &mut right, &mut pairs)?;
        push_rows(&window, &pairs, &mut rows)?;
    }
    sort_rows(&mut rows);
    Ok(rows)
}

// Puts the combined values of a keyed window, in order, in place of what is in a vector. The others are for the values
// of its sides. As windows are in order, all rows are then, and sorting them is only a look.
fn pair_up(
    combine: Combine,
    both: &SideValues,
    left: &mut Vec<i64>,
    right: &mut Vec<i64>,
    pairs: &mut Vec<i64>,
) -> Result<(), NoMemory>
    ensures { OnOk result (IsReordered pairs.new.items (combined_values combine both.now)) }
{
    both.split_into(left, right)?;
    pairs.clear();
    pair_values(combine, left, right, pairs)?;
    pairs.sort_unstable();
    Ok(())
}

// Appends a row of a keyed window for each value.
fn push_rows(window: &KeyedWindow, values: &[i64], rows: &mut Vec<Record>) -> Result<(), NoMemory>
    ensures { OnOk result (rows.new.items ≡ rows.old.items
        ++ map (λ v. record { time = window.now.end - 1; key = window.now.key; value = v }) values.now) }
{
    for value in values {
        rows.push(Record {
            time: window.end.saturating_sub(1),
            key: window.key,
            value: *value,
        })?;
    }
    Ok(())
}

fn sort_rows(rows: &mut Vec<Record>)
    ensures { rows.new.items ≡ sorted_records rows.old.items }
{
    rows.sort_unstable();
}
