//! The rows of partial values.

ghost use Rattle.std.specs.Prelude.{◌≡◌, true, OnOk, IfOk};
ghost use Rattle.sb_runs.specs.records.Records.{sorted_records};
ghost use Rattle.sb_runs.specs.window.Gatherings.{rows_of_entries};
ghost use Rattle.sb_aggregate.specs.Partials.{final_values, is_single, join_values};
ghost use Rattle.sb_runs.specs.Merged.{merged};

use crate::partial::{PartialJoiner, push_row};
use crate::single::SingleJoiner;
use sb_runs::{Closed, NoMemory, Record};
use std::alloc::Global;

/// The rows of what closed, in order.
///
/// # Errors
///
/// [`NoMemory`].
pub(crate) fn rows_of(
    joiner: &PartialJoiner,
    closed: Closed<PartialJoiner>,
) -> Result<Vec<Record>, NoMemory>
    ensures { IfOk result (λ rows. rows.items ≡ sorted_records (rows_of_entries (final_values joiner.now.agg)
        (merged (join_values joiner.now.agg) closed.0 closed.1))) }
{
    let mut left = closed;
    let mut rows = Vec::with_capacity(joiner.alloc, left.most())?;
    'windows: while let Some((window, partial)) = left.next(joiner)? {
        partial.push_rows(joiner.alloc, joiner.agg, &window, &mut rows)?;
    }
    sort_rows(&mut rows)?;
    Ok(rows)
}

/// The same, where partial values are single numbers.
///
/// # Errors
///
/// [`NoMemory`].
pub(crate) fn rows_of_singles(
    alloc: Global,
    joiner: &SingleJoiner,
    closed: Closed<SingleJoiner>,
) -> Result<Vec<Record>, NoMemory>
    requires { is_single joiner.now ≡ true }
    ensures { IfOk result (λ rows. rows.items ≡ sorted_records (rows_of_entries (final_values joiner.now)
        (merged (join_values joiner.now) closed.0 closed.1))) }
{
    let mut left = closed;
    let mut rows = Vec::with_capacity(alloc, left.most())?;
    'windows: while let Some(single) = left.next(joiner)? {
        push_row(&single.window(), single.value, &mut rows)?;
    }
    sort_rows(&mut rows)?;
    Ok(rows)
}

fn sort_rows(rows: &mut Vec<Record>) -> Result<(), NoMemory>
    ensures { OnOk result (rows.new.items ≡ sorted_records rows.old.items) }
{
    rows.sort()?;
    Ok(())
}
