//! Rows put in order, and cut off at a time.

ghost use Rattle.std.specs.Prelude.{◌≡◌, OnOk, OnErr};
ghost use Rattle.sb_base.specs.records.Records.{before, sorted_records};

use sb_base::{NoMemory, Record};
use std::alloc::AllocError;

/// Keeps the rows with a time below the mark, and puts them in order.
///
/// # Errors
///
/// [`NoMemory`] if there is no memory for putting them in order; those below the mark are kept as they stood.
pub fn sort_below(rows: &mut Vec<Record>, mark: u64) -> Result<(), NoMemory>
    ensures ok { OnOk result (rows.new.items ≡ sorted_records (before mark rows.old.items)) }
    ensures err { OnErr result (rows.new.items ≡ before mark rows.old.items) }
{
    keep_below(rows, mark);
    sort_rows(rows)?;
    Ok(())
}

fn keep_below(rows: &mut Vec<Record>, mark: u64)
    ensures { rows.new.items ≡ before mark rows.old.items }
{
    rows.retain(|row| row.time < mark);
}

fn sort_rows(rows: &mut Vec<Record>) -> Result<(), AllocError>
    ensures ok { OnOk result (rows.new.items ≡ sorted_records rows.old.items) }
    ensures err { OnErr result (rows.new.items ≡ rows.old.items) }
{
    rows.sort()?;
    Ok(())
}
