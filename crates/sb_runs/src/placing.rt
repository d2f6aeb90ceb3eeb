//! The values of records, each placed at a keyed window: the first step of gathering a bundle.

ghost use Rattle.std.specs.Prelude.{◌≡◌, ◌<◌, ◌++◌, OnOk};
ghost use Rattle.sb_window.specs.records.Reorderings.{IsReordered};
ghost use Rattle.sb_runs.specs.Placed.{placed_first};

use sb_window::{END_MARK, KeyedWindow, NoMemory, Record, Windows};

/// Adds the value of a record at its pane, which ends where the first of its windows does.
///
/// # Errors
///
/// [`NoMemory`].
pub fn place(
    placed: &mut Vec<(KeyedWindow, i64)>,
    windows: &Windows,
    record: &Record,
) -> Result<(), NoMemory>
    requires { «record».now.time < END_MARK }
    ensures { OnOk result (placed.new.items ≡ placed.old.items ++ placed_first windows.now «record».now) }
{
    if let Some(end) = windows.ends(record.time).next() {
        let window = KeyedWindow {
            end,
            key: record.key,
        };
        placed.push((window, record.value))?;
    }
    Ok(())
}

/// Puts what is placed in the order of windows, so that each value is joined in one step. In which order values of one
/// window come then is not said.
pub fn sort_placed(placed: &mut Vec<(KeyedWindow, i64)>)
    ensures { IsReordered placed.new.items placed.old.items }
{
    placed.sort_unstable();
}
