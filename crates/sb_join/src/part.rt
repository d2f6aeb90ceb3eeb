//! Parts of a join: what a worker makes of a bundle outside of any turn.

ghost use Rattle.std.specs.Prelude.{◌≡◌, IfOk, map};
ghost use Rattle.sb_runs.specs.Placed.{placed_value};
ghost use Rattle.sb_runs.specs.Runs.{found};
ghost use Rattle.sb_runs.specs.window.declared.keyed_window.KeyedWindow.{KeyedWindow as Window};
ghost use Rattle.sb_join.specs.Kept.{IsInTime};

use crate::side_values::{SideJoiner, SideValues};
use sb_runs::{KeyedWindow, NoMemory, Record, Run, Trail, Windows, place, sort_placed};
use sb_windowed::Side;
use std::alloc::Global;
use std::marker::Model;

/// The values of records that came on one side of a join, by keyed window. Contracts see it as these records.
#[derive(Drop)]
pub struct JoinPart {
    windows: Windows,
    side: Side,
    pub(crate) values: Run<SideJoiner>,
    records: Trail<Record>,
}

impl Model for JoinPart {
    ghost use Rattle.sb_join.specs.Entries.{HasPart};
    ghost use Rattle.sb_join.specs.Kept.{OneSided};

    ghost Value = { OneSided };

    ghost view = { λ p. record { windows = p.windows; side = p.side; records = p.records } };

    ghost invariant = { λ p. HasPart p.windows p.side p.records p.values };
}

/// Puts the values of records that came on a side into windows whose size is the distance between their ends, so that
/// each lies in one. It takes memory for each record.
///
/// # Errors
///
/// [`NoMemory`].
pub fn join_part_of(
    alloc: Global,
    windows: &Windows,
    side: Side,
    records: &[Record],
) -> Result<JoinPart, NoMemory>
    requires fixed { windows.now.size ≡ windows.now.every }
    requires times { IsInTime records.now }
    ensures { IfOk result (λ p. p ≡ record { windows = windows.now; side = side; records = records.now }) }
{
    let mut placed = Vec::with_capacity(alloc, records.len())?;
    let mut came = Trail::start();
    for record in records {
        place(&mut placed, windows, record)?;
        came = came.with(Record { ..*record });
    }
    sort_placed(&mut placed);
    let values = joined(alloc, side, &placed)?;
    Ok(JoinPart {
        windows: *windows,
        side,
        values,
        records: came,
    })
}

// The values of what is placed.
fn joined(
    alloc: Global,
    side: Side,
    placed: &[(KeyedWindow, i64)],
) -> Result<Run<SideJoiner>, NoMemory>
    ensures { IfOk result (λ run. (q : Window) → found run q
        ≡ placed_value (λ vs. map (λ v. (side, v)) vs) placed.now q) }
{
    let joiner = SideJoiner { alloc };
    let mut run = Run::with_room(alloc, placed.len())?;
    for entry in placed {
        let window = KeyedWindow { ..entry.0 };
        let value = SideValues::of_one(alloc, side, entry.1);
        run.add(alloc, &joiner, (window, value))?;
    }
    Ok(run)
}
