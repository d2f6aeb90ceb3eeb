//! Parts of an aggregate: what a worker makes of a bundle outside of any turn.

ghost use Rattle.std.specs.Prelude.{◌≡◌, ◌<◌, All, map, OnOk, IfOk};
ghost use Rattle.std.specs.Option.{option_to_list};
ghost use Rattle.sb_runs.specs.window.declared.keyed_window.KeyedWindow.{KeyedWindow as Window};
ghost use Rattle.sb_runs.specs.window.Gatherings.{joined_value};
ghost use Rattle.sb_windowed.specs.Aggregates.{IsValid};
ghost use Rattle.sb_aggregate.specs.Partials.{partial_values, joining, join_values};
ghost use Rattle.sb_runs.specs.Placed.{placed_first, placed_value};

use crate::partial::first_of;
use crate::partials::Partials;
use crate::placing::{Placing, SLOTS};
use sb_runs::{END_MARK, KeyedWindow, NoMemory, Record, Trail, Windows};
use sb_windowed::Agg;
use std::alloc::Global;
use std::marker::Model;

/// The partial values of the records of a bundle. Contracts see it as the records that were grouped.
#[derive(Drop)]
pub struct AggPart {
    pub(crate) agg: Agg,
    pub(crate) windows: Windows,
    pub(crate) partials: Partials,
    pub(crate) records: Trail<Record>,
}

impl Model for AggPart {
    ghost use Rattle.sb_aggregate.specs.Groups.{Grouped, HasPartials};
    ghost use Rattle.sb_aggregate.specs.Held.{run_of};

    ghost Value = { Grouped };

    ghost view = { λ p. record { agg = p.agg; windows = p.windows; records = p.records } };

    ghost invariant = { λ p. HasPartials p.agg p.windows p.records (run_of p.partials) };
}

/// Groups the records of a bundle. It takes memory for each record, and for each keyed window that they lie in.
///
/// # Errors
///
/// [`NoMemory`].
pub fn part_of(
    alloc: Global,
    agg: Agg,
    windows: &Windows,
    records: &[Record],
) -> Result<AggPart, NoMemory>
    requires valid { IsValid agg }
    requires times { All (λ r. r.time < END_MARK) records.now }
    ensures { IfOk result (λ p. p ≡ record { agg = agg; windows = windows.now; records = records.now }) }
{
    let mut placing = Placing::new(alloc, records.len())?;
    let mut slots = [0; SLOTS];
    let mut grouped = Trail::start();
    for record in records {
        place(&mut placing, &mut slots, agg, windows, record)?;
        grouped = grouped.with(Record { ..*record });
    }
    let panes = placing.run(alloc, agg)?;
    let every = windows.every();
    let partials = panes.spread(alloc, agg, every, windows.size() / every)?;
    Ok(AggPart {
        agg,
        windows: *windows,
        partials,
        records: grouped,
    })
}

// Places the value of a record at its pane, which ends where the first of its windows does.
fn place(
    placing: &mut Placing,
    slots: &mut [u16; SLOTS],
    agg: Agg,
    windows: &Windows,
    record: &Record,
) -> Result<(), NoMemory>
    requires { «record».now.time < END_MARK }
    ensures { OnOk result ((q : Window) → placed_value (partial_values (joining agg)) placing.new q
        ≡ joined_value (join_values agg) (placed_value (partial_values (joining agg)) placing.old q)
        (placed_value (partial_values agg) (placed_first windows.now «record».now) q)) }
{
    if let Some(pane) = pane_of(windows, record) {
        placing.add(slots, agg, pane, first_of(agg, record.value))?;
    }
    Ok(())
}

// The pane of a record.
fn pane_of(windows: &Windows, record: &Record) -> Option<KeyedWindow>
    requires { «record».now.time < END_MARK }
    ensures { placed_first windows.now «record».now ≡ map (λ q. (q, «record».now.value)) (option_to_list result) }
{
    let end = windows.ends(record.time).next()?;
    Some(KeyedWindow {
        end,
        key: record.key,
    })
}
