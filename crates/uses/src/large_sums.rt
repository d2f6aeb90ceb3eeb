//! A plan made by code, run over items in memory.
//!
//! `Plan::new` gives no plan just if a rule of plans is broken. Here it is proved that none is; a caller who tests what
//! `Plan::new` gives needs no such proof.

ghost use Rattle.std.specs.Prelude.{◌≡◌, ◌≤◌, All, IfOk};
ghost use Rattle.sb_cli.specs.base.records.Lines.{IsItemInRange};
ghost use Rattle.sb_cli.specs.base.records.declared.key.Keys.TheVariants.{Numbers};
ghost use Rattle.sb_cli.specs.base.records.Streams.{records_of};
ghost use Rattle.sb_cli.specs.base.pipeline.Results.{all_rows};
ghost use Rattle.uses.specs.LargeSums as spec;

use sb_base::{
    Agg, Down, END_MARK, Field, Item, Kind, MAX_SIZE, NoMemory, Op, Plan, Record, Step, Test,
    Windows,
};
use sb_slow::slow_rows;
use std::alloc::Global;

/// Two transforms, one after the other: a filter of values of at least `least`, and a sum over fixed windows.
fn transforms(alloc: Global, least: i64, size: u64) -> Result<Vec<Step>, NoMemory>
    requires some_size { 1 ≤ size }
    requires most_size { size ≤ MAX_SIZE }
    ensures { IfOk result (λ steps. steps.items ≡ spec.large_sums_steps least size) }
{
    let filter = Step {
        kind: Kind::Do(Op::Filter(Field::Value, Test::AtLeast, least)),
        down: Down { node: 1, lane: 0 },
    };
    let sum = Step {
        kind: Kind::Group(Agg::Sum, Windows::new(size, size).unwrap()),
        down: Down { node: 2, lane: 0 },
    };
    vec![in alloc; filter, sum].map_err(|_| NoMemory)
}

/// The plan of these transforms, which stream a goes to.
fn large_sums_plan(alloc: Global, least: i64, size: u64) -> Result<Plan, NoMemory>
    requires some_size { 1 ≤ size }
    requires most_size { size ≤ MAX_SIZE }
    ensures { IfOk result (λ plan. plan ≡ spec.large_sums_plan least size) }
{
    let steps = transforms(alloc, least, size)?;
    let source = Down { node: 0, lane: 0 };
    Ok(Plan::new(steps, Some(source), None).unwrap())
}

/// The rows of that plan over the records of the items: the sums of the values of at least `least` of stream a, by key,
/// over fixed windows of a size from 1 to 10^12.
pub fn large_sums(
    alloc: Global,
    least: i64,
    size: u64,
    items: &[Item],
) -> Result<Vec<Record>, NoMemory>
    requires some_size { 1 ≤ size }
    requires most_size { size ≤ MAX_SIZE }
    requires range { All (IsItemInRange Numbers) items.now }
    ensures rows { IfOk result (λ rows.
        rows.items ≡ all_rows (spec.large_sums_plan least size) (λ s. records_of s items.now)) }
    ensures sums { IfOk result (λ rows. rows.items ≡ spec.large_sums least size items.now) }
{
    let plan = large_sums_plan(alloc, least, size)?;
    slow_rows(alloc, &plan, items, END_MARK)
}
