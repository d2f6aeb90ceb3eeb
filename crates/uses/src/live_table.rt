//! A live table beside a running engine: threads ask for the last row of a key while a run shows its rows.
//!
//! The table is taken down as soon as the run has ended, however it ended, and readers go on until then. So nobody
//! waits for ever, and if no thread can be made, the readers come after the run.

ghost use Rattle.std.specs.Prelude.{◌≡◌, ◌≤◌, [], None, Some, false, IfOk, IsTrue};
ghost use Rattle.sb_cli.specs.generator.declared.pattern.TheConstants.{MAX_RECORDS};
ghost use Rattle.sb_cli.specs.live.Lasts.{last_row};
ghost use Rattle.sb_cli.specs.live.Rising.{IsNoEarlier};
ghost use Rattle.sb_cli.specs.run.alone.RunEnds.{AreSizes};
ghost use Rattle.sb_cli.specs.base.window.declared.windows.TheConstants.{MAX_SIZE};
ghost use Rattle.uses.specs.LiveTable.{TellsLast, made_sums};

use sb_base::{Key, MAX_SIZE, NoMemory, Plan, Record, sum_plan};
use sb_cli::{RunEnd, Sizes, run};
use sb_generator::{GenSource, MAX_RECORDS};
use sb_live::{LiveOut, LiveReader, LiveRows, live};
use sb_outside::Source;
use std::sync::Wait;
use std::thread::{self, Threads, join};
use std::time::Clock;

/// What a reader saw of a key until the table ended.
#[derive(Clone, Copy, Debug, PartialEq, Eq, Drop)]
pub struct Seen {
    /// How often it was answered a row.
    pub rows: u64,
    /// Whether an answer was an earlier row than the one before, or none after one.
    pub fell: bool,
}

/// What came of a run whose table was read.
#[derive(Clone, Copy, Debug, PartialEq, Eq, Drop)]
pub struct Told {
    /// Whether the input was read to its end, and all rows were shown.
    pub is_done: bool,
    /// The last row of the key that was shown.
    pub last: Option<Record>,
    /// What the two readers saw.
    pub readers: (Seen, Seen),
}

/// Whether a later answer is an earlier row, or none after one.
fn is_fall(before: Option<Record>, found: Option<Record>) -> bool
    ensures { IsNoEarlier before found → result ≡ false }
{
    match (before, found) {
        (Some(before), Some(found)) => found.time < before.time,
        (Some(_), None) => true,
        (None, _) => false,
    }
}

/// Asks for the last row of the key until the table ends.
fn follow(rt: &impl Wait, mut reader: LiveReader, key: Key) -> Seen
    ensures { result.fell ≡ false }
{
    let (mut rows, mut fell): (u64, bool) = (0, false);
    let mut before = None;
    for _ in rt.forever() {
        let Ok(found) = reader.get(&key) else {
            break;
        };
        if found.is_some() {
            rows = rows.saturating_add(1);
        }
        if is_fall(before, found) {
            fell = true;
        }
        before = found;
        thread::yield_now();
    }
    Seen { rows, fell }
}

/// Runs the plan, shows its rows, and takes the table down, whatever the run's end is.
fn run_shown<W: AllocGlobal + Threads + Wait + Clock + Sync, R: Wait + Drop + Send, S: Source>(
    rt: &W,
    plan: Plan,
    sizes: Sizes,
    input: &mut S,
    table: &mut Option<LiveOut<R>>,
    key: Key,
) -> (bool, Option<Record>)
    requires sizes { AreSizes sizes }
    requires table { table.old ≡ Some (record { changes = []; is_spent = false }) }
    ensures down { table.new ≡ None }
    ensures told { IsTrue result.0 → TellsLast plan key (S.left input.old) result.1 }
{
    let alloc = rt.alloc();
    let mut rows = LiveRows::new(table.take().unwrap());
    let mut taps = Vec::new(alloc);
    let mut dropped = Vec::new(alloc);
    let end = run(rt, plan, sizes, input, &mut rows, &mut taps, &mut dropped);
    let out = rows.into_out();
    let last = out.last(&key);
    out.end();
    match end {
        RunEnd::Done(_) => (true, last),
        RunEnd::Refused(_) | RunEnd::Input | RunEnd::Output | RunEnd::Tap { .. } | RunEnd::Memory =>
            (false, last),
    }
}

/// Runs a plan over an input and shows its rows in a table, while two threads ask for the last row of a key. If the run
/// is done, the row that the table tells at the end is the last one of all rows of the plan. No reader sees a row fall.
///
/// # Errors
///
/// If there was not enough memory for the table.
pub fn run_beside_readers<W: AllocGlobal + Threads + Wait + Clock + Sync, S: Source>(
    rt: &W,
    plan: Plan,
    sizes: Sizes,
    input: &mut S,
    key: Key,
) -> Result<Told, NoMemory>
    requires { AreSizes sizes }
    ensures told { IfOk result (λ told. IsTrue told.is_done
        → TellsLast plan key (S.left input.old) told.last) }
    ensures steady { IfOk result (λ told. (told.readers.0.fell ≡ false) × (told.readers.1.fell ≡ false)) }
{
    let (out, mut readers) = live(rt.alloc(), rt, 2)?;
    let (one, two) = (readers.pop().unwrap(), readers.pop().unwrap());
    let mut table = Some(out);
    let (readers, (is_done, last)) = join(
        rt,
        || -> (Seen, Seen)
            ensures { (result.0.fell ≡ false) × (result.1.fell ≡ false) }
        {
            join(
                rt,
                || -> Seen
                    ensures { result.fell ≡ false }
                { follow(rt, one, key) },
                || -> Seen
                    ensures { result.fell ≡ false }
                { follow(rt, two, key) },
            )
        },
        || -> (bool, Option<Record>)
            requires sizes { AreSizes sizes }
            requires table { table ≡ Some (record { changes = []; is_spent = false }) }
            ensures { IsTrue result.0 → TellsLast plan key (S.left input.entry.now) result.1 }
        { run_shown(rt, plan, sizes, input, &mut table, key) },
    );
    if let Some(out) = table {
        out.end();
    }
    Ok(Told {
        is_done,
        last,
        readers,
    })
}

/// The same of the sums of records that are made, over windows of a size.
///
/// # Errors
///
/// If there was not enough memory.
pub fn sums_beside_readers<W: AllocGlobal + Threads + Wait + Clock + Sync>(
    rt: &W,
    size: u64,
    records: u64,
    sizes: Sizes,
    key: Key,
) -> Result<Told, NoMemory>
    requires some_size { 1 ≤ size }
    requires most_size { size ≤ MAX_SIZE }
    requires some_records { 1 ≤ records }
    requires most_records { records ≤ MAX_RECORDS }
    requires sizes { AreSizes sizes }
    ensures told { IfOk result (λ told. told.last ≡ last_row key (made_sums size records)) }
    ensures steady { IfOk result (λ told. (told.readers.0.fell ≡ false) × (told.readers.1.fell ≡ false)) }
{
    let plan = sum_plan(rt.alloc(), size)?;
    let mut input = GenSource::new(records);
    let told = run_beside_readers(rt, plan, sizes, &mut input, key)?;
    match told.is_done {
        true => Ok(told),
        // What is made is accepted whole, and no read of it fails.
        false => Err(NoMemory),
    }
}
