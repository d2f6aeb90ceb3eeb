//! The records of a stream, and the values of each window of a key.

ghost use Rattle.std.specs.Prelude.{◌≡◌, ◌≤◌, ◌<◌, ◌++◌, [], ◌∷◌, ℕ, All, Some, if◌then◌else◌, OnOk, IfOk};
ghost use Rattle.std.specs.BTreeMap.{get, is_at};
ghost use Rattle.sb_base.specs.records.Streams as streams_spec;
ghost use Rattle.sb_base.specs.window.declared.keyed_window.KeyedWindow.{KeyedWindow as Window};
ghost use Rattle.sb_base.specs.window.Windows.{keyed_window_cmp};
ghost use Rattle.sb_slow.specs.Gathered as spec;

use crate::sessions::session_ends;
use sb_base::{END_MARK, Item, KeyedWindow, MAX_GAP, NoMemory, Record, Sequence, Stream, Windows};
use std::alloc::{AllocError, Global};
use std::collections::BTreeMap;

/// The records of a stream, in the order of the items.
pub(crate) fn records_of(
    alloc: Global,
    stream: Stream,
    items: &[Item],
) -> Result<Vec<Record>, AllocError>
    ensures { IfOk result (λ records. records.items ≡ streams_spec.records_of stream items.now) }
{
    let mut records = Vec::new(alloc);
    for item in items {
        match item {
            Item::Rec(from, record) if *from == stream => records.push(Record { ..*record })?,
            _ => {}
        }
    }
    Ok(records)
}

/// The values of each keyed window that has records, in the order of the records.
pub(crate) fn values_by_window(
    alloc: Global,
    windows: &Windows,
    records: &[Record],
) -> Result<BTreeMap<KeyedWindow, Sequence<i64>>, AllocError>
    requires { All (λ r. r.time < END_MARK) records.now }
    ensures { IfOk result
        (λ values. (q : Window) → get keyed_window_cmp values q ≡ spec.values_at windows.now records.now q) }
{
    let mut values = BTreeMap::new(alloc);
    for record in records {
        add_record(alloc, &mut values, windows, record)?;
    }
    Ok(values)
}

/// The values of each session, in the order of the records.
pub(crate) fn values_by_session(
    alloc: Global,
    gap: u64,
    records: &[Record],
) -> Result<BTreeMap<KeyedWindow, Sequence<i64>>, NoMemory>
    requires gap { gap ≤ MAX_GAP }
    requires times { All (λ r. r.time < END_MARK) records.now }
    ensures { IfOk result (λ values. (q : Window)
        → get keyed_window_cmp values q ≡ spec.session_values_at gap records.now records.now q) }
{
    let ends = session_ends(alloc, gap, records)?;
    let mut values = BTreeMap::new(alloc);
    for (place, record) in records.iter().enumerate() {
        let (end, key) = (ends[place], record.key);
        add_value(alloc, &mut values, KeyedWindow { end, key }, record)?;
    }
    Ok(values)
}

/// Adds the value of a record to those of each of its windows.
fn add_record(
    alloc: Global,
    values: &mut BTreeMap<KeyedWindow, Sequence<i64>>,
    windows: &Windows,
    record: &Record,
) -> Result<(), AllocError>
    requires { «record».now.time < END_MARK }
    ensures { OnOk result
        ((q : Window) → get keyed_window_cmp values.new q
        ≡ spec.values_with (get keyed_window_cmp values.old q) (spec.values_at windows.now («record».now ∷ []) q)) }
{
    for end in windows.ends(record.time) {
        let window = KeyedWindow {
            end,
            key: record.key,
        };
        add_value(alloc, values, window, record)?;
    }
    Ok(())
}

/// Adds the value of a record to those of a keyed window.
fn add_value(
    alloc: Global,
    values: &mut BTreeMap<KeyedWindow, Sequence<i64>>,
    window: KeyedWindow,
    record: &Record,
) -> Result<(), AllocError>
    ensures { OnOk result ((q : Window) → get keyed_window_cmp values.new q
        ≡ (if is_at (keyed_window_cmp window) q
        then spec.values_with (get keyed_window_cmp values.old window) (Some («record».now.value ∷ []))
        else get keyed_window_cmp values.old q)) }
{
    let list = values
        .entry(window)?
        .or_insert(Sequence::new(Vec::new(alloc)));
    push_value(list, record)?;
    Ok(())
}

fn push_value(values: &mut Sequence<i64>, record: &Record) -> Result<(), AllocError>
    ensures { OnOk result (values.new ≡ values.old ++ «record».now.value ∷ []) }
{
    values.items.push(record.value)?;
    Ok(())
}
