//! The values of the records that are kept, by key and time.

ghost use Rattle.std.specs.Prelude.{◌≡◌, ◌++◌, ◌∷◌, [], nat_lt, true, false, ◌&&◌, IsSome, IfSome, IfNone, IfOk, OnOk};
ghost use Rattle.std.specs.BTreeMap.{IsOrdered, get};
ghost use Rattle.std.specs.Ordering.{is_lt};
ghost use Rattle.sb_windowed.specs.records.Keys.{same_key};
ghost use Rattle.sb_windowed.specs.records.Reorderings.{IsReordered};
ghost use Rattle.sb_session.specs.declared.keyed_time.KeyedTime.{KeyedTime as Time};
ghost use Rattle.sb_session.specs.Kept.{keyed_time_cmp};
ghost use Rattle.sb_session.specs.Kept as spec;
ghost use Rattle.sb_session.specs.Closings.{Takes};

use crate::keyed_time::KeyedTime;
use sb_windowed::{KeyedWindow, NoMemory, Record, Sequence};
use std::alloc::Global;
use std::collections::BTreeMap;

// The first time from this one on at which there are values.
fn next_from(times: &BTreeMap<KeyedTime, Sequence<i64>>, at: KeyedTime) -> Option<KeyedTime>
    ensures some { IfSome result (λ next. IsSome (get keyed_time_cmp times.now next)) }
    ensures from { IfSome result (λ next. is_lt (keyed_time_cmp next at) ≡ false) }
    ensures least { IfSome result (λ next.
        (q : Time) → IsSome (get keyed_time_cmp times.now q) → is_lt (keyed_time_cmp q at) ≡ false
        → is_lt (keyed_time_cmp q next) ≡ false) }
    ensures none { IfNone result
        ((q : Time) → IsSome (get keyed_time_cmp times.now q) → is_lt (keyed_time_cmp q at) ≡ true) }
    ensures ordered { IsOrdered keyed_time_cmp times.now }
{
    match times.range(at..).next() {
        Some((next, _)) => Some(*next),
        None => None,
    }
}

// Whether the time is one of the session's key, below the session's end.
fn is_below(at: &KeyedTime, session: &KeyedWindow) -> bool
    ensures { result ≡ (same_key at.now.key session.now.key && nat_lt at.now.time session.now.end) }
{
    at.key == session.key && at.time < session.end
}

// The first time of the session's key from this one on, if it is below the session's end.
pub(crate) fn first_between(
    times: &BTreeMap<KeyedTime, Sequence<i64>>,
    from: u64,
    session: &KeyedWindow,
) -> Option<KeyedTime>
    ensures some { IfSome result (spec.IsBetween times.now from session.now) }
    ensures none { IfNone result (spec.NoneBetween times.now from session.now) }
    ensures ordered { IsOrdered keyed_time_cmp times.now }
{
    let first = KeyedTime {
        key: session.key,
        time: from,
    };
    match next_from(times, first) {
        Some(at) if is_below(&at, session) => Some(at),
        _ => None,
    }
}

// Adds the value of a record.
pub(crate) fn add_value(
    alloc: Global,
    times: &mut BTreeMap<KeyedTime, Sequence<i64>>,
    record: &Record,
) -> Result<(), NoMemory>
    ensures kept { OnOk result
        (IsReordered (spec.kept_of times.new.entries) (spec.kept_of times.old.entries ++ «record».now ∷ [])) }
    ensures full { OnOk result (spec.AreFull times.old → spec.AreFull times.new) }
{
    let at = KeyedTime {
        key: record.key,
        time: record.time,
    };
    let mut values = times.remove(&at).unwrap_or(Sequence::new(Vec::new(alloc)));
    push_value(&mut values, record)?;
    times.insert(at, values)?;
    Ok(())
}

// Appends the value of the record.
fn push_value(values: &mut Sequence<i64>, record: &Record) -> Result<(), NoMemory>
    ensures { OnOk result (values.new ≡ values.old ++ «record».now.value ∷ []) }
{
    values.items.push(record.value)?;
    Ok(())
}

// Takes out the values of the session's key at times below the session's end.
pub(crate) fn take_below(
    alloc: Global,
    times: &mut BTreeMap<KeyedTime, Sequence<i64>>,
    session: &KeyedWindow,
) -> Result<Vec<i64>, NoMemory>
    ensures takes { IfOk result (λ values.
        Takes session.now.key session.now.end (spec.kept_of times.old.entries) (spec.kept_of times.new.entries)
        values.items) }
    ensures full { OnOk result (spec.AreFull times.old → spec.AreFull times.new) }
{
    let mut values = Vec::new(alloc);
    while let Some(at) = first_between(times, 0, session) {
        if let Some(mut more) = times.remove(&at) {
            values.append(&mut more.items)?;
        }
    }
    Ok(values)
}
