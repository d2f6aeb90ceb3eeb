//! Where the sessions of records end.
//!
//! The times of each key are walked once, the last first: a time is in the session of the one walked before it if that
//! one is less than the gap later, and ends a session if not.

ghost use Rattle.std.specs.Prelude.{◌≡◌, ◌≤◌, ◌<◌, ◌+◌, All, Some, IfOk, map, unwrap_or};
ghost use Rattle.std.specs.BTreeMap.{get};
ghost use Rattle.sb_base.specs.windowed.Sessions.{session_end};
ghost use Rattle.sb_slow.specs.SessionEnds as spec;

use sb_base::{END_MARK, Key, MAX_GAP, NoMemory, Record};
use std::alloc::Global;
use std::collections::BTreeMap;

/// A time of a key. They are ordered by key, then time.
#[derive(Clone, Copy, Debug, PartialEq, Eq, PartialOrd, Ord)]
pub(crate) struct KeyedTime {
    pub key: Key,
    pub time: u64,
}

/// A time of a key, and the end of its session.
#[derive(Clone, Copy, Debug, PartialEq, Eq)]
pub(crate) struct Ended {
    pub at: KeyedTime,
    pub end: u64,
}

/// The end of the session of each record, in the order of the records.
pub fn session_ends(alloc: Global, gap: u64, records: &[Record]) -> Result<Vec<u64>, NoMemory>
    requires gap { gap ≤ MAX_GAP }
    requires times { All (λ r. r.time < END_MARK) records.now }
    ensures { IfOk result (λ ends. ends.items ≡ map (session_end gap records.now) records.now) }
{
    let by_time = ends_by_time(alloc, gap, records)?;
    let mut ends = Vec::new(alloc);
    for record in records {
        ends.push(end_at(&by_time, gap, record))?;
    }
    Ok(ends)
}

/// The end of a record's session, and where it is not there that of a session of this record alone.
fn end_at(by_time: &BTreeMap<KeyedTime, u64>, gap: u64, record: &Record) -> u64
    requires gap { gap ≤ MAX_GAP }
    requires time { «record».now.time < END_MARK }
    ensures { result
        ≡ unwrap_or (get spec.keyed_time_cmp by_time.now (spec.time_of «record».now)) («record».now.time + gap) }
{
    match by_time.get(&time_of(record)) {
        Some(end) => *end,
        None => record.time + gap,
    }
}

fn time_of(record: &Record) -> KeyedTime
    ensures { result ≡ spec.time_of «record».now }
{
    KeyedTime {
        key: record.key,
        time: record.time,
    }
}

/// The times of the keys that have records, with the end of the session of each.
fn ends_by_time(
    alloc: Global,
    gap: u64,
    records: &[Record],
) -> Result<BTreeMap<KeyedTime, u64>, NoMemory>
    requires gap { gap ≤ MAX_GAP }
    requires times { All (λ r. r.time < END_MARK) records.now }
    ensures { IfOk result (λ ends.
        All (λ r. get spec.keyed_time_cmp ends (spec.time_of r) ≡ Some (session_end gap records.now r)) records.now) }
{
    let times = latest_first(alloc, records)?;
    let mut ends = BTreeMap::new(alloc);
    let mut later = None;
    for at in times {
        let end = end_before(gap, &at, &later);
        ends.insert(KeyedTime { ..at }, end)?;
        later = Some(Ended {
            at: KeyedTime { ..at },
            end,
        });
    }
    Ok(ends)
}

/// The times of the records, the last of each key first.
fn latest_first(alloc: Global, records: &[Record]) -> Result<Vec<KeyedTime>, NoMemory>
    ensures { IfOk result (λ times. spec.AreLatestFirst times.items (map spec.time_of records.now)) }
{
    let mut times = times_of(alloc, records)?;
    times.sort_unstable_by(|a, b| b.cmp(a));
    Ok(times)
}

/// The times of the records, in their order.
fn times_of(alloc: Global, records: &[Record]) -> Result<Vec<KeyedTime>, NoMemory>
    ensures { IfOk result (λ times. times.items ≡ map spec.time_of records.now) }
{
    let mut times = Vec::new(alloc);
    for record in records {
        times.push(KeyedTime {
            key: record.key,
            time: record.time,
        })?;
    }
    Ok(times)
}

/// The end of the session of a time, where that of the next later time is known.
fn end_before(gap: u64, at: &KeyedTime, later: &Option<Ended>) -> u64
    requires gap { gap ≤ MAX_GAP }
    requires time { at.now.time < END_MARK }
    ensures { result ≡ spec.end_before gap at.now later.now }
{
    match later {
        Some(next) if next.at.key == at.key && next.at.time < at.time + gap => next.end,
        _ => at.time + gap,
    }
}
