//! The records whose sessions are open, and the ends at which a closing looks for sessions.
//!
//! Each record makes a candidate: the end that its session has if no later record of its key comes within the gap. A
//! closing takes out the candidates that are due, and finds in the map whether the session goes on. So it looks at each
//! kept time once, when its candidate is due, and at nothing that stays open beyond that.

ghost use Rattle.std.specs.Prelude.{◌≡◌, ◌≤◌, ◌<◌, ◌++◌, ◌∷◌, [], All, filter, IfOk, OnOk, IfSome, IfNone};
ghost use Rattle.std.specs.List.Sorted.{IsStrictlySortedBy};
ghost use Rattle.sb_windowed.specs.records.Orders.{IsAscending};
ghost use Rattle.sb_windowed.specs.records.Records.{before, record_cmp};
ghost use Rattle.sb_windowed.specs.records.Reorderings.{IsReordered};
ghost use Rattle.sb_windowed.specs.records.declared.item.TheConstants as item;
ghost use Rattle.sb_windowed.specs.window.Windows.{keyed_window_cmp};
ghost use Rattle.sb_windowed.specs.Aggregates.{GivesOne};
ghost use Rattle.sb_windowed.specs.Sessions.{is_session_open, session_rows};
ghost use Rattle.sb_windowed.specs.declared.session.TheConstants as session;
ghost use Rattle.sb_session.specs.Candidates.{IsHeld};
ghost use Rattle.sb_session.specs.Kept.{kept_of};

use crate::close::close_due;
use crate::keyed_time::KeyedTime;
use crate::times::add_value;
use sb_windowed::{Agg, END_MARK, KeyedWindow, MAX_GAP, NoMemory, Record, Sequence};
use std::alloc::Global;
use std::collections::{BTreeMap, BTreeSet};

/// The records whose sessions are open.
#[derive(Drop)]
pub(crate) struct OpenSessions {
    gap: u64,
    times: BTreeMap<KeyedTime, Sequence<i64>>,
    due: BTreeSet<KeyedWindow>,
    ghost gap_is: { (1 ≤ gap) × (gap ≤ session.MAX_GAP) },
    ghost held: { IsHeld gap times due.keys },
}

/// What a closing gives: the rows of the sessions that have ended, and the records of the others.
#[derive(Drop)]
pub(crate) struct Closed {
    pub rows: Vec<Record>,
    pub left: OpenSessions,
}

impl OpenSessions {
    /// No records.
    pub(crate) fn new(alloc: Global, gap: u64) -> OpenSessions
        requires some { 1 ≤ gap }
        requires most { gap ≤ MAX_GAP }
        ensures gap { result.gap ≡ gap }
        ensures none { kept_of result.times.entries ≡ [] }
    {
        OpenSessions {
            gap,
            times: BTreeMap::new(alloc),
            due: BTreeSet::new(alloc),
        }
    }

    /// The records, and those of a part.
    pub(crate) fn with(self, alloc: Global, part: &[Record]) -> Result<OpenSessions, NoMemory>
        requires times { All (λ r. r.time < item.END_MARK) part.now }
        ensures gap { IfOk result (λ more. more.gap ≡ self.gap) }
        ensures kept { IfOk result (λ more.
            IsReordered (kept_of more.times.entries) (kept_of self.times.entries ++ part.now)) }
    {
        let OpenSessions {
            gap,
            mut times,
            mut due,
        } = self;
        for record in part {
            add(alloc, gap, &mut times, &mut due, record)?;
        }
        Ok(OpenSessions { gap, times, due })
    }

    /// The rows of the sessions that end by the mark, in order, and the records of the others.
    pub(crate) fn close(self, alloc: Global, agg: Agg, mark: u64) -> Result<Closed, NoMemory>
        requires one { GivesOne agg }
        ensures gap { IfOk result (λ closed. closed.left.gap ≡ self.gap) }
        ensures rows { IfOk result (λ closed.
            closed.rows.items ≡ before mark (session_rows agg self.gap (kept_of self.times.entries))) }
        ensures in_order { IfOk result (λ closed. IsAscending record_cmp closed.rows.items) }
        ensures left { IfOk result (λ closed.
            IsReordered (kept_of closed.left.times.entries)
            (filter (is_session_open self.gap mark (kept_of self.times.entries)) (kept_of self.times.entries))) }
    {
        let OpenSessions {
            gap,
            mut times,
            mut due,
        } = self;
        let ended = take_due(alloc, &mut due, mark)?;
        let rows = close_due(alloc, agg, gap, &mut times, ended)?;
        Ok(Closed {
            rows,
            left: OpenSessions { gap, times, due },
        })
    }
}

// Adds a record, and the end that it makes.
fn add(
    alloc: Global,
    gap: u64,
    times: &mut BTreeMap<KeyedTime, Sequence<i64>>,
    due: &mut BTreeSet<KeyedWindow>,
    record: &Record,
) -> Result<(), NoMemory>
    requires gap { gap ≤ MAX_GAP }
    requires time { «record».now.time < END_MARK }
    ensures kept { OnOk result
        (IsReordered (kept_of times.new.entries) (kept_of times.old.entries ++ «record».now ∷ [])) }
    ensures held { OnOk result (IsHeld gap times.old due.old.keys → IsHeld gap times.new due.new.keys) }
{
    add_value(alloc, times, record)?;
    due.insert(KeyedWindow {
        end: record.time + gap,
        key: record.key,
    })?;
    Ok(())
}

// Takes out the candidates that end by the mark, in order.
fn take_due(
    alloc: Global,
    due: &mut BTreeSet<KeyedWindow>,
    mark: u64,
) -> Result<Vec<KeyedWindow>, NoMemory>
    ensures split { IfOk result (λ ended. due.old.keys ≡ ended.items ++ due.new.keys) }
    ensures by_mark { IfOk result (λ ended. All (λ q. q.end ≤ mark) ended.items) }
    ensures after { OnOk result (All (λ q. mark < q.end) due.new.keys) }
    ensures in_order { IfOk result (λ ended. IsStrictlySortedBy keyed_window_cmp ended.items) }
{
    let mut ended = Vec::new(alloc);
    while let Some(session) = pop_due(due, mark) {
        ended.push(KeyedWindow { ..session })?;
    }
    Ok(ended)
}

// Takes out the first candidate, if it ends by the mark.
fn pop_due(due: &mut BTreeSet<KeyedWindow>, mark: u64) -> Option<KeyedWindow>
    ensures first { IfSome result (λ q. due.old.keys ≡ q ∷ due.new.keys) }
    ensures by_mark { IfSome result (λ q. q.end ≤ mark) }
    ensures in_order { IfSome result (λ _. IsStrictlySortedBy keyed_window_cmp due.old.keys) }
    ensures same { IfNone result (due.new.keys ≡ due.old.keys) }
    ensures after { IfNone result (All (λ q. mark < q.end) due.old.keys) }
{
    match due.first() {
        Some(first) if first.end <= mark => due.pop_first(),
        _ => None,
    }
}
