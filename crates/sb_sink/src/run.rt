//! Sorted runs: rows in ascending order.

ghost use Rattle.std.specs.Prelude.{◌≡◌, ◌++◌, [], length, take, drop, true, OnOk, IfOk};
ghost use Rattle.sb_window.specs.records.Orders.{IsAscending};
ghost use Rattle.sb_window.specs.records.Records.{record_cmp, before, at_least};
ghost use Rattle.sb_window.specs.records.Reorderings.{IsReordered};
ghost use Rattle.sb_sink.specs.Runs.{begins_before};

use sb_window::{NoMemory, Record};
use std::alloc::Global;
use std::collections::VecDeque;
use std::marker::Model;

/// Rows in ascending order. Contracts see it as the list of them.
///
/// It is a deque, since the first rows leave it first: what stays is not moved then.
#[derive(Drop)]
pub(crate) struct Run {
    rows: VecDeque<Record>,
}

impl Model for Run {
    ghost use Rattle.std.specs.Prelude.{List};
    ghost use Rattle.sb_window.specs.records.declared.item.Record.{Record as Row};
    ghost use Rattle.sb_window.specs.records.Orders.{IsAscending};
    ghost use Rattle.sb_window.specs.records.Records.{record_cmp};

    ghost Value = { List Row };

    ghost view = { λ r. r.rows.items };

    ghost invariant = { λ r. IsAscending record_cmp r.rows.items };
}

impl Run {
    /// The run without rows. It takes no memory.
    pub(crate) fn new(alloc: Global) -> Run
        ensures { result ≡ [] }
    {
        Run {
            rows: VecDeque::new(alloc),
        }
    }

    /// The run of rows that come in any order. It takes no memory. If they are in order, they are looked at once.
    pub(crate) fn of(rows: Vec<Record>) -> Run
        ensures { IsReordered result rows.items }
    {
        let mut sorted = rows;
        sorted.sort_unstable();
        Run {
            rows: VecDeque::from_vec(sorted),
        }
    }

    /// How many rows there are.
    pub(crate) fn len(&self) -> usize
        ensures { result ≡ length self.now }
    {
        self.rows.len()
    }

    /// Whether the rows of another run go on from these.
    pub(crate) fn leads_to(&self, later: &Run) -> bool
        ensures { result ≡ true → IsAscending record_cmp (self.now ++ later.now) }
    {
        match (self.rows.back(), later.rows.front()) {
            (Some(last), Some(first)) => first.cmp(last).is_ge(),
            _ => true,
        }
    }

    /// The rows of both runs. If the later one goes on from this, only its rows are moved.
    ///
    /// # Errors
    ///
    /// [`NoMemory`].
    pub(crate) fn joined(self, later: Run) -> Result<Run, NoMemory>
        ensures { IfOk result (λ run. IsReordered run (self ++ later)) }
    {
        if self.leads_to(&later) {
            let mut rows = self.rows;
            let mut others = later.rows;
            rows.append(&mut others)?;
            return Ok(Run { rows });
        }
        let mut rows = self.rows.into_vec();
        let mut others = later.rows.into_vec();
        rows.append(&mut others)?;
        // A stable sort merges runs that it finds.
        rows.sort()?;
        Ok(Run {
            rows: VecDeque::from_vec(rows),
        })
    }

    /// Cuts the run into the rows below the mark and the others. What stays is not moved.
    ///
    /// # Errors
    ///
    /// [`NoMemory`].
    pub(crate) fn split_at(self, alloc: Global, mark: u64) -> Result<(Run, Run), NoMemory>
        ensures below { IfOk result (λ parts. parts.0 ≡ before mark self) }
        ensures rest { IfOk result (λ parts. parts.1 ≡ at_least mark self) }
    {
        if self.ends_before(mark) {
            return Ok((self, Run::new(alloc)));
        }
        let mut rest = self.rows;
        let mut below = VecDeque::new(alloc);
        'rows: while is_first_before(&rest, mark) {
            move_first(&mut rest, &mut below)?;
        }
        Ok((Run { rows: below }, Run { rows: rest }))
    }

    /// Whether there are rows, and all of them are below the mark.
    pub(crate) fn ends_before(&self, mark: u64) -> bool
        ensures all { result ≡ true → self.now ≡ before mark self.now }
        ensures none { result ≡ true → [] ≡ at_least mark self.now }
    {
        match self.rows.back() {
            Some(last) => last.time < mark,
            None => false,
        }
    }

    /// The rows, in order.
    pub(crate) fn into_rows(self) -> Vec<Record>
        ensures items { result.items ≡ self }
        ensures ordered { IsAscending record_cmp self }
    {
        self.rows.into_vec()
    }
}

// Whether there is a first row, and it is below the mark.
fn is_first_before(rows: &VecDeque<Record>, mark: u64) -> bool
    ensures { result ≡ begins_before mark rows.now.items }
{
    match rows.front() {
        Some(first) => first.time < mark,
        None => false,
    }
}

// Moves the first element, if there is one, behind others.
fn move_first<X: Drop>(from: &mut VecDeque<X>, into: &mut VecDeque<X>) -> Result<(), NoMemory>
    ensures from { OnOk result (from.new.items ≡ drop 1 from.old.items) }
    ensures into { OnOk result (into.new.items ≡ into.old.items ++ take 1 from.old.items) }
{
    if let Some(first) = from.pop_front() {
        into.push_back(first)?;
    }
    Ok(())
}
