//! The sink: it keeps rows until a watermark lies above their times, and gives them in order.
//!
//! Rows can come before others of an earlier time, so a row may leave only once no earlier one can come. A [`SinkKept`]
//! keeps them in sorted runs. Rows mostly come in order, and go on from the last run then. Others are a run of their
//! own, and runs of about the same length are joined, so there are few. A closing takes rows off the front of each run,
//! and looks at no more than one that stays.

ghost use Rattle.std.specs.Prelude.{◌≡◌, ◌+◌, ◌≤◌, ◌++◌, List, length, OnOk, OnErr, OnSome, IfOk, IfSome, IfNone};
ghost use Rattle.std.specs.Option.{option_to_list};
ghost use Rattle.sb_window.specs.records.declared.element.KeptRec.{KeptRec as Element};
ghost use Rattle.sb_window.specs.records.Records.{sorted_records, before, at_least};
ghost use Rattle.sb_window.specs.records.Reorderings.{IsReordered};
ghost use Rattle.sb_window.specs.Groupings.{IsFrom, Adds, Closes};
ghost use Rattle.sb_sink.specs.Runs.{records_in};
ghost use Rattle.sb_sink.specs.Sinks as spec;
ghost use Rattle.sb_sink.specs.Sinks.{gives-orderless};

use crate::run::Run;
use sb_window::{Grouping, NoMemory, Record};
use std::alloc::Global;
use std::marker::Model;

/// The rows that the sink keeps. Once no memory was found it keeps none.
#[derive(Drop)]
pub struct SinkKept {
    alloc: Global,
    runs: Vec<Run>,
    held: usize,
    closed: u64,
    is_spent: bool,
}

impl Model for SinkKept {
    ghost use Rattle.std.specs.Prelude.{◌≡◌, length};
    ghost use Rattle.sb_sink.specs.Runs.{records_in};
    ghost use Rattle.sb_sink.specs.Sinks as spec;

    ghost Value = { spec.SinkState };

    ghost view = { λ s. record {
      kept = records_in s.runs.items;
      closed = s.closed;
      is_spent = s.is_spent;
    } };

    ghost invariant = { λ s. s.held ≡ length (records_in s.runs.items) };
}

impl SinkKept {
    /// A sink that keeps nothing. It takes no memory.
    pub fn new(alloc: Global) -> SinkKept
        ensures { result ≡ spec.fresh }
    {
        SinkKept {
            alloc,
            runs: Vec::new(alloc),
            held: 0,
            closed: 0,
            is_spent: false,
        }
    }

    /// How many rows it keeps. No closing gives more.
    pub fn held(&self) -> usize
        ensures { result ≡ length self.now.kept }
    {
        self.held
    }
}

impl Grouping for SinkKept {
    type Part = Vec<Record>;

    ghost spent = { spec.IsSpent };

    ghost closed = { λ g. g.closed };

    ghost gives = { spec.gives };

    ghost fits = { λ g part. Unit {0} };

    ghost stands = { λ part. spec.StandsFor part.items };

    ghost order = { gives-orderless };

    fn is_spent(&self) -> bool {
        self.is_spent
    }

    fn absorb(&mut self, part: Vec<Record>) -> Result<(), NoMemory>
        ensures was { OnOk result (spec.IsSpent self.old → ⊥) }
        ensures is { OnOk result (spec.IsSpent self.new → ⊥) }
        ensures closed { OnOk result (self.new.closed ≡ self.old.closed) }
        ensures kept { OnOk result (IsReordered self.new.kept (self.old.kept ++ part.items)) }
        ensures adds { OnOk result ((es : List Element) → spec.StandsFor part.items es
            → IsFrom self.old.closed es → Adds self.old.closed (spec.gives self.old) (spec.gives self.new) es) }
        ensures err { OnErr result (spec.IsSpent self.new) }
    {
        if self.is_spent {
            return Err(NoMemory);
        }
        match add_rows(&mut self.runs, self.held, part) {
            Ok(held) => {
                self.held = held;
                Ok(())
            }
            Err(NoMemory) => {
                self.runs.clear();
                self.held = 0;
                self.is_spent = true;
                Err(NoMemory)
            }
        }
    }

    fn close(&mut self, mark: u64) -> Result<Vec<Record>, NoMemory>
        ensures was { OnOk result (spec.IsSpent self.old → ⊥) }
        ensures is { OnOk result (spec.IsSpent self.new → ⊥) }
        ensures closed { OnOk result (self.new.closed ≡ mark) }
        ensures rows { IfOk result (λ rows. rows.items ≡ sorted_records (before mark self.old.kept)) }
        ensures kept { OnOk result (self.new.kept ≡ at_least mark self.old.kept) }
        ensures count { IfOk result (λ rows. length rows.items + length self.new.kept ≡ length self.old.kept) }
        ensures closes { IfOk result (λ rows. Closes mark (spec.gives self.old) rows.items (spec.gives self.new)) }
        ensures err { OnErr result (spec.IsSpent self.new) }
    {
        if self.is_spent {
            return Err(NoMemory);
        }
        match take_below(self.alloc, &mut self.runs, mark) {
            Ok(rows) => {
                self.held -= rows.len();
                self.closed = mark;
                Ok(rows)
            }
            Err(NoMemory) => {
                self.runs.clear();
                self.held = 0;
                self.is_spent = true;
                Err(NoMemory)
            }
        }
    }
}

/// Adds rows, and gives how many there are then, if so many were held before.
fn add_rows(runs: &mut Vec<Run>, held: usize, rows: Vec<Record>) -> Result<usize, NoMemory>
    ensures held { IfOk result (λ n. n ≡ held + length rows.items) }
    ensures adds { OnOk result (IsReordered (records_in runs.new.items) (records_in runs.old.items ++ rows.items)) }
{
    // There is no memory for more rows than can be counted.
    let Some(held) = held.checked_add(rows.len()) else {
        return Err(NoMemory);
    };
    push(runs, Run::of(rows))?;
    Ok(held)
}

/// Adds a run, joined with the last ones that are near it.
fn push(runs: &mut Vec<Run>, run: Run) -> Result<(), NoMemory>
    ensures { OnOk result (IsReordered (records_in runs.new.items) (records_in runs.old.items ++ run)) }
{
    let mut top = run;
    'runs: while let Some(last) = pop_near(runs, &top) {
        top = last.joined(top)?;
    }
    keep(runs, top)
}

/// Takes off the last run, if one that comes goes on from it, or if it has less than twice as many rows.
///
/// So behind each run that stays, there is one of at most half as many rows when it is put there: the runs are few.
fn pop_near(runs: &mut Vec<Run>, coming: &Run) -> Option<Run>
    ensures { runs.old.items ≡ runs.new.items ++ option_to_list result }
{
    let last = runs.last()?;
    if coming.len() <= last.len() / 2 && !last.leads_to(coming) {
        return None;
    }
    runs.pop()
}

/// Adds a run, if it has rows.
fn keep(runs: &mut Vec<Run>, run: Run) -> Result<(), NoMemory>
    ensures { OnOk result (records_in runs.new.items ≡ records_in runs.old.items ++ run) }
{
    if run.len() != 0 {
        runs.push(run)?;
    }
    Ok(())
}

/// Takes out the rows below the mark, and gives them in order.
fn take_below(alloc: Global, runs: &mut Vec<Run>, mark: u64) -> Result<Vec<Record>, NoMemory>
    ensures rows { IfOk result (λ rows. rows.items ≡ sorted_records (before mark (records_in runs.old.items))) }
    ensures kept { OnOk result (records_in runs.new.items ≡ at_least mark (records_in runs.old.items)) }
{
    if let Some(rows) = take_only(runs, mark) {
        return Ok(rows);
    }
    let mut closed = Vec::new(alloc);
    let all = std::mem::replace(runs, Vec::new(alloc));
    for run in all {
        let (below, rest) = run.split_at(alloc, mark)?;
        push(&mut closed, below)?;
        keep(runs, rest)?;
    }
    let rows = into_one(alloc, closed)?;
    Ok(rows.into_rows())
}

/// Takes out the only run, and gives its rows, if it stands alone and all of it is below the mark. It takes no memory.
fn take_only(runs: &mut Vec<Run>, mark: u64) -> Option<Vec<Record>>
    ensures rows { IfSome result (λ rows. rows.items ≡ sorted_records (before mark (records_in runs.old.items))) }
    ensures kept { OnSome result (records_in runs.new.items ≡ at_least mark (records_in runs.old.items)) }
    ensures none { IfNone result (runs.new.items ≡ runs.old.items) }
{
    match runs.as_slice() {
        [only] if only.ends_before(mark) => (),
        _ => return None,
    }
    Some(runs.pop()?.into_rows())
}

/// All runs as one.
fn into_one(alloc: Global, runs: Vec<Run>) -> Result<Run, NoMemory>
    ensures { IfOk result (λ run. IsReordered run (records_in runs.items)) }
{
    let mut rest = runs;
    let mut all = Run::new(alloc);
    'runs: while let Some(last) = rest.pop() {
        all = last.joined(all)?;
    }
    Ok(all)
}
