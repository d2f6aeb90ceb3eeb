//! A join that keeps the values of open windows, and gives the pairs of a window once a watermark closes it.
//!
//! The windows of a join are fixed, so a record lies in exactly one. A [`JoinKept`] keeps the values of both sides as
//! sorted runs, one for each part that it absorbed, which are merged when they are many. A closing takes off the
//! windows that end by the mark, and looks at no other. It pairs the values of these, so each pair is given once, when
//! its window closes.

ghost use Rattle.std.specs.Prelude.{◌≡◌, ℕ, ◌≤◌, List, OnOk, OnErr, IfOk};
ghost use Rattle.sb_runs.specs.records.declared.element.KeptRec.{KeptRec as Element};
ghost use Rattle.sb_runs.specs.records.Elements.{of_lane};
ghost use Rattle.sb_runs.specs.window.Groupings.{IsFrom, Adds, Closes};
ghost use Rattle.sb_windowed.specs.Joins.{join_rows};
ghost use Rattle.sb_join.specs.Kept as spec;
ghost use Rattle.sb_join.specs.Orderless.{gives-orderless};

use crate::part::JoinPart;
use crate::rows::rows_of;
use crate::side_values::SideJoiner;
use sb_runs::{Grouping, NoMemory, Record, Runs, Windows};
use sb_windowed::{Combine, Side};
use std::alloc::Global;
use std::marker::Model;

/// A join of fixed windows, and the marks of its sides.
#[derive(Drop)]
pub struct JoinKept {
    alloc: Global,
    combine: Combine,
    windows: Windows,
    values: Runs<SideJoiner>,
    left_mark: u64,
    right_mark: u64,
    closed: u64,
    is_spent: bool,
}

impl Model for JoinKept {
    ghost use Rattle.std.specs.Prelude.{◌≡◌, false};
    ghost use Rattle.sb_join.specs.Entries as entries;
    ghost use Rattle.sb_join.specs.Kept as spec;
    ghost use Rattle.sb_windowed.specs.declared.join.Side.TheVariants.{Left, Right};

    ghost Value = { spec.JoinState };

    ghost view = { λ s. record {
      combine = s.combine;
      windows = s.windows;
      left = entries.kept_of Left s.values;
      right = entries.kept_of Right s.values;
      left_mark = s.left_mark;
      right_mark = s.right_mark;
      closed = s.closed;
      is_spent = s.is_spent;
    } };

    ghost invariant = { λ s. (s.windows.size ≡ s.windows.every)
        × (s.is_spent ≡ false → entries.AreKept s.windows s.closed s.values) };
}

impl JoinKept {
    /// A join that has taken nothing, of windows whose size is the distance between their ends. It takes no memory.
    pub fn new(alloc: Global, combine: Combine, windows: Windows) -> JoinKept
        requires fixed { windows.size ≡ windows.every }
        ensures empty { result ≡ spec.fresh combine windows }
        ensures fresh { (l : List Element)
            → spec.gives result l ≡ join_rows combine windows (of_lane 0 l) (of_lane 1 l) }
    {
        JoinKept {
            alloc,
            combine,
            windows,
            values: Runs::new(alloc),
            left_mark: 0,
            right_mark: 0,
            closed: 0,
            is_spent: false,
        }
    }

    /// Keeps the watermark of a side, which is not below its last one, and gives the joint mark: no record still to
    /// come on either side has a time below it.
    pub fn mark(&mut self, side: Side, mark: u64) -> u64
        requires rising { spec.mark_of side self.old ≤ mark }
        ensures kept { self.new ≡ spec.with_mark side mark self.old }
        ensures joint { result ≡ spec.low_mark self.new }
    {
        match side {
            Side::Left => self.left_mark = mark,
            Side::Right => self.right_mark = mark,
        }
        self.low_mark()
    }

    /// The joint mark: the smaller of the last watermarks of both sides, each 0 before the first.
    pub fn low_mark(&self) -> u64
        ensures { result ≡ spec.low_mark self.now }
    {
        self.left_mark.min(self.right_mark)
    }
}

impl Grouping for JoinKept {
    type Part = JoinPart;

    ghost spent = { spec.IsSpent };

    ghost closed = { λ g. g.closed };

    ghost gives = { spec.gives };

    ghost fits = { spec.IsLike };

    ghost stands = { λ part. spec.StandsFor part.side part.records };

    ghost order = { gives-orderless };

    fn is_spent(&self) -> bool {
        self.is_spent
    }

    fn absorb(&mut self, part: JoinPart) -> Result<(), NoMemory>
        requires fits { (spec.IsSpent self.old → ⊥) → spec.IsLike self.old part }
        requires from { (spec.IsSpent self.old → ⊥)
            → (es : List Element) × spec.StandsFor part.side part.records es × IsFrom self.old.closed es }
        ensures was { OnOk result (spec.IsSpent self.old → ⊥) }
        ensures is { OnOk result (spec.IsSpent self.new → ⊥) }
        ensures closed { OnOk result (self.new.closed ≡ self.old.closed) }
        ensures adds { OnOk result ((es : List Element) → spec.StandsFor part.side part.records es
            → IsFrom self.old.closed es → Adds self.old.closed (spec.gives self.old) (spec.gives self.new) es) }
        ensures windows { OnOk result (self.new.windows ≡ self.old.windows) }
        ensures marks { OnOk result (spec.HaveSameMarks self.old self.new) }
        ensures err { OnErr result (spec.IsSpent self.new) }
    {
        if self.is_spent {
            return Err(NoMemory);
        }
        self.is_spent = true;
        let joiner = SideJoiner { alloc: self.alloc };
        self.values.push(self.alloc, &joiner, part.values)?;
        self.is_spent = false;
        Ok(())
    }

    fn close(&mut self, mark: u64) -> Result<Vec<Record>, NoMemory>
        requires from { (spec.IsSpent self.old → ⊥) → self.old.closed ≤ mark }
        ensures was { OnOk result (spec.IsSpent self.old → ⊥) }
        ensures is { OnOk result (spec.IsSpent self.new → ⊥) }
        ensures closed { OnOk result (self.new.closed ≡ mark) }
        ensures closes { IfOk result (λ rows. Closes mark (spec.gives self.old) rows.items (spec.gives self.new)) }
        ensures windows { OnOk result (self.new.windows ≡ self.old.windows) }
        ensures marks { OnOk result (spec.HaveSameMarks self.old self.new) }
        ensures err { OnErr result (spec.IsSpent self.new) }
    {
        if self.is_spent {
            return Err(NoMemory);
        }
        self.is_spent = true;
        let joiner = SideJoiner { alloc: self.alloc };
        let closed = self.values.close(self.alloc, &joiner, mark)?;
        let rows = rows_of(&joiner, self.combine, closed)?;
        self.closed = mark;
        self.is_spent = false;
        Ok(rows)
    }
}
