//! A tap that counts rows, and fails when told to.

ghost use Rattle.std.specs.Prelude.{◌≡◌, ◌<◌, ◌%◌, ◌^◌, [], length, if◌then◌else◌};
ghost use Rattle.sb_outside.specs.Schedules.{next_count, next_fails};
ghost use Rattle.sb_emit.specs.Taps.{Answers};
ghost use Rattle.sb_emit.specs.TapKinds.{Counting, count_state};

use crate::seen_rows::SeenRows;
use crate::tap::{Tap, TapFault, Wish};
use sb_record::{END_MARK, Record};
use std::marker::Model;

/// Counts the rows that it sees, and never has enough.
#[derive(Drop)]
pub struct CountTap {
    failing: Vec<u64>,
    calls: u64,
    faults: u64,
    seen: SeenRows,
}

impl Model for CountTap {
    ghost use Rattle.sb_emit.specs.TapKinds.{Counting};

    ghost Value = { Counting };

    ghost view = { λ t. record { failing = t.failing.items; calls = t.calls; faults = t.faults; seen = t.seen } };
}

impl CountTap {
    /// A tap whose calls with these numbers, counted from 1, fail.
    pub fn new(failing: Vec<u64>) -> CountTap
        ensures { result ≡ record { failing = failing.items; calls = 0; faults = 0; seen = [] } }
    {
        CountTap {
            failing,
            calls: 0,
            faults: 0,
            seen: SeenRows::new(),
        }
    }
}

impl Tap for CountTap {
    ghost tap_state = { count_state };

    fn row(&mut self, row: &Record) -> Result<Wish, TapFault>
        requires { row.now.time < END_MARK }
        ensures answers { Answers row.now (count_state self.old) (count_state self.new) result }
        ensures exact { result ≡
            (if next_fails self.old.failing self.old.calls then Err TapFault.Failed else Ok Wish.More) }
        ensures failing { self.new.failing ≡ self.old.failing }
        ensures calls { self.new.calls ≡ next_count self.old.calls }
    {
        self.calls = self.calls.saturating_add(1);
        if self.failing.contains(&self.calls) {
            self.faults = self.faults.saturating_add(1);
            return Err(TapFault::Failed);
        }
        self.seen.add(row);
        Ok(Wish::More)
    }

    fn seen(&self) -> u64
        ensures { result ≡ length self.now.seen % 2 ^ 64 }
    {
        self.seen.count()
    }
}
