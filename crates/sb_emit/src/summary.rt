//! An output that keeps three numbers of the rows, and none of the rows.

ghost use Rattle.std.specs.Prelude.{◌≡◌, ◌<◌, ◌%◌, ◌^◌, [], ◌∷◌};
ghost use Rattle.std.specs.Int.{cast_signed, w64};
ghost use Rattle.sb_emit.specs.Summaries.{Adds};

use crate::output::RowOut;
use sb_outside::SinkFault;
use sb_record::{END_MARK, Record};
use std::marker::Model;

/// How many rows there were, the sum of their values, and the sum of each row's end times its value, each modulo 2^64.
/// The end of a row is that of its window: its time plus 1.
///
/// Two runs that give the same rows have the same summary, in whatever order the rows of a window come. It never fails.
#[derive(Drop)]
pub struct Summary {
    count: u64,
    sum: u64,
    check: u64,
}

impl Model for Summary {
    ghost use Rattle.sb_emit.specs.Summaries.{Sums};

    ghost Value = { Sums };

    ghost view = { λ s. record { count = s.count; sum = s.sum; check = s.check } };
}

impl Summary {
    /// The summary of no row.
    pub fn new() -> Summary
        ensures { result ≡ record { count = 0; sum = 0; check = 0 } }
    {
        Summary {
            count: 0,
            sum: 0,
            check: 0,
        }
    }

    /// How many rows, modulo 2^64.
    pub fn count(&self) -> u64
        ensures { result ≡ self.now.count % 2 ^ 64 }
    {
        self.count
    }

    /// The sum of the rows' values, modulo 2^64, as a signed number.
    pub fn sum(&self) -> i64
        ensures { result ≡ cast_signed w64 (self.now.sum % 2 ^ 64) }
    {
        self.sum.cast_signed()
    }

    /// The sum of each row's end times its value, modulo 2^64, as a signed number.
    pub fn check(&self) -> i64
        ensures { result ≡ cast_signed w64 (self.now.check % 2 ^ 64) }
    {
        self.check.cast_signed()
    }

    // Adds the numbers of one row.
    fn add(&mut self, row: &Record)
        requires { row.now.time < END_MARK }
        ensures { Adds self.old (row.now ∷ []) self.new }
    {
        let value = row.value.cast_unsigned();
        let end = row.time + 1;
        self.count = self.count.wrapping_add(1);
        self.sum = self.sum.wrapping_add(value);
        self.check = self.check.wrapping_add(end.wrapping_mul(value));
    }
}

impl RowOut for Summary {
    ghost use Rattle.sb_emit.specs.Summaries.{Adds, AddsPrefix, no_faults};
    ghost use Rattle.sb_emit.specs.SumLaws as sums;

    ghost row_state = { λ _. no_faults };

    ghost after = { Adds };

    ghost part = { AddsPrefix };

    ghost after_none = { sums.after_none };

    ghost after_more = { λ o p q l m _. sums.after_more o p q l m };

    ghost part_later = { λ o p q l m _. sums.part_later o p q l m };

    ghost part_of_all = { sums.part_of_all };

    ghost part_of_more = { sums.part_of_more };

    fn rows(&mut self, rows: &[Record]) -> Result<(), SinkFault> {
        'rows: for row in rows {
            self.add(row);
        }
        Ok(())
    }

    fn finish(&mut self) -> Result<(), SinkFault> {
        Ok(())
    }
}
