//! An output that hands on the rows from a time on.

ghost use Rattle.std.specs.Prelude.{◌≡◌, ◌≤◌, drop, length};
ghost use Rattle.sb_checkpoint.specs.LaterRows.{from_first};

use sb_emit::RowOut;
use sb_outside::SinkFault;
use sb_pipeline::Record;
use std::marker::Model;

/// Hands on the rows of a call from the first one on that has a time at least `low`, in one call, and leaves out those
/// before it. Where rows rise, as those of a run do, these are the rows with such a time.
#[derive(Drop)]
pub struct RowsFrom<R> {
    low: u64,
    out: R,
}

impl<R> Model for RowsFrom<R> {
    ghost use Rattle.sb_checkpoint.specs.LaterRows.{HandedOn};

    ghost Value = { HandedOn R };

    ghost view = { λ s. record { low = s.low; out = s.out } };
}

impl<R: RowOut> RowsFrom<R> {
    pub fn new(low: u64, out: R) -> RowsFrom<R>
        ensures { result ≡ record { low = low; out = out } }
    {
        RowsFrom { low, out }
    }

    /// The output, which has taken what was handed on.
    pub fn into_out(self) -> R
        ensures { result ≡ self.out }
    {
        self.out
    }
}

/// How many rows at the front have a time below `low`.
fn earlier_front(low: u64, rows: &[Record]) -> usize
    ensures within { result ≤ length rows.now }
    ensures left { drop result rows.now ≡ from_first low rows.now }
{
    let mut count = 0usize;
    'rows: while count < rows.len() && rows[count].time < low {
        count += 1;
    }
    count
}

impl<R: RowOut> RowOut for RowsFrom<R> {
    ghost use Rattle.std.specs.Prelude.{List, [], ◌++◌};
    ghost use Rattle.sb_checkpoint.specs.LaterRows.{HandsFromFirst};
    ghost use Rattle.sb_checkpoint.specs.LaterRowLaws as law;

    ghost row_state = { λ o. R.row_state o.out };

    ghost after = { HandsFromFirst R.after };

    ghost part = { HandsFromFirst R.part };

    ghost after_none = { law.after_none R.after R.after_none };

    ghost after_more = { law.after_more R.after R.after_more };

    ghost part_later = { law.part_later R.after R.part R.part_later };

    ghost part_of_all = { law.part_of_all R.after R.part R.part_of_all };

    ghost part_of_more = { law.part_of_more R.part R.part_of_more };

    fn rows(&mut self, rows: &[Record]) -> Result<(), SinkFault> {
        let front = earlier_front(self.low, rows);
        self.out.rows(&rows[front..])
    }

    fn finish(&mut self) -> Result<(), SinkFault> {
        self.out.finish()
    }
}
