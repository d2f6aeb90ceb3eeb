//! Rows of a run, shown in a live table.

ghost use Rattle.std.specs.Prelude.{◌≡◌, ◌<◌, All, IsErrOf, OnErr};
ghost use Rattle.sb_emit.specs.outside.Sinks.{SinkCause};
ghost use Rattle.sb_emit.specs.outside.declared.sink.SinkFault.TheVariants as fault;
ghost use Rattle.sb_emit.specs.Outputs.{TakesRows};
ghost use Rattle.sb_live.specs.Rising.{RiseFrom, next_in};
ghost use Rattle.sb_live.specs.Showings.{ShowsAll, ShowsSome, counts_of};

use crate::writer::LiveOut;
use sb_emit::{END_MARK, NoMemory, Record, RowOut, SinkFault};
use std::marker::Model;
use std::sync::Wait;

/// An output whose rows are shown in a live table, those of each call all at once.
///
/// Nothing promises an output that the times of its rows do not fall, and that those of a call are above those of the
/// calls before. So it looks: a call that is not so is refused as failed, and shows nothing. No window has rows in two
/// calls. Whoever knows that the calls are apart and that the rows rise knows that no fault was counted
/// ([`laws`](crate::laws)).
pub struct LiveRows<R: Wait + Drop> {
    out: LiveOut<R>,
    faults: u64,
    shortages: u64,
}

impl<R: Wait + Drop> Model for LiveRows<R> {
    ghost use Rattle.sb_live.specs.Showings.{ShownRows};

    ghost Value = { ShownRows };

    ghost view = { λ s. record { out = s.out; faults = s.faults; shortages = s.shortages } };
}

impl<R: Wait + Drop> LiveRows<R> {
    /// The output of a writer.
    pub fn new(out: LiveOut<R>) -> LiveRows<R>
        ensures { result ≡ record { out = out; faults = 0; shortages = 0 } }
    {
        LiveRows {
            out,
            faults: 0,
            shortages: 0,
        }
    }

    /// The writer, which has shown the rows.
    pub fn into_out(self) -> LiveOut<R>
        ensures { result ≡ self.out }
    {
        let LiveRows {
            out,
            faults: _,
            shortages: _,
        } = self;
        out
    }
}

impl<R: Wait + Drop + Send> RowOut for LiveRows<R> {
    ghost use Rattle.sb_live.specs.Showings.{ShowsAll, ShowsSome, counts_of};
    ghost use Rattle.sb_live.specs.ShowLaws as shows;

    ghost row_state = { counts_of };

    ghost after = { ShowsAll };

    ghost part = { ShowsSome };

    ghost after_none = { shows.after_none };

    ghost after_more = { λ o p q l m _. shows.after_more o p q l m };

    ghost part_later = { shows.part_later };

    ghost part_of_all = { shows.part_of_all };

    ghost part_of_more = { shows.part_of_more };

    /// Shows rows, all of them at once. The time of each is below [`END_MARK`].
    ///
    /// # Errors
    ///
    /// `Failed` only if a time falls or the first is not above those shown before, and `Memory` if there was not enough
    /// memory. Then none of the rows is shown.
    fn rows(&mut self, rows: &[Record]) -> Result<(), SinkFault>
        requires { All (λ r. r.time < END_MARK) rows.now }
        ensures rows { TakesRows ShowsAll ShowsSome self.old rows.now self.new result }
        ensures cause { SinkCause (counts_of self.old) (counts_of self.new) result }
        ensures none { OnErr result (self.new.out.changes ≡ self.old.out.changes) }
        ensures falls { IsErrOf result fault.Failed → RiseFrom (next_in self.old.out.changes) rows.now → ⊥ }
    {
        if !self.out.may_show(rows) {
            self.faults = self.faults.saturating_add(1);
            return Err(SinkFault::Failed);
        }
        match self.out.show(rows) {
            Ok(()) => Ok(()),
            Err(NoMemory) => {
                self.shortages = self.shortages.saturating_add(1);
                Err(SinkFault::Memory)
            }
        }
    }

    fn finish(&mut self) -> Result<(), SinkFault> {
        Ok(())
    }
}
