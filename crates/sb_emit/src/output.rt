//! Outputs: where all rows of a run go.

ghost use Rattle.std.specs.Prelude.{◌≡◌, ◌<◌, List, [], ◌++◌, false, All, OnOk};
ghost use Rattle.sb_record.specs.declared.item.Record.{Record};
ghost use Rattle.sb_outside.specs.Sinks.{SinkCause, SinkState};
ghost use Rattle.sb_emit.specs.Outputs.{AreApart, TakesRows};

use sb_outside::SinkFault;
use sb_record::{END_MARK, Record};

/// Where rows go.
///
/// `after o l p` says that the output `p` is the output `o` after the rows `l`, and `part o l p` that it is `o` after a
/// prefix of what it makes of them. `row_state` counts what the output has refused. An output may take rows and then
/// fail to pass them on: it counts that fault at once and refuses all that follows, so that whoever calls `finish`
/// after the last rows learns of each fault.
///
/// The members below the calls are the laws by which calls add up: rows and then rows are all of these rows, rows and
/// then a part of more are a part of all, and a part of some rows is a part of more. Whoever adds up calls has to know
/// that each row of a call is later than those of the calls before (`AreApart`): so an output may tell calls apart, and
/// promise something of those alone whose rows are apart.
pub trait RowOut: Send {
    ghost row_state: { Self → SinkState };

    ghost after: { Self → List Record → Self → Type 0 };

    ghost part: { Self → List Record → Self → Type 0 };

    /// Takes rows, in their order. The time of each is below [`END_MARK`].
    ///
    /// # Errors
    ///
    /// `Failed` only if the count of faults rose in this call, and `Memory` only if that of shortages did. A prefix of
    /// what the rows give has then been taken.
    fn rows(&mut self, rows: &[Record]) -> Result<(), SinkFault>
        requires { All (λ r. r.time < END_MARK) rows.now }
        ensures rows { TakesRows after part self.old rows.now self.new result }
        ensures cause { SinkCause (row_state self.old) (row_state self.new) result };

    /// Passes on all that was taken. To be called after the last rows.
    ///
    /// # Errors
    ///
    /// As those of `rows`. A fault that no answer has told is told here.
    fn finish(&mut self) -> Result<(), SinkFault>
        ensures rows { TakesRows after part self.old [] self.new result }
        ensures cause { SinkCause (row_state self.old) (row_state self.new) result }
        ensures told { OnOk result ((row_state self.new).refuses ≡ false) };

    ghost after_none: { (o : Self) → after o [] o };

    ghost after_more: { (o p q : Self) (l m : List Record) → AreApart l m → after o l p → after p m q
        → after o (l ++ m) q };

    ghost part_later: { (o p q : Self) (l m : List Record) → AreApart l m → after o l p → part p m q
        → part o (l ++ m) q };

    ghost part_of_all: { (o p : Self) (l m : List Record) → after o l p → part o (l ++ m) p };

    ghost part_of_more: { (o p : Self) (l m : List Record) → part o l p → part o (l ++ m) p };
}
