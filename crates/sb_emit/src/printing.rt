//! Printing: the text of rows, written to a sink.

ghost use Rattle.std.specs.Prelude.{◌≡◌, [], ◌++◌, List};

use crate::batch::{Batch, gather};
use crate::output::RowOut;
use sb_outside::{Sink, SinkFault};
use sb_record::{Record, TextBuf};
use std::marker::Model;

/// Writes the text of rows to a sink.
///
/// The rows of one window, which have one time, are written together, as far as a buffer of fixed size has room for
/// them. So large windows take few writes, and how rows are split into calls between windows does not change the
/// writes. No text waits between calls, and no memory is taken.
#[derive(Drop)]
pub struct Printing<K> {
    sink: K,
    batch: Batch,
}

impl<K> Model for Printing<K> {
    ghost use Rattle.sb_emit.specs.Printed.{Printed};

    ghost Value = { Printed K };

    ghost view = { λ p. record { sink = p.sink } };
}

impl<K: Sink> Printing<K> {
    pub fn new(sink: K) -> Printing<K>
        ensures { result ≡ record { sink = sink } }
    {
        Printing {
            sink,
            batch: TextBuf::new(),
        }
    }

    /// The sink, which has taken all that was printed.
    pub fn into_sink(self) -> K
        ensures { result ≡ self.sink }
    {
        self.sink
    }
}

impl<K: Sink> RowOut for Printing<K> {
    ghost use Rattle.std.specs.Prelude.{List, [], ◌++◌};
    ghost use Rattle.std.specs.Io.KnownBytes.{Appends};
    ghost use Rattle.sb_record.specs.Rows.{text_of};
    ghost use Rattle.sb_outside.specs.Sinks.{AppendsPrefix};
    ghost use Rattle.sb_emit.specs.TextLaws as text;

    ghost row_state = { λ o. K.sink_state o.sink };

    ghost after = { λ o l p. Appends (K.taken o.sink) (K.taken p.sink) (text_of l) };

    ghost part = { λ o l p. AppendsPrefix (K.taken o.sink) (K.taken p.sink) (text_of l) };

    ghost after_none = { λ o. text.after_none (K.taken o.sink) };

    ghost after_more = { λ o p q l m _. text.after_more (K.taken o.sink) (K.taken p.sink) (K.taken q.sink) l m };

    ghost part_later = { λ o p q l m _. text.part_later (K.taken o.sink) (K.taken p.sink) (K.taken q.sink) l m };

    ghost part_of_all = { λ o p l m. text.part_of_all (K.taken o.sink) (K.taken p.sink) l m };

    ghost part_of_more = { λ o p l m. text.part_of_more (K.taken o.sink) (K.taken p.sink) l m };

    fn rows(&mut self, rows: &[Record]) -> Result<(), SinkFault> {
        let mut done = 0usize;
        'batches: while done < rows.len() {
            let count = gather(&mut self.batch, &rows[done..]);
            let text = self.batch.as_slice();
            let mut written = 0usize;
            'writes: while written < text.len() {
                match self.sink.write(&text[written..]) {
                    Ok(taken) => written += taken,
                    Err(fault) => return Err(fault),
                }
            }
            done += count;
        }
        Ok(())
    }

    fn finish(&mut self) -> Result<(), SinkFault> {
        self.sink.finish()
    }
}
