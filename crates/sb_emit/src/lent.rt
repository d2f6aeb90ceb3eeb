//! Rows to a sink that is lent.
//!
//! Whoever lends a sink wants to know what it has taken once it is back. For that an output has to say that it still
//! holds the same sink.

ghost use Rattle.std.specs.Prelude.{◌≡◌};

use crate::batch::{Batch, gather};
use crate::output::RowOut;
use sb_outside::{Sink, SinkFault};
use sb_record::Record;

/// Writes the text of rows to a sink that is lent, the rows of one window together. No text waits between calls.
#[derive(Drop)]
pub struct Lent<'a, K> {
    /// The sink, which has taken all that was printed.
    pub sink: &'a mut K,
}

impl<K: Sink> RowOut for Lent<'_, K> {
    ghost use Rattle.std.specs.Prelude.{◌≡◌, List, [], ◌++◌};
    ghost use Rattle.std.specs.Io.KnownBytes.{Appends};
    ghost use Rattle.sb_record.specs.Rows.{text_of};
    ghost use Rattle.sb_outside.specs.Sinks.{AppendsPrefix};
    ghost use Rattle.sb_emit.specs.LentLaws as lent;

    ghost row_state = { λ o. K.sink_state o.sink.now };

    ghost after = { λ o l p. (p.sink.ghost_name ≡ o.sink.ghost_name)
        × Appends (K.taken o.sink.now) (K.taken p.sink.now) (text_of l) };

    ghost part = { λ o l p. (p.sink.ghost_name ≡ o.sink.ghost_name)
        × AppendsPrefix (K.taken o.sink.now) (K.taken p.sink.now) (text_of l) };

    ghost after_none = { λ o. lent.after_none o.sink.ghost_name (K.taken o.sink.now) };

    ghost after_more = { λ o p q l m _. lent.after_more o.sink.ghost_name p.sink.ghost_name q.sink.ghost_name
        (K.taken o.sink.now) (K.taken p.sink.now) (K.taken q.sink.now) l m };

    ghost part_later = { λ o p q l m _. lent.part_later o.sink.ghost_name p.sink.ghost_name q.sink.ghost_name
        (K.taken o.sink.now) (K.taken p.sink.now) (K.taken q.sink.now) l m };

    ghost part_of_all = { λ o p l m. lent.part_of_all o.sink.ghost_name p.sink.ghost_name
        (K.taken o.sink.now) (K.taken p.sink.now) l m };

    ghost part_of_more = { λ o p l m. lent.part_of_more o.sink.ghost_name p.sink.ghost_name
        (K.taken o.sink.now) (K.taken p.sink.now) l m };

    fn rows(&mut self, rows: &[Record]) -> Result<(), SinkFault> {
        let mut batch = Batch::new();
        let mut done = 0usize;
        'batches: while done < rows.len() {
            let count = gather(&mut batch, &rows[done..]);
            let text = batch.as_slice();
            let mut written = 0usize;
            'writes: while written < text.len() {
                match self.sink.write(&text[written..]) {
                    Ok(taken) => written += taken,
                    Err(fault) => return Err(fault),
                }
            }
            done += count;
        }
        Ok(())
    }

    fn finish(&mut self) -> Result<(), SinkFault> {
        self.sink.finish()
    }
}
