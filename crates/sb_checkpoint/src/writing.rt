//! The text of a checkpoint, written to a sink.

ghost use Rattle.sb_outside.specs.Sinks.{SinkCause, WritesAll};
ghost use Rattle.sb_checkpoint.specs.Texts.{checkpoint_text, items_text};
ghost use Rattle.sb_checkpoint.specs.Saved.{items_in};

use crate::checkpoint::Checkpoint;
use crate::line_text::{end_line, head_line, item_at, item_count, item_line};
use sb_outside::{Sink, SinkFault, write_all_of};

/// Writes the text of a checkpoint: a line `checkpoint LINES LOW`, one for each record and for each watermark above
/// 0, and a line `end COUNT`, the number of lines between. It takes no memory, and does not finish the sink.
///
/// # Errors
///
/// The first refusal of the sink, which has then taken a prefix of the text.
pub fn write_checkpoint<K: Sink>(checkpoint: &Checkpoint, sink: &mut K) -> Result<(), SinkFault>
    ensures bytes { WritesAll (K.taken sink.old) (K.taken sink.new)
        (checkpoint_text checkpoint.now.lines checkpoint.now.low (items_in checkpoint.now)) result }
    ensures cause { SinkCause (K.sink_state sink.old) (K.sink_state sink.new) result }
{
    write_all_of(sink, head_line(checkpoint.lines, checkpoint.low).as_slice())?;
    write_items(checkpoint, sink)?;
    write_all_of(sink, end_line(item_count(checkpoint)).as_slice())
}

/// Writes the lines of the items.
#[tactic(auto, using(crate::proofs::ItemTexts::wrote_more, crate::proofs::ItemTexts::wrote_part, crate::proofs::ItemTexts::wrote_all, crate::proofs::ItemTexts::within, sb_outside::proofs::SinkCauses::calls_then))]
fn write_items<K: Sink>(checkpoint: &Checkpoint, sink: &mut K) -> Result<(), SinkFault>
    ensures bytes { WritesAll (K.taken sink.old) (K.taken sink.new) (items_text (items_in checkpoint.now)) result }
    ensures cause { SinkCause (K.sink_state sink.old) (K.sink_state sink.new) result }
{
    let mut place = 0u64;
    'items: while let Some(item) = item_at(checkpoint, place) {
        write_all_of(sink, item_line(&item).as_slice())?;
        place += 1;
    }
    Ok(())
}
