//! Writing rows, and what is told of dropped records: many at a time. And writing a text that is the whole answer.

ghost use Rattle.std.specs.Prelude.{◌≡◌, ◌<◌, ◌≤◌, ◌+◌, All, OnOk, flat_map, length};
ghost use Rattle.sb_feed.specs.base.records.Rows.{text_of};
ghost use Rattle.sb_feed.specs.outside.Sinks.{SinkCause, WritesAll};
ghost use Rattle.sb_feed.specs.outside.Sources.{Rose};
ghost use Rattle.sb_told.specs.Outcomes.{HasPrinted, IsNoTap, IsWritten};
ghost use Rattle.sb_told.specs.Batches.{Moves};
ghost use Rattle.sb_told.specs.Statuses.{late_line};

use crate::note::late_note;
use crate::status::Status;
use sb_feed::{
    Dropped, END_MARK, Record, Sink, SinkFault, Stream, TextBuf, row_bytes, write_all_of,
};

/// How many bytes of text are gathered before they are written.
pub const BATCH: usize = 8192;

/// The most bytes of a row or a line of notes, with its end.
pub const MAX_TEXT: usize = 129;

/// Writes what is gathered, if another text may not fit.
pub fn make_room<K: Sink>(out: &mut K, batch: &mut TextBuf<BATCH>) -> Result<(), SinkFault>
    ensures moves { Moves (K.taken out.old) (K.taken out.new) batch.old batch.new result }
    ensures room { OnOk result (length batch.new + MAX_TEXT ≤ BATCH) }
    ensures cause { SinkCause (K.sink_state out.old) (K.sink_state out.new) result }
{
    if batch.len() + MAX_TEXT <= BATCH {
        return Ok(());
    }
    write_all_of(out, batch.as_slice())?;
    batch.clear();
    Ok(())
}

/// Writes the text of rows, whose times are below [`END_MARK`], and takes no memory for it.
pub(crate) fn write_text<K: Sink>(out: &mut K, rows: &[Record]) -> Result<(), SinkFault>
    requires { All (λ r. r.time < END_MARK) rows.now }
    ensures bytes { WritesAll (K.taken out.old) (K.taken out.new) (text_of rows.now) result }
    ensures cause { SinkCause (K.sink_state out.old) (K.sink_state out.new) result }
{
    let mut batch = TextBuf::<BATCH>::new();
    'rows: for row in rows {
        make_room(out, &mut batch)?;
        batch.push(row_bytes(row).as_slice());
    }
    write_all_of(out, batch.as_slice())
}

/// Writes the text of rows, whose times are below [`END_MARK`], and has the sink pass all of it on.
pub fn write_rows<K: Sink>(out: &mut K, rows: &[Record]) -> Result<(), SinkFault>
    requires { All (λ r. r.time < END_MARK) rows.now }
    ensures bytes { WritesAll (K.taken out.old) (K.taken out.new) (text_of rows.now) result }
    ensures cause { SinkCause (K.sink_state out.old) (K.sink_state out.new) result }
    ensures told { OnOk result ((K.sink_state out.new).faults ≡ (K.sink_state out.old).faults) }
{
    match write_text(out, rows) {
        Ok(()) => out.finish(),
        Err(fault) => Err(fault),
    }
}

/// Writes a text, and has the sink pass all of it on.
pub(crate) fn write_whole<K: Sink>(out: &mut K, text: &[u8]) -> Result<(), SinkFault>
    ensures bytes { WritesAll (K.taken out.old) (K.taken out.new) text.now result }
    ensures cause { SinkCause (K.sink_state out.old) (K.sink_state out.new) result }
    ensures told { OnOk result ((K.sink_state out.new).faults ≡ (K.sink_state out.old).faults) }
{
    write_all_of(out, text)?;
    out.finish()
}

/// Writes the text that is the whole answer: how the run ends.
pub fn print<K: Sink>(out: &mut K, text: &[u8]) -> Status
    ensures printed { HasPrinted text.now (K.taken out.old) (K.taken out.new) result }
    ensures no_tap { IsNoTap result }
    ensures cause { result ≡ Status.Output → Rose (K.sink_state out.old).faults (K.sink_state out.new).faults }
    ensures told { IsWritten result → (K.sink_state out.new).faults ≡ (K.sink_state out.old).faults }
{
    match write_whole(out, text) {
        Ok(()) => Status::Done,
        Err(SinkFault::Failed) => Status::Output,
        Err(SinkFault::Memory) => Status::Memory,
    }
}

/// Writes the lines of late records that were dropped, of an input or of the file of a stream, and takes no memory for
/// it.
pub(crate) fn write_dropped<N: Sink>(
    notes: &mut N,
    file: Option<Stream>,
    dropped: &[Dropped],
) -> Result<(), SinkFault>
    ensures bytes { WritesAll (N.taken notes.old) (N.taken notes.new) (flat_map (late_line file) dropped.now) result }
    ensures cause { SinkCause (N.sink_state notes.old) (N.sink_state notes.new) result }
{
    let mut batch = TextBuf::<BATCH>::new();
    'dropped: for late in dropped {
        make_room(notes, &mut batch)?;
        batch.push(late_note(file, late).as_slice());
    }
    write_all_of(notes, batch.as_slice())
}
