//! The late records that a run lists.

ghost use Rattle.std.specs.Prelude.{◌≡◌, []};
ghost use Rattle.sb_feed.specs.outside.Sinks.{SinkCause, WritesAll};
ghost use Rattle.sb_told.specs.declared.late.LateRecords.TheVariants.{OfInput};
ghost use Rattle.sb_told.specs.Statuses.{late_text};

use crate::output::write_dropped;
use sb_feed::{Dropped, Sequence, Sink, SinkFault, Stream};
use std::alloc::Global;

/// The late records that a run lists, in the order of their lines.
#[derive(Drop)]
pub enum LateRecords {
    /// Those of one input.
    OfInput(Sequence<Dropped>),
    /// Those of two files, file a and file b.
    OfFiles(Sequence<Dropped>, Sequence<Dropped>),
}

impl LateRecords {
    /// None.
    pub fn none(alloc: Global) -> LateRecords
        ensures { result ≡ OfInput [] }
    {
        LateRecords::OfInput(Sequence::new(Vec::new(alloc)))
    }

    /// Writes a line for each, and takes no memory for it.
    pub fn write<N: Sink>(&self, notes: &mut N) -> Result<(), SinkFault>
        ensures bytes { WritesAll (N.taken notes.old) (N.taken notes.new) (late_text self.now) result }
        ensures cause { SinkCause (N.sink_state notes.old) (N.sink_state notes.new) result }
    {
        match self {
            LateRecords::OfInput(dropped) => write_dropped(notes, None, dropped.as_slice()),
            LateRecords::OfFiles(a, b) => {
                write_dropped(notes, Some(Stream::A), a.as_slice())?;
                write_dropped(notes, Some(Stream::B), b.as_slice())
            }
        }
    }
}
