//! A source and a sink over std's readers and writers, with a count of their faults.

ghost use Rattle.std.specs.Prelude.{◌≡◌, ◌<◌, false, length, OnOk};
ghost use Rattle.std.specs.Io.{WritesAtMost};
ghost use Rattle.std.specs.Io.KnownBytes.{Keeps};
ghost use Rattle.sb_outside.specs.Refusals.{Counts};
ghost use Rattle.sb_outside.specs.Sinks.{SinkCause, Takes};

use crate::refusals::Refusals;
use crate::sink::{Sink, SinkFault};
use crate::source::{Source, SourceFault};
use std::io::{Read, Write};
use std::marker::Model;

/// A source over a reader of std.
///
/// Each error of the reader is a fault, also an interrupted read; none is tried again.
#[derive(Drop)]
pub struct StdSource<R> {
    reader: R,
    faults: u64,
}

impl<R> Model for StdSource<R> {
    ghost use Rattle.sb_outside.specs.Counts.{CountedReader};

    ghost Value = { CountedReader R };

    ghost view = { λ s. record { reader = s.reader; faults = s.faults } };
}

impl<R: Read + Send> StdSource<R> {
    pub fn new(reader: R) -> StdSource<R>
        ensures { result ≡ record { reader = reader; faults = 0 } }
    {
        StdSource { reader, faults: 0 }
    }

    /// How many reads have failed.
    pub fn faults(&self) -> u64
        ensures { result ≡ self.now.faults }
    {
        self.faults
    }
}

impl<R: Read + Send> Source for StdSource<R> {
    ghost left = { λ s. R.remaining s.reader };

    ghost faults = { λ s. s.faults };

    fn read(&mut self, buf: &mut [u8]) -> Result<usize, SourceFault> {
        match self.reader.read(buf) {
            Ok(count) => Ok(count),
            Err(_) => {
                self.faults = self.faults.saturating_add(1);
                Err(SourceFault)
            }
        }
    }
}

/// A sink over a writer of std, which is flushed after each write.
///
/// A write that takes no byte counts as failed. If a flush fails after bytes were taken, that is counted at once, and
/// the sink refuses from then on, since a refusal takes no byte. A writer that is out of memory is answered `Memory`.
#[derive(Drop)]
pub struct StdSink<W> {
    writer: W,
    refusals: Refusals,
}

impl<W> Model for StdSink<W> {
    ghost use Rattle.sb_outside.specs.Counts.{CountedWriter};

    ghost Value = { CountedWriter W };

    ghost view = { λ s. record { writer = s.writer; state = s.refusals } };
}

impl<W: Write + Send> StdSink<W> {
    pub fn new(writer: W) -> StdSink<W>
        ensures { result ≡ record {
          writer = writer;
          state = record { faults = 0; shortages = 0; refuses = false };
        } }
    {
        StdSink {
            writer,
            refusals: Refusals::new(),
        }
    }

    /// How many writes and flushes have failed. Being out of memory is not counted here.
    pub fn faults(&self) -> u64
        ensures { result ≡ self.now.state.faults }
    {
        self.refusals.faults()
    }
}

impl<W: Write + Send> Sink for StdSink<W> {
    ghost taken = { λ s. W.contents s.writer };

    ghost sink_state = { λ s. s.state };

    fn write(&mut self, piece: &[u8]) -> Result<usize, SinkFault>
        requires { 0 < length piece.now }
        ensures bound { WritesAtMost result piece.now }
        ensures bytes { Takes (W.contents self.old.writer) (W.contents self.new.writer) result piece.now }
        ensures cause { SinkCause self.old.state self.new.state result }
        ensures counts { Counts self.old.state self.new.state result }
    {
        if let Err(fault) = self.refusals.ready() {
            return Err(fault);
        }
        match self.writer.write(piece) {
            Ok(0) => Err(self.refusals.fail()),
            Ok(count) => {
                let flushed = self.writer.flush();
                self.refusals.after_flush(&flushed);
                Ok(count)
            }
            Err(error) => Err(self.refusals.refuse(&error)),
        }
    }

    fn finish(&mut self) -> Result<(), SinkFault>
        ensures bytes { Keeps (W.contents self.old.writer) (W.contents self.new.writer) }
        ensures cause { SinkCause self.old.state self.new.state result }
        ensures told { OnOk result (self.new.state.refuses ≡ false) }
        ensures counts { Counts self.old.state self.new.state result }
    {
        if let Err(fault) = self.refusals.ready() {
            return Err(fault);
        }
        match self.writer.flush() {
            Ok(()) => Ok(()),
            Err(error) => Err(self.refusals.refuse(&error)),
        }
    }
}
