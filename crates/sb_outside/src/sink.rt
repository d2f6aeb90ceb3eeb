//! Sinks: where bytes go, and writing all of some bytes to one.

ghost use Rattle.std.specs.Prelude.{◌≡◌, ◌<◌, List, ℕ, false, length, OnOk};
ghost use Rattle.std.specs.declared.option.Option.{Option};
ghost use Rattle.std.specs.Io.{WritesAtMost};
ghost use Rattle.std.specs.Io.KnownBytes.{Keeps};
ghost use Rattle.sb_outside.specs.Sinks.{SinkCause, SinkState, Takes, WritesAll};

use std::error::Error;
use std::fmt;

/// Why a sink refused.
#[derive(Clone, Copy, Debug, PartialEq, Eq, Drop)]
pub enum SinkFault {
    /// A write or a flush failed, and the sink has counted it as a fault.
    Failed,
    /// There was not enough memory, and the sink has counted that as a shortage.
    Memory,
}

impl fmt::Display for SinkFault {
    fn fmt<W: fmt::Write>(&self, f: &mut fmt::Formatter<W>) -> fmt::Result {
        f.write_str(match self {
            SinkFault::Failed => "a write failed",
            SinkFault::Memory => "out of memory",
        })
    }
}

impl Error for SinkFault {}

/// Where bytes go.
///
/// `taken` is the list of all bytes that the sink has taken, if they are known. `sink_state` counts what it has
/// refused. A sink may take bytes and then fail to pass them on: it counts that fault at once, and refuses all that
/// follows, so that the fault is answered by the next call. Whoever calls `finish` after the last write learns of all.
pub trait Sink: Send {
    ghost taken: { Self → Option (List ℕ) };

    ghost sink_state: { Self → SinkState };

    /// Takes bytes from the front of `piece`, and answers how many: at least one.
    ///
    /// # Errors
    ///
    /// `Failed` only if the count of faults rose, and `Memory` only if that of shortages did. A sink that refuses has
    /// taken no byte.
    fn write(&mut self, piece: &[u8]) -> Result<usize, SinkFault>
        requires { 0 < length piece.now }
        ensures bound { WritesAtMost result piece.now }
        ensures bytes { Takes (taken self.old) (taken self.new) result piece.now }
        ensures cause { SinkCause (sink_state self.old) (sink_state self.new) result };

    /// Passes on all that was taken. To be called after the last write.
    ///
    /// # Errors
    ///
    /// As those of `write`. A fault that no answer has told is told here.
    fn finish(&mut self) -> Result<(), SinkFault>
        ensures bytes { Keeps (taken self.old) (taken self.new) }
        ensures cause { SinkCause (sink_state self.old) (sink_state self.new) result }
        ensures told { OnOk result ((sink_state self.new).refuses ≡ false) };
}

impl<K: Sink> Sink for &mut K {
    ghost taken = { λ s. K.taken s.now };

    ghost sink_state = { λ s. K.sink_state s.now };

    fn write(&mut self, piece: &[u8]) -> Result<usize, SinkFault> {
        Sink::write(&mut **self, piece)
    }

    fn finish(&mut self) -> Result<(), SinkFault> {
        Sink::finish(&mut **self)
    }
}

/// Writes all bytes, and offers at each write all that the sink has not yet taken.
///
/// # Errors
///
/// The first refusal of the sink, which has then taken a prefix of the bytes.
pub fn write_all_of<K: Sink>(sink: &mut K, bytes: &[u8]) -> Result<(), SinkFault>
    ensures bytes { WritesAll (K.taken sink.old) (K.taken sink.new) bytes.now result }
    ensures cause { SinkCause (K.sink_state sink.old) (K.sink_state sink.new) result }
{
    let mut done = 0usize;
    'writes: while done < bytes.len() {
        done += sink.write(&bytes[done..])?;
    }
    Ok(())
}
