//! A source and a sink in memory, which give and take bytes in pieces and fail when told to.

ghost use Rattle.std.specs.Prelude.{◌≡◌, ◌≤◌, ◌<◌, ◌↔◌, [], false, length, All, IfOk, OnOk, IsErr, IsTrue};
ghost use Rattle.std.specs.Io.{ReadsAtMost, WritesAtMost};
ghost use Rattle.std.specs.Io.KnownBytes.{Keeps, ReadConsumes};
ghost use Rattle.sb_outside.specs.Sources.{SourceCause};
ghost use Rattle.sb_outside.specs.Sinks.{SinkCause, Takes};
ghost use Rattle.sb_outside.specs.Schedules.{fails, piece_of, after_call};
ghost use Rattle.sb_outside.specs.MemoryForms.{first_schedule, read_count, after_read};

use crate::schedule::Calls;
use crate::sink::{Sink, SinkFault};
use crate::source::{Source, SourceFault};
use std::alloc::Global;
use std::marker::Model;

/// A source in memory.
#[derive(Drop)]
pub struct MemSource {
    bytes: Vec<u8>,
    given: usize,
    calls: Calls,
}

impl Model for MemSource {
    ghost use Rattle.std.specs.Prelude.{◌≤◌, drop, vec_len};
    ghost use Rattle.sb_outside.specs.MemoryForms.{MemReading};

    ghost Value = { MemReading };

    ghost view = { λ s. record { left = drop s.given s.bytes.items; schedule = s.calls } };

    ghost invariant = { λ s. s.given ≤ vec_len s.bytes };
}

impl MemSource {
    /// A source of the bytes. Its call k, counted from 1, gives at most `pieces[k - 1]` bytes,
    /// without a limit behind the end of `pieces`; the calls whose numbers are in `failing` fail,
    /// and lose no byte.
    pub fn new(bytes: Vec<u8>, pieces: Vec<usize>, failing: Vec<u64>) -> MemSource
        requires { All (λ n. 1 ≤ n) pieces.items }
        ensures { result ≡ record {
          left = bytes.items;
          schedule = first_schedule pieces.items failing.items;
        } }
    {
        MemSource {
            bytes,
            given: 0,
            calls: Calls::new(pieces, failing),
        }
    }

    /// How many reads have failed.
    pub fn faults(&self) -> u64
        ensures { result ≡ self.now.schedule.faults }
    {
        self.calls.faults()
    }
}

impl Source for MemSource {
    ghost use Rattle.std.specs.Prelude.{Some};

    ghost left = { λ s. Some s.left };

    ghost faults = { λ s. s.schedule.faults };

    fn read(&mut self, buf: &mut [u8]) -> Result<usize, SourceFault>
        requires { 0 < length buf.old }
        ensures bound { ReadsAtMost result buf.new }
        ensures bytes { ReadConsumes (Some self.old.left) (Some self.new.left) result buf.new }
        ensures cause { SourceCause self.old.schedule.faults self.new.schedule.faults result }
        ensures count { IfOk result (λ n. n ≡ read_count self.old (length buf.old)) }
        ensures failed { IsErr result ↔ IsTrue (fails self.old.schedule) }
        ensures after { self.new ≡ after_read self.old (length buf.old) }
    {
        let Some(most) = self.calls.begin(buf.len()) else {
            return Err(SourceFault);
        };
        let left = &self.bytes[self.given..];
        let count = most.min(left.len());
        buf[..count].copy_from_slice(&left[..count]);
        self.given += count;
        Ok(count)
    }
}

/// A sink in memory.
#[derive(Drop)]
pub struct MemSink {
    bytes: Vec<u8>,
    calls: Calls,
    shortages: u64,
}

impl Model for MemSink {
    ghost use Rattle.sb_outside.specs.MemoryForms.{MemWriting};

    ghost Value = { MemWriting };

    ghost view = { λ s. record { taken = s.bytes.items; schedule = s.calls; shortages = s.shortages } };
}

impl MemSink {
    /// A sink that has taken nothing. Its call k, counted from 1, takes at most `pieces[k - 1]`
    /// bytes, without a limit behind the end of `pieces`; the calls whose numbers are in `failing`
    /// fail, and take nothing. The call of `finish` is counted with those of `write`.
    pub fn new(alloc: Global, pieces: Vec<usize>, failing: Vec<u64>) -> MemSink
        requires { All (λ n. 1 ≤ n) pieces.items }
        ensures { result ≡ record {
          taken = [];
          schedule = first_schedule pieces.items failing.items;
          shortages = 0;
        } }
    {
        MemSink {
            bytes: Vec::new(alloc),
            calls: Calls::new(pieces, failing),
            shortages: 0,
        }
    }

    /// The bytes taken so far.
    pub fn taken(&self) -> &[u8]
        ensures { result.now ≡ self.now.taken }
    {
        &self.bytes
    }

    /// How many calls have failed. Being out of memory is not counted here.
    pub fn faults(&self) -> u64
        ensures { result ≡ self.now.schedule.faults }
    {
        self.calls.faults()
    }
}

impl Sink for MemSink {
    ghost use Rattle.std.specs.Prelude.{Some};
    ghost use Rattle.sb_outside.specs.MemoryForms.{state_of};

    ghost taken = { λ s. Some s.taken };

    ghost sink_state = { state_of };

    fn write(&mut self, piece: &[u8]) -> Result<usize, SinkFault>
        requires { 0 < length piece.now }
        ensures bound { WritesAtMost result piece.now }
        ensures bytes { Takes (Some self.old.taken) (Some self.new.taken) result piece.now }
        ensures cause { SinkCause (state_of self.old) (state_of self.new) result }
        ensures count { IfOk result (λ n. n ≡ piece_of self.old.schedule (length piece.now)) }
        ensures failed { (result ≡ Err SinkFault.Failed) ↔ IsTrue (fails self.old.schedule) }
        ensures calls { self.new.schedule ≡ after_call self.old.schedule }
    {
        let Some(most) = self.calls.begin(piece.len()) else {
            return Err(SinkFault::Failed);
        };
        match self.bytes.extend_from_slice(&piece[..most]) {
            Ok(()) => Ok(most),
            Err(_) => {
                self.shortages = self.shortages.saturating_add(1);
                Err(SinkFault::Memory)
            }
        }
    }

    fn finish(&mut self) -> Result<(), SinkFault>
        ensures bytes { Keeps (Some self.old.taken) (Some self.new.taken) }
        ensures cause { SinkCause (state_of self.old) (state_of self.new) result }
        ensures told { OnOk result ((state_of self.new).refuses ≡ false) }
        ensures failed { IsErr result ↔ IsTrue (fails self.old.schedule) }
        ensures calls { self.new.schedule ≡ after_call self.old.schedule }
    {
        match self.calls.begin(1) {
            Some(_) => Ok(()),
            None => Err(SinkFault::Failed),
        }
    }
}
