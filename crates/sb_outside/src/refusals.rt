//! What a sink over std has refused.

ghost use Rattle.std.specs.Prelude.{◌≡◌, ℕ, false, Err, OnErr, OnOk};
ghost use Rattle.sb_outside.specs.Refusals.{Counts, NeverFalls, after_fault, after_untold};

use crate::sink::SinkFault;
use std::io::{self, Error, ErrorKind};
use std::marker::Model;

/// How often a sink has refused, and whether it refuses all that follows.
#[derive(Drop)]
pub struct Refusals {
    faults: u64,
    shortages: u64,
    refuses: bool,
}

impl Model for Refusals {
    ghost use Rattle.sb_outside.specs.Sinks.{SinkState};

    ghost Value = { SinkState };

    ghost view = { λ r. record { faults = r.faults; shortages = r.shortages; refuses = r.refuses } };
}

impl Refusals {
    pub fn new() -> Refusals
        ensures { result ≡ record { faults = 0; shortages = 0; refuses = false } }
    {
        Refusals {
            faults: 0,
            shortages: 0,
            refuses: false,
        }
    }

    /// How many faults were counted.
    pub fn faults(&self) -> u64
        ensures { result ≡ self.now.faults }
    {
        self.faults
    }

    /// Refuses, if all that follows is refused.
    pub fn ready(&mut self) -> Result<(), SinkFault>
        ensures counts { Counts self.old self.new result }
        ensures ok { OnOk result (self.new ≡ self.old) }
        ensures never_falls { NeverFalls self.old self.new }
    {
        if self.refuses {
            return Err(self.fail());
        }
        Ok(())
    }

    /// Counts a fault, which is answered.
    pub fn fail(&mut self) -> SinkFault
        ensures answer { result ≡ SinkFault.Failed }
        ensures counts { self.new ≡ after_fault self.old }
        ensures never_falls { NeverFalls self.old self.new }
    {
        self.faults = self.faults.saturating_add(1);
        SinkFault::Failed
    }

    /// Counts a flush that failed behind bytes that were taken. It can't be answered any more, so all that follows is
    /// refused.
    pub fn after_flush(&mut self, flushed: &io::Result<()>)
        ensures failed { OnErr flushed.now (self.new ≡ after_untold self.old) }
        ensures passed { OnOk flushed.now (self.new ≡ self.old) }
        ensures never_falls { NeverFalls self.old self.new }
    {
        if flushed.is_err() {
            self.faults = self.faults.saturating_add(1);
            self.refuses = true;
        }
    }

    /// Counts an error of a writer, which is answered.
    pub fn refuse(&mut self, error: &Error) -> SinkFault
        requires { self.old.refuses ≡ false }
        ensures counts { Counts {T = ℕ} self.old self.new (Err result) }
        ensures never_falls { NeverFalls self.old self.new }
    {
        if error.kind() == ErrorKind::OutOfMemory {
            self.shortages = self.shortages.saturating_add(1);
            return SinkFault::Memory;
        }
        self.fail()
    }
}
