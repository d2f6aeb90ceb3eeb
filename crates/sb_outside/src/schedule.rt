//! The calls of a source or a sink in memory: how large their pieces are, and which of them fail.

ghost use Rattle.std.specs.Prelude.{◌≡◌, ◌≤◌, ◌<◌, if◌then◌else◌, All, IfSome, IsNone};
ghost use Rattle.sb_outside.specs.Sources.{Rose};
ghost use Rattle.sb_outside.specs.Schedules.{fails, piece_of, after_call};
ghost use Rattle.sb_outside.specs.MemoryForms.{first_schedule};

use std::marker::Model;

/// The calls so far, numbered from 1, and what is to come.
#[derive(Drop)]
pub struct Calls {
    pieces: Vec<usize>,
    failing: Vec<u64>,
    calls: u64,
    faults: u64,
}

impl Model for Calls {
    ghost use Rattle.std.specs.Prelude.{◌≤◌, All};
    ghost use Rattle.sb_outside.specs.Schedules.{Schedule};

    ghost Value = { Schedule };

    ghost view = { λ c. record {
      pieces = c.pieces.items;
      failing = c.failing.items;
      calls = c.calls;
      faults = c.faults;
    } };

    ghost invariant = { λ c. All (λ n. 1 ≤ n) c.pieces.items };
}

impl Calls {
    pub fn new(pieces: Vec<usize>, failing: Vec<u64>) -> Calls
        requires { All (λ n. 1 ≤ n) pieces.items }
        ensures { result ≡ first_schedule pieces.items failing.items }
    {
        Calls {
            pieces,
            failing,
            calls: 0,
            faults: 0,
        }
    }

    /// How many calls have failed.
    pub fn faults(&self) -> u64
        ensures { result ≡ self.now.faults }
    {
        self.faults
    }

    /// Begins the next call, to which so many bytes are offered: how many of them it may take, or
    /// none where it fails.
    pub fn begin(&mut self, offered: usize) -> Option<usize>
        requires { 0 < offered }
        ensures answer { result ≡
            (if fails self.old then None else Some (piece_of self.old offered)) }
        ensures within { IfSome result (λ n. (1 ≤ n) × (n ≤ offered)) }
        ensures after { self.new ≡ after_call self.old }
        ensures counts { IsNone result → Rose self.old.faults self.new.faults }
        ensures never_falls { self.old.faults ≤ self.new.faults }
    {
        self.calls = self.calls.saturating_add(1);
        if self.failing.contains(&self.calls) {
            self.faults = self.faults.saturating_add(1);
            return None;
        }
        let piece = self.pieces.get((self.calls - 1) as usize);
        Some(piece.copied().unwrap_or(offered).min(offered))
    }
}
