//! How an end of a ring waits for the other one.

use crossbeam_utils::Backoff;
use std::cmp::min;
use std::thread;
use std::time::{Clock, Duration};

/// How many microseconds an end sleeps first before a full ring: fewer than that lasts.
const FIRST_MICROS: u64 = 50;

/// How many it sleeps at most, where the other end stands still.
const MOST_MICROS: u64 = 800;

/// How often in a row there was nothing to do.
#[derive(Drop)]
pub struct Patience {
    backoff: Backoff,
    /// How many microseconds the next sleep takes.
    micros: u64,
}

impl Patience {
    /// There was something to do.
    pub fn new() -> Patience {
        Patience {
            backoff: Backoff::new(),
            micros: FIRST_MICROS,
        }
    }

    /// There was something to do again.
    pub fn renew(&mut self) {
        self.backoff.reset();
        self.micros = FIRST_MICROS;
    }

    /// Whether there was nothing to do for some microseconds, so that it is time to sleep.
    pub fn is_spent(&self) -> bool {
        self.backoff.is_completed()
    }

    /// There was nothing to do: it looks away for a moment, and then leaves the processor to others.
    pub fn pause(&mut self) {
        self.backoff.snooze();
    }

    /// The ring is full: it sleeps, each time for twice as long as before. To look again and again would take the
    /// places of the ring from the cache of the other end.
    pub fn wait(&mut self, clock: &impl Clock) {
        thread::sleep(clock, Duration::from_micros(self.micros));
        self.micros = min(self.micros.saturating_add(self.micros), MOST_MICROS);
    }
}
