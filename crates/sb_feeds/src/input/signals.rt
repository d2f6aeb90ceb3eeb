//! What a thread that sends and the one that receives tell each other beside their ring: the reader of an input and the
//! feeder, or the feeder and the printer. No promise rests on it.

use crate::input::patience::Patience;
use std::sync::Wait;
use std::sync::atomic::{AtomicBool, AtomicU64, Ordering};
use std::thread::{self, Parker};
use std::time::{Clock, Duration};

/// The sender has not begun.
const NOT_BEGUN: u64 = 0;

/// The sender sends.
const SENDING: u64 = 1;

/// The receiver needs nothing more.
const OVER: u64 = 2;

/// How often the receiver sleeps for a millisecond before it gives up a sender that has not begun.
const BEGIN_TURNS: u32 = 1_000;

/// How many microseconds the receiver sleeps at most: then the feeder looks whether rows lie ready.
const REST_MICROS: u64 = 2_000;

/// Words that both threads share. The printer counts what it has printed: so the sender sees how much waits.
#[derive(Drop)]
pub struct Signals {
    /// How far the sender is.
    stage: AtomicU64,
    /// Whether the receiver sleeps, or is about to.
    is_resting: AtomicBool,
    /// Where it sleeps.
    bed: Parker,
    /// How many rows the receiver has printed.
    printed: AtomicU64,
}

impl Signals {
    /// The sender has not begun.
    pub fn new() -> Signals {
        Signals {
            stage: AtomicU64::new(NOT_BEGUN),
            is_resting: AtomicBool::new(false),
            bed: Parker::new(),
            printed: AtomicU64::new(0),
        }
    }

    // Goes on from where the sender has not begun. False if it has, or if it was given up.
    fn go_on(&self, next: u64) -> bool {
        self.stage
            .compare_exchange(NOT_BEGUN, next, Ordering::SeqCst, Ordering::SeqCst)
            .is_ok()
    }

    /// The sender begins, and says whether it may: the receiver may have given it up.
    pub fn begin(&self) -> bool {
        self.go_on(SENDING)
    }

    /// The receiver waits until the sender has begun, and gives it up if that takes about a second, since there may be
    /// no thread for it. Whether the sender has begun.
    pub fn has_begun(&self, clock: &impl Clock) -> bool {
        let mut patience = Patience::new();
        for _ in 0..BEGIN_TURNS {
            if self.stage.load(Ordering::SeqCst) != NOT_BEGUN {
                return true;
            }
            if patience.is_spent() {
                thread::sleep(clock, Duration::from_millis(1));
            } else {
                patience.pause();
            }
        }
        !self.go_on(OVER)
    }

    /// The receiver needs nothing more: the sender ends as soon as it sees this.
    pub fn end(&self) {
        self.stage.store(OVER, Ordering::SeqCst);
    }

    /// Whether the receiver needs nothing more.
    pub fn is_over(&self) -> bool {
        self.stage.load(Ordering::SeqCst) == OVER
    }

    /// The sender has sent a value: if the receiver sleeps, it is woken.
    pub fn wake(&self) {
        if self.is_resting.load(Ordering::SeqCst) {
            self.bed.unpark();
        }
    }

    /// The receiver has printed so many rows more.
    pub fn count_printed(&self, rows: usize) {
        self.printed.fetch_add(rows as u64, Ordering::SeqCst);
    }

    /// How many rows wait to be printed, where so many were sent.
    pub fn unprinted(&self, sent: u64) -> u64 {
        sent.saturating_sub(self.printed.load(Ordering::SeqCst))
    }

    /// The receiver says whether it is about to sleep. It looks once more whether a value came before it does.
    pub fn set_resting(&self, is_resting: bool) {
        self.is_resting.store(is_resting, Ordering::SeqCst);
    }

    /// The receiver sleeps until it is woken, or for two milliseconds.
    pub fn rest<W: Wait>(&self, rt: &W) {
        self.bed
            .park_timeout(rt, Duration::from_micros(REST_MICROS));
    }
}
