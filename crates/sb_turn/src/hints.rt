//! Words that threads leave for each other beside the table, and how helpers sleep until one calls. No promise rests on
//! them.

use crate::keep::Keep;
use crate::life::MAX_NODES;
use crate::turns::Turns;
use std::array::from_fn;
use std::sync::Wait;
use std::sync::atomic::Ordering::SeqCst;
use std::sync::atomic::{AtomicBool, AtomicU64};
use std::time::Duration;

/// Who waits, whether help is wanted, and how often helpers were called.
#[derive(Drop)]
pub(crate) struct Hints {
    /// How many wait for the turn of each node.
    pub(crate) waiting: [AtomicU64; MAX_NODES as usize],
    /// Whether help is wanted.
    is_help_wanted: AtomicBool,
    /// How often helpers were called. Those who sleep do so on this word.
    calls: AtomicU64,
}

impl Hints {
    /// Nobody waits, help is wanted, and nobody was called.
    pub(crate) fn new() -> Hints {
        Hints {
            waiting: from_fn(|_| AtomicU64::new(0)),
            is_help_wanted: AtomicBool::new(true),
            calls: AtomicU64::new(0),
        }
    }

    /// Calls all helpers: those who sleep wake. Who is about to sleep finds the word changed, and does not.
    pub(crate) fn call_all(&self) {
        self.calls.fetch_add(1, SeqCst);
        self.calls.wake_all();
    }
}

impl<K: Keep> Turns<K> {
    /// Says whether help is wanted. At first it is. Threads that look for work enter turns, and stand in the way of who
    /// has some to do: so one that has little of it can do without them for a while. Helpers that sleep are called
    /// where it is wanted.
    pub fn want_help(&self, is_wanted: bool) {
        self.hints.is_help_wanted.store(is_wanted, SeqCst);
        if is_wanted {
            self.hints.call_all();
        }
    }

    /// Whether help is wanted, as it was said last. Another thread may have said otherwise by now.
    pub fn is_help_wanted(&self) -> bool {
        self.hints.is_help_wanted.load(SeqCst)
    }

    /// How often helpers were called: where help came to be wanted, and where the state word was raised. Who means to
    /// sleep reads it before looking for work a last time.
    pub fn help_calls(&self) -> u64 {
        self.hints.calls.load(SeqCst)
    }

    /// Sleeps until helpers are called, or for `most`. It doesn't if they were called since there were so many calls.
    /// It may also return for no reason.
    pub fn sleep_till_called<R: Wait>(&self, rt: &R, calls: u64, most: Duration) {
        self.hints
            .calls
            .park_timeout(rt, (calls % 4_294_967_296) as u32, most);
    }
}
