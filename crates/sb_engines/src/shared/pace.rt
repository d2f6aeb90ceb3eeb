//! Who works off what a watermark closes where epochs are little: the feeder by itself, or all workers.
//!
//! Workers that meet in every turn may be slower than one of them, and where there is much to do between two turns they
//! are faster. Which of both holds depends on the plan, the keys and the machine. So the feeder tries: it measures a
//! stretch of epochs that it works off by itself, then one that is left to all, and goes on with the faster way for some
//! time. Beside it others read and print. If the feeder waits for its input there is nothing to gain: then it works by
//! itself, and tells the helpers that it does without them.

use sb_worker::Cascade;
use std::cmp::min;
use std::time::{Clock, Duration, Instant};

/// From how many records on an epoch is left to all.
const LITTLE_RECORDS: usize = 2_048;

/// Behind how many records, or how many epochs, a stretch ends.
const STRETCH_RECORDS: u64 = 16_384;

const STRETCH_EPOCHS: u32 = 256;

/// Behind how many microseconds a stretch ends too that the feeder works off by itself: so help comes soon if the plan
/// is heavy.
const STRETCH_MICROS: u64 = 2_000;

/// How many epochs that are left to all come before their stretch is measured: as many as may wait for workers.
const BACKLOG_EPOCHS: u32 = 16;

/// How many microseconds an epoch takes the feeder at least if all may be faster: a helper needs some to wake.
const WORTH_MICROS: u64 = 20;

/// For how many stretches the feeder goes on with a way before it tries both again: at first, and at most.
const FIRST_HOLD: u32 = 16;

const MOST_HOLD: u32 = 256;

/// All have to be faster than the feeder by one part in so many.
const GAIN_PARTS: u128 = 8;

/// Who works off little epochs.
#[derive(Clone, Copy, Drop, PartialEq, Eq)]
enum Way {
    /// The feeder by itself.
    Alone,
    /// All workers.
    Together,
    /// All workers, and nothing else is tried.
    Left,
}

/// What was measured of a stretch so far.
#[derive(Clone, Copy, Drop)]
struct Stretch {
    /// How many of its epochs have ended.
    epochs: u32,
    /// In how many of them the feeder waited for its input.
    waited: u32,
    /// Since when it is measured.
    since: Option<Instant>,
    /// How many records have come since then.
    records: u64,
}

/// What the feeder knows of its epochs.
#[derive(Clone, Copy, Drop)]
pub struct Pace {
    way: Way,
    stretch: Stretch,
    /// How many nanoseconds a record took the feeder by itself.
    alone_nanos: u128,
    /// How many stretches it goes on with its way.
    left: u32,
    /// How many it will go on with the way that is faster when both have been tried again.
    hold: u32,
    /// How many records came since the last watermark.
    records: usize,
    /// Whether the feeder has waited for its input since then.
    has_waited: bool,
    /// Whether it has told the helpers that it wants help.
    is_helped: bool,
}

impl Stretch {
    // One that is measured since then.
    fn since(since: Option<Instant>) -> Stretch {
        Stretch {
            epochs: 0,
            waited: 0,
            since,
            records: 0,
        }
    }

    // An epoch of so many records has ended.
    fn count(&mut self, records: usize, has_waited: bool) {
        self.epochs = self.epochs.saturating_add(1);
        self.waited = self.waited.saturating_add(u32::from(has_waited));
        self.records = self.records.saturating_add(records as u64);
    }

    // Whether enough has come to tell how long it takes.
    fn is_full(&self) -> bool {
        self.records >= STRETCH_RECORDS || self.epochs >= STRETCH_EPOCHS
    }

    // How long it has been measured.
    fn time(&self, now: Option<Instant>) -> Duration {
        match (self.since, now) {
            (Some(since), Some(now)) => now.duration_since(since),
            _ => Duration::ZERO,
        }
    }

    // How many nanoseconds a record has taken.
    fn nanos(&self, now: Option<Instant>) -> u128 {
        self.time(now).as_nanos() / u128::from(self.records.max(1))
    }

    // Whether all may be faster: the feeder seldom waited, and its epochs took long enough.
    fn is_worth_help(&self, now: Option<Instant>) -> bool {
        let least = Duration::from_micros(WORTH_MICROS).saturating_mul(self.epochs);
        self.waited <= self.epochs / 2 && self.time(now) >= least
    }
}

impl Pace {
    /// That of a feeder whose first epoch begins.
    pub fn new() -> Pace {
        Pace::of(Way::Alone)
    }

    /// That of a feeder which leaves its epochs to all, whatever comes.
    pub fn leaving() -> Pace {
        Pace::of(Way::Left)
    }

    fn of(way: Way) -> Pace {
        Pace {
            way,
            stretch: Stretch::since(None),
            alone_nanos: 0,
            left: 0,
            hold: FIRST_HOLD,
            records: 0,
            has_waited: false,
            is_helped: true,
        }
    }

    // Tells the helpers whether the feeder wants help, if that has changed.
    fn tell(&mut self, cascade: &Cascade, is_wanted: bool) {
        if self.is_helped != is_wanted {
            self.is_helped = is_wanted;
            cascade.want_help(is_wanted);
        }
    }

    /// Records of the epoch came. If they are many, the feeder wants help.
    pub(crate) fn came(&mut self, clock: &impl Clock, cascade: &Cascade, records: usize) {
        if self.stretch.since.is_none() {
            self.stretch.since = Instant::now(clock).ok();
            self.has_waited = false;
        }
        self.records = self.records.saturating_add(records);
        if self.records >= LITTLE_RECORDS {
            self.tell(cascade, true);
        }
    }

    /// Nothing came for now.
    pub fn waited(&mut self) {
        self.has_waited = true;
    }

    /// The epoch ends: whether the feeder works it off by itself.
    pub(crate) fn is_own(&self) -> bool {
        self.way == Way::Alone && self.records < LITTLE_RECORDS
    }

    /// The epoch has ended, and the feeder has worked it off or left it to all.
    pub(crate) fn end_epoch(&mut self, clock: &impl Clock, cascade: &Cascade) {
        let is_own = self.is_own();
        self.stretch.count(self.records, self.has_waited);
        self.records = 0;
        self.has_waited = false;
        let now = Instant::now(clock).ok();
        match self.way {
            Way::Alone if is_own => self.end_alone(now),
            Way::Alone => self.stretch = Stretch::since(now),
            Way::Together => self.end_together(now),
            Way::Left => {}
        }
        let is_wanted = self.way == Way::Together;
        if is_own || is_wanted {
            self.tell(cascade, is_wanted);
        }
    }

    // An epoch has ended that the feeder has worked off by itself.
    fn end_alone(&mut self, now: Option<Instant>) {
        let stretch = self.stretch;
        let is_long = stretch.time(now) >= Duration::from_micros(STRETCH_MICROS);
        if !is_long && !stretch.is_full() {
            return;
        }
        self.stretch = Stretch::since(now);
        if self.left > 0 {
            self.left -= 1;
        } else if stretch.is_worth_help(now) {
            self.alone_nanos = stretch.nanos(now);
            self.way = Way::Together;
        }
    }

    // An epoch has ended that was left to all.
    fn end_together(&mut self, now: Option<Instant>) {
        if self.stretch.epochs == BACKLOG_EPOCHS {
            self.stretch.since = now;
            self.stretch.records = 0;
        }
        if self.stretch.epochs <= BACKLOG_EPOCHS || !self.stretch.is_full() {
            return;
        }
        let nanos = self.stretch.nanos(now);
        self.stretch = Stretch::since(now);
        if self.left > 0 {
            self.left -= 1;
            if self.left == 0 {
                self.way = Way::Alone;
            }
            return;
        }
        self.left = self.hold;
        self.hold = min(self.hold.saturating_add(self.hold), MOST_HOLD);
        if nanos
            >= self
                .alone_nanos
                .saturating_sub(self.alone_nanos / GAIN_PARTS)
        {
            self.way = Way::Alone;
        }
    }
}
