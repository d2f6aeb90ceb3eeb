//! An output that sends its rows through a ring.

ghost use Rattle.std.specs.Prelude.{◌≡◌, ◌≤◌, ◌++◌, ◌∷◌, [], true, false, Err};
ghost use Rattle.rtrb.specs.Ring.{SameProducer, sent};
ghost use Rattle.sb_feed.specs.outside.Sources.{Rose};
ghost use Rattle.sb_feeds.specs.RowsFed.{IsTimely};
ghost use Rattle.sb_feeds.specs.RowsSends.{EndsRows};

use crate::input::patience::Patience;
use crate::input::signals::Signals;
use crate::rows::ends::{RowsFeeding, RowsOut};
use crate::rows::fed::RowsFed;
use rtrb::{Producer, PushError};
use sb_feed::{Record, RowOut, SinkFault};
use std::alloc::Global;
use std::sync::Wait;
use std::time::Clock;

/// How many rows are sent before the printer is woken, if it sleeps: a wake takes longer than a few rows. Fewer wait
/// until it wakes by itself, as it does after two milliseconds.
const WAKE_ROWS: usize = 1_024;

/// How many rows may wait to be printed: 1.5 MB. More of them wait only if they came together.
const MOST_ROWS: u64 = 32_768;

// Whether there is room for so many rows behind so many that were sent: no more wait than may, or nothing does.
fn has_room(signals: &Signals, earlier: u64, rows: u64) -> bool {
    let waiting = signals.unprinted(earlier);
    waiting == 0 || waiting.saturating_add(rows) <= MOST_ROWS
}

// Sends a value of so many rows behind so many that were sent, once there is room for them. The printer is woken only
// if it has to wait. False if it needs nothing more: then the value was not sent.
fn send<W: Wait + Clock>(
    rt: &W,
    producer: &mut Producer<RowsFed, Global, RowsFeeding>,
    next: RowsFed,
    rows: u64,
    earlier: u64,
    signals: &Signals,
) -> bool
    requires { IsTimely next }
    ensures ring { SameProducer producer.old producer.new }
    ensures sent { result ≡ true → sent producer.new ≡ sent producer.old ++ next ∷ [] }
    ensures unsent { result ≡ false → sent producer.new ≡ sent producer.old }
{
    let mut next = next;
    let mut patience = Patience::new();
    for _ in rt.forever() {
        if has_room(signals, earlier, rows) {
            match producer.push(next) {
                Ok(()) => return true,
                Err(PushError::Full(back)) => next = back,
            }
        }
        if signals.is_over() {
            return false;
        }
        signals.wake();
        patience.wait(rt);
    }
    unreachable!()
}

// Counts rows that were sent, and wakes the printer if there are many since it was woken last.
fn wake_for(signals: &Signals, unseen: &mut usize, rows: usize) {
    *unseen = unseen.saturating_add(rows);
    if *unseen >= WAKE_ROWS {
        signals.wake();
        *unseen = 0;
    }
}

/// An output whose rows go through a ring to the thread that prints them. Each call sends the rows that it is given
/// together, and waits while the ring is full or many rows wait. Once the printer says by [`Signals`] that it needs
/// nothing more, it refuses all.
#[derive(Drop)]
pub struct RowsSender<'a, W> {
    rt: &'a W,
    alloc: Global,
    signals: &'a Signals,
    faults: u64,
    shortages: u64,
    /// How many rows were sent.
    sent: u64,
    /// How many of them since the printer was woken.
    unseen: usize,
    /// The end of the ring that it sends by.
    pub out: RowsOut,
}

impl<'a, W: Wait + Clock> RowsSender<'a, W> {
    pub fn new(rt: &'a W, alloc: Global, signals: &'a Signals, out: RowsOut) -> RowsSender<'a, W>
        ensures { result.out ≡ out }
    {
        RowsSender {
            rt,
            alloc,
            signals,
            faults: 0,
            shortages: 0,
            sent: 0,
            unseen: 0,
            out,
        }
    }

    /// No more rows come: the printer ends behind those that were sent. It waits while the ring is full.
    pub fn end(&mut self)
        ensures { EndsRows self.old.out self.new.out }
    {
        send(
            self.rt,
            &mut self.out.producer,
            RowsFed::End,
            0,
            self.sent,
            self.signals,
        );
        self.signals.wake();
    }

    /// The end of the ring that it has sent by.
    pub fn into_out(self) -> RowsOut
        ensures { result ≡ self.entry.out }
    {
        self.out
    }

    // The printer needs nothing more: it counts a fault.
    fn refuse(&mut self) -> Result<(), SinkFault>
        ensures refused { result ≡ Err SinkFault.Failed }
        ensures never_falls { self.old.faults ≤ self.new.faults }
        ensures counted { Rose self.old.faults self.new.faults }
        ensures same_shortages { self.new.shortages ≡ self.old.shortages }
        ensures same_out { self.new.out ≡ self.old.out }
    {
        self.faults = self.faults.saturating_add(1);
        Err(SinkFault::Failed)
    }
}

impl<'a, W: Wait + Clock + Sync> RowOut for RowsSender<'a, W> {
    ghost use Rattle.std.specs.Prelude.{false};
    ghost use Rattle.sb_feeds.specs.RowsLaws as rows_law;
    ghost use Rattle.sb_feeds.specs.RowsSends.{AreSent, AreSentInPart};

    ghost row_state = { λ o. record { faults = o.faults; shortages = o.shortages; refuses = false } };

    ghost after = { λ o l p. AreSent o.out l p.out };

    ghost part = { λ o l p. AreSentInPart o.out l p.out };

    ghost after_none = { λ o. rows_law.after_none o.out };

    ghost after_more = { λ o p q. rows_law.after_more o.out p.out q.out };

    ghost part_later = { λ o p q. rows_law.part_later o.out p.out q.out };

    ghost part_of_all = { λ o p. rows_law.part_of_all o.out p.out };

    ghost part_of_more = { λ o p. rows_law.part_of_more o.out p.out };

    fn rows(&mut self, rows: &[Record]) -> Result<(), SinkFault> {
        if self.signals.is_over() {
            return self.refuse();
        }
        if rows.is_empty() {
            return Ok(());
        }
        let Ok(copied) = Vec::from_slice(self.alloc, rows) else {
            self.shortages = self.shortages.saturating_add(1);
            return Err(SinkFault::Memory);
        };
        if send(
            self.rt,
            &mut self.out.producer,
            RowsFed::Rows(copied),
            rows.len() as u64,
            self.sent,
            self.signals,
        ) {
            self.sent = self.sent.saturating_add(rows.len() as u64);
            wake_for(self.signals, &mut self.unseen, rows.len());
            return Ok(());
        }
        self.refuse()
    }

    fn finish(&mut self) -> Result<(), SinkFault> {
        if self.signals.is_over() {
            return self.refuse();
        }
        Ok(())
    }
}
