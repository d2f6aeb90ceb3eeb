//! The ring of rows, and what is taken out of it.

ghost use Rattle.std.specs.Prelude.{◌≡◌, ◌++◌, ◌∷◌, [], IfOk, IfSome, IfNone};
ghost use mathlib.Core.List.{IsPrefix};
ghost use Rattle.sb_feeds.specs.RowsFed.{IsTimely};
ghost use Rattle.sb_feeds.specs.RowsEnds.{row_ring_in, row_ring_out, rows_received, rows_sent};

use crate::input::signals::Signals;
use crate::rows::ends::{RowsFeeding, RowsIn, RowsOut};
use crate::rows::fed::RowsFed;
use rtrb::RingBuffer;
use sb_feed::NoMemory;
use std::alloc::Global;
use std::sync::Wait;

/// How many values wait in a ring of rows at most: so many that a feeder that has slept for a while before a full ring
/// is back before it is empty.
pub const ROWS_PLACES: usize = 256;

/// The two ends of a new ring of [`ROWS_PLACES`] places. Only making it takes memory.
///
/// # Errors
///
/// There was no memory for the ring.
pub fn rows_pair(alloc: Global) -> Result<(RowsOut, RowsIn), NoMemory>
    ensures ring { IfOk result (λ r. row_ring_in r.1 ≡ row_ring_out r.0) }
    ensures nothing_sent { IfOk result (λ r. rows_sent r.0 ≡ []) }
    ensures nothing_received { IfOk result (λ r. rows_received r.1 ≡ []) }
{
    match RingBuffer::with_protocol::<Global, RowsFeeding>(alloc, ROWS_PLACES) {
        Ok((producer, consumer)) => Ok((RowsOut { producer }, RowsIn { consumer })),
        Err(_) => Err(NoMemory),
    }
}

impl RowsIn {
    /// The next value that was sent, if this end sees one in the ring. It never waits.
    pub fn pop(&mut self) -> Option<RowsFed>
        ensures ring { row_ring_in self.new ≡ row_ring_in self.old }
        ensures some { IfSome result (λ next. rows_received self.new ≡ rows_received self.old ++ next ∷ []) }
        ensures timely { IfSome result (λ next. IsTimely next) }
        ensures none { IfNone result (rows_received self.new ≡ rows_received self.old) }
    {
        match self.consumer.pop() {
            Ok(next) => Some(next),
            Err(_) => None,
        }
    }

    /// Sleeps until a value comes, or for two milliseconds. It may also return at once.
    pub fn rest<W: Wait>(&mut self, rt: &W, signals: &Signals)
        ensures ring { row_ring_in self.new ≡ row_ring_in self.old }
        ensures same { rows_received self.new ≡ rows_received self.old }
    {
        signals.set_resting(true);
        if self.consumer.is_empty() {
            signals.rest(rt);
        }
        signals.set_resting(false);
    }

    /// Compares what was received with what was sent, once the sending end is back: the values received are the first
    /// of those sent.
    pub fn tie(self, out: RowsOut)
        requires { row_ring_in self ≡ row_ring_out out }
        ensures { IsPrefix (rows_received self) (rows_sent out) }
    {
        let RowsIn { mut consumer } = self;
        let RowsOut { mut producer } = out;
        consumer.slots_beside(&mut producer);
    }
}
