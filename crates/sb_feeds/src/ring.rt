//! The ring, and what is taken out of it.

ghost use Rattle.std.specs.Prelude.{◌≡◌, ◌++◌, ◌∷◌, [], true, false, IfOk, IfSome, IfNone};
ghost use mathlib.Core.List.{IsPrefix};
ghost use Rattle.sb_feeds.specs.Fed.{has_stop, is_stop};
ghost use Rattle.sb_feeds.specs.Ends.{values_fed, known_to, places_of, values_received, ring_in, ring_of, ring_out, values_sent};

use crate::ends::{FeedDone, FeedIn, FeedOut, Feeding};
use crate::fed::Fed;
use rtrb::RingBuffer;
use sb_feed::NoMemory;
use std::alloc::Global;

/// How many values wait in a ring at most.
pub const RING_PLACES: usize = 256;

/// The two ends of a new ring of [`RING_PLACES`] places. Only making it takes memory.
///
/// # Errors
///
/// There was no memory for the ring.
pub fn feed_pair(alloc: Global) -> Result<(FeedOut, FeedIn), NoMemory>
    ensures ring { IfOk result (λ r. ring_in r.1 ≡ ring_out r.0) }
    ensures places { IfOk result (λ r. places_of r.0 ≡ RING_PLACES) }
    ensures nothing_sent { IfOk result (λ r. values_sent r.0 ≡ []) }
    ensures nothing_received { IfOk result (λ r. values_received r.1 ≡ []) }
{
    match RingBuffer::with_protocol::<Global, Feeding>(alloc, RING_PLACES) {
        Ok((producer, consumer)) => Ok((FeedOut { producer }, FeedIn { consumer })),
        Err(_) => Err(NoMemory),
    }
}

impl FeedIn {
    /// The next value that was sent, if this end knows of one or sees one in the ring. It never waits.
    #[tactic(auto, using(crate::proofs::Stops::stop_last))]
    pub fn pop(&mut self) -> Option<Fed>
        ensures ring { ring_in self.new ≡ ring_in self.old }
        ensures some { IfSome result (λ next. values_received self.new ≡ values_received self.old ++ next ∷ []) }
        ensures known { IfSome result (λ next. IsPrefix (known_to self.old) (next ∷ known_to self.new)) }
        ensures no_stop_before { IfSome result (λ _. has_stop (values_received self.old) ≡ false) }
        ensures stop { IfSome result (λ next. has_stop (values_received self.new) ≡ is_stop next) }
        ensures none { IfNone result (values_received self.new ≡ values_received self.old) }
        ensures none_known { IfNone result (known_to self.old ≡ []) }
    {
        match self.consumer.pop() {
            Ok(next) => Some(next),
            Err(_) => None,
        }
    }

    /// Compares what was received with what was sent, once the sending end is back: the values received are the first
    /// of those sent, and all of them if a stop was received.
    pub fn tie(self, done: FeedDone)
        requires { ring_in self ≡ ring_of done }
        ensures first { IsPrefix (values_received self) (values_fed done) }
        ensures all { has_stop (values_received self) ≡ true → values_received self ≡ values_fed done }
    {
        let FeedIn { mut consumer } = self;
        let FeedDone { mut producer } = done;
        consumer.slots_beside(&mut producer);
    }
}
