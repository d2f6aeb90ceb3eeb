//! The ring of an input, and what is taken out of it.

ghost use Rattle.std.specs.Prelude.{◌≡◌, ◌<◌, ◌++◌, ◌∷◌, [], IfOk, IfSome, IfNone};
ghost use mathlib.Core.List.{IsPrefix};
ghost use Rattle.rtrb.specs.Ring.{SameProducer, known_free, sent};
ghost use Rattle.sb_feeds.specs.InputFed.{MayFollow};
ghost use Rattle.sb_feeds.specs.InputEnds.{begun_values, ring_in, ring_out, values_received, values_sent};

use crate::input::ends::{InputFeeding, InputIn, InputOut};
use crate::input::fed::InputFed;
use crate::input::signals::Signals;
use rtrb::{Producer, PushError, RingBuffer};
use sb_feed::{NoMemory, Streams};
use std::alloc::Global;
use std::sync::Wait;
use std::thread;
use std::time::{Clock, Duration};

/// How many values wait in the ring of an input at most: so many that a reader that sleeps for a while before a full
/// ring is back before it is empty, and so few that their bundles take little memory.
pub const INPUT_PLACES: usize = 128;

/// How many microseconds a feeder sleeps that takes nothing out for now: about as many as a bundle takes.
pub const NAP_MICROS: u64 = 50;

// Sends a value, where a place is known to be free. It names what a full ring hands back, since without that the prover
// cannot name the value's types.
fn put(producer: &mut Producer<InputFed, Global, InputFeeding>, next: InputFed)
    requires room { 0 < known_free producer.old }
    requires follows { MayFollow (sent producer.old) next }
    ensures ring { SameProducer producer.old producer.new }
    ensures sent { sent producer.new ≡ sent producer.old ++ next ∷ [] }
{
    let mut next = next;
    match producer.push(next) {
        Ok(()) => return,
        Err(PushError::Full(back)) => next = back,
    }
    unreachable!()
}

/// The two ends of a new ring of [`INPUT_PLACES`] places, for an input of these streams and bundles of at most so many
/// records. Only making it takes memory.
///
/// # Errors
///
/// There was no memory for the ring.
pub fn input_pair(
    alloc: Global,
    streams: Streams,
    size: u32,
) -> Result<(InputOut, InputIn), NoMemory>
    ensures ring { IfOk result (λ r. ring_in r.1 ≡ ring_out r.0) }
    ensures nothing_sent { IfOk result (λ r. values_sent r.0 ≡ begun_values streams size) }
    ensures nothing_received { IfOk result (λ r. values_received r.1 ≡ begun_values streams size) }
{
    match RingBuffer::with_protocol::<Global, InputFeeding>(alloc, INPUT_PLACES) {
        Ok((mut producer, mut consumer)) => {
            put(&mut producer, InputFed::Begin(streams, size));
            consumer.slots_beside(&mut producer);
            consumer.pop_known();
            Ok((InputOut { producer }, InputIn { consumer }))
        }
        Err(_) => Err(NoMemory),
    }
}

impl InputIn {
    /// The next value that was sent, if this end sees one in the ring. It never waits.
    pub fn pop(&mut self) -> Option<InputFed>
        ensures ring { ring_in self.new ≡ ring_in self.old }
        ensures some { IfSome result (λ next. values_received self.new ≡ values_received self.old ++ next ∷ []) }
        ensures follows { IfSome result (λ next. MayFollow (values_received self.old) next) }
        ensures none { IfNone result (values_received self.new ≡ values_received self.old) }
    {
        match self.consumer.pop() {
            Ok(next) => Some(next),
            Err(_) => None,
        }
    }

    /// Sleeps until a value comes, or for two milliseconds. If one is in the ring, which the feeder does not take yet, it
    /// sleeps for [`NAP_MICROS`].
    pub fn rest<W: Wait + Clock>(&mut self, rt: &W, signals: &Signals)
        ensures ring { ring_in self.new ≡ ring_in self.old }
        ensures same { values_received self.new ≡ values_received self.old }
    {
        signals.set_resting(true);
        let is_empty = self.consumer.is_empty();
        if is_empty {
            signals.rest(rt);
        }
        signals.set_resting(false);
        if !is_empty {
            thread::sleep(rt, Duration::from_micros(NAP_MICROS));
        }
    }

    /// Compares what was received with what was sent, once the sending end is back: the values received are the first
    /// of those sent.
    pub fn tie(self, out: InputOut)
        requires { ring_in self ≡ ring_out out }
        ensures { IsPrefix (values_received self) (values_sent out) }
    {
        let InputIn { mut consumer } = self;
        let InputOut { mut producer } = out;
        consumer.slots_beside(&mut producer);
    }
}
