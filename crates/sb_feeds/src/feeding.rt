//! Feeding the items of a file.

ghost use Rattle.std.specs.Prelude.{◌≡◌, ◌≢◌, ◌++◌, ◌∷◌, [], false};
ghost use Rattle.rtrb.specs.Ring.{SameProducer, sent};
ghost use Rattle.sb_feed.specs.base.records.declared.intake.Stop.TheVariants as stop_spec;
ghost use Rattle.sb_feeds.specs.Fed.{IsNew, values_of_file, values_of_item, has_stop, refusal_at, stop_from};
ghost use Rattle.sb_feeds.specs.Ends.{values_fed, ring_of, ring_out, values_sent};

use crate::ends::{FeedDone, FeedOut, Feeding};
use crate::fed::{Fed, FeedStop};
use crate::file::FileBytes;
use rtrb::{Producer, PushError};
use sb_feed::{Intake, Item, LineBuffer, Stop, next_item};
use std::alloc::Global;
use std::sync::Wait;
use std::thread;

// Sends a value, and waits while the ring is full.
fn send<W: Wait>(rt: &W, producer: &mut Producer<Fed, Global, Feeding>, next: Fed)
    requires { has_stop (sent producer.old) ≡ false }
    ensures ring { SameProducer producer.old producer.new }
    ensures sent { sent producer.new ≡ sent producer.old ++ next ∷ [] }
{
    let mut next = next;
    for _ in rt.forever() {
        match producer.push(next) {
            Ok(()) => return,
            Err(PushError::Full(back)) => next = back,
        }
        thread::yield_now();
    }
    unreachable!()
}

// Sends an item, unless it is a comment.
fn send_item<W: Wait>(rt: &W, producer: &mut Producer<Fed, Global, Feeding>, item: Item)
    requires { has_stop (sent producer.old) ≡ false }
    ensures ring { SameProducer producer.old producer.new }
    ensures sent { sent producer.new ≡ sent producer.old ++ values_of_item item }
{
    match item {
        Item::Skip => {}
        Item::Rec(_, _) | Item::Mark(_, _) | Item::Late { .. } => {
            send(rt, producer, Fed::Item(item));
        }
    }
}

// Why a file stops, whose bytes are all in memory.
fn feed_stop(stop: Stop) -> FeedStop
    requires { stop ≢ stop_spec.Fault }
    ensures { result ≡ stop_from (refusal_at stop) }
{
    match stop {
        Stop::End => FeedStop::End,
        Stop::Refused(refusal) => FeedStop::Refused(refusal),
        Stop::Fault => unreachable!(),
    }
}

/// Feeds a file: the items of its lines up to the first that is refused, without the comments, and then why reading
/// stopped. It waits while the ring is full, and takes no memory.
pub fn feed_file<W: Wait>(rt: &W, bytes: Vec<u8>, intake: Intake, out: FeedOut) -> FeedDone
    requires new { IsNew intake }
    requires nothing_sent { values_sent out ≡ [] }
    ensures ring { ring_of result ≡ ring_out out }
    ensures fed { values_fed result ≡ values_of_file intake bytes.items }
{
    let FeedOut { mut producer } = out;
    let mut intake = intake;
    let mut source = FileBytes::new(bytes);
    let mut lines = LineBuffer::new();
    'items: loop {
        match next_item(&mut source, &mut lines, &mut intake) {
            Ok(item) => send_item(rt, &mut producer, item),
            Err(stop) => {
                send(rt, &mut producer, Fed::Stop(feed_stop(stop)));
                return FeedDone { producer };
            }
        }
    }
}
