//! Sending what an input feeds through a ring: a bundle once it is full or its epoch ends, and each watermark.

ghost use Rattle.std.specs.Prelude.{◌≡◌, ◌≤◌, ◌<◌, ◌++◌, ◌∷◌, ◌+◌, ◌↔◌, [], ℕ, List, Some, true};
ghost use Rattle.rtrb.specs.Ring.{SameProducer, sent};
ghost use Rattle.sb_feed.specs.base.records.declared.item.Item.{Item as AnItem};
ghost use Rattle.sb_feed.specs.base.records.declared.item.Item.TheVariants as item_spec;
ghost use Rattle.sb_feed.specs.base.records.declared.item.Record.{Record as ARecord};
ghost use Rattle.sb_feed.specs.base.records.Streams.{dropped_in};
ghost use Rattle.sb_feed.specs.base.pipeline.Shapes.{Shape, streams_of};
ghost use Rattle.sb_feed.specs.declared.cutters.Cutters.{Cutters as ACutters};
ghost use Rattle.sb_feed.specs.FedByItems.{end_item, end_items};
ghost use Rattle.sb_feed.specs.Feeds.{Fed};
ghost use Rattle.sb_feed.specs.Takes.{MayEnd, MayTake};
ghost use Rattle.sb_feeds.specs.InputFed.{IsReadOf, MayFollow};
ghost use Rattle.sb_feeds.specs.InputEnds.{begun_values, ring_out, values_sent};
ghost use Rattle.sb_feeds.specs.InputSends.{EndsSending, HasSent, Sends};
ghost use Rattle.sb_feeds.specs.declared.input.sending.Sending.TheVariants as sending;

use crate::input::ends::{InputFeeding, InputOut};
use crate::input::fed::InputFed;
use crate::input::patience::Patience;
use crate::input::signals::Signals;
use rtrb::{Producer, PushError};
use sb_feed::{
    Cutters, Dropped, END_MARK, Intake, Item, LineBuffer, MAX_BUNDLE, MAX_LINES,
    NoMemory as Lacking, Plan, Record, Source, Stop, Stream, Streams, keep_dropped, next_other,
    next_usual, uses,
};
use std::alloc::Global;
use std::sync::Wait;
use std::time::Clock;

/// How sending went.
#[derive(Clone, Copy, Debug, PartialEq, Eq)]
pub(crate) enum Sending {
    /// What there was to send was sent.
    Done,
    /// The feeder needs nothing more.
    Over,
    /// There was no memory.
    NoMemory,
}

// Sends a value, and waits while the ring is full. If the feeder needs nothing more, it was not sent.
fn send<W: Wait + Clock>(
    rt: &W,
    producer: &mut Producer<InputFed, Global, InputFeeding>,
    next: InputFed,
    signals: &Signals,
) -> Sending
    requires { MayFollow (sent producer.old) next }
    ensures ring { SameProducer producer.old producer.new }
    ensures sent { result ≡ sending.Done → sent producer.new ≡ sent producer.old ++ next ∷ [] }
    ensures unsent { (result ≡ sending.Done → ⊥) → sent producer.new ≡ sent producer.old }
{
    let mut next = next;
    let mut patience = Patience::new();
    for _ in rt.forever() {
        match producer.push(next) {
            Ok(()) => {
                signals.wake();
                return Sending::Done;
            }
            Err(PushError::Full(back)) => next = back,
        }
        if signals.is_over() {
            return Sending::Over;
        }
        patience.wait(rt);
    }
    unreachable!()
}

// Takes the next record of a stream: the bundle that it fills is sent.
#[inline(always)]
fn send_record<W: Wait + Clock>(
    rt: &W,
    producer: &mut Producer<InputFed, Global, InputFeeding>,
    signals: &Signals,
    cutters: &mut Cutters,
    stream: Stream,
    next: Record,
) -> Sending
    requires may { (plan : Shape) × (size : ℕ) × (items : List AnItem) × (f : Fed) × (rows : List ARecord)
        × MayTake (HasSent plan size (sent producer.old)) plan size cutters.old (item_spec.Rec stream next)
        items f rows }
    ensures ring { SameProducer producer.old producer.new }
    ensures sends { (plan : Shape) (size : ℕ) (items : List AnItem) (f : Fed) (rows : List ARecord)
        → MayTake (HasSent plan size (sent producer.old)) plan size cutters.old (item_spec.Rec stream next) items f rows
        → Sends plan size (items ++ item_spec.Rec stream next ∷ []) (sent producer.new) cutters.new result }
{
    match cutters.push(stream, next) {
        Ok(Some(bundle)) => send(rt, producer, InputFed::Bundle(stream, bundle), signals),
        Ok(None) => Sending::Done,
        Err(Lacking) => Sending::NoMemory,
    }
}

// Takes the next watermark of a stream: the last bundle of the epoch is sent, and then the watermark.
fn send_mark<W: Wait + Clock>(
    rt: &W,
    producer: &mut Producer<InputFed, Global, InputFeeding>,
    signals: &Signals,
    cutters: &mut Cutters,
    stream: Stream,
    mark: u64,
) -> Sending
    requires may { (plan : Shape) × (size : ℕ) × (items : List AnItem) × (f : Fed) × (rows : List ARecord)
        × MayTake (HasSent plan size (sent producer.old)) plan size cutters.old (item_spec.Mark stream mark)
        items f rows }
    ensures ring { SameProducer producer.old producer.new }
    ensures sends { (plan : Shape) (size : ℕ) (items : List AnItem) (f : Fed) (rows : List ARecord)
        → MayTake (HasSent plan size (sent producer.old)) plan size cutters.old (item_spec.Mark stream mark)
        items f rows
        → Sends plan size (items ++ item_spec.Mark stream mark ∷ []) (sent producer.new) cutters.new result }
{
    match cutters.mark(stream, mark) {
        Some(bundle) => match send(rt, producer, InputFed::Bundle(stream, bundle), signals) {
            Sending::Done => send(rt, producer, InputFed::Mark(stream, mark), signals),
            Sending::Over => Sending::Over,
            Sending::NoMemory => Sending::NoMemory,
        },
        None => send(rt, producer, InputFed::Mark(stream, mark), signals),
    }
}

// Takes the next item: a late record that is dropped is listed.
fn send_item<W: Wait + Clock>(
    rt: &W,
    producer: &mut Producer<InputFed, Global, InputFeeding>,
    signals: &Signals,
    cutters: &mut Cutters,
    item: Item,
    dropped: &mut Vec<Dropped>,
) -> Sending
    requires may { (plan : Shape) × (size : ℕ) × (items : List AnItem) × (f : Fed) × (rows : List ARecord)
        × MayTake (HasSent plan size (sent producer.old)) plan size cutters.old item items f rows }
    ensures ring { SameProducer producer.old producer.new }
    ensures sends { (plan : Shape) (size : ℕ) (items : List AnItem) (f : Fed) (rows : List ARecord)
        → MayTake (HasSent plan size (sent producer.old)) plan size cutters.old item items f rows
        → Sends plan size (items ++ item ∷ []) (sent producer.new) cutters.new result }
    ensures kept { result ≡ sending.Done → dropped.new.items ≡ dropped.old.items ++ dropped_in item }
    ensures same_list { (result ≡ sending.Done → ⊥) → dropped.new.items ≡ dropped.old.items }
{
    match item {
        Item::Rec(stream, next) => send_record(rt, producer, signals, cutters, stream, next),
        Item::Mark(stream, mark) => send_mark(rt, producer, signals, cutters, stream, mark),
        Item::Skip => Sending::Done,
        Item::Late { .. } => match keep_dropped(dropped, &item) {
            Ok(()) => Sending::Done,
            Err(Lacking) => Sending::NoMemory,
        },
    }
}

// Whether more is to be sent, where sending went like this. If there was no memory, the feeder is told.
fn goes_on<W: Wait + Clock>(
    rt: &W,
    producer: &mut Producer<InputFed, Global, InputFeeding>,
    signals: &Signals,
    went: Sending,
) -> bool
    requires sends { (plan : Shape) × (size : ℕ) × (items : List AnItem) × (cutters : ACutters)
        × Sends plan size items (sent producer.old) cutters went }
    ensures exact { (result ≡ true) ↔ (went ≡ sending.Done) }
    ensures ring { SameProducer producer.old producer.new }
    ensures sends { (plan : Shape) (size : ℕ) (items : List AnItem) (cutters : ACutters)
        → Sends plan size items (sent producer.old) cutters went
        → Sends plan size items (sent producer.new) cutters went }
{
    match went {
        Sending::Done => true,
        Sending::Over => false,
        Sending::NoMemory => {
            send(rt, producer, InputFed::NoMemory, signals);
            false
        }
    }
}

// The end of a stream counts as a watermark above every time, if the plan reads the stream.
fn send_end_of<W: Wait + Clock>(
    rt: &W,
    producer: &mut Producer<InputFed, Global, InputFeeding>,
    signals: &Signals,
    cutters: &mut Cutters,
    streams: Streams,
    stream: Stream,
) -> Sending
    requires may { (plan : Shape) × (size : ℕ) × (items : List AnItem) × (f : Fed) × (rows : List ARecord)
        × (streams ≡ streams_of plan)
        × MayEnd (HasSent plan size (sent producer.old)) size cutters.old (MAX_LINES + 2) items f rows }
    ensures ring { SameProducer producer.old producer.new }
    ensures sends { (plan : Shape) (size : ℕ) (items : List AnItem) (f : Fed) (rows : List ARecord)
        → streams ≡ streams_of plan
        → MayEnd (HasSent plan size (sent producer.old)) size cutters.old (MAX_LINES + 2) items f rows
        → Sends plan size (items ++ end_item (streams_of plan) stream) (sent producer.new) cutters.new result }
{
    if !uses(streams, stream) {
        return Sending::Done;
    }
    send_mark(rt, producer, signals, cutters, stream, END_MARK)
}

// The end of the input, if reading stopped there.
fn send_end<W: Wait + Clock>(
    rt: &W,
    producer: &mut Producer<InputFed, Global, InputFeeding>,
    signals: &Signals,
    cutters: &mut Cutters,
    streams: Streams,
    stop: Stop,
) -> Sending
    requires may { (plan : Shape) × (size : ℕ) × (items : List AnItem) × (f : Fed) × (rows : List ARecord)
        × (streams ≡ streams_of plan)
        × MayEnd (HasSent plan size (sent producer.old)) size cutters.old (MAX_LINES + 1) items f rows }
    ensures ring { SameProducer producer.old producer.new }
    ensures sends { (plan : Shape) (size : ℕ) (items : List AnItem) (f : Fed) (rows : List ARecord)
        → streams ≡ streams_of plan
        → MayEnd (HasSent plan size (sent producer.old)) size cutters.old (MAX_LINES + 1) items f rows
        → Sends plan size (items ++ end_items (streams_of plan) stop) (sent producer.new) cutters.new result }
{
    match stop {
        Stop::End => match send_end_of(rt, producer, signals, cutters, streams, Stream::A) {
            Sending::Done => send_end_of(rt, producer, signals, cutters, streams, Stream::B),
            Sending::Over => Sending::Over,
            Sending::NoMemory => Sending::NoMemory,
        },
        Stop::Refused(_) => Sending::Done,
        Stop::Fault => Sending::Done,
    }
}

// Sends the stop behind all that comes before it. If there is no memory, the feeder is told.
fn send_stop<W: Wait + Clock>(
    rt: &W,
    producer: &mut Producer<InputFed, Global, InputFeeding>,
    signals: &Signals,
    cutters: &mut Cutters,
    streams: Streams,
    stop: Stop,
) -> Sending
    requires may { (plan : Shape) × (size : ℕ) × (items : List AnItem) × (f : Fed) × (rows : List ARecord)
        × (streams ≡ streams_of plan)
        × MayEnd (HasSent plan size (sent producer.old)) size cutters.old (MAX_LINES + 1) items f rows }
    ensures ring { SameProducer producer.old producer.new }
    ensures sends { (plan : Shape) (size : ℕ) (items : List AnItem) (f : Fed) (rows : List ARecord)
        → streams ≡ streams_of plan
        → MayEnd (HasSent plan size (sent producer.old)) size cutters.old (MAX_LINES + 1) items f rows
        → EndsSending plan size (items ++ end_items (streams_of plan) stop) stop (sent producer.new) cutters.new
        result }
{
    match send_end(rt, producer, signals, cutters, streams, stop) {
        Sending::Done => send(rt, producer, InputFed::Stop(stop), signals),
        Sending::Over => Sending::Over,
        Sending::NoMemory => {
            send(rt, producer, InputFed::NoMemory, signals);
            Sending::NoMemory
        }
    }
}

/// Feeds an input: the bundles, of at most `size` records, and the watermarks that its lines give up to where reading
/// stops, and then why it stopped, which is the answer. The late records that the plan drops go to the end of
/// `dropped`. Comments in front that the source can take off are counted, and not read. It waits while the ring is
/// full.
///
/// It ends without an answer once the feeder needs nothing more, or if there is no memory, of which it tells the
/// feeder.
pub fn feed_input<W: AllocGlobal + Wait + Clock, S: Source>(
    rt: &W,
    plan: &Plan,
    size: u32,
    input: &mut S,
    dropped: &mut Vec<Dropped>,
    out: &mut InputOut,
    signals: &Signals,
) -> Option<Stop>
    requires nothing_sent { values_sent out.old ≡ begun_values (streams_of plan.now) size }
    requires some { 1 ≤ size }
    requires most { size ≤ MAX_BUNDLE }
    ensures ring { ring_out out.new ≡ ring_out out.old }
    ensures read { IsReadOf plan.now size (S.left input.old) (S.left input.new) (S.faults input.old)
        (S.faults input.new) (values_sent out.new) dropped.old.items dropped.new.items result }
    ensures end { result ≡ Some Stop.End → S.has_ended input.new }
    ensures name { S.name input.new ≡ S.name input.old }
{
    let comments = u64::from(input.take_comments());
    let streams = plan.streams();
    let mut intake = Intake::new(streams, comments, plan.late(), plan.keys());
    let mut cutters = Cutters::new(rt.alloc(), size);
    let mut lines = LineBuffer::new();
    'items: loop {
        if signals.is_over() {
            return None;
        }
        if let Some(usual) = next_usual(input, &mut lines, &mut intake) {
            let next = usual.record();
            let stream = usual.stream;
            let went = send_record(rt, &mut out.producer, signals, &mut cutters, stream, next);
            if !goes_on(rt, &mut out.producer, signals, went) {
                return None;
            }
            continue;
        }
        match next_other(input, &mut lines, &mut intake) {
            Ok(item) => {
                let went = send_item(rt, &mut out.producer, signals, &mut cutters, item, dropped);
                if !goes_on(rt, &mut out.producer, signals, went) {
                    return None;
                }
            }
            Err(stop) => {
                match send_stop(rt, &mut out.producer, signals, &mut cutters, streams, stop) {
                    Sending::Done => return Some(stop),
                    Sending::Over => return None,
                    Sending::NoMemory => return None,
                }
            }
        }
    }
}
