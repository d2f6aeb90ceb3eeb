//! Checkpoints: what of the accepted items of an input a run that goes on later has to know.

ghost use Rattle.std.specs.Prelude.{◌≡◌, ◌≤◌, ◌++◌, ◌∷◌, [], IfOk, OnOk, filter, map, length};
ghost use Rattle.sb_pipeline.specs.records.Streams.{last_or, last_watermark, least_of, watermark_in};
ghost use Rattle.sb_checkpoint.specs.Reach.{HasNoSession};
ghost use Rattle.sb_checkpoint.specs.Checkpoints as spec;
ghost use Rattle.sb_checkpoint.specs.Keeping.{IsRecord};
ghost use Rattle.sb_checkpoint.specs.Saved.{record_item, items_in};

use crate::reaching::reach;
use sb_pipeline::{Item, NoMemory, Plan, Record, Stream, Streams};
use std::alloc::Global;

/// A record, and the stream that it came by.
#[derive(Clone, Copy, Debug, PartialEq, Eq)]
pub struct StreamRec {
    pub stream: Stream,
    pub rec: Record,
}

/// What is kept of an input: how many lines it had, its low watermark, the records that can still be part of a row from
/// that watermark on, in their order, and the last watermark of each stream, 0 where it had none.
#[derive(Debug, Drop)]
pub struct Checkpoint {
    pub lines: u64,
    pub low: u64,
    pub records: Vec<StreamRec>,
    pub mark_a: u64,
    pub mark_b: u64,
}

/// The checkpoint of these accepted items of an input of so many lines, where no transform of the plan gathers
/// records by session.
///
/// # Errors
///
/// There is no memory for the records that are kept.
pub fn checkpoint_of(
    alloc: Global,
    plan: &Plan,
    items: &[Item],
    lines: u64,
) -> Result<Checkpoint, NoMemory>
    requires sessions { HasNoSession plan.now }
    requires lines { length items.now ≤ lines }
    ensures lines { IfOk result (λ c. c.lines ≡ lines) }
    ensures low { IfOk result (λ c. c.low ≡ spec.low_of plan.now items.now) }
    ensures mark_a { IfOk result (λ c. c.mark_a ≡ last_watermark Stream.A items.now) }
    ensures mark_b { IfOk result (λ c. c.mark_b ≡ last_watermark Stream.B items.now) }
    ensures items { IfOk result (λ c. items_in c ≡ spec.saved_items plan.now items.now) }
    ensures room { IfOk result (λ c. length (items_in c) ≤ lines) }
{
    let mark_a = last_mark(Stream::A, items);
    let mark_b = last_mark(Stream::B, items);
    let low = least(plan.streams(), mark_a, mark_b);
    let records = kept_records(alloc, reach(plan), low, items)?;
    Ok(Checkpoint {
        lines,
        low,
        records,
        mark_a,
        mark_b,
    })
}

/// The last watermark of a stream, 0 where it has none.
fn last_mark(stream: Stream, items: &[Item]) -> u64
    ensures { result ≡ last_watermark stream items.now }
{
    let mut last = 0u64;
    'items: for item in items {
        last = mark_after(last, stream, item);
    }
    last
}

/// The watermark of a stream that the item is, or the last one before it.
fn mark_after(last: u64, stream: Stream, item: &Item) -> u64
    ensures { result ≡ last_or last (watermark_in stream item.now) }
{
    match (stream, item) {
        (Stream::A, Item::Mark(Stream::A, mark)) => *mark,
        (Stream::B, Item::Mark(Stream::B, mark)) => *mark,
        _ => last,
    }
}

/// The least of the watermarks of the streams, 0 where there is no stream.
pub(crate) fn least(streams: Streams, mark_a: u64, mark_b: u64) -> u64
    ensures { result ≡ least_of streams mark_a mark_b }
{
    match (streams.a, streams.b) {
        (true, true) => mark_a.min(mark_b),
        (true, false) => mark_a,
        (false, true) => mark_b,
        (false, false) => 0,
    }
}

/// The records with times at most `reach` before `low`, in order.
fn kept_records(
    alloc: Global,
    reach: u64,
    low: u64,
    items: &[Item],
) -> Result<Vec<StreamRec>, NoMemory>
    ensures { IfOk result (λ v. map record_item v.items ≡ filter (spec.is_kept reach low) items.now) }
{
    let from = low.saturating_sub(reach);
    let mut records = Vec::new(alloc);
    'items: for item in items {
        match item {
            Item::Rec(stream, rec) if rec.time >= from => records.push(StreamRec {
                stream: *stream,
                rec: *rec,
            })?,
            _ => {}
        }
    }
    Ok(records)
}

/// Adds a record to the end of the list.
pub(crate) fn push(records: &mut Vec<StreamRec>, next: &Item) -> Result<(), NoMemory>
    requires { IsRecord next.now }
    ensures { OnOk result (map record_item records.new.items ≡ map record_item records.old.items ++ next.now ∷ []) }
{
    if let Item::Rec(stream, rec) = next {
        let stream = *stream;
        let rec = Record { ..*rec };
        records.push(StreamRec { stream, rec })?;
    }
    Ok(())
}
