//! The items of a checkpoint, as they are read one after another.

ghost use Rattle.std.specs.Prelude.{◌≡◌, ◌==◌, ◌&&◌, ◌++◌, ◌∷◌, [], IfOk, if◌then◌else◌};
ghost use Rattle.sb_pipeline.specs.records.Streams.{uses as uses_stream};
ghost use Rattle.sb_checkpoint.specs.Reach as reach_spec;
ghost use Rattle.sb_checkpoint.specs.Saved.{items_in};
ghost use Rattle.sb_checkpoint.specs.Texts as spec;

use crate::checkpoint::{Checkpoint, StreamRec, least};
use crate::line_text::item_count;
use sb_pipeline::{Item, MAX_LINES, NoMemory, Plan, Stream, Streams};

/// Whether the stream is one of these.
fn uses(streams: Streams, stream: Stream) -> bool
    ensures { result ≡ uses_stream streams stream }
{
    match stream {
        Stream::A => streams.a,
        Stream::B => streams.b,
    }
}

/// Whether a record of this time can be part of a row from `low` on.
fn is_within(reach: u64, low: u64, time: u64) -> bool
    ensures { result ≡ reach_spec.is_within reach low time }
{
    time.saturating_add(reach) >= low
}

/// Whether the checkpoint has no watermark yet.
fn has_no_mark(checkpoint: &Checkpoint) -> bool
    ensures { result ≡ ((checkpoint.now.mark_a == 0) && (checkpoint.now.mark_b == 0)) }
{
    checkpoint.mark_a == 0 && checkpoint.mark_b == 0
}

/// Whether this item may stand behind those of the checkpoint: first come records that can still be part of a row, then
/// at most one watermark of a, then at most one of b. `reach` is that of the plan.
fn may_follow(plan: &Plan, reach: u64, before: &Checkpoint, item: &Item) -> bool
    requires { reach ≡ reach_spec.reach plan.now }
    ensures { result ≡ spec.may_come plan.now before.now.low before.now.mark_a before.now.mark_b item.now }
{
    let streams = plan.streams();
    match item {
        Item::Rec(stream, rec) => {
            uses(streams, *stream) && is_within(reach, before.low, rec.time) && has_no_mark(before)
        }
        Item::Mark(Stream::A, mark) => streams.a && *mark != 0 && has_no_mark(before),
        Item::Mark(Stream::B, mark) => streams.b && *mark != 0 && before.mark_b == 0,
        Item::Skip | Item::Late { .. } => false,
    }
}

/// Adds this item, if it may stand behind those of the checkpoint, and says whether it may.
pub(crate) fn add(
    plan: &Plan,
    reach: u64,
    checkpoint: &mut Checkpoint,
    item: Item,
) -> Result<bool, NoMemory>
    requires { reach ≡ reach_spec.reach plan.now }
    ensures may { IfOk result (λ b. b ≡ spec.may_follow plan.now checkpoint.old.low (items_in checkpoint.old) item) }
    ensures items { IfOk result (λ b. items_in checkpoint.new
        ≡ (if b then items_in checkpoint.old ++ item ∷ [] else items_in checkpoint.old)) }
    ensures lines { checkpoint.new.lines ≡ checkpoint.old.lines }
    ensures low { checkpoint.new.low ≡ checkpoint.old.low }
{
    if !may_follow(plan, reach, checkpoint, &item) {
        return Ok(false);
    }
    match item {
        Item::Rec(stream, rec) => checkpoint.records.push(StreamRec { stream, rec })?,
        Item::Mark(Stream::A, mark) => checkpoint.mark_a = mark,
        Item::Mark(Stream::B, mark) => checkpoint.mark_b = mark,
        Item::Skip | Item::Late { .. } => {}
    }
    Ok(true)
}

/// Whether the checkpoint can be that of an input: it has no more items than lines, no more lines than an input may
/// have, and its low watermark is the least of its watermarks.
pub(crate) fn is_whole(plan: &Plan, checkpoint: &Checkpoint) -> bool
    ensures { result ≡ spec.is_whole plan.now checkpoint.now.lines checkpoint.now.low (items_in checkpoint.now) }
{
    item_count(checkpoint) <= checkpoint.lines
        && checkpoint.lines <= MAX_LINES
        && checkpoint.low == least(plan.streams(), checkpoint.mark_a, checkpoint.mark_b)
}
