//! The lines of a checkpoint, with their ends.

ghost use Rattle.std.specs.Prelude.{◌≡◌, ◌≤◌, ◌<◌, ◌^◌, ◌+◌, ◌++◌, ◌∷◌, [], length, slice_get};
ghost use Rattle.sb_pipeline.specs.records.Keys.{key_text};
ghost use Rattle.sb_pipeline.specs.records.Lines.{letter, record_text, mark_text};
ghost use Rattle.sb_checkpoint.specs.Texts as spec;
ghost use Rattle.sb_checkpoint.specs.Checkpoints.{mark_items};
ghost use Rattle.sb_checkpoint.specs.Saved.{items_in};

use crate::checkpoint::Checkpoint;
use sb_pipeline::{Item, Key, Record, Stream, TextBuf};

/// The most bytes of a line of a checkpoint, with its end.
pub(crate) const LINE_ROOM: usize = 72;

/// The text of one line.
pub(crate) type LineText = TextBuf<LINE_ROOM>;

/// `a` or `b`, between commas.
fn push_stream(text: &mut LineText, stream: Stream)
    requires { length text.old + 3 ≤ LINE_ROOM }
    ensures text { text.new ≡ text.old ++ 44 ∷ letter stream ∷ 44 ∷ [] }
{
    match stream {
        Stream::A => text.push(b",a,"),
        Stream::B => text.push(b",b,"),
    }
}

/// The text of a key, of at most 24 bytes.
fn push_key(text: &mut LineText, key: &Key)
    requires { length text.old + 24 ≤ LINE_ROOM }
    ensures text { text.new ≡ text.old ++ key_text key.now }
    ensures length { length text.new ≤ length text.old + 24 }
{
    match key {
        Key::Number(number) => text.push_number(*number),
        Key::Word(word) => text.push(word.as_slice()),
    }
}

/// The line of a record.
fn record_line(stream: Stream, record: &Record) -> LineText
    ensures { result ≡ spec.with_end (record_text stream record.now) }
{
    let mut text = LineText::new();
    text.push(b"r");
    push_stream(&mut text, stream);
    text.push_number(record.time);
    text.push(b",");
    push_key(&mut text, &record.key);
    text.push(b",");
    text.push_signed(record.value);
    text.push(b"\n");
    text
}

/// The line of a watermark.
fn mark_line(stream: Stream, mark: u64) -> LineText
    ensures { result ≡ spec.with_end (mark_text stream mark) }
{
    let mut text = LineText::new();
    text.push(b"w");
    push_stream(&mut text, stream);
    text.push_number(mark);
    text.push(b"\n");
    text
}

/// The line of a comment: `#`.
pub(crate) fn comment_line() -> LineText
    ensures { result ≡ 35 ∷ 10 ∷ [] }
{
    let mut text = LineText::new();
    text.push(b"#\n");
    text
}

/// The line of an item. That of a late record that was dropped is a comment.
pub(crate) fn item_line(item: &Item) -> LineText
    ensures { result ≡ spec.with_end (spec.item_text item.now) }
{
    match item {
        Item::Rec(stream, record) => record_line(*stream, record),
        Item::Mark(stream, mark) => mark_line(*stream, *mark),
        Item::Skip | Item::Late { .. } => comment_line(),
    }
}

/// The first line.
pub(crate) fn head_line(lines: u64, low: u64) -> LineText
    ensures { result ≡ spec.with_end (spec.head_text lines low) }
{
    let mut text = LineText::new();
    text.push(b"checkpoint ");
    text.push_number(lines);
    text.push(b" ");
    text.push_number(low);
    text.push(b"\n");
    text
}

/// The last line.
pub(crate) fn end_line(count: u64) -> LineText
    ensures { result ≡ spec.with_end (spec.end_text count) }
{
    let mut text = LineText::new();
    text.push(b"end ");
    text.push_number(count);
    text.push(b"\n");
    text
}

/// The item at a place, if there are so many: the records, then a watermark of a above 0, then one of b.
pub(crate) fn item_at(checkpoint: &Checkpoint, place: u64) -> Option<Item>
    ensures item { result ≡ slice_get (items_in checkpoint.now) place }
    ensures few { length (items_in checkpoint.now) < 2 ^ 64 }
{
    let records = checkpoint.records.len() as u64;
    if place < records {
        let at = &checkpoint.records[place as usize];
        return Some(Item::Rec(at.stream, at.rec));
    }
    mark_at(checkpoint.mark_a, checkpoint.mark_b, place - records)
}

/// The watermark at a place among those that are above 0.
fn mark_at(mark_a: u64, mark_b: u64, place: u64) -> Option<Item>
    ensures { result ≡ slice_get (mark_items mark_a mark_b) place }
{
    match (place, mark_a, mark_b) {
        (0, 0, 0) => None,
        (0, 0, mark) => Some(Item::Mark(Stream::B, mark)),
        (0, mark, _) => Some(Item::Mark(Stream::A, mark)),
        (1, 0, _) | (1, _, 0) => None,
        (1, _, mark) => Some(Item::Mark(Stream::B, mark)),
        _ => None,
    }
}

/// How many items there are.
pub(crate) fn item_count(checkpoint: &Checkpoint) -> u64
    ensures { result ≡ length (items_in checkpoint.now) }
{
    let marks = u64::from(checkpoint.mark_a > 0) + u64::from(checkpoint.mark_b > 0);
    checkpoint.records.len() as u64 + marks
}
