//! The test of an item that comes out of the ring of a file.

ghost use Rattle.std.specs.Prelude.{◌≡◌};
ghost use Rattle.sb_run.specs.Pops.{is_next as spec_is_next, mark_behind as spec_mark_behind};

use sb_engines::{END_MARK, Item, MAX_FILE_LENGTH, MAX_TIME, Stream};

/// Whether an item may be taken next of the file of a stream: it is of this stream, which the plan uses, it is in time
/// after the stream's last watermark, and few enough items came before.
pub(crate) fn is_next(stream: Stream, used: bool, mark: u64, count: usize, item: &Item) -> bool
    ensures { result ≡ spec_is_next stream used mark count item.now }
{
    match item {
        Item::Rec(other, next) => {
            let own = used && stream == *other;
            let in_time = mark <= next.time && next.time <= MAX_TIME;
            count < MAX_FILE_LENGTH && (own && in_time)
        }
        Item::Mark(other, time) => {
            let own = used && stream == *other;
            let in_time = mark <= *time && *time <= END_MARK;
            count < MAX_FILE_LENGTH && (own && in_time)
        }
        Item::Skip => false,
        Item::Late { .. } => count < MAX_FILE_LENGTH,
    }
}

/// The last watermark behind an item of a stream.
pub(crate) fn mark_behind(mark: u64, item: &Item) -> u64
    ensures { result ≡ spec_mark_behind mark item.now }
{
    match item {
        Item::Mark(_, time) => *time,
        Item::Rec(_, _) | Item::Skip | Item::Late { .. } => mark,
    }
}
