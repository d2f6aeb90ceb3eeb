//! The records of the generated input, and the text of their lines.

ghost use Rattle.std.specs.Prelude.{◌≡◌, ◌<◌, ◌≤◌, ◌+◌, [], ◌∷◌, ◌++◌, length};
ghost use Rattle.sb_record.specs.declared.item.Item.TheVariants.{Rec, Mark};
ghost use Rattle.sb_record.specs.declared.item.Stream.TheVariants.{A};
ghost use Rattle.sb_generator.specs.Generated.{record_at, items_at, text_of};

use sb_record::TextBuf;

/// The most records that can be made.
pub const MAX_RECORDS: u64 = 10_000_000;

/// How many records a group has: a watermark stands behind each whole one.
pub const GROUP: u64 = 8;

/// How many keys there are: 0 to 4.
pub const KEYS: u64 = 5;

/// How many values there are.
pub const VALUES: u64 = 101;

/// By how much the value rises from record to record, before it wraps.
pub const VALUE_STEP: u64 = 37;

/// The least value is minus this.
pub const VALUE_OFFSET: u64 = 50;

/// The most bytes of the line of a record.
const MAX_RECORD_LENGTH: usize = 67;

/// The most bytes of the line of a watermark.
const MAX_MARK_LENGTH: usize = 25;

/// The most bytes of the lines of one record.
pub const MAX_LINES_LENGTH: usize = MAX_RECORD_LENGTH + MAX_MARK_LENGTH;

/// The text of a record's line, and of a watermark's behind it.
pub type LinesBuf = TextBuf<MAX_LINES_LENGTH>;

/// The time of record `i`.
fn time_of(i: u64) -> u64
    requires { i < MAX_RECORDS }
    ensures { result ≡ (record_at i).time }
{
    GROUP * (i / GROUP) + (GROUP - 1) - i % GROUP
}

/// The value of record `i`: -50 to 50.
fn value_of(i: u64) -> i64
    requires { i < MAX_RECORDS }
    ensures { result ≡ (record_at i).value }
{
    (VALUE_STEP * i % VALUES) as i64 - VALUE_OFFSET as i64
}

/// Writes the line of record `i` into an empty text.
fn push_record(text: &mut LinesBuf, i: u64)
    requires number { i < MAX_RECORDS }
    requires empty { text.old ≡ [] }
    ensures text { text.new ≡ text_of (Rec A (record_at i) ∷ []) }
    ensures length { length text.new ≤ MAX_RECORD_LENGTH }
{
    text.push(b"r,a,");
    text.push_number(time_of(i));
    text.push(b",");
    text.push_number(i % KEYS);
    text.push(b",");
    text.push_signed(value_of(i));
    text.push(b"\n");
}

/// Adds the line of a watermark.
fn push_mark(text: &mut LinesBuf, time: u64)
    requires { length text.old + MAX_MARK_LENGTH ≤ MAX_LINES_LENGTH }
    ensures { text.new ≡ text.old ++ text_of (Mark A time ∷ []) }
{
    text.push(b"w,a,");
    text.push_number(time);
    text.push(b"\n");
}

/// Writes the lines of record `i` into an empty text: the watermark's too, behind the last of a group.
pub fn push_lines(text: &mut LinesBuf, i: u64)
    requires number { i < MAX_RECORDS }
    requires empty { text.old ≡ [] }
    ensures { text.new ≡ text_of (items_at i) }
{
    push_record(text, i);
    if i % GROUP == GROUP - 1 {
        push_mark(text, i + 1);
    }
}
