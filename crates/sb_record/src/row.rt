//! Rows as they are printed: `end,key,value` and a line feed.

ghost use Rattle.std.specs.Prelude.{◌≡◌, ◌<◌, ◌≤◌, ◌+◌, ◌++◌, length, decimal};
ghost use Rattle.sb_record.specs.Keys.{key_text};
ghost use Rattle.sb_record.specs.Rows.{row_text};

use crate::item::{END_MARK, Record};
use crate::key::Key;
use crate::text::TextBuf;

/// The most bytes of a row.
pub const MAX_ROW_LENGTH: usize = 63;

/// The text of one row.
pub type RowBuf = TextBuf<64>;

/// The text of the end of a window, at most [`END_MARK`].
fn end_bytes(end: u64) -> RowBuf
    requires { end ≤ END_MARK }
    ensures text { result ≡ decimal end }
    ensures length { length result ≤ 16 }
{
    let mut text = RowBuf::new();
    text.push_number(end);
    text
}

/// Adds a key at the end. There has to be room for 24 bytes, the most that a key has.
fn push_key(text: &mut RowBuf, key: &Key)
    requires { length text.old + 24 ≤ 64 }
    ensures text { text.new ≡ text.old ++ key_text key.now }
    ensures length { length text.new ≤ length text.old + 24 }
{
    match key {
        Key::Number(number) => text.push_number(*number),
        Key::Word(word) => text.push(word.as_slice()),
    }
}

/// The text of a row. A row is a record that a window gives: its time is the last time of the window, so the window's
/// end is that time plus 1. The time is below [`END_MARK`].
pub fn row_bytes(row: &Record) -> RowBuf
    requires { row.now.time < END_MARK }
    ensures text { result ≡ row_text row.now }
    ensures bound { length result ≤ MAX_ROW_LENGTH }
{
    let mut text = end_bytes(row.time + 1);
    text.push(b",");
    push_key(&mut text, &row.key);
    text.push(b",");
    text.push_signed(row.value);
    text.push(b"\n");
    text
}
