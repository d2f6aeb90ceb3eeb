//! Records, the lines that give them, and the rows that are printed: what every other crate speaks of.
//!
//! An input is a list of lines. A line gives an [`Item`]: a record of a stream, a watermark of a stream, or nothing.
//! The [`Key`] of a record is a number or a word.
//! [`read_line`] reads one line, [`Intake`] tests the lines of an input in their order, also a [`FrontLine`] or a
//! [`UsualRecord`] that bytes begin with, and [`row_bytes`] prints a row.
//! [`laws`] has the limits as numbers, and what every other crate rests on. Nothing in this crate allocates memory.
#![tactic(auto)]

mod element;
mod front;
mod intake;
mod item;
mod key;
pub mod laws;
mod line;
mod number;
mod row;
mod sequence;
mod text;
mod trail;
mod usual;

pub use element::KeptRec;
pub use front::FrontLine;
pub use intake::{Intake, LatePolicy, MAX_LINE_LENGTH, MAX_LINES, Refusal, Stop};
pub use item::{Dropped, END_MARK, Item, MAX_TIME, NoMemory, Record, Stream, Streams};
pub use key::{Key, Keys, MAX_KEY, MAX_WORD_LENGTH, Word};
pub use line::{Malformed, read_line};
pub use number::read_number;
pub use row::{MAX_ROW_LENGTH, RowBuf, row_bytes};
pub use sequence::Sequence;
pub use text::TextBuf;
pub use trail::Trail;
pub use usual::UsualRecord;
