//! Diary lines as texts: how they are printed.
//!
//! | Line | What it says |
//! |---|---|
//! | `transform NODE LANES` | the events of this node follow; a node has one lane or two |
//! | `arrive LANE EPOCH NUMBER LENGTH` | a bundle came into a lane |
//! | `seal LANE EPOCH MARK` | a watermark came into a lane |
//! | `take LANE NUMBER` | a worker took a bundle |
//! | `finish LANE NUMBER LENGTH` | a bundle was finished |
//! | `begin LANE EPOCH MARK ROWS` | a closing began |
//! | `end LANE EPOCH` | a closing ended |
//!
//! The text of a diary has, for each node from 0 on, a head line and the lines of its events; each line ends by a line
//! feed. Single spaces stand between words. Numbers are decimal, without a sign and without leading zeros. Nodes and
//! lanes are below 2^32, other numbers below 2^64.

ghost use Rattle.std.specs.Prelude.{◌≡◌, ◌≤◌, ◌+◌, ◌*◌, ◌++◌, length};
ghost use Rattle.sb_diary.specs.Texts.{spaced_text, text_of};

use crate::event::DiaryEvent;
use sb_record::TextBuf;

/// The word of a head line.
pub(crate) const HEAD_WORD: &[u8] = b"transform";

/// The text of one line.
pub type LineBuf = TextBuf<128>;

/// A line of a diary's text.
#[derive(Clone, Copy, Debug, PartialEq, Eq)]
pub enum DiaryLine {
    /// The lines behind it, up to the next head, are of this node, which has one lane or two.
    Head { node: u32, lanes: u32 },
    /// What an event did to the node.
    Event(DiaryEvent),
}

// The text of a word and numbers behind it.
fn spelling(word: &[u8], numbers: &[u64]) -> LineBuf
    requires word { length word.now ≤ 9 }
    requires numbers { length numbers.now ≤ 4 }
    ensures { result ≡ word.now ++ spaced_text numbers.now }
{
    let mut text = LineBuf::new();
    text.push(word);
    for number in numbers {
        text.push(b" ");
        text.push_number(*number);
    }
    text
}

// The text of an event's line.
fn event_bytes(event: &DiaryEvent) -> LineBuf
    ensures { result ≡ text_of (DiaryLine.Event event.now) }
{
    match *event {
        DiaryEvent::Arrive {
            lane,
            epoch,
            number,
            length,
        } => spelling(b"arrive", &[u64::from(lane), epoch, number, length]),
        DiaryEvent::Seal { lane, epoch, mark } => spelling(
            b"seal",
            &[u64::from(lane), epoch, mark],
        ),
        DiaryEvent::Take { lane, number } => spelling(b"take", &[u64::from(lane), number]),
        DiaryEvent::Finish {
            lane,
            number,
            length,
        } => spelling(b"finish", &[u64::from(lane), number, length]),
        DiaryEvent::Begin {
            lane,
            epoch,
            mark,
            rows,
        } => spelling(b"begin", &[u64::from(lane), epoch, mark, rows]),
        DiaryEvent::End { lane, epoch } => spelling(b"end", &[u64::from(lane), epoch]),
    }
}

/// The text of a line, without its line end. It takes no memory.
pub fn line_bytes(line: &DiaryLine) -> LineBuf
    ensures { result ≡ text_of line.now }
{
    match line {
        DiaryLine::Head { node, lanes } => {
            spelling(HEAD_WORD, &[u64::from(*node), u64::from(*lanes)])
        }
        DiaryLine::Event(event) => event_bytes(event),
    }
}
