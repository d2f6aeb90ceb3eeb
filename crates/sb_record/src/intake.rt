//! The tests that the lines of an input pass, in their order.

ghost use Rattle.std.specs.Prelude.{◌≡◌, ◌≤◌, ◌<◌, ◌↔◌, length, Some, OnErr, IfOk, IfSome, IfNone};
ghost use Rattle.sb_record.specs.FrontReading.{
  is_in_time as spec_is_in_time,
  is_timely as spec_is_timely,
  usual_line,
  usual_record,
};
ghost use Rattle.sb_record.specs.declared.item.Item.TheVariants.{Rec};
ghost use Rattle.sb_record.specs.Fronts.{IsAcceptedFront};
ghost use Rattle.sb_record.specs.Intake as spec;
ghost use Rattle.sb_record.specs.Streams as streams_spec;

use crate::front::{FrontLine, read_front};
use crate::item::{Item, Stream, Streams};
use crate::key::Keys;
use crate::line::{Malformed, read_line};
use crate::usual::{UsualRecord, read_usual};
use std::marker::Model;

/// The most lines that an input may have, comments included.
pub const MAX_LINES: u64 = 4_294_967_295;

/// The most bytes that a line may have, without its line end.
pub const MAX_LINE_LENGTH: usize = 128;

/// Why a line is refused. The tests are made in this order, and the first that fails is given. `line` is the number of
/// the line: the first line of an input has number 1.
#[derive(Clone, Copy, Debug, PartialEq, Eq)]
pub enum Refusal {
    /// 4,294,967,295 lines stand before it.
    TooMany,
    /// It has more than 128 bytes, without its line end.
    TooLong { line: u64 },
    /// It is neither a record, nor a watermark, nor a comment.
    Malformed { line: u64 },
    /// Its stream is not one of the pipeline's.
    WrongStream { line: u64 },
    /// It is a record with a time below the last watermark of its stream, and late records are refused. An equal time
    /// is not late.
    Late { line: u64, time: u64, mark: u64 },
    /// It is a watermark below the last one of its stream. An equal one is accepted.
    Back { line: u64, time: u64, mark: u64 },
}

/// What becomes of a late record: one with a time below the last watermark of its stream.
#[derive(Clone, Copy, Debug, PartialEq, Eq)]
pub enum LatePolicy {
    /// Its line is refused.
    Refuse,
    /// Its line is accepted, and the record dropped.
    Drop,
}

/// Why the reading of an input stops.
#[derive(Clone, Copy, Debug, PartialEq, Eq)]
pub enum Stop {
    /// The input has ended.
    End,
    /// A line is refused.
    Refused(Refusal),
    /// The source of the input has failed.
    Fault,
}

/// What the accepted lines of an input have said so far: the last watermark of each stream, and how many lines there
/// were. It decides which line may come next.
#[derive(Drop)]
pub struct Intake {
    streams: Streams,
    mark_a: u64,
    mark_b: u64,
    before: u64,
    late: LatePolicy,
    keys: Keys,
}

impl Model for Intake {
    ghost use Rattle.sb_record.specs.Progress.{Progress};
    ghost use Rattle.std.specs.Prelude.{◌≤◌};
    ghost use Rattle.sb_record.specs.declared.intake.TheConstants.{MAX_LINES};

    ghost Value = { Progress };

    ghost view = { λ s. record {
      streams = s.streams;
      mark_a = s.mark_a;
      mark_b = s.mark_b;
      lines = s.before;
      late = s.late;
      keys = s.keys;
    } };

    ghost invariant = { λ s. s.before ≤ MAX_LINES };
}

impl Intake {
    /// The intake of an input after its first `before` lines, at most 4,294,967,295, none of them a watermark.
    pub fn new(streams: Streams, before: u64, late: LatePolicy, keys: Keys) -> Intake
        requires { before ≤ MAX_LINES }
        ensures { result ≡ spec.first_progress streams before late keys }
    {
        Intake {
            streams,
            mark_a: 0,
            mark_b: 0,
            before,
            late,
            keys,
        }
    }

    /// Whether the stream is one of the pipeline's.
    fn uses(&self, stream: Stream) -> bool
        ensures { result ≡ streams_spec.uses self.now.streams stream }
    {
        match stream {
            Stream::A => self.streams.a,
            Stream::B => self.streams.b,
        }
    }

    /// The last watermark of a stream, 0 before the first.
    fn last(&self, stream: Stream) -> u64
        ensures { result ≡ spec.mark_of self.now stream }
    {
        match stream {
            Stream::A => self.mark_a,
            Stream::B => self.mark_b,
        }
    }

    /// Tests the next line, of at most 128 bytes, and gives its item. An accepted line is counted, and its watermark is
    /// kept. A late record that is dropped is accepted as [`Item::Late`]. A refused line changes nothing.
    #[tactic(auto, using(crate::proofs::InputLemmas::tested_ok))]
    pub fn accept(&mut self, line: &[u8]) -> Result<Item, Refusal>
        requires { length line.now ≤ MAX_LINE_LENGTH }
        ensures value { result ≡ spec.answer_to self.old line.now }
        ensures ok { IfOk result (λ i. self.new ≡ spec.after i self.old) }
        ensures err { OnErr result (self.new ≡ self.old) }
        ensures item { IfOk result (λ i. spec.IsItemOf self.old i line.now) }
        ensures room { IfOk result (λ _. self.old.lines < MAX_LINES) }
    {
        let item = self.tested(line)?;
        self.keep(&item);
        Ok(item)
    }

    /// Tests the line that these bytes begin with, where it is a record or a watermark and its line feed is at hand,
    /// and gives it if it is accepted: it is then counted and its watermark kept, as by [`Intake::accept`]. Where it
    /// gives none, nothing changes. It needs no search for the end of the line.
    #[inline(always)]
    pub fn accept_front(&mut self, bytes: &[u8]) -> Option<FrontLine>
        ensures exact { (f : FrontLine) → (result ≡ Some f) ↔ IsAcceptedFront self.old f.item f.len bytes.now }
        ensures some { IfSome result (λ f. self.new ≡ spec.after f.item self.old) }
        ensures none { IfNone result (self.new ≡ self.old) }
        ensures room { IfSome result (λ _. self.old.lines < MAX_LINES) }
    {
        let Some(front) = self.front(bytes) else {
            return None;
        };
        self.keep(&front.item);
        Some(front)
    }

    /// Tests the line that these bytes begin with, as [`Intake::accept_front`], if it is a record in the usual form:
    /// its key is a number, and none of its numbers has more than 18 digits or begins among the last 18 bytes. What it
    /// gives are plain numbers, which take less time to move than an [`Item`].
    #[inline(always)]
    pub fn accept_usual(&mut self, bytes: &[u8]) -> Option<UsualRecord>
        ensures accepted { IfSome result (λ r.
            IsAcceptedFront self.old (Rec r.stream (usual_record r)) r.len bytes.now) }
        ensures some { IfSome result (λ r. self.new ≡ spec.after (Rec r.stream (usual_record r)) self.old) }
        ensures none { IfNone result (self.new ≡ self.old) }
        ensures room { IfSome result (λ _. self.old.lines < MAX_LINES) }
    {
        let Some(record) = self.usual(bytes) else {
            return None;
        };
        self.before += 1;
        Some(record)
    }

    /// The record in the usual form that these bytes begin with, where it is accepted.
    #[inline(always)]
    fn usual(&self, bytes: &[u8]) -> Option<UsualRecord>
        ensures exact { IfSome result (λ r.
            (f : FrontLine) → (Some (usual_line r) ≡ Some f) ↔ IsAcceptedFront self.now f.item f.len bytes.now) }
        ensures room { IfSome result (λ _. self.now.lines < MAX_LINES) }
    {
        if self.before >= MAX_LINES {
            return None;
        }
        let Some(record) = read_usual(self.keys, bytes) else {
            return None;
        };
        if self.is_in_time(record.stream, record.time) {
            return Some(record);
        }
        None
    }

    /// The line that these bytes begin with, where it is one that is accepted.
    fn front(&self, bytes: &[u8]) -> Option<FrontLine>
        ensures exact { (f : FrontLine) → (result ≡ Some f) ↔ IsAcceptedFront self.now f.item f.len bytes.now }
        ensures room { IfSome result (λ _. self.now.lines < MAX_LINES) }
    {
        if self.before >= MAX_LINES {
            return None;
        }
        let Some(front) = read_front(bytes, self.keys) else {
            return None;
        };
        if !self.is_timely(&front.item) {
            return None;
        }
        Some(front)
    }

    /// Counts the next line, which is accepted and gives this item, and keeps its watermark.
    #[inline(always)]
    fn keep(&mut self, item: &Item)
        requires { self.old.lines < MAX_LINES }
        ensures { self.new ≡ spec.after item.now self.old }
    {
        self.before += 1;
        match item {
            Item::Mark(Stream::A, time) => self.mark_a = *time,
            Item::Mark(Stream::B, time) => self.mark_b = *time,
            _ => {}
        }
    }

    /// Whether the item's stream is one of the pipeline's and its time is not below the stream's last watermark.
    fn is_timely(&self, item: &Item) -> bool
        ensures { result ≡ spec_is_timely self.now item.now }
    {
        match item {
            Item::Rec(stream, record) => self.is_in_time(*stream, record.time),
            Item::Mark(stream, time) => self.is_in_time(*stream, *time),
            Item::Skip | Item::Late { .. } => true,
        }
    }

    /// Whether the stream is one of the pipeline's and the time is not below the stream's last watermark.
    fn is_in_time(&self, stream: Stream, time: u64) -> bool
        ensures { result ≡ spec_is_in_time self.now stream time }
    {
        self.uses(stream) && self.last(stream) <= time
    }

    /// The item of the next line, or the first test that it fails.
    fn tested(&self, line: &[u8]) -> Result<Item, Refusal>
        requires { length line.now ≤ MAX_LINE_LENGTH }
        ensures value { result ≡ spec.answer_to self.now line.now }
        ensures room { IfOk result (λ _. self.now.lines < MAX_LINES) }
    {
        if self.before >= MAX_LINES {
            return Err(Refusal::TooMany);
        }
        let number = self.before + 1;
        match read_line(line, self.keys) {
            Ok(item) => self.timely(number, item),
            Err(Malformed) => Err(Refusal::Malformed { line: number }),
        }
    }

    /// The item, where its stream is one of the pipeline's and its time is not below the stream's last watermark.
    fn timely(&self, line: u64, item: Item) -> Result<Item, Refusal>
        ensures { result ≡ spec.timely self.now line item }
    {
        match &item {
            Item::Rec(stream, record) => {
                if !self.uses(*stream) {
                    return Err(Refusal::WrongStream { line });
                }
                let mark = self.last(*stream);
                if record.time < mark {
                    return self.when_late(line, record.time, mark);
                }
            }
            Item::Mark(stream, time) => {
                if !self.uses(*stream) {
                    return Err(Refusal::WrongStream { line });
                }
                let mark = self.last(*stream);
                let time = *time;
                if time < mark {
                    return Err(Refusal::Back { line, time, mark });
                }
            }
            Item::Skip | Item::Late { .. } => {}
        }
        Ok(item)
    }

    /// What a line gives whose record has a time below the last watermark of its stream.
    fn when_late(&self, line: u64, time: u64, mark: u64) -> Result<Item, Refusal>
        ensures { result ≡ spec.when_late self.now.late line time mark }
    {
        match self.late {
            LatePolicy::Refuse => Err(Refusal::Late { line, time, mark }),
            LatePolicy::Drop => Ok(Item::Late { line, time, mark }),
        }
    }

    /// The refusal of the next line, where it has more than 128 bytes.
    pub fn too_long(&self) -> Refusal
        ensures { result ≡ spec.too_long self.now }
    {
        if self.before >= MAX_LINES {
            return Refusal::TooMany;
        }
        Refusal::TooLong {
            line: self.before + 1,
        }
    }

    /// The low watermark: the least of the last watermarks of the pipeline's streams, where a stream without one yet
    /// counts as 0. It is 0 where the pipeline has no stream. No record that is accepted later has a time below it.
    pub fn low(&self) -> u64
        ensures { result ≡ spec.low self.now }
    {
        match (self.streams.a, self.streams.b) {
            (true, true) => self.mark_a.min(self.mark_b),
            (true, false) => self.mark_a,
            (false, true) => self.mark_b,
            (false, false) => 0,
        }
    }
}
