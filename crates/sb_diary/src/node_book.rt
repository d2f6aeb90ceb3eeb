//! What an auditor keeps of one node.

ghost use Rattle.std.specs.Prelude.{◌≡◌, ℕ, Some, IfOk, slice_get, slice_set};
ghost use Rattle.std.specs.List.{list_all};
ghost use Rattle.sb_diary.specs.Books.{Answers, in_lane};
ghost use Rattle.sb_diary.specs.Legal as spec;
ghost use Rattle.sb_diary.specs.Legal.{LaneAudit};

use crate::event::DiaryEvent;
use crate::lane_book::LaneBook;
use crate::line_stop::LineStop;
use sb_record::NoMemory;
use std::alloc::Global;
use std::marker::Model;

/// What the lines of a node say so far.
#[derive(Drop)]
pub(crate) struct NodeBook {
    lanes: Vec<LaneBook>,
    // The lane of the closing that has begun and not ended.
    closing: Option<u32>,
}

impl Model for NodeBook {
    ghost use Rattle.sb_diary.specs.Legal.{Audit};
    ghost use Rattle.sb_diary.specs.Books.{IsSound};

    ghost Value = { Audit };

    ghost view = { λ b. record { lanes = b.lanes.items; closing = b.closing } };

    ghost invariant = { λ b. IsSound (record { lanes = b.lanes.items; closing = b.closing }) };
}

// The mark up to which a node with these lanes is closed.
fn least_ended_mark(lanes: &[LaneBook]) -> u64
    ensures { result ≡ spec.least_ended_mark lanes.now }
{
    match lanes {
        [] => 0,
        [lane] => lane.ended_mark(),
        [lane, others @ ..] => lane.ended_mark().min(least_ended_mark(others)),
    }
}

// The same, once one more epoch of a lane has ended.
fn least_ended_mark_after(lanes: &[LaneBook], ends: usize) -> u64
    ensures { (lane : LaneAudit) → slice_get lanes.now ends ≡ Some lane
        → result ≡ spec.least_ended_mark (slice_set lanes.now ends (spec.with_end lane)) }
{
    match lanes {
        [] => 0,
        [lane] => lane.next_mark(),
        [lane, others @ ..] => {
            if ends == 0 {
                lane.next_mark().min(least_ended_mark(others))
            } else {
                lane.ended_mark()
                    .min(least_ended_mark_after(others, ends - 1))
            }
        }
    }
}

// Whether nothing is left open in these lanes.
fn are_settled(lanes: &[LaneBook]) -> bool
    ensures { result ≡ list_all spec.is_lane_settled lanes.now }
{
    lanes.iter().all(|lane| lane.is_settled())
}

impl NodeBook {
    // A node of so many lanes before its first line.
    pub fn new(alloc: Global, lanes: u32) -> Result<NodeBook, NoMemory>
        ensures { IfOk result (λ book. book ≡ spec.fresh_audit lanes) }
    {
        let mut books = Vec::new(alloc);
        for _lane in 0..lanes {
            books.push(LaneBook::new(alloc))?;
        }
        Ok(NodeBook {
            lanes: books,
            closing: None,
        })
    }

    // The next line.
    pub fn event(&mut self, event: &DiaryEvent) -> Result<(), LineStop>
        ensures { Answers (spec.after_line self.old event.now) self.old self.new result }
    {
        match *event {
            DiaryEvent::Arrive { lane, .. }
            | DiaryEvent::Seal { lane, .. }
            | DiaryEvent::Take { lane, .. }
            | DiaryEvent::Finish { lane, .. } => self.in_lane(lane, event),
            DiaryEvent::Begin {
                lane,
                epoch,
                mark,
                rows: _,
            } => self.begin(lane, epoch, mark),
            DiaryEvent::End { lane, epoch } => self.end(lane, epoch),
        }
    }

    // A line that is of one lane alone.
    fn in_lane(&mut self, lane: u32, event: &DiaryEvent) -> Result<(), LineStop>
        ensures { Answers (in_lane lane event.now self.old) self.old self.new result }
    {
        let Some(book) = self.lanes.get_mut(lane as usize) else {
            return Err(LineStop::NotLegal);
        };
        book.event(event)
    }

    // A closing begins.
    fn begin(&mut self, lane: u32, epoch: u64, mark: u64) -> Result<(), LineStop>
        ensures { (rows : ℕ) → Answers (spec.after_line self.old (DiaryEvent.Begin lane epoch mark rows))
            self.old self.new result }
    {
        let lanes = self.lanes.as_slice();
        let Some(book) = lanes.get(lane as usize) else {
            return Err(LineStop::NotLegal);
        };
        if self.closing.is_some() || !book.may_close(epoch) {
            return Err(LineStop::NotLegal);
        }
        if mark != least_ended_mark_after(lanes, lane as usize) {
            return Err(LineStop::NotLegal);
        }
        self.closing = Some(lane);
        Ok(())
    }

    // A closing ends.
    fn end(&mut self, lane: u32, epoch: u64) -> Result<(), LineStop>
        ensures { Answers (spec.after_line self.old (DiaryEvent.End lane epoch)) self.old self.new result }
    {
        let Some(closing) = self.closing else {
            return Err(LineStop::NotLegal);
        };
        if closing != lane {
            return Err(LineStop::NotLegal);
        }
        let Some(book) = self.lanes.get_mut(lane as usize) else {
            return Err(LineStop::NotLegal);
        };
        if !book.is_oldest(epoch) {
            return Err(LineStop::NotLegal);
        }
        book.end();
        self.closing = None;
        Ok(())
    }

    // Whether nothing is left open.
    pub fn is_settled(&self) -> bool
        ensures { result ≡ spec.is_settled self.now }
    {
        self.closing.is_none() && are_settled(self.lanes.as_slice())
    }
}
