//! What an auditor keeps of one lane: its lines so far, and counts that tell what may come next without a scan.

ghost use Rattle.std.specs.Prelude.{◌≡◌, ◌<◌, ◌+◌, ◌==◌, length, slice_index, nat_lt};
ghost use Rattle.std.specs.List.{list_all};
ghost use Rattle.sb_diary.specs.Books.{Answers, bundle_at, lane_after, may_close, newer_epoch, with_arrival, with_mark};
ghost use Rattle.sb_diary.specs.Legal as spec;

use crate::bundle::{Came, Stage};
use crate::counts::{count_at, count_one, uncount_one};
use crate::event::DiaryEvent;
use crate::line_stop::LineStop;
use std::alloc::Global;
use std::collections::BTreeMap;
use std::marker::Model;

/// What the lines of a lane say so far.
#[derive(Drop)]
pub(crate) struct LaneBook {
    // The bundles that came, by number.
    came: Vec<Came>,
    // The marks that sealed its epochs.
    marks: Vec<u64>,
    // How many epochs have ended.
    ended: u64,
    // How many bundles of each epoch were not finished, and how many of all.
    by_epoch: BTreeMap<u64, u64>,
    unfinished: u64,
    // The newest epoch in which a bundle came.
    latest: Option<u64>,
}

impl Model for LaneBook {
    ghost use Rattle.sb_diary.specs.Legal.{LaneAudit};
    ghost use Rattle.sb_diary.specs.Books.{IsCounted};

    ghost Value = { LaneAudit };

    ghost view = { λ b. record { came = b.came.items; marks = b.marks.items; ended = b.ended } };

    ghost invariant = { λ b. IsCounted b.came.items b.by_epoch b.unfinished b.latest };
}

// The newer of an epoch and the newest one so far.
fn newer_of(latest: Option<u64>, epoch: u64) -> u64
    ensures { result ≡ newer_epoch latest epoch }
{
    match latest {
        Some(latest) => latest.max(epoch),
        None => epoch,
    }
}

impl LaneBook {
    // A lane before its first line.
    pub fn new(alloc: Global) -> LaneBook
        ensures { result ≡ spec.fresh_lane }
    {
        LaneBook {
            came: Vec::new(alloc),
            marks: Vec::new(alloc),
            ended: 0,
            by_epoch: BTreeMap::new(alloc),
            unfinished: 0,
            latest: None,
        }
    }

    // How many epochs are sealed.
    fn sealed_count(&self) -> u64
        ensures { result ≡ length self.now.marks }
    {
        self.marks.len() as u64
    }

    // The last mark, 0 before the first.
    fn last_mark(&self) -> u64
        ensures { result ≡ spec.last_of (length self.now.marks) self.now.marks }
    {
        self.marks.last().copied().unwrap_or(0)
    }

    // The mark of the last epoch that has ended, 0 if none has.
    pub fn ended_mark(&self) -> u64
        ensures { result ≡ spec.last_of self.now.ended self.now.marks }
    {
        if self.ended == 0 {
            return 0;
        }
        self.mark_at(self.ended - 1)
    }

    // The same, once one more has ended.
    pub fn next_mark(&self) -> u64
        ensures { result ≡ spec.last_of (self.now.ended + 1) self.now.marks }
    {
        self.mark_at(self.ended)
    }

    // The mark that sealed an epoch, 0 if it is not sealed.
    fn mark_at(&self, epoch: u64) -> u64
        ensures { result ≡ slice_index self.now.marks epoch }
    {
        self.marks.get(epoch as usize).copied().unwrap_or(0)
    }

    // The bundle of a number, if it came.
    fn bundle(&self, number: u64) -> Option<Came>
        ensures { result ≡ bundle_at number self.now.came }
    {
        if number == 0 {
            return None;
        }
        self.came.get((number - 1) as usize).copied()
    }

    // Whether a bundle may come.
    fn may_arrive(&self, epoch: u64, number: u64, length: u64) -> bool
        ensures { result ≡ spec.may_arrive self.now epoch number length }
    {
        number > 0
            && number - 1 == self.came.len() as u64
            && epoch >= self.sealed_count()
            && length > 0
    }

    // A bundle comes.
    fn arrive(&mut self, epoch: u64, number: u64, length: u64) -> Result<(), LineStop>
        ensures { Answers (spec.when (spec.may_arrive self.old epoch number length) (with_arrival epoch self.old))
            self.old self.new result }
    {
        if !self.may_arrive(epoch, number, length) {
            return Err(LineStop::NotLegal);
        }
        self.came.reserve(1)?;
        count_one(&mut self.by_epoch, epoch)?;
        self.came.push_reserved(Came {
            epoch,
            stage: Stage::Waiting,
        });
        self.unfinished += 1;
        self.latest = Some(newer_of(self.latest, epoch));
        Ok(())
    }

    // A watermark seals an epoch.
    fn seal(&mut self, epoch: u64, mark: u64) -> Result<(), LineStop>
        ensures { Answers (spec.when (spec.may_seal self.old epoch mark) (with_mark mark self.old))
            self.old self.new result }
    {
        if epoch != self.sealed_count() || mark < self.last_mark() {
            return Err(LineStop::NotLegal);
        }
        self.marks.push(mark)?;
        Ok(())
    }

    // A worker takes a bundle.
    fn take(&mut self, number: u64) -> Result<(), LineStop>
        ensures { Answers (spec.with_stage spec.is_waiting Stage.Taken number self.old) self.old self.new result }
    {
        let Some(
            Came {
                epoch,
                stage: Stage::Waiting,
            },
        ) = self.bundle(number)
        else {
            return Err(LineStop::NotLegal);
        };
        let stage = Stage::Taken;
        self.came[(number - 1) as usize] = Came { epoch, stage };
        Ok(())
    }

    // A bundle was finished.
    fn finish(&mut self, number: u64) -> Result<(), LineStop>
        ensures { Answers (spec.with_stage spec.is_taken Stage.Done number self.old) self.old self.new result }
    {
        let Some(
            Came {
                epoch,
                stage: Stage::Taken,
            },
        ) = self.bundle(number)
        else {
            return Err(LineStop::NotLegal);
        };
        let stage = Stage::Done;
        self.came[(number - 1) as usize] = Came { epoch, stage };
        uncount_one(&mut self.by_epoch, epoch);
        self.unfinished -= 1;
        Ok(())
    }

    // A line that is of this lane alone, as a closing's is not.
    pub fn event(&mut self, event: &DiaryEvent) -> Result<(), LineStop>
        ensures { Answers (lane_after event.now self.old) self.old self.new result }
    {
        match *event {
            DiaryEvent::Arrive {
                lane: _,
                epoch,
                number,
                length,
            } => self.arrive(epoch, number, length),
            DiaryEvent::Seal {
                lane: _,
                epoch,
                mark,
            } => self.seal(epoch, mark),
            DiaryEvent::Take { lane: _, number } => self.take(number),
            DiaryEvent::Finish {
                lane: _,
                number,
                length: _,
            } => self.finish(number),
            DiaryEvent::Begin { .. } | DiaryEvent::End { .. } => Err(LineStop::NotLegal),
        }
    }

    // Whether the closing of an epoch may begin, as far as the lane says.
    pub fn may_close(&self, epoch: u64) -> bool
        ensures { result ≡ may_close self.now epoch }
    {
        epoch == self.ended && epoch < self.sealed_count() && count_at(&self.by_epoch, epoch) == 0
    }

    // Whether this epoch is the oldest that has not ended.
    pub fn is_oldest(&self, epoch: u64) -> bool
        ensures { result ≡ (epoch == self.now.ended) }
    {
        epoch == self.ended
    }

    // Its oldest epoch, which is sealed, has ended.
    pub fn end(&mut self)
        requires { self.old.ended < length self.old.marks }
        ensures { self.new ≡ spec.with_end self.old }
    {
        self.ended += 1;
    }

    // Whether each bundle was finished.
    fn is_all_done(&self) -> bool
        ensures { result ≡ list_all (λ c. spec.is_done c.stage) self.now.came }
    {
        self.unfinished == 0
    }

    // Whether each epoch in which a bundle came is sealed.
    fn is_all_sealed(&self) -> bool
        ensures { result ≡ list_all (λ c. nat_lt c.epoch (length self.now.marks)) self.now.came }
    {
        match self.latest {
            Some(latest) => latest < self.sealed_count(),
            None => true,
        }
    }

    // Whether nothing is left open.
    #[tactic(auto, using(crate::proofs::Recounts::settled_is))]
    pub fn is_settled(&self) -> bool
        ensures { result ≡ spec.is_lane_settled self.now }
    {
        self.ended == self.sealed_count() && self.is_all_done() && self.is_all_sealed()
    }
}
