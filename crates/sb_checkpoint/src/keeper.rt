//! What a checkpoint keeps, while the items of an input are read one by one.

ghost use Rattle.std.specs.Prelude.{nat_lt, not, ◌≡◌, ◌≤◌, ◌<◌, ◌-◌, ℕ, ◌++◌, ◌∷◌, [], List, map, filter, OnErr, OnOk};
ghost use Rattle.sb_pipeline.specs.records.declared.item.Item.{Item as AnItem};
ghost use Rattle.sb_pipeline.specs.records.Streams.{least_of};
ghost use Rattle.sb_pipeline.specs.Shapes.{Shape, streams_of};
ghost use Rattle.sb_checkpoint.specs.Reach.{HasNoSession};
ghost use Rattle.sb_checkpoint.specs.Checkpoints.{is_kept};
ghost use Rattle.sb_checkpoint.specs.Saved.{record_item};
ghost use Rattle.sb_checkpoint.specs.Keeping as spec;
ghost use Rattle.sb_checkpoint.specs.Keeping.{IsRecord};

use crate::checkpoint::{Checkpoint, StreamRec, least, push};
use crate::reaching::reach;
use sb_pipeline::{Item, NoMemory, Plan, Stream, Streams};
use std::alloc::Global;
use std::marker::Model;

/// So many records are kept before the first look at which of them are still needed.
const SOME_RECORDS: usize = 1024;

/// The records that can still be part of a row, the last watermarks and the number of items.
///
/// Records that are needed no longer are looked for only when the list has doubled since the last time. So a record
/// costs the same on the average, however many are kept, and at most twice as many are held as are needed, or
/// [`SOME_RECORDS`].
#[derive(Drop)]
pub struct Keeper {
    streams: Streams,
    reach: u64,
    lines: u64,
    mark_a: u64,
    mark_b: u64,
    records: Vec<StreamRec>,
    limit: usize,
}

impl Model for Keeper {
    ghost use Rattle.std.specs.Prelude.{nat_lt, not, filter, map};
    ghost use Rattle.sb_pipeline.specs.records.Streams.{least_of};
    ghost use Rattle.sb_checkpoint.specs.Checkpoints.{is_kept};
    ghost use Rattle.sb_checkpoint.specs.Saved.{record_item};
    ghost use Rattle.sb_checkpoint.specs.Keeping.{Kept};

    ghost Value = { Kept };

    ghost view = { λ k. record {
      streams = k.streams;
      reach = k.reach;
      lines = k.lines;
      mark_a = k.mark_a;
      mark_b = k.mark_b;
      records = filter (is_kept k.reach (least_of k.streams k.mark_a k.mark_b)) (map record_item k.records.items);
    } };
}

impl Keeper {
    /// Before the first item of an input of the plan, which has no sessions.
    pub fn new(alloc: Global, plan: &Plan) -> Keeper
        requires { HasNoSession plan.now }
        ensures { result ≡ spec.kept_after plan.now [] }
    {
        Keeper {
            streams: plan.streams(),
            reach: reach(plan),
            lines: 0,
            mark_a: 0,
            mark_b: 0,
            records: Vec::new(alloc),
            limit: SOME_RECORDS,
        }
    }

    /// The low watermark so far.
    fn low(&self) -> u64
        ensures { result ≡ spec.low_in self.now }
    {
        least(self.streams, self.mark_a, self.mark_b)
    }

    /// The least time of a record that can still be part of a row.
    fn from(&self) -> u64
        ensures { result ≡ spec.low_in self.now - self.now.reach }
    {
        self.low().saturating_sub(self.reach)
    }

    /// Lets go of the records that are needed no longer.
    fn prune(&mut self)
        ensures { self.new ≡ self.old }
    {
        let from = self.from();
        keep_from(&mut self.records, from);
        self.limit = SOME_RECORDS.max(self.records.len().saturating_mul(2));
    }

    /// Lets go of records where many are held.
    fn make_room(&mut self)
        ensures { self.new ≡ self.old }
    {
        if self.records.len() >= self.limit {
            self.prune();
        }
    }

    /// Takes the next record.
    fn add(&mut self, next: &Item) -> Result<(), NoMemory>
        requires { IsRecord next.now }
        ensures { OnOk result (self.new ≡ spec.with_record next.now self.old) }
    {
        self.make_room();
        push(&mut self.records, next)?;
        Ok(())
    }

    /// Takes the next watermark of a stream, with which the low watermark does not fall.
    fn mark(&mut self, stream: Stream, mark: u64)
        requires { spec.low_in self.old ≤ spec.low_in (spec.with_watermark stream mark self.old) }
        ensures { self.new ≡ spec.with_mark stream mark self.old }
    {
        match stream {
            Stream::A => self.mark_a = mark,
            Stream::B => self.mark_b = mark,
        }
    }

    /// Takes the next item, with which the low watermark does not fall.
    ///
    /// # Errors
    ///
    /// There is no memory for a record.
    pub fn keep(&mut self, next: &Item) -> Result<(), NoMemory>
        requires room { self.old.lines < u64.MAX }
        requires rises { spec.low_in self.old ≤ spec.low_in (spec.with_item next.now self.old) }
        ensures { OnOk result (self.new ≡ spec.with_item next.now self.old) }
    {
        self.lines += 1;
        match next {
            Item::Rec(_, _) => self.add(next),
            Item::Mark(stream, mark) => {
                self.mark(*stream, *mark);
                Ok(())
            }
            Item::Skip | Item::Late { .. } => Ok(()),
        }
    }

    /// The checkpoint of the items.
    pub fn into_checkpoint(self) -> Checkpoint
        ensures { (plan : Shape) (items : List AnItem) → self ≡ spec.kept_after plan items
            → spec.IsCheckpointOf plan items result }
    {
        let low = self.low();
        let from = self.from();
        let Keeper {
            lines,
            mark_a,
            mark_b,
            mut records,
            ..
        } = self;
        keep_from(&mut records, from);
        Checkpoint {
            lines,
            low,
            records,
            mark_a,
            mark_b,
        }
    }
}

/// Keeps the records with a time from `from` on.
fn keep_from(records: &mut Vec<StreamRec>, from: u64)
    ensures { records.new.items ≡ filter (λ r. not (nat_lt r.rec.time from)) records.old.items }
{
    records.retain(|kept| kept.rec.time >= from);
}
