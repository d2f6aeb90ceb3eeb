//! Bundles of a lane are taken, and done with.

ghost use Rattle.std.specs.Prelude.{◌≡◌, ◌≤◌, ℕ, true, List, length, is_some, OnErr, OnOk};
ghost use Rattle.sb_diary.specs.declared.event.DiaryEvent.TheVariants as line;
ghost use Rattle.sb_work.specs.base.records.declared.item.Record.{Record as ARecord};
ghost use Rattle.sb_node.specs.Keeping.{IsPartFor, IsSpent};
ghost use Rattle.sb_lane.specs.LaneView.{LaneView, lane_of};
ghost use Rattle.sb_lane.specs.Links.{down_of, links_of};
ghost use Rattle.sb_lane.specs.Placed.{conts_of};
ghost use Rattle.sb_lane.specs.Taking.{take_first, finish_first};
ghost use Rattle.sb_node.specs.Changes.{Absorbs, GetsDown, HasLane, LosesKept, Takes, Turns};
ghost use Rattle.sb_node.specs.LinkChanges.{LinksStay};

use crate::state::NodeState;
use sb_diary::DiaryEvent;
use sb_work::{Bundle, NoMemory, Part};

impl NodeState {
    /// Takes the first waiting bundle of a lane in which one waits. It takes no memory.
    pub fn take(&mut self, lane: u32) -> Bundle
        requires room { 1 ≤ self.old.diary.spare }
        requires waits { (at : LaneView) × HasLane lane at self.old
            × (is_some (take_first (conts_of at.containers)) ≡ true) }
        ensures { (at : LaneView) → HasLane lane at self.old → Takes lane at result self.old self.new }
    {
        let from = &mut self.lanes[lane as usize];
        let bundle = from.take().unwrap();
        self.diary.push(DiaryEvent::Take {
            lane,
            number: bundle.number,
        });
        bundle
    }

    /// A bundle of a lane is done with; it gave so many records. It takes no memory.
    pub fn finish(&mut self, lane: u32, epoch: u64, number: u64, length: u64)
        requires room { 1 ≤ self.old.diary.spare }
        requires lane { (at : LaneView) × HasLane lane at self.old }
        ensures { (at : LaneView) → HasLane lane at self.old → Turns lane at
            (record (lane_of at) { conts = finish_first epoch number (conts_of at.containers) }) LinksStay
            (line.Finish lane number length) self.old self.new }
    {
        let of = &mut self.lanes[lane as usize];
        of.finish(epoch, number);
        self.diary.push(DiaryEvent::Finish {
            lane,
            number,
            length,
        });
    }

    /// The node takes its part of a bundle of a lane in, and the bundle is done with.
    ///
    /// # Errors
    ///
    /// [`NoMemory`]; then what the node keeps is unknown.
    pub fn absorb(&mut self, lane: u32, epoch: u64, number: u64, part: Part) -> Result<(), NoMemory>
        requires room { 1 ≤ self.old.diary.spare }
        requires lane { (at : LaneView) × HasLane lane at self.old }
        requires takes { (IsSpent self.old.kept → ⊥)
            → (records : List ARecord) × IsPartFor self.old.kept part lane records }
        ensures absorbs { OnOk result ((at : LaneView) → HasLane lane at self.old
            → Absorbs lane at epoch number part self.old self.new) }
        ensures err { OnErr result (LosesKept self.old self.new) }
    {
        self.kept.absorb(part)?;
        self.finish(lane, epoch, number, 0);
        Ok(())
    }

    /// Where the container below stands that takes the output of an epoch, if it is known.
    pub fn down(&self, epoch: u64) -> Option<u64>
        requires { (at : LaneView) × HasLane 0 at self.now }
        ensures { (at : LaneView) → HasLane 0 at self.now → result ≡ down_of epoch (links_of at.containers) }
    {
        self.lanes[0].down_of(epoch)
    }

    /// Links the container of an epoch, if it is there, to a place below.
    pub fn link(&mut self, epoch: u64, place: u64)
        requires { (at : LaneView) × HasLane 0 at self.old }
        ensures { (at : LaneView) → HasLane 0 at self.old → GetsDown epoch place at self.old self.new }
    {
        let of = &mut self.lanes[0];
        of.link(epoch, place);
    }
}
