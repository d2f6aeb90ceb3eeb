//! Watermarks of a lane: its next epoch is sealed, and its oldest container is closed.

ghost use Rattle.std.specs.Prelude.{◌≡◌, ◌≤◌, ◌<◌, ◌+◌, true, length, drop, map, Ok, OnErr, OnOk, IfOk};
ghost use Rattle.sb_lane.specs.containers.Lanes.{next_epoch, with_seal};
ghost use Rattle.sb_lane.specs.containers.Marks.{before_closing, first_is_closing};
ghost use Rattle.sb_diary.specs.declared.event.DiaryEvent.TheVariants as line;
ghost use Rattle.sb_node.specs.Keeping.{IsSpent, closed_mark};
ghost use Rattle.sb_lane.specs.LaneView.{LaneView, lane_of};
ghost use Rattle.sb_lane.specs.Looks.{look_of};
ghost use Rattle.sb_lane.specs.Placed.{conts_of};
ghost use Rattle.sb_lane.specs.declared.answers.LaneClose.{LaneClose as AClose};
ghost use Rattle.sb_node.specs.Changes.{Begins, ClosesKept, HasLane, LosesKept, Starts, Stays, Turns};
ghost use Rattle.sb_node.specs.LinkChanges.{DropsLink, GetsPlace};
ghost use Rattle.sb_node.specs.Marking as spec;

use crate::closing::Closing;
use crate::state::NodeState;
use sb_diary::DiaryEvent;
use sb_lane::Lane;
use sb_work::{NoMemory, Record};

/// The mark up to which a node is closed once the oldest container of a lane is closing.
fn mark_for(lanes: &[Lane], lane: u32) -> u64
    ensures { result ≡ spec.mark_for lane (map lane_of lanes.now) }
{
    match lanes {
        [own] => own.mark_with(),
        [left, right] => {
            if lane == 0 {
                left.mark_with().min(right.mark_before())
            } else {
                left.mark_before().min(right.mark_with())
            }
        }
        _ => 0,
    }
}

/// The mark up to which a node is closed before that.
fn mark_before(lanes: &[Lane]) -> u64
    requires { length lanes.now ≤ 2 }
    ensures { result ≡ before_closing (map lane_of lanes.now) }
{
    match lanes {
        [own] => own.mark_before(),
        [left, right] => left.mark_before().min(right.mark_before()),
        _ => 0,
    }
}

impl NodeState {
    /// Seals the next epoch of a lane.
    ///
    /// # Errors
    ///
    /// [`NoMemory`]; then the node shows what it did.
    pub fn seal(&mut self, lane: u32, mark: u64) -> Result<(), NoMemory>
        requires room { 1 ≤ self.old.diary.spare }
        requires lane { (at : LaneView) × HasLane lane at self.old }
        ensures seals { OnOk result ((at : LaneView) → HasLane lane at self.old → Turns lane at
            (with_seal mark (lane_of at)) (GetsPlace (length at.marks))
            (line.Seal lane (next_epoch (lane_of at)) mark) self.old self.new) }
        ensures same { OnErr result ((at : LaneView) → HasLane lane at self.old → Stays lane at self.old self.new) }
    {
        let into = &mut self.lanes[lane as usize];
        let (epoch, _) = into.next();
        into.seal(mark)?;
        self.diary.push(DiaryEvent::Seal { lane, epoch, mark });
        Ok(())
    }

    /// The node is closed up to the mark that it has once the oldest container of a lane is closing. The rows that are
    /// due, in order.
    ///
    /// # Errors
    ///
    /// [`NoMemory`]; then what the node keeps is unknown.
    pub fn close(&mut self, lane: u32) -> Result<Vec<Record>, NoMemory>
        requires rises { (IsSpent self.old.kept → ⊥)
            → closed_mark self.old.kept ≤ spec.mark_for lane (map lane_of self.old.lanes.items) }
        ensures closes { IfOk result (λ rows. ClosesKept (spec.mark_for lane (map lane_of self.old.lanes.items))
            rows.items self.old self.new) }
        ensures err { OnErr result (LosesKept self.old self.new) }
    {
        let mark = mark_for(self.lanes.as_slice(), lane);
        self.kept.close(mark)
    }

    /// The closing of the oldest container of a lane, which may close and has this epoch, begins: so many rows are due.
    /// `node` is the number of this node. The closing has these rows. It takes no memory.
    pub fn start(
        &mut self,
        node: u32,
        lane: u32,
        epoch: u64,
        count: u64,
        rows: Vec<Record>,
    ) -> Closing
        requires room { 1 ≤ self.old.diary.spare }
        requires closings { self.old.closings < u64.MAX }
        requires lane { (at : LaneView) × HasLane lane at self.old }
        requires looks { (at : LaneView) → HasLane lane at self.old
            → (close : AClose) × (look_of (conts_of at.containers) ≡ Ok close) }
        requires few { length self.old.lanes.items ≤ 2 }
        ensures names { (result.node ≡ node) × (result.lane ≡ lane) × (result.epoch ≡ epoch) × (result.rows ≡ rows) }
        ensures starts { (at : LaneView) → HasLane lane at self.old
            → Starts at result count self.old self.new }
    {
        let mark = mark_for(self.lanes.as_slice(), lane);
        let floor = mark_before(self.lanes.as_slice());
        let of = &mut self.lanes[lane as usize];
        let _ = of.begin();
        let serial = self.closings;
        self.closings = serial + 1;
        self.diary.push(DiaryEvent::Begin {
            lane,
            epoch,
            mark,
            rows: count,
        });
        Closing {
            node,
            lane,
            epoch,
            serial,
            floor,
            mark,
            rows,
        }
    }

    /// The closing of the oldest container of a lane, which may close and has this epoch, begins. `node` is the number
    /// of this node.
    ///
    /// # Errors
    ///
    /// [`NoMemory`]; then what the node keeps is unknown.
    pub fn begin(&mut self, node: u32, lane: u32, epoch: u64) -> Result<Closing, NoMemory>
        requires room { 1 ≤ self.old.diary.spare }
        requires closings { self.old.closings < u64.MAX }
        requires lane { (at : LaneView) × HasLane lane at self.old }
        requires looks { (at : LaneView) → HasLane lane at self.old
            → (close : AClose) × (look_of (conts_of at.containers) ≡ Ok close) }
        requires few { length self.old.lanes.items ≤ 2 }
        requires rises { (IsSpent self.old.kept → ⊥)
            → closed_mark self.old.kept ≤ spec.mark_for lane (map lane_of self.old.lanes.items) }
        ensures names { IfOk result (λ c. (c.node ≡ node) × (c.lane ≡ lane) × (c.epoch ≡ epoch)) }
        ensures begins { IfOk result (λ c. (at : LaneView) → HasLane lane at self.old
            → Begins at c self.old self.new) }
        ensures err { OnErr result (LosesKept self.old self.new) }
    {
        let rows = self.close(lane)?;
        let count = rows.len() as u64;
        Ok(self.start(node, lane, epoch, count, rows))
    }

    /// The oldest container of a lane, which is closing and has this epoch, is removed. It takes no memory.
    pub fn end(&mut self, lane: u32, epoch: u64)
        requires room { 1 ≤ self.old.diary.spare }
        requires lane { (at : LaneView) × HasLane lane at self.old
            × (first_is_closing (conts_of at.containers) ≡ true) × (at.ended < length at.marks) }
        ensures { (at : LaneView) → HasLane lane at self.old → Turns lane at
            (record (lane_of at) { conts = drop 1 (conts_of at.containers); ended = at.ended + 1 }) DropsLink
            (line.End lane epoch) self.old self.new }
    {
        let of = &mut self.lanes[lane as usize];
        of.end();
        self.diary.push(DiaryEvent::End { lane, epoch });
    }
}
