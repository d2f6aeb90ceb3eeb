//! What lies under the turn of a node.
//!
//! A worker that took a bundle, or began a closing, has to be able to finish it. So each arrival and each beginning
//! reserves the lines that its bundle or closing will have in the diary, and a node keeps count of them.

ghost use Rattle.std.specs.Prelude.{◌≡◌, ◌≤◌, ◌<◌, ◌+◌, ℕ, List, true, false, [], length, drop, map, Ok};
ghost use Rattle.std.specs.Prelude.{IfOk, IfErr, IfSome, IfNone, OnOk, OnErr, All};
ghost use Rattle.sb_shown.specs.base.records.declared.item.Record.{Record as ARecord};
ghost use Rattle.sb_shown.specs.core.containers.LaneOrder.{IsLane};
ghost use Rattle.sb_shown.specs.core.containers.Lanes.{in_epoch, next_epoch, with_arrival, with_seal};
ghost use Rattle.sb_shown.specs.core.containers.Marks.{first_is_closing};
ghost use Rattle.sb_shown.specs.diary.declared.diary.TheConstants.{MAX_DIARY_LINES};
ghost use Rattle.sb_shown.specs.diary.declared.event.DiaryEvent.TheVariants as line;
ghost use Rattle.sb_shown.specs.node.Keeping.{IsPartFor, closed_mark};
ghost use Rattle.sb_shown.specs.lane.Changes.{StandsAt};
ghost use Rattle.sb_shown.specs.lane.LaneView.{LaneView, lane_of};
ghost use Rattle.sb_shown.specs.lane.Links.{down_of, links_of};
ghost use Rattle.sb_shown.specs.lane.Looks.{look_of};
ghost use Rattle.sb_shown.specs.lane.Placed.{conts_of};
ghost use Rattle.sb_shown.specs.lane.Taking.{finish_first};
ghost use Rattle.sb_shown.specs.lane.Unfinished.{unfinished_of};
ghost use Rattle.sb_shown.specs.lane.declared.answers.LaneClose.{LaneClose as AClose};
ghost use Rattle.sb_shown.specs.node.Changes.{Absorbs, HasLane, Takes, Turns};
ghost use Rattle.sb_shown.specs.node.Coming.{IsBackFrom};
ghost use Rattle.sb_shown.specs.node.LinkChanges.{DropsLink, GetsPlace};
ghost use Rattle.sb_shown.specs.node.Looking.{EarlierCannotClose, NoneClosing, NoneWaits};
ghost use Rattle.sb_shown.specs.node.Marking.{mark_for};
ghost use Rattle.sb_shared.specs.SharedNodes.{ChangesOwn, FinishesLinked, IsOut, LosesKept, PutsAt, ShowsSame};
ghost use Rattle.sb_shared.specs.SharedNodes.{BeginsAt, StopsAt, lines_of, owed_lines};

use sb_shown::{ArriveStop, Bundle, Closing, NoMemory, NodeState, NotYet, Part, Record};
use std::alloc::Global;
use std::marker::Model;

/// The state of a node, at the sink the rows that are not drained, and whether what the node keeps is unknown.
///
/// The state lies in a box, since each turn moves a shared node out of its slot and back.
#[derive(Drop)]
pub struct SharedNode {
    own: Box<NodeState>,
    tray: Vec<Record>,
    spent: bool,
    /// The lines that bundles and closings under way will have: room for them is reserved.
    promised: usize,
}

impl Model for SharedNode {
    ghost use Rattle.std.specs.Prelude.{◌≡◌, ◌≤◌, ◌+◌, length};
    ghost use Rattle.std.specs.Coded.{codes};
    ghost use Rattle.sb_shown.specs.diary.declared.diary.TheConstants.{MAX_DIARY_LINES};
    ghost use Rattle.sb_shown.specs.node.contracts.state.NodeState as state;
    ghost use Rattle.sb_shared.specs.SharedNodes.{SharedView, owed_lines};

    ghost Value = { SharedView };

    ghost coded = { Prim.hlevel (codes, state.the_row.coded) };

    ghost view = { λ n. record { own = n.own.value; tray = n.tray.items; spent = n.spent } };

    ghost invariant = { λ n. (owed_lines n.own.value.lanes.items ≤ n.promised) × (n.promised ≤ n.own.value.diary.spare)
        × (length n.own.value.diary.events + n.own.value.diary.spare ≤ MAX_DIARY_LINES) };
}

/// A bundle that a node gave out.
#[derive(Drop)]
pub struct Taken {
    pub lane: u32,
    pub bundle: Bundle,
    /// Where its output goes below, if that is known.
    pub link: Option<u64>,
}

/// Why a closing did not begin.
#[derive(Drop)]
pub enum BeginStop {
    /// The node does not allow it now.
    NotYet(NotYet),
    /// Nothing has changed but room.
    Memory,
    /// What the node keeps is unknown from now on.
    Spent,
}

/// A closing of a node begins, of the oldest container of the first lane that can close, which has this epoch. At the
/// sink its rows go to the tray. If there is no memory, what the node keeps is unknown, and all else is as it was.
fn close(
    own: &mut NodeState,
    tray: &mut Vec<Record>,
    node: u32,
    lane: u32,
    epoch: u64,
    is_sink: bool,
) -> Result<Closing, NoMemory>
    requires room { 1 ≤ own.old.diary.spare }
    requires closings { own.old.closings < u64.MAX }
    requires few { length own.old.lanes.items ≤ 2 }
    requires lane { (at : LaneView) × HasLane lane at own.old
        × (oldest : AClose) × (look_of (conts_of at.containers) ≡ Ok oldest) × (oldest.epoch ≡ epoch) }
    requires first { EarlierCannotClose lane own.old.lanes.items }
    requires none { NoneClosing own.old.lanes.items }
    requires rises { closed_mark own.old.kept ≤ mark_for lane (map lane_of own.old.lanes.items) }
    ensures begins { IfOk result (λ c. (c.node ≡ node) × BeginsAt is_sink c
        (record { own = own.old; tray = tray.old.items; spent = false })
        (record { own = own.new; tray = tray.new.items; spent = false })) }
    ensures line { OnOk result ((own.new.diary.spare + 1 ≡ own.old.diary.spare)
        × (length own.new.diary.events ≡ length own.old.diary.events + 1)) }
    ensures kept { OnErr result (own.new ≡ record own.old { kept = own.new.kept }) }
    ensures tray { OnErr result (tray.new.items ≡ tray.old.items) }
{
    let mut rows = own.close(lane)?;
    let count = rows.len() as u64;
    if is_sink {
        tray.append(&mut rows)?;
    }
    Ok(own.start(node, lane, epoch, count, rows))
}

impl SharedNode {
    /// A node in which nothing is under way.
    ///
    /// # Errors
    ///
    /// [`NoMemory`].
    pub fn new(alloc: Global, mut own: NodeState) -> Result<SharedNode, NoMemory>
        requires { owed_lines own.lanes.items ≡ 0 }
        ensures { IfOk result (λ node. node ≡ record { own = own; tray = []; spent = false }) }
    {
        // For the proof: a diary has at most so many lines.
        let _ = own.diary.reserve(0);
        Ok(SharedNode {
            own: Box::new(alloc, own)?,
            tray: Vec::new(alloc),
            spent: false,
            promised: 0,
        })
    }

    /// The state, and the rows that were not drained.
    pub fn into_parts(self) -> (NodeState, Vec<Record>)
        ensures { (result.0 ≡ self.own) × (result.1.items ≡ self.tray) }
    {
        let SharedNode {
            own,
            tray,
            spent: _,
            promised: _,
        } = self;
        (Box::into_inner(own), tray)
    }

    /// Whether what the node keeps is unknown.
    pub fn is_spent(&self) -> bool
        ensures { result ≡ self.now.spent }
    {
        self.spent
    }

    /// The number of lines in its diary.
    pub fn lines(&self) -> u64
        ensures lines { result ≡ lines_of self.now }
        ensures most { result ≤ MAX_DIARY_LINES }
    {
        self.own.diary.count()
    }

    /// A bundle of a stream comes into a lane. Its number there.
    pub fn arrive(&mut self, lane: u32, bundle: Bundle) -> Result<u64, ArriveStop>
        requires lane { (at : LaneView) × HasLane lane at self.old.own }
        ensures number { IfOk result (λ n. (at : LaneView) → HasLane lane at self.old.own → n ≡ at.arrived + 1) }
        ensures fewer { IfOk result (λ n. (at : LaneView) → HasLane lane at self.old.own
            → unfinished_of (conts_of at.containers) < at.pending) }
        ensures arrives { IfOk result (λ n. (at : LaneView) → HasLane lane at self.old.own
            → (at.arrived < u64.MAX) × ChangesOwn (Turns lane at
            (with_arrival bundle.epoch bundle.floor bundle.records (lane_of at)) (GetsPlace bundle.epoch)
            (line.Arrive lane bundle.epoch n (length bundle.records))) self.old self.new) }
        ensures back { IfErr result (λ e. (at : LaneView) → HasLane lane at self.old.own → IsBackFrom at bundle e) }
        ensures same { OnErr result (ShowsSame self.old self.new) }
    {
        let own = &mut *self.own;
        if own.diary.reserve(self.promised + 3).is_err() {
            return Err(ArriveStop::Memory(bundle));
        }
        let number = own.arrive(lane, bundle)?;
        self.promised += 2;
        Ok(number)
    }

    /// A bundle of the node above comes into a lane, to the container that stands at this place, or to that of its
    /// epoch, which is looked for. The container's place.
    pub fn put(&mut self, lane: u32, link: Option<u64>, bundle: Bundle) -> Result<u64, NoMemory>
        requires lane { (at : LaneView) × HasLane lane at self.old.own }
        requires here { IfSome link (λ place. (at : LaneView) → HasLane lane at self.old.own
            → StandsAt bundle.epoch place at.containers) }
        requires order { (at : LaneView) → HasLane lane at self.old.own → (bound : ℕ) × IsLane bound (lane_of at) }
        requires later { (at : LaneView) → HasLane lane at self.old.own → at.arrived < u64.MAX
            → (bound : ℕ) × IsLane bound (record (lane_of at) {
              conts = in_epoch bundle.epoch bundle.floor (λ c. c) (conts_of at.containers);
            }) }
        ensures puts { IfOk result (λ place. (at : LaneView) → HasLane lane at self.old.own
            → (at.arrived < u64.MAX) × ChangesOwn (Turns lane at
            (with_arrival bundle.epoch bundle.floor bundle.records (lane_of at)) (PutsAt bundle.epoch place)
            (line.Arrive lane bundle.epoch (at.arrived + 1) (length bundle.records))) self.old self.new) }
        ensures same { OnErr result (ShowsSame self.old self.new) }
    {
        let own = &mut *self.own;
        own.diary.reserve(self.promised + 3)?;
        let place = match link {
            Some(place) => {
                own.put_at(lane, place, bundle)?;
                place
            }
            None => own.put_first(lane, bundle)?,
        };
        self.promised += 2;
        Ok(place)
    }

    /// The next epoch of a lane is sealed.
    pub fn seal(&mut self, lane: u32, mark: u64) -> Result<(), NoMemory>
        requires lane { (at : LaneView) × HasLane lane at self.old.own }
        ensures seals { OnOk result ((at : LaneView) → HasLane lane at self.old.own → ChangesOwn (Turns lane at
            (with_seal mark (lane_of at)) (GetsPlace (length at.marks))
            (line.Seal lane (next_epoch (lane_of at)) mark)) self.old self.new) }
        ensures same { OnErr result (ShowsSame self.old self.new) }
    {
        let own = &mut *self.own;
        own.diary.reserve(self.promised + 1)?;
        own.seal(lane, mark)?;
        Ok(())
    }

    /// Takes the first bundle that waits in the node. It takes no memory.
    pub fn take(&mut self) -> Option<Taken>
        requires few { length self.old.own.lanes.items ≤ 2 }
        ensures some { IfSome result (λ t. (at : LaneView) × HasLane t.lane at self.old.own
            × ChangesOwn (Takes t.lane at t.bundle) self.old self.new
            × (t.lane ≡ 0 → t.link ≡ down_of t.bundle.epoch (links_of at.containers))) }
        ensures none { IfNone result (All NoneWaits self.old.own.lanes.items × (self.new ≡ self.old)) }
    {
        let own = &mut *self.own;
        let lane = own.waiting_lane()?;
        let bundle = own.take(lane);
        self.promised -= 1;
        let link = if lane == 0 {
            own.down(bundle.epoch)
        } else {
            None
        };
        Some(Taken { lane, bundle, link })
    }

    /// A bundle that is out of a lane is done with; it gave so many records, to the container at a place below, if that
    /// is known. It takes no memory.
    pub fn finish(&mut self, lane: u32, epoch: u64, number: u64, length: u64, link: Option<u64>)
        requires lane { (at : LaneView) × HasLane lane at self.old.own × IsOut epoch number (conts_of at.containers) }
        requires linked { IfSome link (λ place. lane ≡ 0) }
        ensures { (at : LaneView) → HasLane lane at self.old.own → ChangesOwn (Turns lane at
            (record (lane_of at) { conts = finish_first epoch number (conts_of at.containers) })
            (FinishesLinked epoch link) (line.Finish lane number length)) self.old self.new }
    {
        let own = &mut *self.own;
        own.finish(lane, epoch, number, length);
        self.promised -= 1;
        if let Some(place) = link {
            if own.down(epoch).is_none() {
                own.link(epoch, place);
            }
        }
    }

    /// The node takes its part of a bundle that is out of a lane in, and the bundle is done with. If there is no
    /// memory, what the node keeps is unknown.
    pub fn absorb(&mut self, lane: u32, epoch: u64, number: u64, part: Part) -> Result<(), NoMemory>
        requires lane { (at : LaneView) × HasLane lane at self.old.own × IsOut epoch number (conts_of at.containers) }
        requires takes { self.old.spent ≡ false
            → (records : List ARecord) × IsPartFor self.old.own.kept part lane records }
        ensures was { OnOk result (self.old.spent ≡ false) }
        ensures absorbs { OnOk result ((at : LaneView) → HasLane lane at self.old.own
            → ChangesOwn (Absorbs lane at epoch number part) self.old self.new) }
        ensures err { OnErr result (LosesKept self.old self.new) }
    {
        let own = &mut *self.own;
        if self.spent || own.absorb(lane, epoch, number, part).is_err() {
            self.spent = true;
            return Err(NoMemory);
        }
        self.promised -= 1;
        Ok(())
    }

    /// A closing of the node, the number of which this is, begins. At the sink its rows go to the tray.
    pub fn begin(&mut self, node: u32, is_sink: bool) -> Result<Closing, BeginStop>
        requires lanes { (1 ≤ length self.old.own.lanes.items) × (length self.old.own.lanes.items ≤ 2) }
        requires rises { (l : ℕ) (at : LaneView) (close : AClose) → HasLane l at self.old.own
            → look_of (conts_of at.containers) ≡ Ok close → NoneClosing self.old.own.lanes.items
            → self.old.spent ≡ false
            → closed_mark self.old.own.kept ≤ mark_for l (map lane_of self.old.own.lanes.items) }
        ensures begins { IfOk result (λ c. (c.node ≡ node) × BeginsAt is_sink c self.old self.new) }
        ensures stops { IfErr result (λ stop. StopsAt stop self.old self.new) }
    {
        let own = &mut *self.own;
        let (lane, epoch) = match own.may_close() {
            Ok(oldest) => oldest,
            Err(why) => return Err(BeginStop::NotYet(why)),
        };
        let is_full = self.spent || own.closings == u64::MAX;
        if is_full || own.diary.reserve(self.promised + 2).is_err() {
            return Err(BeginStop::Memory);
        }
        match close(own, &mut self.tray, node, lane, epoch, is_sink) {
            Ok(closing) => {
                self.promised += 1;
                Ok(closing)
            }
            Err(_) => {
                self.spent = true;
                Err(BeginStop::Spent)
            }
        }
    }

    /// The oldest container of a lane, which is closing and has this epoch, is removed. It takes no memory.
    pub fn end(&mut self, lane: u32, epoch: u64)
        requires lane { (at : LaneView) × HasLane lane at self.old.own
            × (first_is_closing (conts_of at.containers) ≡ true) × (at.ended < length at.marks) }
        ensures { (at : LaneView) → HasLane lane at self.old.own → ChangesOwn (Turns lane at
            (record (lane_of at) { conts = drop 1 (conts_of at.containers); ended = at.ended + 1 }) DropsLink
            (line.End lane epoch)) self.old self.new }
    {
        let own = &mut *self.own;
        own.end(lane, epoch);
        self.promised -= 1;
    }

    /// Takes the tray. It takes no memory.
    pub fn drain(&mut self, alloc: Global) -> Vec<Record>
        ensures rows { result.items ≡ self.old.tray }
        ensures rest { self.new ≡ record self.old { tray = [] } }
    {
        std::mem::replace(&mut self.tray, Vec::new(alloc))
    }
}
