//! Bundles come into a lane: of a stream, and of the node above.

ghost use Rattle.std.specs.Prelude.{◌≡◌, ℕ, ◌<◌, ◌≤◌, ◌+◌, ◌-◌, ◌^◌, length, OnErr, IfErr, IfOk};
ghost use Rattle.sb_lane.specs.containers.LaneOrder.{IsLane};
ghost use Rattle.sb_lane.specs.containers.Lanes.{in_epoch, with_arrival};
ghost use Rattle.sb_diary.specs.declared.event.DiaryEvent.TheVariants as line;
ghost use Rattle.sb_lane.specs.Changes.{StandsAt};
ghost use Rattle.sb_lane.specs.LaneChanges.{IsUnchanged};
ghost use Rattle.sb_lane.specs.LaneView.{LaneView, lane_of};
ghost use Rattle.sb_lane.specs.Placed.{conts_of};
ghost use Rattle.sb_lane.specs.Unfinished.{unfinished_of};
ghost use Rattle.sb_node.specs.Changes.{HasLane, Stays, Turns};
ghost use Rattle.sb_node.specs.Coming.{IsBackFrom};
ghost use Rattle.sb_node.specs.LinkChanges.{FindsPlace, GetsPlace, LinksStay};

use crate::state::NodeState;
use sb_diary::DiaryEvent;
use sb_lane::{ArriveStop, Lane};
use sb_work::{Bundle, NoMemory};

/// Puts a bundle into the container of its epoch, which stands at a place of a lane.
fn deliver_there(lane: &mut Lane, place: u64, bundle: Bundle) -> Result<u64, NoMemory>
    requires here { StandsAt bundle.epoch place lane.old.containers }
    requires order { (bound : ℕ) × IsLane bound (lane_of lane.old) }
    ensures room { IfOk result (λ n. lane.old.arrived < 2 ^ 64 - 1) }
    ensures number { IfOk result (λ n. n ≡ lane.old.arrived + 1) }
    ensures ok { IfOk result (λ n.
        lane_of lane.new ≡ with_arrival bundle.epoch bundle.floor bundle.records (lane_of lane.old)) }
    ensures limit { lane.new.pending ≡ lane.old.pending }
    ensures links { LinksStay lane.old lane.new }
    ensures same { OnErr result (lane_of lane.new ≡ lane_of lane.old) }
{
    if lane.arrived_count() == u64::MAX {
        return Err(NoMemory);
    }
    match lane.deliver_at(place, bundle) {
        Ok(number) => Ok(number),
        Err(_) => Err(NoMemory),
    }
}

/// Puts a bundle into the container of its epoch, which is looked for: its place, and the number of the bundle. If no
/// memory is found, no container is left that was not there.
fn deliver_first(lane: &mut Lane, bundle: Bundle) -> Result<(u64, u64), NoMemory>
    requires { lane.old.arrived < 2 ^ 64 - 1 → (bound : ℕ) × IsLane bound (record (lane_of lane.old) {
      conts = in_epoch bundle.epoch bundle.floor (λ c. c) (conts_of lane.old.containers);
    }) }
    ensures room { IfOk result (λ n. lane.old.arrived < 2 ^ 64 - 1) }
    ensures number { IfOk result (λ n. n.1 ≡ lane.old.arrived + 1) }
    ensures ok { IfOk result (λ n.
        lane_of lane.new ≡ with_arrival bundle.epoch bundle.floor bundle.records (lane_of lane.old)) }
    ensures limit { lane.new.pending ≡ lane.old.pending }
    ensures links { IfOk result (λ n. FindsPlace bundle.epoch n.0 lane.old lane.new) }
    ensures same { OnErr result (IsUnchanged lane.old lane.new) }
{
    if lane.arrived_count() == u64::MAX {
        return Err(NoMemory);
    }
    let place = lane.place(bundle.epoch, bundle.floor)?;
    match lane.deliver_at(place, bundle) {
        Ok(number) => Ok((place, number)),
        // There is room.
        Err(_) => unreachable!(),
    }
}

impl NodeState {
    /// A bundle of a stream comes into the lane of the stream. Its number there.
    ///
    /// # Errors
    ///
    /// The bundle comes back: [`ArriveStop::Full`] only where as many bundles as the lane's limit are waiting or out,
    /// and [`ArriveStop::Memory`] if no memory was found. The node shows what it did.
    pub fn arrive(&mut self, lane: u32, bundle: Bundle) -> Result<u64, ArriveStop>
        requires room { 1 ≤ self.old.diary.spare }
        requires lane { (at : LaneView) × HasLane lane at self.old }
        ensures number { IfOk result (λ n. (at : LaneView) → HasLane lane at self.old → n ≡ at.arrived + 1) }
        ensures fewer { IfOk result (λ n. (at : LaneView) → HasLane lane at self.old
            → unfinished_of (conts_of at.containers) < at.pending) }
        ensures arrives { IfOk result (λ n. (at : LaneView) → HasLane lane at self.old
            → (at.arrived < 2 ^ 64 - 1) × Turns lane at
            (with_arrival bundle.epoch bundle.floor bundle.records (lane_of at)) (GetsPlace bundle.epoch)
            (line.Arrive lane bundle.epoch n (length bundle.records)) self.old self.new) }
        ensures back { IfErr result (λ e. (at : LaneView) → HasLane lane at self.old → IsBackFrom at bundle e) }
        ensures same { OnErr result ((at : LaneView) → HasLane lane at self.old → Stays lane at self.old self.new) }
    {
        let into = &mut self.lanes[lane as usize];
        if into.arrived_count() >= u64::MAX {
            return Err(ArriveStop::Memory(bundle));
        }
        let (epoch, length) = (bundle.epoch, bundle.records.as_slice().len() as u64);
        let number = into.arrive(bundle)?;
        self.diary.push(DiaryEvent::Arrive {
            lane,
            epoch,
            number,
            length,
        });
        Ok(number)
    }

    /// A bundle of the node above comes into the container of its epoch, which stands at this place of the lane.
    ///
    /// # Errors
    ///
    /// [`NoMemory`]; then the node shows what it did.
    pub fn put_at(&mut self, lane: u32, place: u64, bundle: Bundle) -> Result<(), NoMemory>
        requires room { 1 ≤ self.old.diary.spare }
        requires lane { (at : LaneView) × HasLane lane at self.old }
        requires here { (at : LaneView) → HasLane lane at self.old → StandsAt bundle.epoch place at.containers }
        requires order { (at : LaneView) → HasLane lane at self.old → (bound : ℕ) × IsLane bound (lane_of at) }
        ensures puts { IfOk result (λ n. (at : LaneView) → HasLane lane at self.old
            → (at.arrived < 2 ^ 64 - 1) × Turns lane at
            (with_arrival bundle.epoch bundle.floor bundle.records (lane_of at)) LinksStay
            (line.Arrive lane bundle.epoch (at.arrived + 1) (length bundle.records)) self.old self.new) }
        ensures same { OnErr result ((at : LaneView) → HasLane lane at self.old → Stays lane at self.old self.new) }
    {
        let into = &mut self.lanes[lane as usize];
        let (epoch, length) = (bundle.epoch, bundle.records.as_slice().len() as u64);
        let number = deliver_there(into, place, bundle)?;
        self.diary.push(DiaryEvent::Arrive {
            lane,
            epoch,
            number,
            length,
        });
        Ok(())
    }

    /// The same, if the container of the epoch is to be looked for, or made. Its place.
    ///
    /// # Errors
    ///
    /// [`NoMemory`]; then the node shows what it did.
    pub fn put_first(&mut self, lane: u32, bundle: Bundle) -> Result<u64, NoMemory>
        requires room { 1 ≤ self.old.diary.spare }
        requires lane { (at : LaneView) × HasLane lane at self.old }
        requires order { (at : LaneView) → HasLane lane at self.old → at.arrived < 2 ^ 64 - 1
            → (bound : ℕ) × IsLane bound (record (lane_of at) {
              conts = in_epoch bundle.epoch bundle.floor (λ c. c) (conts_of at.containers);
            }) }
        ensures puts { IfOk result (λ place. (at : LaneView) → HasLane lane at self.old
            → (at.arrived < 2 ^ 64 - 1) × Turns lane at
            (with_arrival bundle.epoch bundle.floor bundle.records (lane_of at)) (FindsPlace bundle.epoch place)
            (line.Arrive lane bundle.epoch (at.arrived + 1) (length bundle.records)) self.old self.new) }
        ensures same { OnErr result ((at : LaneView) → HasLane lane at self.old → Stays lane at self.old self.new) }
    {
        let into = &mut self.lanes[lane as usize];
        let (epoch, length) = (bundle.epoch, bundle.records.as_slice().len() as u64);
        let (place, number) = deliver_first(into, bundle)?;
        self.diary.push(DiaryEvent::Arrive {
            lane,
            epoch,
            number,
            length,
        });
        Ok(place)
    }
}
