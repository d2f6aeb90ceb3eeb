//! A lane, and its calls.

ghost use Rattle.std.specs.Prelude.{◌≡◌, ◌≤◌, ◌<◌, ◌+◌, ◌==◌, ℕ, true, length, drop, is_some, None, Some};
ghost use Rattle.std.specs.Prelude.{OnOk, OnErr, IsOk, IfOk, IfErr, IfSome, IfNone};
ghost use Rattle.sb_containers.specs.LaneOrder.{IsLane};
ghost use Rattle.sb_containers.specs.Lanes.{in_epoch, next_epoch, next_floor, with_first_closing};
ghost use Rattle.sb_containers.specs.Marks.{first_is_closing, last_of_first};
ghost use Rattle.sb_lane.specs.Arriving.{IsRefused};
ghost use Rattle.sb_lane.specs.Changes.{StandsAt, StandsWithRoom};
ghost use Rattle.sb_lane.specs.LaneChanges.{Admits, Becomes, EndsOldest, GivesPlace, HasContainers, IsUnchanged, Seals};
ghost use Rattle.sb_lane.specs.LaneView.{empty_lane, lane_of, one_search_more};
ghost use Rattle.sb_lane.specs.Links.{down_of, with_link, links_of};
ghost use Rattle.sb_lane.specs.Looks.{look_of};
ghost use Rattle.sb_lane.specs.Placed.{conts_of, room_in};
ghost use Rattle.sb_lane.specs.Taking.{finish_first, take_first};
ghost use Rattle.sb_lane.specs.Unfinished.{unfinished_of};

use crate::answers::{ArriveStop, LaneClose, NoMemoryWith, NotYet};
use crate::arena::Arena;
use crate::closing::{close_first, look_at};
use crate::finding::first_waiting;
use crate::links::{down_in, link_in_epoch};
use crate::putting::{place_at, put_at, put_in_place, seal_at};
use crate::taking::{finish_at, take_oldest};
use sb_containers::{Bundle, NoMemory, Trail};
use std::alloc::Global;
use std::collections::VecDeque;
use std::marker::Model;

/// The containers of one input of a node, in order of epoch, and the watermarks that came.
#[derive(Drop)]
pub struct Lane {
    alloc: Global,
    containers: Arena,
    // How many bundles have arrived, how many of them wait or are out, and from how many on arrivals are refused.
    arrived: u64,
    unfinished: usize,
    pending: u32,
    // All watermarks that came, for contracts alone.
    marks: Trail<u64>,
    // How many watermarks came, and the last of them.
    sealed: u64,
    last_mark: u64,
    // How many epochs have ended, the watermark of the last of them, and those of the sealed epochs after it.
    ended: u64,
    closed_mark: u64,
    open_marks: VecDeque<u64>,
    searches: u64,
}

impl Model for Lane {
    ghost use Rattle.std.specs.Prelude.{◌≡◌, ◌≤◌};
    ghost use Rattle.sb_lane.specs.KeptMarks.{AreKeptMarks};
    ghost use Rattle.sb_lane.specs.LaneView.{LaneView};
    ghost use Rattle.sb_lane.specs.Placed.{conts_of};
    ghost use Rattle.sb_lane.specs.Unfinished.{unfinished_of};

    ghost Value = { LaneView };

    ghost view = { λ s. record {
      containers = s.containers;
      arrived = s.arrived;
      marks = s.marks;
      ended = s.ended;
      pending = s.pending;
      searches = s.searches;
    } };

    ghost invariant = { λ s. (s.unfinished ≡ unfinished_of (conts_of s.containers))
        × (s.unfinished ≤ s.arrived)
        × AreKeptMarks s.marks s.sealed s.ended s.last_mark s.closed_mark s.open_marks.items };
}

impl Lane {
    /// A lane in which nothing has arrived. It refuses arrivals while so many bundles or more wait or are out.
    pub fn new(alloc: Global, pending: u32) -> Lane
        ensures { result ≡ empty_lane pending }
    {
        Lane {
            alloc,
            containers: Arena::new(alloc),
            arrived: 0,
            unfinished: 0,
            pending,
            marks: Trail::start(),
            sealed: 0,
            last_mark: 0,
            ended: 0,
            closed_mark: 0,
            open_marks: VecDeque::new(alloc),
            searches: 0,
        }
    }

    /// How many bundles have arrived.
    pub fn arrived_count(&self) -> u64
        ensures { result ≡ self.now.arrived }
    {
        self.arrived
    }

    /// The number of the next epoch, the first that is not sealed, and its floor.
    pub fn next(&self) -> (u64, u64)
        ensures epoch { result.0 ≡ next_epoch (lane_of self.now) }
        ensures floor { result.1 ≡ next_floor (lane_of self.now) }
    {
        (self.sealed, self.last_mark)
    }

    /// How many epochs have ended.
    pub fn ended_count(&self) -> u64
        ensures { result ≡ self.now.ended }
    {
        self.ended
    }

    /// How often [`deliver`](Self::deliver) and [`place`](Self::place) have looked for the container of an epoch. The
    /// count stays at its greatest value.
    pub fn searches(&self) -> u64
        ensures { result ≡ self.now.searches }
    {
        self.searches
    }

    /// Whether a bundle waits.
    pub fn waits(&self) -> bool
        ensures { result ≡ is_some (take_first (conts_of self.now.containers)) }
    {
        first_waiting(&self.containers).is_some()
    }

    /// Whether there is no container.
    pub fn is_empty(&self) -> bool
        ensures { result ≡ (length self.now.containers == 0) }
    {
        self.containers.len() == 0
    }

    /// The watermark of the last epoch that has ended, 0 where none has.
    pub fn mark_before(&self) -> u64
        ensures { result ≡ last_of_first self.now.ended self.now.marks }
    {
        self.closed_mark
    }

    /// The same once one more sealed epoch has ended, 0 where there is none.
    pub fn mark_with(&self) -> u64
        ensures { result ≡ last_of_first (self.now.ended + 1) self.now.marks }
    {
        self.open_marks.front().copied().unwrap_or(0)
    }

    /// Puts a bundle from outside into its epoch and gives its number, unless too many bundles wait or are out.
    pub fn arrive(&mut self, bundle: Bundle) -> Result<u64, ArriveStop>
        requires { self.old.arrived < u64.MAX }
        ensures number { IfOk result (λ n. n ≡ self.old.arrived + 1) }
        ensures ok { OnOk result (Admits bundle self.old self.new) }
        ensures links { OnOk result (GivesPlace bundle.epoch self.old self.new) }
        ensures fewer { OnOk result (unfinished_of (conts_of self.old.containers) < self.old.pending) }
        ensures searches { self.new.searches ≡ self.old.searches }
        ensures err { IfErr result (λ e. IsRefused self.old bundle e) }
        ensures same { OnErr result (IsUnchanged self.old self.new) }
    {
        if self.unfinished >= self.pending as usize {
            return Err(ArriveStop::Full(bundle));
        }
        match self.put(bundle) {
            Ok(number) => Ok(number),
            Err(NoMemoryWith(bundle)) => Err(ArriveStop::Memory(bundle)),
        }
    }

    /// Puts a bundle from the lane above into its epoch, however many wait, and gives its number. It looks for the
    /// container.
    pub fn deliver(&mut self, bundle: Bundle) -> Result<u64, NoMemoryWith>
        requires { self.old.arrived < u64.MAX }
        ensures number { IfOk result (λ n. n ≡ self.old.arrived + 1) }
        ensures ok { OnOk result (Admits bundle self.old self.new) }
        ensures links { OnOk result (GivesPlace bundle.epoch self.old self.new) }
        ensures searches { OnOk result (self.new.searches ≡ one_search_more self.old.searches) }
        ensures err { IfErr result (λ e. e.0 ≡ bundle) }
        ensures same { OnErr result (IsUnchanged self.old self.new) }
    {
        let number = self.put(bundle)?;
        self.searches = self.searches.saturating_add(1);
        Ok(number)
    }

    // Puts a bundle into its epoch. The search for it is not counted.
    fn put(&mut self, bundle: Bundle) -> Result<u64, NoMemoryWith>
        requires { self.old.arrived < u64.MAX }
        ensures number { IfOk result (λ n. n ≡ self.old.arrived + 1) }
        ensures ok { OnOk result (Admits bundle self.old self.new) }
        ensures links { OnOk result (GivesPlace bundle.epoch self.old self.new) }
        ensures searches { self.new.searches ≡ self.old.searches }
        ensures err { IfErr result (λ e. e.0 ≡ bundle) }
        ensures same { OnErr result (IsUnchanged self.old self.new) }
    {
        let was = bundle.number;
        let number = self.arrived + 1;
        match put_at(
            &mut self.containers,
            self.alloc,
            Bundle { number, ..bundle },
        ) {
            Ok(()) => {
                self.arrived = number;
                self.unfinished += 1;
                Ok(number)
            }
            Err(back) => Err(NoMemoryWith(Bundle {
                number: was,
                ..back
            })),
        }
    }

    /// The place of the container of an epoch, which is made where it is not there. It has room for one bundle more.
    pub fn place(&mut self, epoch: u64, floor: u64) -> Result<u64, NoMemory>
        ensures ok { OnOk result
            (HasContainers (in_epoch epoch floor (λ c. c) (conts_of self.old.containers)) self.old self.new) }
        ensures place { IfOk result (λ p. StandsWithRoom epoch p self.new.containers) }
        ensures links { OnOk result (GivesPlace epoch self.old self.new) }
        ensures searches { OnOk result (self.new.searches ≡ one_search_more self.old.searches) }
        ensures same { OnErr result (IsUnchanged self.old self.new) }
    {
        match place_at(&mut self.containers, self.alloc, epoch, floor) {
            Ok(place) => {
                self.searches = self.searches.saturating_add(1);
                Ok(place as u64)
            }
            Err(NoMemory) => Err(NoMemory),
        }
    }

    /// Puts a bundle into the container of its epoch, which stands at this place, and gives its number. It looks for
    /// nothing, and does not fail where the container has room.
    pub fn deliver_at(&mut self, place: u64, bundle: Bundle) -> Result<u64, NoMemoryWith>
        requires numbers { self.old.arrived < u64.MAX }
        requires here { StandsAt bundle.epoch place self.old.containers }
        ensures number { IfOk result (λ n. n ≡ self.old.arrived + 1) }
        ensures ok { OnOk result ((bound : ℕ) → IsLane bound (lane_of self.old) → Admits bundle self.old self.new) }
        ensures links { links_of self.new.containers ≡ links_of self.old.containers }
        ensures searches { self.new.searches ≡ self.old.searches }
        ensures succeeds { 1 ≤ room_in bundle.epoch self.old.containers → IsOk result }
        ensures err { IfErr result (λ e. e.0 ≡ bundle) }
        ensures same { OnErr result (IsUnchanged self.old self.new) }
    {
        let was = bundle.number;
        let number = self.arrived + 1;
        match put_in_place(
            &mut self.containers,
            place as usize,
            Bundle { number, ..bundle },
        ) {
            Ok(()) => {
                self.arrived = number;
                self.unfinished += 1;
                Ok(number)
            }
            Err(back) => Err(NoMemoryWith(Bundle {
                number: was,
                ..back
            })),
        }
    }

    /// Links the container of an epoch, where it is there, to the place below that takes its output.
    pub fn link(&mut self, epoch: u64, down: u64)
        ensures lane { Becomes (lane_of self.old) self.old self.new }
        ensures links { links_of self.new.containers ≡ with_link epoch down (links_of self.old.containers) }
        ensures searches { self.new.searches ≡ self.old.searches }
    {
        link_in_epoch(&mut self.containers, epoch, down);
    }

    /// The place below that the container of an epoch is linked to.
    pub fn down_of(&self, epoch: u64) -> Option<u64>
        ensures { result ≡ down_of epoch (links_of self.now.containers) }
    {
        down_in(&self.containers, epoch)
    }

    /// Seals the next epoch with a watermark. Its container is made where it is not there.
    pub fn seal(&mut self, mark: u64) -> Result<(), NoMemory>
        ensures ok { OnOk result (Seals mark self.old self.new) }
        ensures links { OnOk result (GivesPlace (length self.old.marks) self.old self.new) }
        ensures searches { self.new.searches ≡ self.old.searches }
        ensures err { OnErr result (IsUnchanged self.old self.new) }
    {
        if self.sealed == u64::MAX {
            return Err(NoMemory);
        }
        self.open_marks.reserve(1)?;
        seal_at(
            &mut self.containers,
            self.alloc,
            self.sealed,
            self.last_mark,
            mark,
        )?;
        self.open_marks.push_back_reserved(mark);
        self.marks = self.marks.with(mark);
        self.last_mark = mark;
        self.sealed += 1;
        Ok(())
    }

    /// Takes the first waiting bundle of the oldest container that has one. It takes no memory.
    pub fn take(&mut self) -> Option<Bundle>
        ensures taken { IfSome result (λ b.
            take_first (conts_of self.old.containers) ≡ Some (b, conts_of self.new.containers)) }
        ensures rest { IfSome result (λ b. HasContainers (conts_of self.new.containers) self.old self.new) }
        ensures links { links_of self.new.containers ≡ links_of self.old.containers }
        ensures searches { self.new.searches ≡ self.old.searches }
        ensures none { IfNone result (take_first (conts_of self.old.containers) ≡ None) }
        ensures same { IfNone result (IsUnchanged self.old self.new) }
    {
        take_oldest(&mut self.containers)
    }

    /// The bundle of a number is no longer out of the container of an epoch.
    pub fn finish(&mut self, epoch: u64, number: u64)
        ensures first { HasContainers
            (finish_first epoch number (conts_of self.old.containers)) self.old self.new }
        ensures links { links_of self.new.containers ≡ links_of self.old.containers }
        ensures searches { self.new.searches ≡ self.old.searches }
    {
        let gone = finish_at(&mut self.containers, epoch, number);
        self.unfinished -= gone;
    }

    /// The answer that [`begin`](Self::begin) would give.
    pub fn look(&self) -> Result<LaneClose, NotYet>
        ensures { result ≡ look_of (conts_of self.now.containers) }
    {
        look_at(&self.containers)
    }

    /// The oldest container begins to close, where it can: it is sealed, and none of its bundles waits or is out.
    pub fn begin(&mut self) -> Result<LaneClose, NotYet>
        ensures answer { result ≡ look_of (conts_of self.old.containers) }
        ensures ok { OnOk result
            (HasContainers (with_first_closing (conts_of self.old.containers)) self.old self.new) }
        ensures links { links_of self.new.containers ≡ links_of self.old.containers }
        ensures searches { self.new.searches ≡ self.old.searches }
        ensures err { OnErr result (IsUnchanged self.old self.new) }
    {
        let close = look_at(&self.containers)?;
        close_first(&mut self.containers);
        Ok(close)
    }

    /// The oldest container, which is closing, is gone, and its link with it.
    pub fn end(&mut self)
        requires closing { first_is_closing (conts_of self.old.containers) ≡ true }
        requires sealed { self.old.ended < length self.old.marks }
        ensures lane { EndsOldest self.old self.new }
        ensures links { links_of self.new.containers ≡ drop 1 (links_of self.old.containers) }
        ensures searches { self.new.searches ≡ self.old.searches }
    {
        let closed_mark = self.mark_with();
        self.unfinished -= self.containers.end();
        let _ended = self.open_marks.pop_front();
        self.closed_mark = closed_mark;
        self.ended += 1;
    }
}
