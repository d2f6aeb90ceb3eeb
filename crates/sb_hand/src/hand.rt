//! The cascade in one hand.

ghost use Rattle.std.specs.Prelude.{◌≡◌, ◌≤◌, ◌<◌, ◌+◌, ◌↔◌, IsTrue, true, false, [], ◌∷◌, length, slice_get, Some};
ghost use Rattle.std.specs.Prelude.{IfOk, IfErr, OnOk, OnErr};
ghost use Rattle.std.specs.Option.{option_map};
ghost use Rattle.sb_shown.specs.core.declared.event.Event.TheVariants as event;
ghost use Rattle.sb_shown.specs.lane.LaneView.{LaneView};
ghost use Rattle.sb_shown.specs.lane.Placed.{conts_of};
ghost use Rattle.sb_shown.specs.lane.Unfinished.{unfinished_of};
ghost use Rattle.sb_hand.specs.Feeding.{IsTurnedBack, MayArrive, MaySeal, TakesStream};
ghost use Rattle.sb_hand.specs.Hands.{IsNewHand, KeepsAllButNodes, NoneLeft};
ghost use Rattle.sb_hand.specs.HandParts.{IsMadeOf};
ghost use Rattle.sb_shown.specs.Linking.{AreLinked};
ghost use Rattle.sb_shown.specs.Searching.{SearchesFew, SearchesStay};
ghost use Rattle.sb_shown.specs.Sets.{HasLane};
ghost use Rattle.sb_shown.specs.Showing.{CanStand, Does, settings_of};
ghost use Rattle.sb_hand.specs.Stepping.{Steps};

use crate::did::Did;
use crate::feeding;
use crate::making::new_nodes;
use crate::settling::is_none_left;
use crate::steps::step_node;
use sb_shown::{ArriveStop, Bundle, Diary, MAX_BUNDLE, NoMemory, NodeState, Plan, Record, Stream};
use std::alloc::Global;
use std::marker::Model;

/// The most bundles of a stream that may be waiting or out.
pub const MAX_PENDING: u32 = 1_024;

/// The cascade in one hand: a plan, its nodes, and the rows that were not drained.
///
/// A hand is spent once a step has found no memory: then each later call that can answer want of memory answers it.
#[derive(Drop)]
pub struct Hand {
    alloc: Global,
    plan: Plan,
    bundle: u32,
    pending: u32,
    nodes: Vec<NodeState>,
    tray: Vec<Record>,
    spent: bool,
}

impl Model for Hand {
    ghost use Rattle.std.specs.Prelude.{◌≡◌, false, []};
    ghost use Rattle.sb_hand.specs.Hands.{HandView};
    ghost use Rattle.sb_shown.specs.Linking.{AreLinked};
    ghost use Rattle.sb_shown.specs.Showing.{CanStand};
    ghost use Rattle.std.specs.Coded.{codes};
    ghost use Rattle.sb_shown.specs.base.pipeline.contracts.transform.Step as step;
    ghost use Rattle.sb_shown.specs.node.contracts.state.NodeState as state;

    ghost Value = { HandView };

    ghost coded = { Prim.hlevel (codes, step.the_row.coded, state.the_row.coded) };

    ghost view = { λ h. record {
      plan = h.plan;
      bundle = h.bundle;
      pending = h.pending;
      nodes = h.nodes.items;
      tray = h.tray.items;
      spent = h.spent;
    } };

    ghost invariant = { λ h. h.spent ≡ false
        → CanStand h.plan h.bundle h.nodes.items [] × AreLinked h.plan h.nodes.items };
}

/// What a hand is made of, for those who share it among workers.
#[derive(Drop)]
pub struct HandParts {
    /// The plan.
    pub plan: Plan,
    /// The most records of a bundle.
    pub bundle: u32,
    /// The most bundles of a stream that may be waiting or out.
    pub pending: u32,
    /// The transforms, and the sink.
    pub nodes: Vec<NodeState>,
    /// The rows that were not drained.
    pub tray: Vec<Record>,
    /// Whether a node's content is unknown.
    pub spent: bool,
}

impl Hand {
    /// A hand of the nodes of a plan, in which nothing has arrived. A bundle has at most `bundle` records, 1 to
    /// [`MAX_BUNDLE`]. A stream's lane refuses arrivals while `pending` bundles, 1 to [`MAX_PENDING`], wait or are out.
    /// Diaries keep their lines in memory if `keeps` says so.
    ///
    /// # Errors
    ///
    /// [`NoMemory`].
    pub fn new(
        alloc: Global,
        plan: Plan,
        bundle: u32,
        pending: u32,
        keeps: bool,
    ) -> Result<Hand, NoMemory>
        requires bundle { (1 ≤ bundle) × (bundle ≤ MAX_BUNDLE) }
        requires pending { (1 ≤ pending) × (pending ≤ MAX_PENDING) }
        ensures { IfOk result (λ h. IsNewHand plan bundle pending keeps h) }
    {
        // For the proof: a plan keeps its rules.
        let _ = plan.transforms();
        let nodes = new_nodes(alloc, &plan, pending, keeps)?;
        Ok(Hand {
            alloc,
            plan,
            bundle,
            pending,
            nodes,
            tray: Vec::new(alloc),
            spent: false,
        })
    }

    /// The plan.
    pub fn plan(&self) -> &Plan
        ensures { result.now ≡ self.now.plan }
    {
        &self.plan
    }

    /// The most records of a bundle.
    pub fn bundle(&self) -> u32
        ensures { result ≡ self.now.bundle }
    {
        self.bundle
    }

    /// Puts a bundle of a stream into the stream's lane, and gives the number that it has there.
    ///
    /// # Errors
    ///
    /// The bundle comes back: [`ArriveStop::Full`] only where as many bundles as the limit are waiting or out in the
    /// lane, and [`ArriveStop::Memory`] if no memory was found. A bundle is never taken where so many are. The hand
    /// shows what it did.
    pub fn arrive(&mut self, stream: Stream, bundle: Bundle) -> Result<u64, ArriveStop>
        requires { self.old.spent ≡ false → MayArrive self.old.plan self.old.bundle stream bundle self.old.nodes }
        ensures was { OnOk result (self.old.spent ≡ false) }
        ensures number { IfOk result (λ n. (into : TakesStream self.old.plan stream self.old.nodes)
            → n ≡ into.lane.arrived + 1) }
        ensures fewer { OnOk result ((into : TakesStream self.old.plan stream self.old.nodes)
            → unfinished_of (conts_of into.lane.containers) < into.lane.pending) }
        ensures arrives { OnOk result (Does self.old.plan self.old.bundle (event.Arrive stream bundle.records ∷ [])
            self.old.nodes [] self.new.nodes [] []) }
        ensures settings { settings_of self.new.nodes ≡ settings_of self.old.nodes }
        ensures rest { KeepsAllButNodes self.old self.new }
        ensures back { IfErr result (λ e. IsTurnedBack self.old.plan stream self.old.nodes bundle e) }
        ensures same { OnErr result (Does self.old.plan self.old.bundle [] self.old.nodes [] self.new.nodes [] []) }
        ensures searches { SearchesStay self.old.nodes self.new.nodes }
    {
        if self.spent {
            return Err(ArriveStop::Memory(bundle));
        }
        // For the proof: a plan keeps its rules.
        let _ = self.plan.transforms();
        feeding::arrive(&self.plan, self.bundle, &mut self.nodes, stream, bundle)
    }

    /// Seals the next epoch of a stream's lane with a watermark.
    ///
    /// # Errors
    ///
    /// [`NoMemory`]; then the hand shows what it did.
    pub fn seal(&mut self, stream: Stream, mark: u64) -> Result<(), NoMemory>
        requires { self.old.spent ≡ false → MaySeal self.old.plan stream mark self.old.nodes }
        ensures was { OnOk result (self.old.spent ≡ false) }
        ensures seals { OnOk result (Does self.old.plan self.old.bundle (event.Seal stream mark ∷ [])
            self.old.nodes [] self.new.nodes [] []) }
        ensures settings { settings_of self.new.nodes ≡ settings_of self.old.nodes }
        ensures rest { KeepsAllButNodes self.old self.new }
        ensures same { OnErr result (Does self.old.plan self.old.bundle [] self.old.nodes [] self.new.nodes [] []) }
        ensures searches { SearchesStay self.old.nodes self.new.nodes }
    {
        if self.spent {
            return Err(NoMemory);
        }
        // For the proof: a plan keeps its rules.
        let _ = self.plan.transforms();
        feeding::seal(&self.plan, self.bundle, &mut self.nodes, stream, mark)
    }

    /// Works off one bundle of a node: it is taken, processed, delivered and finished. Or, if none waits, makes one
    /// whole closing of the node. To step a hand until nothing is left means to do this for each node in order, from
    /// the first transform to the sink, until it answers [`Did::Nothing`]: what a node gives goes to later nodes alone.
    ///
    /// # Errors
    ///
    /// [`NoMemory`]; then the hand is spent.
    pub fn step(&mut self, node: u32) -> Result<Did, NoMemory>
        requires { node ≤ length self.old.plan.steps }
        ensures steps { IfOk result (λ did. Steps self.old.plan self.old.bundle node self.old.nodes self.old.tray
            self.new.nodes self.new.tray did) }
        ensures was { OnOk result (self.old.spent ≡ false) }
        ensures is { OnOk result (self.new.spent ≡ false) }
        ensures settings { OnOk result (settings_of self.new.nodes ≡ settings_of self.old.nodes) }
        ensures plan { self.new.plan ≡ self.old.plan }
        ensures bundle { self.new.bundle ≡ self.old.bundle }
        ensures pending { self.new.pending ≡ self.old.pending }
        ensures searches { OnOk result (SearchesFew self.old.nodes self.new.nodes) }
        ensures spent { OnErr result (self.new.spent ≡ true) }
    {
        if self.spent {
            return Err(NoMemory);
        }
        // For the proof: a plan keeps its rules.
        let _ = self.plan.transforms();
        self.spent = true;
        let did = step_node(
            self.alloc,
            &self.plan,
            self.bundle,
            &mut self.nodes,
            &mut self.tray,
            node,
        )?;
        self.spent = false;
        Ok(did)
    }

    /// Takes the rows that the sink has given since the last drain. It takes no memory.
    pub fn drain(&mut self) -> Vec<Record>
        ensures rows { result.items ≡ self.old.tray }
        ensures rest { self.new ≡ record self.old { tray = [] } }
    {
        std::mem::replace(&mut self.tray, Vec::new(self.alloc))
    }

    /// The diary of a transform or of the sink.
    pub fn diary(&self, node: u32) -> &Diary
        requires node { node ≤ length self.now.plan.steps }
        requires unspent { self.now.spent ≡ false }
        ensures { option_map (λ n. n.diary) (slice_get self.now.nodes node) ≡ Some result.now }
    {
        &self.nodes[node as usize].diary
    }

    /// Whether no lane of any node has a container.
    pub fn is_settled(&self) -> bool
        ensures { IsTrue result ↔ NoneLeft self.now.nodes }
    {
        is_none_left(self.nodes.as_slice())
    }

    /// How often a lane of a transform or of the sink has looked for the container of an epoch. The count stays at its
    /// greatest value. A call raises it by at most as much as it raises the number of the lane's watermarks and of its
    /// containers that are not sealed, together.
    pub fn searches(&self, node: u32, lane: u32) -> u64
        requires { (at : LaneView) × HasLane node lane at self.now.nodes }
        ensures { (at : LaneView) → HasLane node lane at self.now.nodes → result ≡ at.searches }
    {
        self.nodes[node as usize].lanes[lane as usize].searches()
    }

    /// Takes a hand apart. It takes no memory.
    pub fn into_parts(self) -> HandParts
        ensures { IsMadeOf result self }
    {
        let Hand {
            alloc: _,
            plan,
            bundle,
            pending,
            nodes,
            tray,
            spent,
        } = self;
        HandParts {
            plan,
            bundle,
            pending,
            nodes,
            tray,
            spent,
        }
    }

    /// A hand of these parts. It takes no memory.
    pub fn from_parts(alloc: Global, parts: HandParts) -> Hand
        requires can { parts.spent ≡ false → CanStand parts.plan parts.bundle parts.nodes.items [] }
        requires linked { parts.spent ≡ false → AreLinked parts.plan parts.nodes.items }
        ensures { IsMadeOf parts result }
    {
        let HandParts {
            plan,
            bundle,
            pending,
            nodes,
            tray,
            spent,
        } = parts;
        Hand {
            alloc,
            plan,
            bundle,
            pending,
            nodes,
            tray,
            spent,
        }
    }
}
