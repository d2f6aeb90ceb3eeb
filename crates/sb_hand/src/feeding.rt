//! What the feeder brings: bundles and watermarks of a stream.

ghost use Rattle.std.specs.Prelude.{◌≡◌, ◌<◌, ◌+◌, [], ◌∷◌, length, OnOk, OnErr, IfOk, IfErr};
ghost use Rattle.sb_shown.specs.core.declared.event.Event.TheVariants as event;
ghost use Rattle.sb_shown.specs.core.containers.Lanes.{next_epoch, with_seal};
ghost use Rattle.sb_shown.specs.diary.declared.event.DiaryEvent.TheVariants as line;
ghost use Rattle.sb_shown.specs.lane.LaneView.{LaneView, lane_of};
ghost use Rattle.sb_shown.specs.lane.Placed.{conts_of};
ghost use Rattle.sb_shown.specs.lane.Unfinished.{unfinished_of};
ghost use Rattle.sb_shown.specs.base.pipeline.Plans.{IsPlan};
ghost use Rattle.sb_hand.specs.Feeding.{ArrivesIn, ComesBack, IsTurnedBack, MayArrive, MaySeal, TakesStream};
ghost use Rattle.sb_shown.specs.node.LinkChanges.{GetsPlace, LinksStay};
ghost use Rattle.sb_hand.specs.LaneGoing.{LaneGoes};
ghost use Rattle.sb_shown.specs.Linking.{AreLinked};
ghost use Rattle.sb_shown.specs.Searching.{SearchesStay};
ghost use Rattle.sb_shown.specs.Sets.{HasLane, StaysAt, Turns};
ghost use Rattle.sb_shown.specs.Showing.{CanStand, Does, settings_of};

use sb_shown::{ArriveStop, Bundle, Down, NoMemory, NodeState, Plan, Stream};

/// Puts a bundle into a lane, if fewer than the lane's limit are waiting or out.
fn arrive_in(nodes: &mut Vec<NodeState>, place: Down, bundle: Bundle) -> Result<u64, ArriveStop>
    requires { (at : LaneView) × HasLane place.node place.lane at nodes.old.items }
    ensures ok { IfOk result (λ n. (at : LaneView) → HasLane place.node place.lane at nodes.old.items
        → ArrivesIn place.node place.lane nodes.old.items nodes.new.items at bundle n) }
    ensures err { IfErr result (λ e. (at : LaneView) → HasLane place.node place.lane at nodes.old.items
        → ComesBack place.node place.lane nodes.old.items nodes.new.items at bundle e) }
    ensures links { OnOk result
        (LaneGoes place.node place.lane (GetsPlace bundle.epoch) nodes.old.items nodes.new.items) }
    ensures stays { OnErr result (LaneGoes place.node place.lane LinksStay nodes.old.items nodes.new.items) }
{
    let own = &mut nodes[place.node as usize];
    match own.diary.reserve(1) {
        Ok(()) => own.arrive(place.lane, bundle),
        Err(NoMemory) => Err(ArriveStop::Memory(bundle)),
    }
}

/// A bundle of a stream arrives.
pub(crate) fn arrive(
    plan: &Plan,
    size: u32,
    nodes: &mut Vec<NodeState>,
    stream: Stream,
    bundle: Bundle,
) -> Result<u64, ArriveStop>
    requires plan { IsPlan plan.now }
    requires may { MayArrive plan.now size stream bundle nodes.old.items }
    ensures number { IfOk result (λ n. (into : TakesStream plan.now stream nodes.old.items)
        → n ≡ into.lane.arrived + 1) }
    ensures fewer { OnOk result ((into : TakesStream plan.now stream nodes.old.items)
        → unfinished_of (conts_of into.lane.containers) < into.lane.pending) }
    ensures arrives { OnOk result (Does plan.now size (event.Arrive stream bundle.records ∷ [])
        nodes.old.items [] nodes.new.items [] []) }
    ensures settings { settings_of nodes.new.items ≡ settings_of nodes.old.items }
    ensures back { IfErr result (λ e. IsTurnedBack plan.now stream nodes.old.items bundle e) }
    ensures same { OnErr result (Does plan.now size [] nodes.old.items [] nodes.new.items [] []) }
    ensures can { CanStand plan.now size nodes.old.items [] → CanStand plan.now size nodes.new.items [] }
    ensures links { CanStand plan.now size nodes.old.items [] → AreLinked plan.now nodes.old.items
        → AreLinked plan.now nodes.new.items }
    ensures searches { SearchesStay nodes.old.items nodes.new.items }
{
    // For the proof: clauses alone speak of the size.
    let _ = size;
    match plan.source(stream) {
        Some(place) => arrive_in(nodes, place, bundle),
        None => Err(ArriveStop::Memory(bundle)),
    }
}

/// Seals the next epoch of a lane.
fn seal_in(nodes: &mut Vec<NodeState>, place: Down, mark: u64) -> Result<(), NoMemory>
    requires { (at : LaneView) × HasLane place.node place.lane at nodes.old.items }
    ensures ok { OnOk result ((at : LaneView) → HasLane place.node place.lane at nodes.old.items
        → Turns place.node place.lane nodes.old.items nodes.new.items at (with_seal mark (lane_of at))
        (line.Seal place.lane (next_epoch (lane_of at)) mark)) }
    ensures err { OnErr result ((at : LaneView) → HasLane place.node place.lane at nodes.old.items
        → StaysAt place.node place.lane nodes.old.items nodes.new.items at) }
    ensures links { OnOk result (LaneGoes place.node place.lane (λ was. GetsPlace (length was.marks) was)
        nodes.old.items nodes.new.items) }
    ensures stays { OnErr result (LaneGoes place.node place.lane LinksStay nodes.old.items nodes.new.items) }
{
    let own = &mut nodes[place.node as usize];
    own.diary.reserve(1)?;
    own.seal(place.lane, mark)
}

/// A watermark of a stream seals the next epoch of its lane.
pub(crate) fn seal(
    plan: &Plan,
    size: u32,
    nodes: &mut Vec<NodeState>,
    stream: Stream,
    mark: u64,
) -> Result<(), NoMemory>
    requires plan { IsPlan plan.now }
    requires may { MaySeal plan.now stream mark nodes.old.items }
    ensures seals { OnOk result (Does plan.now size (event.Seal stream mark ∷ [])
        nodes.old.items [] nodes.new.items [] []) }
    ensures settings { settings_of nodes.new.items ≡ settings_of nodes.old.items }
    ensures same { OnErr result (Does plan.now size [] nodes.old.items [] nodes.new.items [] []) }
    ensures can { CanStand plan.now size nodes.old.items [] → CanStand plan.now size nodes.new.items [] }
    ensures links { CanStand plan.now size nodes.old.items [] → AreLinked plan.now nodes.old.items
        → AreLinked plan.now nodes.new.items }
    ensures searches { SearchesStay nodes.old.items nodes.new.items }
{
    // For the proof: clauses alone speak of the size.
    let _ = size;
    match plan.source(stream) {
        Some(place) => seal_in(nodes, place, mark),
        None => Err(NoMemory),
    }
}
