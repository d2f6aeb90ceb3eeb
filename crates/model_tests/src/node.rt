//! A node by example: events come, and its diary tells them.

ghost use Rattle.std.specs.Prelude.{◌≡◌, ◌≤◌, [], ◌∷◌, IfOk, IsTrue, OnOk, length, slice_get};
ghost use Rattle.sb_hand.specs.node.Keeping.{IsMadeFor, closed_mark};
ghost use Rattle.sb_hand.specs.lane.LaneView.{LaneView, empty_lane};
ghost use Rattle.sb_hand.specs.node.Changes.{HasLane};
ghost use Rattle.sb_hand.specs.base.pipeline.Operators.{operator_at};

use sb_base::{Bundle, END_MARK, Key, NoMemory, Plan, Record, Sequence, sum_plan};
use sb_hand::{
    ArriveStop, Claim, Closing, Diary, DiaryEvent, Kept, Lane, NodeState, NotYet, Output, process,
};
use std::alloc::Global;
use std::test::Fail;

/// A call on the only lane of a node. A bundle is given by its epoch, and has no records.
#[derive(Clone, Copy, Debug)]
enum Call {
    Arrive(u64),
    Take,
    Finish(u64, u64, u64),
    Seal(u64),
    Link(u64, u64),
    Below(u64),
    Begin,
    End(u64),
}

/// What a call answers: a number, the epoch and the number of a bundle, the serial, floor and mark of a closing, and
/// so on.
#[derive(Clone, Copy, Debug, PartialEq, Eq)]
enum Answer {
    Done,
    Refused,
    Full,
    Number(u64),
    Took(u64, u64),
    Place(Option<u64>),
    Closes(u64, u64, u64),
}

use Answer::{Closes, Done, Full, Number, Place, Refused, Took};
use Call::{Arrive, Begin, Below, End, Finish, Link, Seal, Take};

/// A node that keeps so, with one lane in which nothing has arrived. At most one bundle from outside is unfinished.
fn new_node(alloc: Global, kept: Kept) -> Result<NodeState, NoMemory>
    ensures lanes { IfOk result (λ node. node.lanes.items ≡ empty_lane 1 ∷ []) }
    ensures kept { IfOk result (λ node. node.kept ≡ kept) }
{
    Ok(NodeState {
        lanes: vec![in alloc; Lane::new(alloc, 1)]?,
        kept,
        closings: 0,
        diary: Diary::new(alloc, 1, true),
    })
}

fn bundle(alloc: Global, epoch: u64) -> Bundle {
    Bundle {
        number: 0,
        epoch,
        floor: 0,
        records: Sequence::new(Vec::new(alloc)),
    }
}

/// Whether the node has one lane.
fn has_one_lane(node: &NodeState) -> bool
    ensures { IsTrue result → (at : LaneView) × HasLane 0 at node.now }
{
    match node.lanes.as_slice() {
        [_] => true,
        _ => false,
    }
}

fn arrive(node: &mut NodeState, bundle: Bundle) -> Result<Answer, NoMemory> {
    node.diary.reserve(1)?;
    if !has_one_lane(node) {
        return Ok(Refused);
    }
    match node.arrive(0, bundle) {
        Ok(number) => Ok(Number(number)),
        Err(ArriveStop::Full(_)) => Ok(Full),
        Err(ArriveStop::Memory(_)) => Err(NoMemory),
    }
}

fn take(node: &mut NodeState) -> Result<Answer, NoMemory> {
    node.diary.reserve(1)?;
    match node.lanes.as_slice() {
        [own] if own.waits() => (),
        _ => return Ok(Refused),
    }
    let taken = node.take(0);
    Ok(Took(taken.epoch, taken.number))
}

/// The closing that begins, if one may. The node is closed up to a mark or less.
fn begin(node: &mut NodeState, from: u64) -> Result<Option<Closing>, NoMemory>
    requires { closed_mark node.old.kept ≤ from }
{
    node.diary.reserve(1)?;
    let close = match node.lanes.as_slice() {
        [own] if from <= own.mark_with() => own.look(),
        _ => return Ok(None),
    };
    match close {
        Ok(close) if node.closings < u64::MAX => Ok(Some(node.begin(0, 0, close.epoch)?)),
        _ => Ok(None),
    }
}

/// The same of a node of single records.
fn begin_single(node: &mut NodeState) -> Result<Answer, NoMemory> {
    let from = match &node.kept {
        Kept::Nothing(_, closed) => *closed,
        _ => return Ok(Refused),
    };
    match begin(node, from)? {
        Some(closing) => Ok(Closes(closing.serial, closing.floor, closing.mark)),
        None => Ok(Refused),
    }
}

fn end(node: &mut NodeState, epoch: u64) -> Result<Answer, NoMemory> {
    node.diary.reserve(1)?;
    match node.lanes.as_slice() {
        [own] if own.ended_count() < own.next().0 => match own.look() {
            Err(NotYet::Closing { .. }) => (),
            _ => return Ok(Refused),
        },
        _ => return Ok(Refused),
    }
    node.end(0, epoch);
    Ok(Done)
}

/// Makes a call.
fn make(alloc: Global, node: &mut NodeState, call: Call) -> Result<Answer, NoMemory> {
    node.diary.reserve(1)?;
    if !has_one_lane(node) {
        return Ok(Refused);
    }
    match call {
        Arrive(epoch) => return arrive(node, bundle(alloc, epoch)),
        Take => return take(node),
        Finish(epoch, number, length) => node.finish(0, epoch, number, length),
        Seal(mark) => node.seal(0, mark)?,
        Link(epoch, place) => node.link(epoch, place),
        Below(epoch) => return Ok(Place(node.down(epoch))),
        Begin => return begin_single(node),
        End(epoch) => return end(node, epoch),
    }
    Ok(Done)
}

/// The first of the calls that answers otherwise.
fn wrong_call(
    alloc: Global,
    node: &mut NodeState,
    calls: &[(Call, Answer)],
) -> Result<Option<usize>, NoMemory> {
    for (at, (call, want)) in calls.iter().enumerate() {
        if make(alloc, node, *call)? != *want {
            return Ok(Some(at));
        }
    }
    Ok(None)
}

/// Calls on a new node of single records, and their answers.
const CALLS: [(Call, Answer); 15] = [
    (Take, Refused),
    (Arrive(0), Number(1)),
    (Arrive(0), Full),
    (Link(0, 7), Done),
    (Below(0), Place(Some(7))),
    (Take, Took(0, 1)),
    (Seal(10), Done),
    (Begin, Refused),
    (Finish(0, 1, 4), Done),
    (Begin, Closes(0, 0, 10)),
    (End(0), Done),
    (Below(0), Place(None)),
    (Seal(30), Done),
    (Begin, Closes(1, 10, 30)),
    (End(1), Done),
];

/// The diary of these calls.
#[rattlefmt::skip]
const TOLD: [DiaryEvent; 9] = [
    DiaryEvent::Arrive { lane: 0, epoch: 0, number: 1, length: 0 },
    DiaryEvent::Take { lane: 0, number: 1 },
    DiaryEvent::Seal { lane: 0, epoch: 0, mark: 10 },
    DiaryEvent::Finish { lane: 0, number: 1, length: 4 },
    DiaryEvent::Begin { lane: 0, epoch: 0, mark: 10, rows: 0 },
    DiaryEvent::End { lane: 0, epoch: 0 },
    DiaryEvent::Seal { lane: 0, epoch: 1, mark: 30 },
    DiaryEvent::Begin { lane: 0, epoch: 1, mark: 30, rows: 0 },
    DiaryEvent::End { lane: 0, epoch: 1 },
];

/// Whether the node has told these events.
fn has_told(node: &NodeState, events: &[DiaryEvent]) -> bool {
    node.diary.keeps() && node.diary.events() == events
}

#[test]
fn a_diary_tells_the_events(rt: HostRuntime) -> Result<(), Fail> {
    let alloc = rt.alloc();
    let mut node = new_node(alloc, Kept::Nothing(alloc, 0))?;
    let wrong = wrong_call(alloc, &mut node, &CALLS)?;
    assert!(rt; wrong == None, "call {wrong:?}");
    assert!(rt; node.closings == 2);
    assert!(rt; has_told(&node, &TOLD));
    Ok(())
}

/// A node that keeps so, whose next epoch is sealed.
fn sealed_node(alloc: Global, kept: Kept, mark: u64) -> Result<NodeState, NoMemory>
    ensures { IfOk result (λ node. node.kept ≡ kept) }
{
    let mut node = new_node(alloc, kept)?;
    node.diary.reserve(1)?;
    node.seal(0, mark)?;
    Ok(node)
}

/// Takes in what becomes of a bundle on the only lane, if its times are in range.
fn absorb(alloc: Global, plan: &Plan, node: &mut NodeState, claim: Claim) -> Result<(), NoMemory>
    requires node { claim.node ≤ length plan.now.steps }
    requires made { IsMadeFor (operator_at (slice_get plan.now.steps claim.node)) node.old.kept }
    requires closed { closed_mark node.old.kept ≡ 0 }
    ensures { OnOk result (closed_mark node.new.kept ≡ 0) }
{
    node.diary.reserve(1)?;
    let records = claim.bundle.records.as_slice();
    let is_in_time = records.iter().all(|r| r.time < END_MARK);
    if !has_one_lane(node) || !is_in_time || claim.lane != 0 {
        return Err(NoMemory);
    }
    let (claim, output) = process(alloc, plan, claim)?;
    match output {
        Output::Records(_) => Err(NoMemory),
        Output::Part(part) => node.absorb(0, claim.epoch(), claim.number(), part),
    }
}

/// A bundle of three records, in the hands of a worker at a node.
fn claim(alloc: Global) -> Result<Claim, NoMemory>
    ensures { IfOk result (λ claim. claim.node ≡ 0) }
{
    let mut records = Vec::new(alloc);
    for (time, value) in [(3, 5), (7, 2), (12, 4)] {
        let key = Key::Number(1);
        records.push(Record { time, key, value })?;
    }
    let records = Sequence::new(records);
    let bundle = Bundle {
        records,
        ..bundle(alloc, 0)
    };
    Ok(Claim {
        node: 0,
        lane: 0,
        bundle,
    })
}

/// Whether the closing is the first one, up to this mark, and gives this row alone.
fn gives(closing: &Closing, mark: u64, row: Record) -> bool {
    (closing.serial, closing.floor, closing.mark) == (0, 0, mark)
        && closing.rows.as_slice() == [row].as_slice()
}

#[test]
fn a_closing_gives_rows(rt: HostRuntime) -> Result<(), Fail> {
    let alloc = rt.alloc();
    let plan = sum_plan(alloc, 10)?;
    let claim = claim(alloc)?;
    let mut node = sealed_node(alloc, Kept::new(alloc, &plan, 0), 10)?;
    absorb(alloc, &plan, &mut node, claim)?;
    let closing = begin(&mut node, 0)?.ok_or("not closing")?;
    let row = Record {
        time: 9,
        key: Key::Number(1),
        value: 7,
    };
    assert!(rt; gives(&closing, 10, row));
    Ok(())
}
