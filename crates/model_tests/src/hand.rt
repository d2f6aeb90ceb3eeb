//! A hand by example: it is fed, stepped and drained.

ghost use Rattle.std.specs.Prelude.{◌≡◌, ◌≤◌, ◌+◌, [], Some, IfOk, OnOk, length};
ghost use Rattle.sb_hand.specs.core.declared.moment.Moment.{Moment};
ghost use Rattle.sb_hand.specs.core.Moments.{epoch_at, floor_at};
ghost use Rattle.sb_hand.specs.base.pipeline.declared.transform.Down.{Down as ADown};
ghost use Rattle.sb_hand.specs.base.pipeline.Shapes.{source};
ghost use Rattle.sb_hand.specs.base.records.declared.item.Stream.TheVariants as stream;
ghost use Rattle.sb_hand.specs.Hands.{Shows};

use crate::plans::expanded;
use sb_base::{
    Agg, Bundle, END_MARK, Key, MAX_BUNDLE, MAX_TIME, NoMemory, Plan, Record, Sequence, Stream,
    sum_plan,
};
use sb_hand::{ArriveStop, Did, Hand, MAX_PENDING};
use std::alloc::Global;
use std::test::Fail;

/// A hand of a plan that reads stream a.
fn new_hand(alloc: Global, plan: Plan, bundle: u32, pending: u32) -> Result<Hand, Fail>
    requires bundle { (1 ≤ bundle) × (bundle ≤ MAX_BUNDLE) }
    requires pending { (1 ≤ pending) × (pending ≤ MAX_PENDING) }
    ensures { IfOk result (λ h. (m : Moment) × Shows h [] m
        × (d : ADown) × (source h.plan stream.A ≡ Some d) × (epoch_at m d ≡ 0) × (floor_at m d ≡ 0)) }
{
    match plan.source(Stream::A) {
        Some(_) => Ok(Hand::new(alloc, plan, bundle, pending, true)?),
        None => Err("no stream".into()),
    }
}

/// A record of stream a arrives, alone in its bundle, in the epoch that is next and has this floor.
fn arrive(
    alloc: Global,
    hand: &mut Hand,
    epoch: u64,
    floor: u64,
    time: u64,
    value: i64,
) -> Result<(), &'static str>
    requires next { (m : Moment) × Shows hand.old [] m
        × (d : ADown) × (source hand.old.plan stream.A ≡ Some d) × (epoch_at m d ≡ epoch) × (floor_at m d ≡ floor) }
    requires time { (floor ≤ time) × (time ≤ MAX_TIME) }
    ensures { OnOk result ((m : Moment) × Shows hand.new [] m
        × (d : ADown) × (source hand.new.plan stream.A ≡ Some d) × (epoch_at m d ≡ epoch) × (floor_at m d ≡ floor)) }
{
    let key = Key::Number(1);
    let Ok(records) = vec![in alloc; Record { time, key, value }] else {
        return Err("out of memory");
    };
    let bundle = Bundle {
        number: 0,
        epoch,
        floor,
        records: Sequence::new(records),
    };
    match hand.arrive(Stream::A, bundle) {
        Ok(_) => Ok(()),
        Err(ArriveStop::Full(_)) => Err("full"),
        Err(ArriveStop::Memory(_)) => Err("out of memory"),
    }
}

/// A watermark of stream a seals the epoch that is next and has this floor.
fn seal(hand: &mut Hand, epoch: u64, floor: u64, mark: u64) -> Result<(), &'static str>
    requires next { (m : Moment) × Shows hand.old [] m
        × (d : ADown) × (source hand.old.plan stream.A ≡ Some d) × (epoch_at m d ≡ epoch) × (floor_at m d ≡ floor) }
    requires mark { (floor ≤ mark) × (mark ≤ END_MARK) }
    ensures { OnOk result ((m : Moment) × Shows hand.new [] m
        × (d : ADown) × (source hand.new.plan stream.A ≡ Some d) × (epoch_at m d ≡ epoch + 1) × (floor_at m d ≡ mark)) }
{
    let _ = epoch;
    let _ = floor;
    match hand.seal(Stream::A, mark) {
        Ok(()) => Ok(()),
        Err(NoMemory) => Err("out of memory"),
    }
}

/// Stream a brings two records, the watermark 10, a record, and its end.
fn feed(alloc: Global, hand: &mut Hand) -> Result<(), &'static str>
    requires { (m : Moment) × Shows hand.old [] m
        × (d : ADown) × (source hand.old.plan stream.A ≡ Some d) × (epoch_at m d ≡ 0) × (floor_at m d ≡ 0) }
    ensures { OnOk result ((m : Moment) × Shows hand.new [] m) }
{
    arrive(alloc, hand, 0, 0, 3, 5)?;
    arrive(alloc, hand, 0, 0, 7, 2)?;
    seal(hand, 0, 0, 10)?;
    arrive(alloc, hand, 1, 10, 12, 4)?;
    seal(hand, 1, 10, END_MARK)
}

/// Steps a node until nothing is left to do there.
fn settle_node(hand: &mut Hand, node: u32) -> Result<(), Fail>
    requires node { node ≤ length hand.old.plan.steps }
    requires stands { (m : Moment) × Shows hand.old [] m }
    ensures plan { hand.new.plan ≡ hand.old.plan }
    ensures stands { OnOk result ((m : Moment) × Shows hand.new [] m) }
{
    for _step in 0..100_u32 {
        if hand.step(node)? == Did::Nothing {
            return Ok(());
        }
    }
    Err("no end".into())
}

/// Steps each node, in order, until nothing is left to do.
fn settle(hand: &mut Hand) -> Result<(), Fail>
    requires { (m : Moment) × Shows hand.old [] m }
    ensures { OnOk result ((m : Moment) × Shows hand.new [] m) }
{
    let sink = hand.plan().transforms();
    'nodes: for node in 0..=sink {
        settle_node(hand, node)?;
    }
    Ok(())
}

/// How often the first lane of a node has looked for a container.
fn searches(hand: &Hand, node: u32) -> Result<u64, Fail>
    requires { (m : Moment) × Shows hand.now [] m }
{
    if node > hand.plan().transforms() {
        return Err("no node".into());
    }
    Ok(hand.searches(node, 0))
}

/// The row of key 1 for a window that ends before a time.
const fn row(end: u64, value: i64) -> Record
    requires { 1 ≤ end }
{
    Record {
        time: end - 1,
        key: Key::Number(1),
        value,
    }
}

/// Whether the hand has the rows of what was fed for the sink, and none after them.
fn drains(hand: &mut Hand) -> bool {
    hand.drain().as_slice() == [row(10, 7), row(20, 4)].as_slice() && hand.drain().is_empty()
}

/// Whether the rows come at the sink, where bundles are so large and so many are in work at most.
fn runs(alloc: Global, bundle: u32, pending: u32) -> Result<bool, Fail>
    requires bundle { (1 ≤ bundle) × (bundle ≤ MAX_BUNDLE) }
    requires pending { (1 ≤ pending) × (pending ≤ MAX_PENDING) }
{
    let mut hand = new_hand(alloc, sum_plan(alloc, 10)?, bundle, pending)?;
    let starts = hand.is_settled();
    feed(alloc, &mut hand)?;
    let is_fed = !hand.is_settled();
    settle(&mut hand)?;
    Ok(starts && is_fed && drains(&mut hand) && hand.is_settled())
}

#[test]
fn rows_come_at_the_sink_whatever_the_sizes(rt: HostRuntime) -> Result<(), Fail> {
    assert!(rt; runs(rt.alloc(), 1, 3)?);
    assert!(rt; runs(rt.alloc(), 2, 4)?);
    assert!(rt; runs(rt.alloc(), MAX_BUNDLE, MAX_PENDING)?);
    Ok(())
}

#[test]
fn a_lane_refuses_arrivals_while_it_is_full(rt: HostRuntime) -> Result<(), Fail> {
    let alloc = rt.alloc();
    let mut hand = new_hand(alloc, sum_plan(alloc, 10)?, 1, 1)?;
    arrive(alloc, &mut hand, 0, 0, 3, 5)?;
    assert!(rt; arrive(alloc, &mut hand, 0, 0, 7, 2) == Err("full"));
    Ok(())
}

/// How often the first lanes of the two transforms and of the sink have looked for a container.
fn all_searches(hand: &Hand) -> Result<[u64; 3], Fail>
    requires { (m : Moment) × Shows hand.now [] m }
{
    Ok([searches(hand, 0)?, searches(hand, 1)?, searches(hand, 2)?])
}

#[test]
fn a_container_is_looked_for_once_in_an_epoch(rt: HostRuntime) -> Result<(), Fail> {
    let alloc = rt.alloc();
    let plan = expanded(alloc, vec![in alloc; 0]?, Agg::Sum)?.ok_or("no plan")?;
    let mut hand = new_hand(alloc, plan, 1, 3)?;
    assert!(rt; all_searches(&hand)? == [0, 0, 0]);
    feed(alloc, &mut hand)?;
    settle(&mut hand)?;
    assert!(rt; all_searches(&hand)? == [0, 2, 2]);
    assert!(rt; drains(&mut hand));
    Ok(())
}
