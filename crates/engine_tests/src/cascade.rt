//! A cascade by example: the sums over windows of 10 units, and one record of stream a.

ghost use Rattle.std.specs.Prelude.{◌≡◌, ◌≤◌, [], length, IfOk, OnOk};
ghost use Rattle.sb_worker.specs.hand.base.pipeline.Shapes.{sum_shape};
ghost use Rattle.sb_worker.specs.turn.Turning.{opening_view};
ghost use Rattle.sb_worker.specs.cascade.Calls.{IsEmptyHanded, IsFeeder, IsReady, IsSame};
ghost use Rattle.sb_worker.specs.cascade.Calls.{hands, passes_out, plan_of, setting_of, view_of};
ghost use Rattle.sb_worker.specs.cascade.shared.Views.{first_hands, nothing_fed};

use sb_base::{Bundle, END_MARK, Key, Record, Sequence, Stream, sum_plan};
use sb_worker::{Cascade, CascadePass, Hand, Output, TryTake, process};
use std::alloc::Global;
use std::sync::Wait;
use std::test::Fail;

/// A cascade of one sum, to which nothing has come, and the feeder's pass. A bundle has one record.
fn new_cascade(alloc: Global) -> Result<(Cascade, CascadePass), Fail>
    ensures plan { IfOk result (λ t. plan_of t.0 ≡ sum_shape 10) }
    ensures bundle { IfOk result (λ t. (setting_of t.0).bundle ≡ 1) }
    ensures pass { IfOk result (λ t. IsReady t.0 t.1 × IsFeeder t.1 × IsEmptyHanded t.1) }
    ensures view { IfOk result (λ t. view_of t.1 ≡ opening_view first_hands) }
{
    let hand = Hand::new(alloc, sum_plan(alloc, 10)?, 1, 4, true)?;
    Ok(Cascade::share(alloc, hand)?)
}

/// The first record of stream a comes, alone in its bundle.
fn arrive<R: Wait>(
    rt: &R,
    alloc: Global,
    cascade: &Cascade,
    pass: &mut CascadePass,
) -> Result<(), Fail>
    requires plan { plan_of cascade.now ≡ sum_shape 10 }
    requires bundle { (setting_of cascade.now).bundle ≡ 1 }
    requires pass { IsReady cascade.now pass.old × IsFeeder pass.old × IsEmptyHanded pass.old }
    requires fed { (hands pass.old).feed.a ≡ nothing_fed }
    ensures pass { IsReady cascade.now pass.new × IsFeeder pass.new × IsEmptyHanded pass.new }
    ensures out { passes_out pass.new ≡ passes_out pass.old }
    ensures fed { OnOk result ((hands pass.new).feed.a.marks ≡ []) }
{
    let key = Key::Number(1);
    let records = vec![in alloc;
        Record {
            time: 3,
            key,
            value: 5
        },
    ]?;
    let bundle = Bundle {
        number: 0,
        epoch: 0,
        floor: 0,
        records: Sequence::new(records),
    };
    match cascade.arrive(rt, pass, Stream::A, bundle) {
        Ok(_) => Ok(()),
        Err(_) => Err("it did not arrive".into()),
    }
}

/// The end of stream a comes, as its first watermark.
fn seal<R: Wait>(rt: &R, cascade: &Cascade, pass: &mut CascadePass) -> Result<(), Fail>
    requires plan { plan_of cascade.now ≡ sum_shape 10 }
    requires pass { IsReady cascade.now pass.old × IsFeeder pass.old × IsEmptyHanded pass.old }
    requires fed { (hands pass.old).feed.a.marks ≡ [] }
    ensures pass { IsReady cascade.now pass.new × IsFeeder pass.new × IsEmptyHanded pass.new }
    ensures out { passes_out pass.new ≡ passes_out pass.old }
{
    Ok(cascade.seal(rt, pass, Stream::A, END_MARK)?)
}

/// A bundle that waits in a node is taken, and the node takes its part of it in.
fn work_off<R: Wait>(
    rt: &R,
    alloc: Global,
    cascade: &Cascade,
    pass: &mut CascadePass,
    node: u32,
) -> Result<(), Fail>
    requires pass { IsReady cascade.now pass.old × IsEmptyHanded pass.old }
    requires node { node ≤ length (plan_of cascade.now).steps }
    ensures pass { IsReady cascade.now pass.new × IsSame pass.old pass.new }
    ensures done { OnOk result (IsEmptyHanded pass.new) }
{
    let Some(claim) = cascade.take(rt, pass, node) else {
        return Err("nothing waits".into());
    };
    let (claim, output) = process(alloc, cascade.plan(), claim)?;
    match output {
        Output::Part(part) => Ok(cascade.finish(rt, pass, claim, Some(part))?),
        Output::Records(_) => Err("it gathers no records".into()),
    }
}

/// The closing of the sum, which has one row.
fn close<R: Wait>(rt: &R, cascade: &Cascade, pass: &mut CascadePass) -> Result<(), Fail>
    requires plan { plan_of cascade.now ≡ sum_shape 10 }
    requires pass { IsReady cascade.now pass.old × IsEmptyHanded pass.old }
    ensures pass { IsReady cascade.now pass.new × IsSame pass.old pass.new }
    ensures done { OnOk result (IsEmptyHanded pass.new) }
{
    let Ok(closing) = cascade.begin_close(rt, pass, 0) else {
        return Err("no closing began".into());
    };
    if !cascade.deliver_rows(rt, pass, &closing)? {
        return Err("it has no row".into());
    }
    if cascade.deliver_rows(rt, pass, &closing)? {
        return Err("it has another row".into());
    }
    cascade.pass_mark(rt, pass, &closing)?;
    cascade.end_close(rt, pass, closing);
    Ok(())
}

/// The closing of the sink.
fn close_sink<R: Wait>(rt: &R, cascade: &Cascade, pass: &mut CascadePass) -> Result<(), Fail>
    requires plan { plan_of cascade.now ≡ sum_shape 10 }
    requires pass { IsReady cascade.now pass.old × IsEmptyHanded pass.old }
    ensures pass { IsReady cascade.now pass.new × IsSame pass.old pass.new }
    ensures done { OnOk result (IsEmptyHanded pass.new) }
{
    let Ok(closing) = cascade.begin_close(rt, pass, 1) else {
        return Err("no closing began".into());
    };
    cascade.end_close(rt, pass, closing);
    Ok(())
}

/// The sum is worked off and closed, and then the sink.
fn work<R: Wait>(
    rt: &R,
    alloc: Global,
    cascade: &Cascade,
    pass: &mut CascadePass,
) -> Result<(), Fail>
    requires plan { plan_of cascade.now ≡ sum_shape 10 }
    requires pass { IsReady cascade.now pass.old × IsEmptyHanded pass.old }
    ensures pass { IsReady cascade.now pass.new × IsSame pass.old pass.new }
    ensures done { OnOk result (IsEmptyHanded pass.new) }
{
    work_off(rt, alloc, cascade, pass, 0)?;
    close(rt, cascade, pass)?;
    work_off(rt, alloc, cascade, pass, 1)?;
    close_sink(rt, cascade, pass)
}

/// The hand that comes back, once the shelf is shown to be empty.
fn hand_back(cascade: Cascade, mut pass: CascadePass) -> Result<Hand, Fail>
    requires pass { IsReady cascade pass × IsFeeder pass × IsEmptyHanded pass × (passes_out pass ≡ 0) }
{
    match cascade.claim(&mut pass) {
        None => Ok(cascade.shut(pass)),
        Some(_) => Err("a bundle lies on the shelf".into()),
    }
}

#[test]
fn a_bundle_is_taken_once(rt: HostRuntime) -> Result<(), Fail> {
    let alloc = rt.alloc();
    let (cascade, mut feeder) = new_cascade(alloc)?;
    arrive(&rt, alloc, &cascade, &mut feeder)?;
    let mut other = cascade.split(&mut feeder);
    match cascade.try_take(&mut feeder, 0) {
        TryTake::Got(claim) => assert!(rt; claim.bundle.number == 1),
        TryTake::Nothing | TryTake::Held => return Err("nothing waits".into()),
    }
    match cascade.try_take(&mut other, 0) {
        TryTake::Nothing => Ok(()),
        TryTake::Got(_) | TryTake::Held => Err("it was taken before".into()),
    }
}

#[test]
fn a_bundle_of_the_shelf_is_claimed_once(rt: HostRuntime) -> Result<(), Fail> {
    let alloc = rt.alloc();
    let (cascade, mut feeder) = new_cascade(alloc)?;
    arrive(&rt, alloc, &cascade, &mut feeder)?;
    let mut other = cascade.split(&mut feeder);
    if cascade.fill(&rt, &mut feeder, 0) {
        return Err("a place was free".into());
    }
    match cascade.claim(&mut other) {
        Some(claim) => assert!(rt; claim.bundle.number == 1),
        None => return Err("it lay on the shelf".into()),
    }
    assert!(rt; cascade.claim(&mut feeder).is_none());
    Ok(())
}

#[test]
fn the_row_of_a_sum_comes_at_the_sink(rt: HostRuntime) -> Result<(), Fail> {
    let alloc = rt.alloc();
    let (cascade, mut pass) = new_cascade(alloc)?;
    arrive(&rt, alloc, &cascade, &mut pass)?;
    seal(&rt, &cascade, &mut pass)?;
    work(&rt, alloc, &cascade, &mut pass)?;
    let row = Record {
        time: 9,
        key: Key::Number(1),
        value: 5,
    };
    assert!(rt; cascade.drain(&rt, &mut pass).as_slice() == [row].as_slice());
    assert!(rt; hand_back(cascade, pass)?.is_settled());
    Ok(())
}

#[test]
fn a_worker_is_joined_before_the_hand_comes_back(rt: HostRuntime) -> Result<(), Fail> {
    let alloc = rt.alloc();
    let (cascade, mut feeder) = new_cascade(alloc)?;
    let mut worker = cascade.split(&mut feeder);
    arrive(&rt, alloc, &cascade, &mut feeder)?;
    seal(&rt, &cascade, &mut feeder)?;
    work(&rt, alloc, &cascade, &mut worker)?;
    cascade.join(&mut feeder, worker);
    assert!(rt; cascade.drain(&rt, &mut feeder).len() == 1);
    assert!(rt; hand_back(cascade, feeder)?.is_settled());
    Ok(())
}
