//! Bundles that lie on the shelf are worked off before a node is asked for another: a pass that fills takes all that
//! wait.

ghost use Rattle.std.specs.Prelude.{◌≡◌, [], OnOk};
ghost use Rattle.sb_worker.specs.hand.base.pipeline.Shapes.{sum_shape};
ghost use Rattle.sb_worker.specs.cascade.Calls.{hands, plan_of, setting_of};
ghost use Rattle.sb_worker.specs.Helping.{IsFirst, IsHelper};

use sb_base::{Bundle, Key, Record, Sequence, Stream, sum_plan};
use sb_worker::{Cascade, CascadePass, DiaryEvent, Did, First, Hand, OpenGate, one_step};
use std::alloc::Global;
use std::sync::Wait;
use std::test::Fail;

/// A bundle of one record comes in the first epoch.
fn bring_one<R: Wait>(
    rt: &R,
    alloc: Global,
    cascade: &Cascade,
    pass: &mut CascadePass,
) -> Result<(), Fail>
    requires plan { plan_of cascade.now ≡ sum_shape 10 }
    requires most { (setting_of cascade.now).bundle ≡ 1 }
    requires pass { IsFirst cascade.now 0 pass.old }
    requires unsealed { (hands pass.old).feed.a.marks ≡ [] }
    ensures pass { OnOk result (IsFirst cascade.now 0 pass.new) }
    ensures unsealed { OnOk result ((hands pass.new).feed.a.marks ≡ []) }
{
    let records = vec![in alloc;
        Record {
            time: 3,
            key: Key::Number(1),
            value: 5
        },
    ]?;
    let bundle = Bundle {
        number: 0,
        epoch: 0,
        floor: 0,
        records: Sequence::new(records),
    };
    match cascade.arrive(rt, pass, Stream::A, bundle) {
        Ok(_) => Ok(()),
        Err(_) => Err("it did not arrive".into()),
    }
}

/// Three bundles of one record come in the first epoch.
fn bring_three<R: Wait>(
    rt: &R,
    alloc: Global,
    cascade: &Cascade,
    pass: &mut CascadePass,
) -> Result<(), Fail>
    requires plan { plan_of cascade.now ≡ sum_shape 10 }
    requires most { (setting_of cascade.now).bundle ≡ 1 }
    requires pass { IsFirst cascade.now 0 pass.old }
    requires unsealed { (hands pass.old).feed.a.marks ≡ [] }
    ensures pass { OnOk result (IsFirst cascade.now 0 pass.new) }
{
    bring_one(rt, alloc, cascade, pass)?;
    bring_one(rt, alloc, cascade, pass)?;
    bring_one(rt, alloc, cascade, pass)
}

/// A step of a worker that works off a bundle.
fn step_once<R: Wait>(
    rt: &R,
    alloc: Global,
    cascade: &Cascade,
    pass: &mut CascadePass,
) -> Result<(), Fail>
    requires pass { IsHelper cascade.now pass.old }
    ensures pass { OnOk result (IsHelper cascade.now pass.new) }
{
    match one_step(rt, alloc, cascade, pass, &OpenGate, First::Closing) {
        Ok(Did::Bundle) => Ok(()),
        Ok(Did::Closing | Did::Nothing) => Err("no bundle was there".into()),
        Err(_) => Err("the work ends".into()),
    }
}

/// The hand that comes back, once the shelf is shown to be empty.
fn hand_back(cascade: Cascade, mut pass: CascadePass) -> Result<Hand, Fail>
    requires pass { IsFirst cascade 0 pass }
{
    match cascade.claim(&mut pass) {
        None => Ok(cascade.shut(pass)),
        Some(_) => Err("a bundle lies on the shelf".into()),
    }
}

/// How many bundles were taken before the first was finished.
fn takes_before_a_finish(events: &[DiaryEvent]) -> u64 {
    let mut taken = 0_u64;
    for event in events {
        match event {
            DiaryEvent::Take { .. } => taken = taken.saturating_add(1),
            DiaryEvent::Finish { .. } => return taken,
            _ => {}
        }
    }
    taken
}

#[test]
fn shelf_first(rt: HostRuntime) -> Result<(), Fail> {
    let alloc = rt.alloc();
    let hand = Hand::new(alloc, sum_plan(alloc, 10)?, 1, 4, true)?;
    let (cascade, mut feeder) = Cascade::share(alloc, hand)?;
    bring_three(&rt, alloc, &cascade, &mut feeder)?;
    let mut worker = cascade.split(&mut feeder);
    assert!(rt;
        !cascade.fill(&rt, &mut feeder, 0),
        "there is room on the shelf"
    );
    step_once(&rt, alloc, &cascade, &mut worker)?;
    step_once(&rt, alloc, &cascade, &mut worker)?;
    step_once(&rt, alloc, &cascade, &mut worker)?;
    cascade.join(&mut feeder, worker);
    let mut hand = hand_back(cascade, feeder)?;
    assert!(rt; hand.step(0)? == Did::Nothing);
    let diary = hand.diary(0);
    assert!(rt; diary.keeps());
    assert!(rt; takes_before_a_finish(diary.events()) == 3);
    Ok(())
}
