//! Lanes by example.

ghost use Rattle.std.specs.Prelude.{◌≡◌};

use sb_base::{Bundle, Sequence};
use sb_hand::{ArriveStop, Lane, LaneClose, NotYet};
use std::alloc::{AllocError, Global};
use std::test::Fail;

/// A call of a lane. A bundle is given by its epoch and floor.
#[derive(Clone, Copy, Debug)]
enum Call {
    Arrive(u64, u64),
    Deliver(u64, u64),
    Take,
    Finish(u64, u64),
    Seal(u64),
    Link(u64, u64),
    DownOf(u64),
    Begin,
    End,
    Searches,
}

/// What a call answers: a number, the epoch and the number of a bundle that was taken, and so on.
#[derive(Clone, Copy, Debug, PartialEq, Eq)]
enum Answer {
    Done,
    Full,
    Number(u64),
    Took(u64, u64),
    Nothing,
    Down(Option<u64>),
    Begins(LaneClose),
    CannotBegin(NotYet),
    CannotEnd,
}

use Answer::{Begins, CannotBegin, Done, Down, Full, Nothing, Number, Took};
use Call::{Arrive, Begin, Deliver, DownOf, End, Finish, Link, Seal, Searches, Take};

/// A bundle without records, not yet numbered.
fn bundle(alloc: Global, epoch: u64, floor: u64) -> Bundle
    ensures { result.epoch ≡ epoch }
{
    Bundle {
        number: 0,
        epoch,
        floor,
        records: Sequence::new(Vec::new(alloc)),
    }
}

/// Puts a bundle into a lane, as an arrival or not.
fn put(lane: &mut Lane, bundle: Bundle, arrives: bool) -> Result<Answer, AllocError> {
    if lane.arrived_count() == u64::MAX {
        return Err(AllocError);
    }
    if !arrives {
        return Ok(Number(lane.deliver(bundle).map_err(|_| AllocError)?));
    }
    match lane.arrive(bundle) {
        Ok(number) => Ok(Number(number)),
        Err(ArriveStop::Full(_)) => Ok(Full),
        Err(ArriveStop::Memory(_)) => Err(AllocError),
    }
}

/// Ends the oldest container, if it is closing.
fn end(lane: &mut Lane) -> Answer {
    let sealed = lane.ended_count() < lane.next().0;
    match lane.look() {
        Err(NotYet::Closing { .. }) if sealed => {
            lane.end();
            Done
        }
        _ => Answer::CannotEnd,
    }
}

/// Makes a call.
fn make(alloc: Global, lane: &mut Lane, call: Call) -> Result<Answer, AllocError> {
    match call {
        Arrive(epoch, floor) => return put(lane, bundle(alloc, epoch, floor), true),
        Deliver(epoch, floor) => return put(lane, bundle(alloc, epoch, floor), false),
        Seal(mark) => lane.seal(mark).map_err(|_| AllocError)?,
        Finish(epoch, number) => lane.finish(epoch, number),
        Link(epoch, down) => lane.link(epoch, down),
        Take => {
            return Ok(match lane.take() {
                Some(taken) => Took(taken.epoch, taken.number),
                None => Nothing,
            });
        }
        Begin => {
            return Ok(match lane.begin() {
                Ok(close) => Begins(close),
                Err(not_yet) => CannotBegin(not_yet),
            });
        }
        DownOf(epoch) => return Ok(Down(lane.down_of(epoch))),
        End => return Ok(end(lane)),
        Searches => return Ok(Number(lane.searches())),
    }
    Ok(Done)
}

/// The first of the calls that answers otherwise, on a new lane that lets one bundle be unfinished.
fn wrong_call(alloc: Global, calls: &[(Call, Answer)]) -> Result<Option<usize>, AllocError> {
    let mut lane = Lane::new(alloc, 1);
    for (at, (call, want)) in calls.iter().enumerate() {
        if make(alloc, &mut lane, *call)? != *want {
            return Ok(Some(at));
        }
    }
    Ok(None)
}

/// What is shown, and calls with their answers.
const CASES: [(&str, &[(Call, Answer)]); 4] = [
    (
        "at most one bundle is unfinished",
        &[
            (Arrive(0, 0), Number(1)),
            (Arrive(0, 0), Full),
            (Take, Took(0, 1)),
            (Arrive(0, 0), Full),
            (Finish(0, 1), Done),
            (Arrive(0, 0), Number(2)),
            (Deliver(0, 0), Number(3)),
            (Searches, Number(1)),
        ],
    ),
    (
        "the oldest container gives first",
        &[
            (Deliver(2, 5), Number(1)),
            (Deliver(1, 0), Number(2)),
            (Take, Took(1, 2)),
            (Take, Took(2, 1)),
            (Take, Nothing),
            (Searches, Number(2)),
        ],
    ),
    (
        "a container closes once it is sealed and all is finished",
        &[
            (Begin, CannotBegin(NotYet::NoContainer)),
            (Deliver(0, 0), Number(1)),
            (Begin, CannotBegin(NotYet::Unsealed { epoch: 0 })),
            (Seal(10), Done),
            (Begin, CannotBegin(NotYet::Waiting { epoch: 0, count: 1 })),
            (Take, Took(0, 1)),
            (Begin, CannotBegin(NotYet::Out { epoch: 0, count: 1 })),
            (Finish(0, 1), Done),
            (Begin, Begins(LaneClose { epoch: 0, mark: 10 })),
            (Begin, CannotBegin(NotYet::Closing { epoch: 0 })),
            (End, Done),
            (Begin, CannotBegin(NotYet::NoContainer)),
        ],
    ),
    (
        "a link goes with its container",
        &[
            (Link(0, 7), Done),
            (Deliver(0, 0), Number(1)),
            (DownOf(0), Down(None)),
            (Link(0, 7), Done),
            (DownOf(0), Down(Some(7))),
            (DownOf(1), Down(None)),
            (Take, Took(0, 1)),
            (Finish(0, 1), Done),
            (Seal(10), Done),
            (Begin, Begins(LaneClose { epoch: 0, mark: 10 })),
            (DownOf(0), Down(Some(7))),
            (End, Done),
            (DownOf(0), Down(None)),
        ],
    ),
];

#[test]
fn calls_answer(rt: HostRuntime) -> Result<(), Fail> {
    for (case, calls) in &CASES {
        let wrong = wrong_call(rt.alloc(), calls)?;
        assert!(rt; wrong == None, "{case}: call {wrong:?}");
    }
    Ok(())
}

#[test]
fn places_stay(rt: HostRuntime) -> Result<(), Fail> {
    let alloc = rt.alloc();
    let mut lane = Lane::new(alloc, 0);
    let newer = lane.place(2, 5).map_err(|_| AllocError)?;
    let older = lane.place(1, 0).map_err(|_| AllocError)?;
    assert!(rt; newer != older);
    let number = lane
        .deliver_at(older, bundle(alloc, 1, 0))
        .map_err(|_| AllocError)?;
    assert!(rt; number == 1);
    let taken = lane.take().ok_or(AllocError)?;
    assert!(rt; (taken.epoch, taken.floor, taken.number) == (1, 0, 1));
    assert!(rt; lane.searches() == 2);
    assert!(rt; !lane.waits());
    Ok(())
}

/// Whether an epoch that this watermark ends closes with it, and ends.
fn ends_so(lane: &mut Lane, epoch: u64, mark: u64) -> Result<bool, AllocError> {
    lane.seal(mark).map_err(|_| AllocError)?;
    Ok(
        lane.mark_with() == mark
            && lane.begin() == Ok(LaneClose { epoch, mark })
            && end(lane) == Done
            && lane.mark_before() == mark,
    )
}

#[test]
fn many_epochs_end(rt: HostRuntime) -> Result<(), Fail> {
    let mut lane = Lane::new(rt.alloc(), 1);
    for epoch in 0..100_000 {
        assert!(rt; ends_so(&mut lane, epoch, epoch + 7)?);
    }
    assert!(rt; lane.next() == (100_000, 100_006));
    assert!(rt; lane.is_empty());
    Ok(())
}
