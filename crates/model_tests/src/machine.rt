//! The machine by example.

use sb_base::{END_MARK, Key, NoMemory, Record, Sequence, Stream, sum_plan};
use sb_hand::{Event, Moment};
use sb_machine::{RunStop, StepStop, first, run, step};
use std::alloc::Global;

/// The arrival of records of a stream, each a time, a key and a value.
fn arrive(alloc: Global, stream: Stream, list: &[(u64, u64, i64)]) -> Result<Event, NoMemory> {
    let mut records = Vec::new(alloc);
    for (time, key, value) in list {
        records.push(Record {
            time: *time,
            key: Key::Number(*key),
            value: *value,
        })?;
    }
    Ok(Event::Arrive {
        stream,
        records: Sequence::new(records),
    })
}

/// What a worker does with bundle 1 of a lane, where nothing is given below.
const fn take(node: u32, lane: u32) -> Event {
    Event::Take {
        node,
        lane,
        number: 1,
    }
}

const fn finish(node: u32, lane: u32) -> Event {
    Event::Finish {
        node,
        lane,
        number: 1,
    }
}

const fn deliver_rows(node: u32, lane: u32) -> Event {
    Event::Deliver {
        node,
        lane,
        number: 0,
    }
}

const fn seal(stream: Stream, mark: u64) -> Event {
    Event::Seal { stream, mark }
}

const fn begin(node: u32, lane: u32) -> Event {
    Event::Begin { node, lane }
}

const fn pass(node: u32) -> Event {
    Event::Pass { node }
}

const fn end(node: u32) -> Event {
    Event::End { node }
}

/// Whether no container is left and nothing is in hand.
fn is_idle(moment: &Moment) -> bool {
    for node in moment.nodes.as_slice() {
        for lane in node.lanes.as_slice() {
            if !lane.conts.as_slice().is_empty() {
                return false;
            }
        }
    }
    moment.held.as_slice().is_empty()
}

/// Whether the event is refused at the first moment, and nothing comes of it.
fn is_refused(alloc: Global, event: Event) -> Result<bool, NoMemory> {
    let plan = sum_plan(alloc, 10)?;
    let mut moment = first(alloc, &plan, 2)?;
    let stop = step(alloc, &plan, &mut moment, event);
    Ok(stop == Err(StepStop::NotNow) && is_idle(&moment) && moment.rows.as_slice().is_empty())
}

#[test]
fn a_window_comes_out_at_its_watermark(rt: HostRuntime) -> Result<(), NoMemory> {
    let alloc = rt.alloc();
    let plan = sum_plan(alloc, 10)?;
    let mut moment = first(alloc, &plan, 1024)?;
    let events = [
        arrive(alloc, Stream::A, &[(3, 1, 5), (7, 1, 2)])?,
        take(0, 0),
        finish(0, 0),
        seal(Stream::A, 10),
        begin(0, 0),
        deliver_rows(0, 0),
        pass(0),
        end(0),
        take(1, 0),
        finish(1, 0),
        begin(1, 0),
        end(1),
    ];
    assert!(rt; run(alloc, &plan, &mut moment, &events) == Ok(()));
    let row = Record {
        time: 9,
        key: Key::Number(1),
        value: 7,
    };
    assert!(rt; moment.rows.as_slice() == [row].as_slice());
    assert!(rt; is_idle(&moment));
    Ok(())
}

#[test]
fn no_closing_begins_while_a_bundle_is_out(rt: HostRuntime) -> Result<(), NoMemory> {
    let alloc = rt.alloc();
    let plan = sum_plan(alloc, 10)?;
    let mut moment = first(alloc, &plan, 1024)?;
    let events = [
        arrive(alloc, Stream::A, &[(3, 1, 5)])?,
        take(0, 0),
        seal(Stream::A, 10),
        begin(0, 0),
    ];
    let stop = RunStop {
        at: 3,
        stop: StepStop::NotNow,
    };
    assert!(rt; run(alloc, &plan, &mut moment, &events) == Err(stop));
    assert!(rt; moment.held.as_slice().len() == 1);
    Ok(())
}

/// Arrivals that may not come: no record, more than a bundle takes, a time above the greatest, another stream.
const ARRIVALS: [(Stream, &[(u64, u64, i64)]); 4] = [
    (Stream::A, &[]),
    (Stream::A, &[(1, 1, 1), (2, 1, 1), (3, 1, 1)]),
    (Stream::A, &[(1_000_000_000_000_001, 1, 1)]),
    (Stream::B, &[(1, 1, 1)]),
];

#[test]
fn arrivals_that_may_not_come_are_refused(rt: HostRuntime) -> Result<(), NoMemory> {
    for (stream, records) in &ARRIVALS {
        let event = arrive(rt.alloc(), *stream, records)?;
        assert!(rt; is_refused(rt.alloc(), event)?);
    }
    Ok(())
}

#[test]
fn events_whose_condition_fails_are_refused(rt: HostRuntime) -> Result<(), NoMemory> {
    let events = [
        seal(Stream::B, 10),
        seal(Stream::A, END_MARK + 1),
        take(0, 0),
        take(0, 1),
        take(7, 0),
        deliver_rows(0, 0),
        finish(0, 0),
        begin(0, 0),
        begin(1, 0),
        begin(7, 0),
        pass(0),
        pass(1),
        pass(2),
        end(0),
    ];
    for event in events {
        assert!(rt; is_refused(rt.alloc(), event)?);
    }
    Ok(())
}
