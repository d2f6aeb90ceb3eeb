//! Feeding a file by a thread of its own, by example.

ghost use Rattle.std.specs.Prelude.{◌≡◌, []};
ghost use Rattle.sb_feeds.specs.Ends.{ring_in, ring_of, ring_out, values_sent};
ghost use Rattle.sb_feeds.specs.Fed.{IsNew};

use sb_feeds::{
    Fed, FeedIn, FeedStop, Intake, Item, Key, Keys, LatePolicy, Record, Refusal, Stream, Streams,
    feed_file, feed_pair,
};
use std::alloc::{AllocError, Global};
use std::sync::Wait;
use std::test::Fail;
use std::thread;
use std::thread::Threads;

/// The intake of a file of stream a, where nothing was accepted yet.
fn new_intake() -> Intake
    ensures { IsNew result }
{
    let streams = Streams { a: true, b: false };
    Intake::new(streams, 0, LatePolicy::Drop, Keys::Numbers)
}

fn record(time: u64, value: i64) -> Fed {
    let key = Key::Number(1);
    Fed::Item(Item::Rec(Stream::A, Record { time, key, value }))
}

fn mark(time: u64) -> Fed {
    Fed::Item(Item::Mark(Stream::A, time))
}

fn late_item(line: u64, time: u64, mark: u64) -> Fed {
    Fed::Item(Item::Late { line, time, mark })
}

const END: Fed = Fed::Stop(FeedStop::End);

fn refusal_stop(refusal: Refusal) -> Fed {
    Fed::Stop(FeedStop::Refused(refusal))
}

/// Takes values until the stop.
fn receive<R: Wait>(rt: &R, alloc: Global, inward: &mut FeedIn) -> Result<Vec<Fed>, AllocError>
    ensures { ring_in inward.new ≡ ring_in inward.old }
{
    let mut values = Vec::new(alloc);
    for _ in rt.forever() {
        match inward.pop() {
            Some(next) => {
                let stops = matches!(&next, Fed::Stop(_));
                values.push(next)?;
                if stops {
                    return Ok(values);
                }
            }
            None => thread::yield_now(),
        }
    }
    unreachable!()
}

/// The values of a file that one thread feeds, as another receives them.
fn values_across<R: Threads + Wait + Sync>(
    rt: &R,
    alloc: Global,
    text: &[u8],
) -> Result<Vec<Fed>, Fail> {
    let bytes = Vec::from_slice(alloc, text)?;
    let (out, inward) = feed_pair(alloc)?;
    let intake = new_intake();
    let (done, (inward, values)) = thread::join(
        rt,
        move ||
            requires { IsNew intake × (values_sent out ≡ []) }
            ensures { ring_of result ≡ ring_out out }
        { feed_file(rt, bytes, intake, out) },
        move ||
            ensures { ring_in result.0 ≡ ring_in inward }
        {
            let mut inward = inward;
            let values = receive(rt, alloc, &mut inward);
            (inward, values)
        },
    );
    inward.tie(done);
    Ok(values?)
}

/// Whether a file feeds these values.
fn feeds<R: Threads + Wait + Sync>(
    rt: &R,
    alloc: Global,
    text: &[u8],
    values: &[Fed],
) -> Result<bool, Fail> {
    Ok(values_across(rt, alloc, text)?.as_slice() == values)
}

#[test]
fn a_file_goes_through_the_ring(rt: HostRuntime) -> Result<(), Fail> {
    let alloc = rt.alloc();
    let two = [record(3, 5), record(4, 6), END];
    assert!(rt; feeds(&rt, alloc, b"", &[END])?);
    assert!(rt; feeds(&rt, alloc, b"r,a,3,1,5\nr,a,4,1,6\n", &two)?);
    assert!(rt; feeds(&rt, alloc, b"r,a,3,1,5\nr,a,4,1,6", &two)?);
    let late = [mark(10), late_item(3, 9, 10), END];
    assert!(rt; feeds(&rt, alloc, b"# a comment\nw,a,10\nr,a,9,1,1\n", &late)?);
    let both = [record(3, 5), mark(4), END];
    assert!(rt; feeds(&rt, alloc, b"r,a,3,1,5\r\nw,a,4\r\n", &both)?);
    Ok(())
}

#[test]
fn a_refused_line_ends_a_file(rt: HostRuntime) -> Result<(), Fail> {
    let alloc = rt.alloc();
    let malformed = [record(3, 5), refusal_stop(Refusal::Malformed { line: 2 })];
    assert!(rt; feeds(&rt, alloc, b"r,a,3,1,5\nx\nr,a,4,1,6\n", &malformed)?);
    let too_long = [refusal_stop(Refusal::TooLong { line: 1 })];
    assert!(rt; feeds(&rt, alloc, &[b'#'; 129], &too_long)?);
    Ok(())
}

/// The lines of a long file.
const LONG: u32 = 5_000;

/// Line n of a long file: a comment, a watermark or a record.
fn nth_line(alloc: Global, n: u32) -> Result<String, AllocError> {
    if n % 7 == 3 {
        return format!(in alloc; "# {n}\n");
    }
    if n % 11 == 0 {
        return format!(in alloc; "w,a,{n}\n");
    }
    format!(in alloc; "r,a,{n},1,{n}\n")
}

/// What line n feeds.
fn nth_value(n: u32) -> Option<Fed> {
    if n % 7 == 3 {
        return None;
    }
    if n % 11 == 0 {
        return Some(mark(u64::from(n)));
    }
    Some(record(u64::from(n), i64::from(n)))
}

/// A file of many more lines than the ring has places.
fn long_file(alloc: Global) -> Result<Vec<u8>, AllocError> {
    let mut text = Vec::new(alloc);
    for n in 0..LONG {
        text.extend_from_slice(nth_line(alloc, n)?.as_bytes())?;
    }
    Ok(text)
}

/// Whether these are the values that it feeds.
fn are_of_long_file(values: &[Fed]) -> bool {
    let mut rest = values;
    for n in 0..LONG {
        if let Some(value) = nth_value(n) {
            let Some((first, others)) = rest.split_first() else {
                return false;
            };
            if *first != value {
                return false;
            }
            rest = others;
        }
    }
    rest == [END].as_slice()
}

#[test]
fn a_long_file_goes_through_the_ring(rt: HostRuntime) -> Result<(), Fail> {
    let text = long_file(rt.alloc())?;
    let values = values_across(&rt, rt.alloc(), text.as_slice())?;
    assert!(rt; are_of_long_file(values.as_slice()));
    Ok(())
}
