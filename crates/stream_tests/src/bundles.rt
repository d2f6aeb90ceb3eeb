//! Bundles that are cut of the records of a stream.

ghost use Rattle.std.specs.Prelude.{◌≤◌};

use sb_base::{Cutter, Key, MAX_BUNDLE, Record};
use std::alloc::{AllocError, Global};

/// A call of a cutter: a record of a time, or a watermark.
#[derive(Clone, Copy)]
enum Call {
    Push(u64),
    Mark(u64),
}

use Call::{Mark, Push};

/// The epoch, the floor and the number of records of each bundle that the calls give, and how many records are held
/// after them. Calls below the floor are left out.
fn cut(
    alloc: Global,
    size: u32,
    calls: &[Call],
) -> Result<(Vec<(u64, u64, usize)>, usize), AllocError>
    requires some { 1 ≤ size }
    requires most { size ≤ MAX_BUNDLE }
{
    let mut cutter = Cutter::new(alloc, size);
    let mut bundles = Vec::new(alloc);
    for call in calls {
        let given = match *call {
            Push(time) if time >= cutter.floor() => {
                let next = Record {
                    time,
                    key: Key::Number(0),
                    value: 0,
                };
                cutter.push(next).map_err(|_| AllocError)?
            }
            Mark(mark) if mark >= cutter.floor() && cutter.epoch() < u64::MAX => {
                cutter.mark(mark)
            }
            _ => None,
        };
        if let Some(bundle) = given {
            let length = bundle.records.as_slice().len();
            bundles.push((bundle.epoch, bundle.floor, length))?;
        }
    }
    Ok((bundles, cutter.held()))
}

#[test]
fn bundles_of_epochs(rt: HostRuntime) -> Result<(), AllocError> {
    let alloc = rt.alloc();
    let calls = [
        Push(5),
        Push(3),
        Push(9),
        Mark(10),
        Mark(10),
        Mark(20),
        Push(20),
        Push(31),
        Mark(30),
        Push(30),
    ];
    let cases = [
        (
            1,
            vec![in alloc;
                (0, 0, 1),
                (0, 0, 1),
                (0, 0, 1),
                (3, 20, 1),
                (3, 20, 1),
                (4, 30, 1),
            ]?,
            0,
        ),
        (2, vec![in alloc; (0, 0, 2), (0, 0, 1), (3, 20, 2)]?, 1),
        (3, vec![in alloc; (0, 0, 3), (3, 20, 2)]?, 1),
    ];
    for (size, want, held) in cases {
        let (bundles, left) = cut(alloc, size, &calls)?;
        assert_eq!(rt; bundles, want, "size {size}");
        assert_eq!(rt; left, held, "size {size}");
    }
    Ok(())
}

#[test]
fn the_largest_bundle(rt: HostRuntime) -> Result<(), AllocError> {
    let alloc = rt.alloc();
    let cases = [
        (65_535, Vec::new(alloc), 65_535),
        (65_536, vec![in alloc; (0, 0, 65_536)]?, 0),
        (65_537, vec![in alloc; (0, 0, 65_536)]?, 1),
    ];
    for (count, want, held) in cases {
        let mut calls = Vec::new(alloc);
        for _call in 0..count {
            calls.push(Push(7))?;
        }
        let (bundles, left) = cut(alloc, 65_536, &calls)?;
        assert_eq!(rt; bundles, want, "{count} records");
        assert_eq!(rt; left, held, "{count} records");
    }
    Ok(())
}
