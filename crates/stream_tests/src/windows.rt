//! Windows: their sizes, and the ends of those that a time lies in.

ghost use Rattle.std.specs.Prelude.{◌<◌};

use sb_base::{BadWindow, END_MARK, Windows};
use std::alloc::{AllocError, Global};

fn ends_of(alloc: Global, size: u64, every: u64, time: u64) -> Result<Vec<u64>, AllocError>
    requires { time < END_MARK }
{
    match Windows::new(size, every) {
        Ok(windows) => windows.ends(time).collect(alloc),
        Err(_) => Ok(Vec::new(alloc)),
    }
}

#[test]
fn ends_of_times(rt: HostRuntime) -> Result<(), AllocError> {
    let alloc = rt.alloc();
    let cases = [
        (10, 10, 9, vec![in alloc; 10]?),
        (10, 10, 10, vec![in alloc; 20]?),
        (10, 5, 0, vec![in alloc; 5, 10]?),
        (10, 5, 5, vec![in alloc; 10, 15]?),
        (10, 5, 7, vec![in alloc; 10, 15]?),
        (1, 1, 0, vec![in alloc; 1]?),
    ];
    for (size, every, time, want) in cases {
        assert_eq!(rt;
            ends_of(alloc, size, every, time)?,
            want,
            "{size} {every} {time}"
        );
    }
    let many = ends_of(alloc, 640, 10, 1_000_000_000_000_005)?;
    assert_eq!(rt; many.len(), 64);
    assert_eq!(rt; many.first().copied(), Some(1_000_000_000_000_010));
    assert_eq!(rt; many.last().copied(), Some(1_000_000_000_000_640));
    Ok(())
}

#[test]
fn sizes_and_steps(rt: HostRuntime) {
    let cases = [
        (1, 1, None),
        (1_000_000_000_000, 1_000_000_000_000, None),
        (64, 1, None),
        (0, 1, Some(BadWindow::Size)),
        (0, 0, Some(BadWindow::Size)),
        (1_000_000_000_001, 1_000_000_000_001, Some(BadWindow::Size)),
        (10, 0, Some(BadWindow::Every)),
        (10, 3, Some(BadWindow::Every)),
        (10, 20, Some(BadWindow::Every)),
        (65, 1, Some(BadWindow::Every)),
    ];
    for (size, every, bad) in cases {
        match Windows::new(size, every) {
            Ok(windows) => {
                assert_eq!(rt; bad, None, "{size} {every}");
                assert_eq!(rt; windows.size(), size);
                assert_eq!(rt; windows.every(), every);
            }
            Err(why) => assert_eq!(rt; bad, Some(why), "{size} {every}"),
        }
    }
}
