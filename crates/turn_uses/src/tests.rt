//! What goes over the shelf comes back.

use crate::{add_one, lay_and_claim, open_and_shut};
use std::test::Fail;

#[test]
fn numbers_come_back(rt: HostRuntime) -> Result<(), Fail> {
    let numbers = vec![in rt.alloc(); 3u64, 5u64, 3u64]?;
    let Some(out) = lay_and_claim(rt.alloc(), &numbers) else {
        panic!(rt; "there was room")
    };
    assert!(rt; out.as_slice() == [3, 5, 3].as_slice());
    Ok(())
}

#[test]
fn states_come_back(rt: HostRuntime) -> Result<(), Fail> {
    let states = vec![in rt.alloc(); 5u64, 7u64]?;
    let Some(out) = add_one(rt.alloc(), states) else {
        panic!(rt; "there was room")
    };
    assert!(rt; out.as_slice() == [6, 7].as_slice());
    let Some(out) = open_and_shut(rt.alloc(), out) else {
        panic!(rt; "there was room")
    };
    assert!(rt; out.as_slice() == [6, 7].as_slice());
    Ok(())
}
