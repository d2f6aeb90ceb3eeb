//! The text of small inputs, as it comes through small buffers.

ghost use Rattle.std.specs.Prelude.{◌≤◌};
ghost use Rattle.sb_generator.specs.declared.pattern.TheConstants.{MAX_RECORDS};

use sb_generator::GenSource;
use sb_outside::Source;
use std::alloc::{AllocError, Global};

const ONE: &[u8] = b"r,a,7,0,-50\n";

const EIGHT: &[u8] =
    b"r,a,7,0,-50\nr,a,6,1,-13\nr,a,5,2,24\nr,a,4,3,-40\nr,a,3,4,-3\nr,a,2,0,34\nr,a,1,1,-30\nr,a,0,2,7\nw,a,8\n";

const NINE: &[u8] =
    b"r,a,7,0,-50\nr,a,6,1,-13\nr,a,5,2,24\nr,a,4,3,-40\nr,a,3,4,-3\nr,a,2,0,34\nr,a,1,1,-30\nr,a,0,2,7\nw,a,8\nr,a,15,3,44\n";

/// Whether 200 reads of an input, through a buffer of so many bytes, give this text.
fn gives(alloc: Global, records: u64, size: usize, want: &[u8]) -> Result<bool, AllocError>
    requires records { (1 ≤ records) × (records ≤ MAX_RECORDS) }
    requires size { (1 ≤ size) × (size ≤ 200) }
{
    let mut source = GenSource::new(records);
    let mut place = [0u8; 200];
    let mut text: Vec<u8> = Vec::new(alloc);
    for _ in 0..200u8 {
        match source.read(&mut place[..size]) {
            Ok(count) => text.extend_from_slice(&place[..count])?,
            Err(_) => break,
        }
    }
    Ok(text.as_slice() == want)
}

#[test]
fn the_text_is_the_same_through_buffers_of_each_size(rt: HostRuntime) {
    let alloc = rt.alloc();
    for size in 1..200usize {
        assert!(rt;
            gives(alloc, 1, size, ONE) == Ok(true),
            "1 record, {size} bytes"
        );
        assert!(rt;
            gives(alloc, 8, size, EIGHT) == Ok(true),
            "8 records, {size} bytes"
        );
        assert!(rt;
            gives(alloc, 9, size, NINE) == Ok(true),
            "9 records, {size} bytes"
        );
    }
}
