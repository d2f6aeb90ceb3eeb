//! What a file gives behind the last byte that is wanted. The other tests stand in `stream_tests`.

use crate::standard_folder::append_some;
use std::alloc::{AllocError, Global};
use std::io::{self, ErrorKind, Read};
use std::test::Fail;

/// A reader that fails once it has given so many bytes.
#[derive(Drop)]
struct BreaksAfter(usize);

impl Read for BreaksAfter {
    fn read(&mut self, buf: &mut [u8]) -> io::Result<usize> {
        if self.0 == 0 {
            return Err(io::Error::from(ErrorKind::BrokenPipe));
        }
        let count = buf.len().min(self.0);
        buf[..count].fill(b'x');
        self.0 -= count;
        Ok(count)
    }
}

/// Whether so many bytes of a reader that then fails are read, and how many bytes then stand behind `>`, with that one.
fn read_of_four(alloc: Global, most: usize) -> Result<(bool, usize), AllocError> {
    let mut into = Vec::from_slice(alloc, b">")?;
    let read = append_some(BreaksAfter(4), most, &mut into);
    Ok((read.is_ok(), into.len()))
}

const READS_OF_FOUR: [(usize, bool, usize); 4] = [
    (0, true, 1),
    (3, true, 4),
    (4, true, 5),
    (5, false, 1),
];

#[test]
fn no_byte_behind_the_last_that_is_wanted_is_read(rt: HostRuntime) -> Result<(), Fail> {
    for (most, passes, len) in &READS_OF_FOUR {
        let read = read_of_four(rt.alloc(), *most)?;
        assert!(rt; read == (*passes, *len), "{most}");
    }
    Ok(())
}
