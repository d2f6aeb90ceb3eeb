//! Texts of checkpoints that are read, and the line at which others are faulty.

ghost use Rattle.sb_checkpoint.specs.Reach.{HasNoSession};

use sb_checkpoint::{
    Checkpoint, CheckpointStop, StreamRec, has_session, read_checkpoint, write_checkpoint,
};
use sb_outside::MemSink;
use sb_pipeline::{Plan, sum_plan};
use sb_record::{Key, Keys, Record, Stream};
use std::alloc::{AllocError, Global};
use std::test::Fail;

/// What a text gives for sums over windows of 10, where keys are these.
fn read(alloc: Global, keys: Keys, text: &[u8]) -> Result<Checkpoint, CheckpointStop> {
    let plan = sum_plan(alloc, 10)?.with_keys(keys);
    if has_session(&plan) {
        return Err(CheckpointStop::Fault { line: 0 });
    }
    read_checkpoint(alloc, &plan, text)
}

/// The text of a checkpoint.
fn text_sink(alloc: Global, checkpoint: &Checkpoint) -> Result<MemSink, Fail> {
    let mut sink = crate::checkpoints::sink(alloc);
    write_checkpoint(checkpoint, &mut sink).map_err(|_| AllocError)?;
    Ok(sink)
}

#[test]
fn a_text_says_what_was_kept(rt: HostRuntime) -> Result<(), Fail> {
    let alloc = rt.alloc();
    let text = b"checkpoint 3 10\nr,a,3,1,5\nr,a,12,1,4\nw,a,10\nend 3\n";
    let of_a = |time: u64, value: i64| StreamRec {
        stream: Stream::A,
        rec: Record {
            time,
            key: Key::Number(1),
            value,
        },
    };
    match read(alloc, Keys::Numbers, text) {
        Ok(checkpoint) => {
            assert!(rt; checkpoint.lines == 3);
            assert!(rt; checkpoint.low == 10);
            assert!(rt; checkpoint.records.as_slice() == [of_a(3, 5), of_a(12, 4)].as_slice());
            assert!(rt; checkpoint.mark_a == 10);
            assert!(rt; checkpoint.mark_b == 0);
        }
        Err(stop) => assert!(rt; stop == CheckpointStop::Memory),
    }
    Ok(())
}

/// What keys are, and texts that are read.
const WHOLE: [(Keys, &[u8]); 6] = [
    (Keys::Numbers, b"checkpoint 3 60\nw,a,60\nend 1\n"),
    (Keys::Numbers, b"checkpoint 0 0\nend 0\n"),
    (Keys::Numbers, b"checkpoint 4294967295 0\nend 0\n"),
    // Windows of 10 reach back from 20 to 10.
    (
        Keys::Numbers,
        b"checkpoint 2 20\nr,a,10,1,5\nw,a,20\nend 2\n",
    ),
    (Keys::Words, b"checkpoint 1 0\nr,a,3,walk,-5\nend 1\n"),
    (Keys::Words, b"checkpoint 1 0\nr,a,3,7,5\nend 1\n"),
];

#[test]
fn whole_texts_are_read(rt: HostRuntime) -> Result<(), Fail> {
    for (keys, text) in &WHOLE {
        match read(rt.alloc(), *keys, text) {
            Ok(checkpoint) => {
                assert!(rt; text_sink(rt.alloc(), &checkpoint)?.taken() == *text);
            }
            Err(stop) => assert!(rt; stop == CheckpointStop::Memory, "{text:?}"),
        }
    }
    Ok(())
}

/// Whether the text is faulty at this line.
fn is_faulty(alloc: Global, line: u64, text: &[u8]) -> bool {
    match read(alloc, Keys::Numbers, text) {
        Ok(_) => false,
        Err(stop) => stop == CheckpointStop::Fault { line },
    }
}

/// What is wrong, the line at which that shows, and the text.
const FAULTY: [(&str, u64, &[u8]); 28] = [
    (
        "CR LF",
        1,
        b"checkpoint 3 10\r\nr,a,3,1,5\r\nr,a,12,1,4\r\nw,a,10\r\nend 3\r\n",
    ),
    (
        "CR LF of an item",
        2,
        b"checkpoint 1 0\nr,a,3,1,5\r\nend 1\n",
    ),
    ("empty text", 1, b""),
    ("no low watermark", 1, b"checkpoint 3\n"),
    ("no line feed", 1, b"checkpoint 0 0"),
    ("zeros in front of LINES", 1, b"checkpoint 00 0\nend 0\n"),
    ("zeros in front of LOW", 1, b"checkpoint 0 00\nend 0\n"),
    ("a sign", 1, b"checkpoint +0 0\nend 0\n"),
    ("a space behind", 1, b"checkpoint 0 0 \nend 0\n"),
    (
        "LINES of 2^64",
        1,
        b"checkpoint 18446744073709551616 0\nend 0\n",
    ),
    (
        "LINES below 2^64",
        2,
        b"checkpoint 18446744073709551615 0\nend 0\n",
    ),
    ("LINES of 2^32", 2, b"checkpoint 4294967296 0\nend 0\n"),
    (
        "LINES below COUNT",
        5,
        b"checkpoint 2 10\nr,a,3,1,5\nr,a,12,1,4\nw,a,10\nend 3\n",
    ),
    (
        "LOW above the watermark",
        5,
        b"checkpoint 3 11\nr,a,3,1,5\nr,a,12,1,4\nw,a,10\nend 3\n",
    ),
    (
        "another COUNT",
        5,
        b"checkpoint 3 10\nr,a,3,1,5\nr,a,12,1,4\nw,a,10\nend 2\n",
    ),
    ("zeros in front of COUNT", 2, b"checkpoint 0 0\nend 00\n"),
    ("a line behind the end", 3, b"checkpoint 0 0\nend 0\n#\n"),
    (
        "an empty line behind the end",
        3,
        b"checkpoint 0 0\nend 0\n\n",
    ),
    ("bytes behind the end", 3, b"checkpoint 0 0\nend 0\n#"),
    (
        "a record below the reach",
        2,
        b"checkpoint 2 20\nr,a,9,1,5\nw,a,20\nend 2\n",
    ),
    (
        "a stream of no source",
        2,
        b"checkpoint 1 0\nr,b,3,1,5\nend 1\n",
    ),
    (
        "two watermarks",
        4,
        b"checkpoint 3 10\nr,a,3,1,5\nw,a,10\nw,a,11\nend 3\n",
    ),
    (
        "a record behind a watermark",
        3,
        b"checkpoint 2 10\nw,a,10\nr,a,12,1,4\nend 2\n",
    ),
    ("a watermark of 0", 2, b"checkpoint 1 0\nw,a,0\nend 1\n"),
    ("a comment", 2, b"checkpoint 1 0\n#\nend 1\n"),
    (
        "a word for a key",
        2,
        b"checkpoint 1 0\nr,a,3,walk,5\nend 1\n",
    ),
    ("no last line", 3, b"checkpoint 3 10\nw,a,10\n"),
    ("no last line feed", 3, b"checkpoint 3 10\nw,a,10\nend 1"),
];

#[test]
fn the_first_faulty_line_is_named(rt: HostRuntime) {
    for (what, line, text) in &FAULTY {
        assert!(rt; is_faulty(rt.alloc(), *line, text), "{what}");
    }
}
