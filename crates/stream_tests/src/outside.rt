//! What no clause says: values from outside, that calls succeed, and what std's readers and writers
//! do.

ghost use Rattle.std.specs.Prelude.{◌≤◌, None, All, IfOk};

use sb_outside::{
    Folder, FolderFault, LineBuffer, LineReader, MemFolder, MemSink, MemSource, Next, Sink,
    SinkFault, Source, SourceFault, StdFolder, StdSink, StdSource, Step, write_all_of,
};
use std::alloc::{AllocError, Global};
use std::collections::BTreeMap;
use std::fs;
use std::io::{self, ErrorKind, Write};
use std::test::Fail;

/// So many pieces that are all of one size.
fn pieces_of(alloc: Global, count: usize, size: usize) -> Result<Vec<usize>, AllocError>
    requires { 1 ≤ size }
    ensures { IfOk result (λ pieces. All (λ n. 1 ≤ n) pieces.items) }
{
    vec![in alloc; size; count]
}

/// No pieces: what a source or a sink has without a limit.
fn no_pieces(alloc: Global) -> Vec<usize>
    ensures { All (λ n. 1 ≤ n) result.items }
{
    Vec::new(alloc)
}

/// A source that gives all that it is asked for.
fn whole_source(alloc: Global, text: &[u8]) -> Result<MemSource, AllocError> {
    let bytes = Vec::from_slice(alloc, text)?;
    Ok(MemSource::new(bytes, no_pieces(alloc), Vec::new(alloc)))
}

/// A source that gives at most so many bytes at a time, and of which the calls with these numbers fail.
fn source_in_pieces(
    alloc: Global,
    text: &[u8],
    size: usize,
    failing: Vec<u64>,
) -> Result<MemSource, AllocError>
    requires { 1 ≤ size }
{
    let bytes = Vec::from_slice(alloc, text)?;
    let pieces = pieces_of(alloc, 200, size)?;
    Ok(MemSource::new(bytes, pieces, failing))
}

/// A sink that takes at most so many bytes at a time.
fn sink_in_pieces(alloc: Global, size: usize) -> Result<MemSink, AllocError>
    requires { 1 ≤ size }
{
    let pieces = pieces_of(alloc, 200, size)?;
    Ok(MemSink::new(alloc, pieces, Vec::new(alloc)))
}

fn is_line<S: Source>(reader: &mut LineReader<S>, want: &[u8]) -> bool {
    match reader.next() {
        Next::Line(line) => line == want,
        _ => false,
    }
}

fn is_at_end<S: Source>(reader: &mut LineReader<S>) -> bool {
    matches!(reader.next(), Next::End)
}

const TEXT: &[u8] = b"A,1,2,3\r\n# a comment\n\n\r\nB,4,5,\r6\nlast";

const LINES: [&[u8]; 6] = [b"A,1,2,3", b"# a comment", b"", b"", b"B,4,5,\r6", b"last"];

/// Whether the reader gives [`LINES`] and then says twice that it is at its end.
fn gives_lines<S: Source>(reader: &mut LineReader<S>) -> bool {
    for want in &LINES {
        if !is_line(reader, want) {
            return false;
        }
    }
    is_at_end(reader) && is_at_end(reader)
}

#[test]
fn lines_are_the_same_in_pieces_of_each_size(rt: HostRuntime) -> Result<(), Fail> {
    for size in 1..8usize {
        let mut source = source_in_pieces(rt.alloc(), TEXT, size, Vec::new(rt.alloc()))?;
        let mut reader = LineReader::new(&mut source);
        assert!(rt; gives_lines(&mut reader), "pieces of {size}");
    }
    Ok(())
}

/// What a reader gives first, how long its line then is, and what it gives twice more.
type Steps = (Step, usize, Step, Step);

const A_LINE: Steps = (Step::Line, 128, Step::End, Step::End);

const TOO_LONG: Steps = (Step::TooLong, 0, Step::TooLong, Step::TooLong);

/// What a reader of so many bytes and this end gives.
fn steps_of(alloc: Global, count: usize, end: &[u8]) -> Result<Steps, AllocError> {
    let mut bytes = vec![in alloc; b'x'; count]?;
    bytes.extend_from_slice(end)?;
    let mut source = whole_source(alloc, &bytes)?;
    let mut lines = LineBuffer::new();
    let first = lines.advance(&mut source);
    let len = lines.line().len();
    let second = lines.advance(&mut source);
    Ok((first, len, second, lines.advance(&mut source)))
}

const LENGTHS: [(usize, &[u8], Steps); 9] = [
    (128, b"\n", A_LINE),
    (128, b"\r\n", A_LINE),
    (128, b"\r", A_LINE),
    (128, b"", A_LINE),
    (128, b"\r\r\n", TOO_LONG),
    (128, b"\r\r", TOO_LONG),
    (129, b"\n", TOO_LONG),
    (129, b"\r\n", TOO_LONG),
    (129, b"", TOO_LONG),
];

#[test]
fn a_line_has_at_most_128_bytes(rt: HostRuntime) -> Result<(), Fail> {
    for (count, end, want) in &LENGTHS {
        let steps = steps_of(rt.alloc(), *count, end)?;
        assert!(rt; steps == *want, "{count} bytes and {end:?}");
    }
    Ok(())
}

/// Whether this step comes next, and so many reads have then failed.
fn is_step(lines: &mut LineBuffer, source: &mut MemSource, want: Step, faults: u64) -> bool {
    lines.advance(source) == want && source.faults() == faults
}

/// Whether a read gives these bytes.
fn gives(source: &mut MemSource, want: &[u8]) -> bool {
    let mut room = [0u8; 8];
    match source.read(&mut room) {
        Ok(count) => room.get(..count) == Some(want),
        Err(SourceFault) => false,
    }
}

/// Whether a read fails.
fn fails(source: &mut MemSource) -> bool {
    source.read(&mut [0u8; 8]) == Err(SourceFault)
}

#[test]
fn a_fault_in_mid_stream_is_answered_again_without_a_read(rt: HostRuntime) -> Result<(), Fail> {
    let failing = vec![in rt.alloc(); 2, 3]?;
    let mut source = source_in_pieces(rt.alloc(), b"ab\ncd\n", 4, failing)?;
    let mut lines = LineBuffer::new();
    assert!(rt; is_step(&mut lines, &mut source, Step::Line, 0));
    assert!(rt; lines.line() == b"ab".as_slice());
    for _ in 0..3 {
        assert!(rt; is_step(&mut lines, &mut source, Step::Fault, 1));
    }
    // Another reader finds what was left: call 3 fails too, and call 4 goes on where call 1 ended.
    assert!(rt; fails(&mut source));
    assert!(rt; gives(&mut source, b"d\n"));
    assert!(rt; source.faults() == 2);
    Ok(())
}

/// Fills each buffer that it is given with empty lines, and keeps how many reads there were and the
/// room of the last.
#[derive(Drop)]
struct EmptyLines {
    reads: u8,
    room: usize,
}

impl Source for EmptyLines {
    ghost left = { λ _. None };

    ghost faults = { λ _. 0 };

    fn read(&mut self, buf: &mut [u8]) -> Result<usize, SourceFault> {
        self.reads = self.reads.saturating_add(1);
        self.room = buf.len();
        buf.fill(b'\n');
        Ok(buf.len())
    }
}

#[test]
fn a_read_is_given_the_whole_buffer_once_no_byte_is_at_hand(rt: HostRuntime) {
    let mut source = EmptyLines { reads: 0, room: 0 };
    let mut lines = LineBuffer::new();
    for count in 0..150_000u32 {
        let is_line = lines.advance(&mut source) == Step::Line;
        let reads = u32::from(source.reads);
        assert!(rt; is_line && reads == count / 65_536 + 1 && source.room == 65_536);
    }
}

/// Whether a sink takes all of [`TEXT`].
fn takes_text(sink: &mut MemSink) -> bool {
    write_all_of(sink, TEXT) == Ok(()) && sink.taken() == TEXT && sink.faults() == 0
}

#[test]
fn all_bytes_are_written_in_pieces_of_each_size(rt: HostRuntime) -> Result<(), Fail> {
    for size in 1..8usize {
        let mut sink = sink_in_pieces(rt.alloc(), size)?;
        assert!(rt; takes_text(&mut sink), "pieces of {size}");
    }
    Ok(())
}

/// A sink whose pieces differ, and of which call 3 fails.
fn failing_sink(alloc: Global) -> Result<MemSink, AllocError> {
    let pieces = vec![in alloc; 3, 2, 4, 1]?;
    Ok(MemSink::new(alloc, pieces, vec![in alloc; 3]?))
}

/// Bytes for a sink, its answer to them, and what it has then taken in all and how many of its calls have failed.
type Written = (&'static [u8], Result<(), SinkFault>, &'static [u8], u64);

const WRITTEN: [Written; 3] = [
    (b"abcdefghij", Err(SinkFault::Failed), b"abcde", 1),
    (b"fghij", Ok(()), b"abcdefghij", 1),
    (b"", Ok(()), b"abcdefghij", 1),
];

fn is_written(sink: &mut MemSink, written: &Written) -> bool {
    let (bytes, answer, taken, faults) = *written;
    write_all_of(sink, bytes) == answer && sink.taken() == taken && sink.faults() == faults
}

#[test]
fn a_sink_that_fails_has_taken_a_prefix(rt: HostRuntime) -> Result<(), Fail> {
    let mut sink = failing_sink(rt.alloc())?;
    for written in &WRITTEN {
        assert!(rt; is_written(&mut sink, written), "{written:?}");
    }
    assert!(rt; sink.finish() == Ok(()) && sink.faults() == 1);
    Ok(())
}

#[test]
fn a_sink_may_fail_at_the_end(rt: HostRuntime) -> Result<(), Fail> {
    let failing = vec![in rt.alloc(); 2]?;
    let mut sink = MemSink::new(rt.alloc(), no_pieces(rt.alloc()), failing);
    assert!(rt; is_written(&mut sink, &(b"abc", Ok(()), b"abc", 0)));
    assert!(rt; sink.finish() == Err(SinkFault::Failed));
    assert!(rt; sink.faults() == 1 && sink.taken() == b"abc".as_slice());
    Ok(())
}

/// Whether the reader gives [`LINES`] and a sink takes them, and the reader is then at its end.
fn copies_lines<S: Source, K: Sink>(reader: &mut LineReader<S>, sink: &mut K) -> bool {
    for want in &LINES {
        if !is_line(reader, want) || write_all_of(sink, want) != Ok(()) {
            return false;
        }
    }
    is_at_end(reader)
}

#[test]
fn std_readers_and_writers_serve(rt: HostRuntime) -> Result<(), Fail> {
    let mut reader = LineReader::new(StdSource::new(TEXT));
    let mut out = Vec::new(rt.alloc());
    let mut sink = StdSink::new(&mut out);
    assert!(rt; copies_lines(&mut reader, &mut sink));
    assert!(rt; out.as_slice() == b"A,1,2,3# a commentB,4,5,\r6last".as_slice());
    Ok(())
}

/// A writer with a fault.
#[derive(Clone, Copy, Debug, PartialEq)]
enum BadWriter {
    TakesNone,
    Breaks,
    WantsMemory,
    CannotFlush,
}

impl Write for BadWriter {
    fn write(&mut self, buf: &[u8]) -> io::Result<usize> {
        match *self {
            BadWriter::TakesNone => Ok(0),
            BadWriter::Breaks => Err(io::Error::from(ErrorKind::BrokenPipe)),
            BadWriter::WantsMemory => Err(io::Error::from(ErrorKind::OutOfMemory)),
            BadWriter::CannotFlush => Ok(buf.len().min(2)),
        }
    }

    fn flush(&mut self) -> io::Result<()> {
        Err(io::Error::from(ErrorKind::BrokenPipe))
    }
}

/// What a sink over a writer answers to a first write, a second one and the end, and how many faults it has then
/// counted.
type Answers = (
    Result<usize, SinkFault>,
    Result<usize, SinkFault>,
    Result<(), SinkFault>,
    u64,
);

fn answers_over(writer: BadWriter) -> Answers {
    let mut sink = StdSink::new(writer);
    (
        sink.write(b"abc"),
        sink.write(b"c"),
        sink.finish(),
        sink.faults(),
    )
}

const FAILED: Result<usize, SinkFault> = Err(SinkFault::Failed);

const NO_MEMORY: Result<usize, SinkFault> = Err(SinkFault::Memory);

const NO_END: Result<(), SinkFault> = Err(SinkFault::Failed);

const ANSWERS: [(BadWriter, Answers); 4] = [
    (BadWriter::TakesNone, (FAILED, FAILED, NO_END, 3)),
    (BadWriter::Breaks, (FAILED, FAILED, NO_END, 3)),
    (BadWriter::WantsMemory, (NO_MEMORY, NO_MEMORY, NO_END, 1)),
    (BadWriter::CannotFlush, (Ok(2), FAILED, NO_END, 3)),
];

#[test]
fn a_writer_that_fails_is_answered_with_its_cause(rt: HostRuntime) {
    for (writer, want) in &ANSWERS {
        assert!(rt; answers_over(*writer) == *want, "{writer:?}");
    }
}

#[test]
fn a_flush_that_failed_is_told_at_the_end(rt: HostRuntime) {
    let mut sink = StdSink::new(BadWriter::CannotFlush);
    assert!(rt; sink.write(b"ab") == Ok(2) && sink.faults() == 1);
    assert!(rt; sink.finish() == NO_END && sink.faults() == 2);
}

/// A writer that counts how often it was flushed since it was last written to.
#[derive(Drop)]
struct CountsFlushes(u32);

impl Write for CountsFlushes {
    fn write(&mut self, buf: &[u8]) -> io::Result<usize> {
        self.0 = 0;
        Ok(buf.len())
    }

    fn flush(&mut self) -> io::Result<()> {
        self.0 = self.0.saturating_add(1);
        Ok(())
    }
}

#[test]
fn a_writer_is_flushed_behind_each_write(rt: HostRuntime) {
    let mut writer = CountsFlushes(0);
    assert!(rt; write_all_of(&mut StdSink::new(&mut writer), TEXT) == Ok(()));
    assert!(rt; writer.0 == 1);
    assert!(rt; StdSink::new(&mut writer).finish() == Ok(()));
    assert!(rt; writer.0 == 2);
}

const FOLDER: &str = "sb_outside_test";

const LETTERS: &str = "sb_outside_test/letters";

const EMPTY: &str = "sb_outside_test/empty";

const MISSING: &str = "sb_outside_test/missing";

/// A load of at most so many bytes behind `>`: its answer, and what stands then.
type Load = (&'static str, usize, Result<(), FolderFault>, &'static [u8]);

const LOADS: [Load; 8] = [
    (LETTERS, usize::MAX, Ok(()), b">abcdef"),
    (LETTERS, 7, Ok(()), b">abcdef"),
    (LETTERS, 6, Ok(()), b">abcdef"),
    (LETTERS, 5, Ok(()), b">abcde"),
    (LETTERS, 0, Ok(()), b">"),
    (EMPTY, 9, Ok(()), b">"),
    (MISSING, 9, Err(FolderFault::Failed), b">"),
    // A folder is no file.
    (FOLDER, 9, Err(FolderFault::Failed), b">"),
];

fn is_load<F: Folder>(alloc: Global, folder: &mut F, load: &Load) -> Result<bool, AllocError> {
    let (name, most, answer, bytes) = *load;
    let mut into = Vec::from_slice(alloc, b">")?;
    Ok(folder.load(name, most, &mut into) == answer && into.as_slice() == bytes)
}

/// The first of [`LOADS`] that a folder answers otherwise.
fn other_load<F: Folder>(
    alloc: Global,
    folder: &mut F,
) -> Result<Option<&'static str>, AllocError> {
    for load in &LOADS {
        if !is_load(alloc, folder, load)? {
            return Ok(Some(load.0));
        }
    }
    Ok(None)
}

/// A folder of two files, of which the loads with these numbers fail.
fn two_files(alloc: Global, failing: Vec<u64>) -> Result<MemFolder, AllocError> {
    let mut files = BTreeMap::new(alloc);
    files.insert(
        LETTERS.to_string(alloc)?,
        Vec::from_slice(alloc, b"abcdef")?,
    )?;
    files.insert(EMPTY.to_string(alloc)?, Vec::new(alloc))?;
    Ok(MemFolder::new(alloc, files, failing))
}

#[test]
fn folders_in_memory_give_the_first_bytes_of_a_file(rt: HostRuntime) -> Result<(), Fail> {
    let mut folder = two_files(rt.alloc(), Vec::new(rt.alloc()))?;
    assert!(rt; other_load(rt.alloc(), &mut folder)? == None);
    assert!(rt; folder.faults() == 2);
    Ok(())
}

#[test]
fn folders_give_the_first_bytes_of_a_file(rt: HostRuntime) -> Result<(), Fail> {
    let _ = fs::remove_dir_all(&rt, FOLDER);
    fs::create_dir(&rt, FOLDER)?;
    fs::write(&rt, LETTERS, b"abcdef".as_slice())?;
    fs::write(&rt, EMPTY, b"".as_slice())?;
    let mut folder = StdFolder::new(rt.alloc(), rt);
    assert!(rt; other_load(rt.alloc(), &mut folder)? == None);
    assert!(rt; folder.faults() == 2);
    fs::remove_dir_all(&rt, FOLDER)?;
    Ok(())
}

const LARGE_FOLDER: &str = "sb_outside_large";

const LARGE: &str = "sb_outside_large/large";

/// So many bytes, and another one behind them.
fn large_text(alloc: Global, count: usize) -> Result<Vec<u8>, AllocError> {
    let mut bytes = vec![in alloc; b'x'; count]?;
    bytes.push(b'y')?;
    Ok(bytes)
}

/// Whether a load of at most so many bytes of [`LARGE`] gives the first `count` bytes of the text.
fn gives_first<F: Folder>(
    alloc: Global,
    folder: &mut F,
    most: usize,
    text: &[u8],
    count: usize,
) -> bool {
    let mut into = Vec::new(alloc);
    folder.load(LARGE, most, &mut into) == Ok(()) && text.get(..count) == Some(into.as_slice())
}

/// At most how many bytes are loaded of a file of 100,001, and how many then are.
const LARGE_LOADS: [(usize, usize); 6] = [
    (4_096, 4_096),
    (4_097, 4_097),
    (100_000, 100_000),
    (100_001, 100_001),
    (100_002, 100_001),
    (1_000_000, 100_001),
];

#[test]
fn a_large_file_is_loaded_to_its_end_or_to_the_limit(rt: HostRuntime) -> Result<(), Fail> {
    let _ = fs::remove_dir_all(&rt, LARGE_FOLDER);
    fs::create_dir(&rt, LARGE_FOLDER)?;
    let text = large_text(rt.alloc(), 100_000)?;
    fs::write(&rt, LARGE, text.as_slice())?;
    let mut folder = StdFolder::new(rt.alloc(), rt);
    for (most, count) in &LARGE_LOADS {
        assert!(rt;
            gives_first(rt.alloc(), &mut folder, *most, &text, *count),
            "{most}"
        );
    }
    assert!(rt; folder.faults() == 0);
    fs::remove_dir_all(&rt, LARGE_FOLDER)?;
    Ok(())
}

/// The name of a file that is loaded, and then the answer, how many loads have failed, and what stands.
type NextLoad = (&'static str, Result<(), FolderFault>, usize, &'static [u8]);

/// Loads of two bytes one behind another, of which the second and the fourth are told to fail.
const NEXT_LOADS: [NextLoad; 6] = [
    (LETTERS, Ok(()), 0, b"ab"),
    (LETTERS, Err(FolderFault::Failed), 1, b"ab"),
    (LETTERS, Ok(()), 1, b"abab"),
    (MISSING, Err(FolderFault::Failed), 2, b"abab"),
    (MISSING, Err(FolderFault::Failed), 3, b"abab"),
    (LETTERS, Ok(()), 3, b"ababab"),
];

fn is_next_load(folder: &mut MemFolder, into: &mut Vec<u8>, load: &NextLoad) -> bool {
    let (name, answer, faults, bytes) = *load;
    folder.load(name, 2, into) == answer && folder.faults() == faults && into.as_slice() == bytes
}

#[test]
fn loads_that_are_told_to_fail_do(rt: HostRuntime) -> Result<(), Fail> {
    let mut folder = two_files(rt.alloc(), vec![in rt.alloc(); 2, 4, 4, 9]?)?;
    let mut into = Vec::new(rt.alloc());
    for load in &NEXT_LOADS {
        assert!(rt; is_next_load(&mut folder, &mut into, load), "{load:?}");
    }
    Ok(())
}

#[test]
fn a_file_without_an_end_is_loaded_in_part(rt: HostRuntime) -> Result<(), Fail> {
    let load = ("/dev/zero", 3, Ok(()), b">\0\0\0".as_slice());
    let mut folder = StdFolder::new(rt.alloc(), rt);
    assert!(rt; is_load(rt.alloc(), &mut folder, &load)?);
    Ok(())
}
