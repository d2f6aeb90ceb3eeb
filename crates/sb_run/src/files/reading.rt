//! The threads that read record files. Each file's items go through a ring of its own.

ghost use Rattle.std.specs.Prelude.{◌≡◌, [], true, length, IfOk, OnOk, Some, IfSome};
ghost use Rattle.std.specs.List.{AllByRecursion};
ghost use Rattle.std.specs.Thread.{IsSync};
ghost use mathlib.Core.List.{IsPrefix};
ghost use Rattle.sb_engines.specs.feeds.Ends.{values_fed, values_received, ring_in, ring_of, ring_out, values_sent};
ghost use Rattle.sb_engines.specs.feeds.Fed.{IsNew};
ghost use Rattle.sb_engines.specs.feeds.Files.{stream_alone as spec_stream_alone};
ghost use Rattle.sb_run.specs.FilesRead.{AreFedWhole, AreNew, AreNewOnce, AreOpened, AreReadOnce, IsFedWhole, IsOpened};
ghost use Rattle.sb_engines.specs.worker.Helping.{IsHelper};

use crate::files::inlet::Inlet;
use crate::files::inlets::Inlets;
use sb_engines::{
    Cascade, CascadePass, FeedDone, FeedIn, FeedOut, Gate, Intake, Keys, LatePolicy, NoMemory,
    Stream, Streams, feed_file, feed_pair, help_all, uses,
};
use std::alloc::Global;
use std::sync::Wait;
use std::thread::{Threads, join, join_mut};
use std::time::Clock;

/// What a thread needs to feed a file: its bytes, what is accepted of its lines, and the sending end of its ring.
#[derive(Drop)]
pub(crate) struct FilePart {
    pub(crate) bytes: Vec<u8>,
    pub(crate) intake: Intake,
    pub(crate) out: FeedOut,
}

/// Both files.
#[derive(Drop)]
pub(crate) struct Files {
    pub(crate) a: FilePart,
    pub(crate) b: FilePart,
}

/// The sending ends of both rings, once both files were fed.
#[derive(Drop)]
pub(crate) struct FilesDone {
    pub(crate) a: FeedDone,
    pub(crate) b: FeedDone,
}

// The stream alone, if it is one of these.
fn stream_alone(stream: Stream, streams: Streams) -> Streams
    ensures { result ≡ spec_stream_alone stream streams }
{
    match stream {
        Stream::A => Streams {
            a: streams.a,
            b: false,
        },
        Stream::B => Streams {
            a: false,
            b: streams.b,
        },
    }
}

// The file of a stream and its ring, before the first line.
fn open_file(
    alloc: Global,
    streams: Streams,
    late: LatePolicy,
    keys: Keys,
    stream: Stream,
    bytes: Vec<u8>,
) -> Result<(FilePart, Inlet), NoMemory>
    ensures { IfOk result (λ r. IsOpened streams late keys stream bytes.items r.0 r.1) }
{
    let (out, inward) = feed_pair(alloc)?;
    let intake = Intake::new(stream_alone(stream, streams), 0, late, keys);
    let inlet = Inlet {
        inward,
        stream,
        used: uses(streams, stream),
        mark: 0,
        count: 0,
        stop: None,
    };
    Ok((FilePart { bytes, intake, out }, inlet))
}

/// The files of both streams and their rings, before the first line.
///
/// # Errors
///
/// [`NoMemory`].
pub(crate) fn open_files(
    alloc: Global,
    streams: Streams,
    late: LatePolicy,
    keys: Keys,
    a: Vec<u8>,
    b: Vec<u8>,
) -> Result<(Files, Inlets), NoMemory>
    ensures { IfOk result (λ r. AreOpened streams late keys a.items b.items r.0 r.1) }
{
    let (part_a, inlet_a) = open_file(alloc, streams, late, keys, Stream::A, a)?;
    let (part_b, inlet_b) = open_file(alloc, streams, late, keys, Stream::B, b)?;
    let inlets = Inlets {
        a: inlet_a,
        b: inlet_b,
        turn: Stream::A,
    };
    let files = Files {
        a: part_a,
        b: part_b,
    };
    Ok((files, inlets))
}

// Feeds a file.
fn feed_part<W: Wait>(rt: &W, part: FilePart) -> FeedDone
    requires new { IsNew part.intake }
    requires nothing_sent { values_sent part.out ≡ [] }
    ensures { IsFedWhole part result }
{
    let FilePart { bytes, intake, out } = part;
    feed_file(rt, bytes, intake, out)
}

// Feeds both files, each in a thread of its own if one can be made.
fn feed_both<W: Threads + Wait + Sync>(rt: &W, files: Files) -> FilesDone
    requires { AreNew files }
    ensures { AreFedWhole files result }
{
    let Files { a, b } = files;
    let (done_a, done_b) = join(
        rt,
        move || -> FeedDone
            requires { IsNew a.intake × (values_sent a.out ≡ []) }
            ensures { IsFedWhole a result }
        { feed_part(rt, a) },
        move || -> FeedDone
            requires { IsNew b.intake × (values_sent b.out ≡ []) }
            ensures { IsFedWhole b result }
        { feed_part(rt, b) },
    );
    FilesDone {
        a: done_a,
        b: done_b,
    }
}

// Feeds both files, if they were not taken yet.
fn feed_once<W: Threads + Wait + Sync>(rt: &W, files: &mut Option<Files>) -> Option<FilesDone>
    requires { AreNewOnce files.old }
    ensures { AreReadOnce files.old result }
{
    match files.take() {
        Some(files) => Some(feed_both(rt, files)),
        None => None,
    }
}

/// Beside the feeder: both files are fed, and the helpers help until the run ends. False with a helper that found no
/// memory.
///
/// The helpers come second where no thread can be made: they end with the run, but the feeder may wait for the files.
pub(crate) fn feed_and_help<W: Threads + Wait + Clock + Sync, G: Gate + Sync>(
    rt: &W,
    alloc: Global,
    cascade: &Cascade,
    gate: &G,
    helpers: &mut Vec<CascadePass>,
    files: &mut Option<Files>,
) -> (bool, Option<FilesDone>)
    requires helpers { AllByRecursion (IsHelper cascade.now) helpers.old.items }
    requires new { AreNewOnce files.old }
    ensures back { result.0 ≡ true → AllByRecursion (IsHelper cascade.now) helpers.new.items
        × (length helpers.new.items ≡ length helpers.old.items) }
    ensures read { AreReadOnce files.old result.1 }
{
    join_mut(
        rt,
        &mut || -> bool
            requires helpers { AllByRecursion (IsHelper cascade.now) helpers.now.items }
            requires row { IsSync W.row × IsSync G.row }
            ensures { result ≡ true → AllByRecursion (IsHelper cascade.entry.now) helpers.exit.now.items
                × (length helpers.exit.now.items ≡ length helpers.entry.now.items) }
        { help_all(rt, alloc, cascade, gate, helpers) },
        &mut || -> Option<FilesDone>
            requires { AreNewOnce files.now }
            ensures { AreReadOnce files.entry.now result }
        { feed_once(rt, files) },
    )
}

/// Compares what came out of the rings with what the files fed.
pub(crate) fn tie_both(inlets: Inlets, done: FilesDone)
    requires ring_a { ring_in inlets.a.inward ≡ ring_of done.a }
    requires ring_b { ring_in inlets.b.inward ≡ ring_of done.b }
    ensures first_a { IsPrefix (values_received inlets.a.inward) (values_fed done.a) }
    ensures first_b { IsPrefix (values_received inlets.b.inward) (values_fed done.b) }
{
    let Inlets { a, b, .. } = inlets;
    let Inlet {
        inward: inward_a,
        ..
    } = a;
    let Inlet {
        inward: inward_b,
        ..
    } = b;
    let FilesDone {
        a: done_a,
        b: done_b,
    } = done;
    inward_a.tie(done_a);
    inward_b.tie(done_b);
}
