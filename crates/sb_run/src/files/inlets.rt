//! The rings of both files. They are asked in turns, so that neither file's thread waits for the other file.

ghost use Rattle.std.specs.Prelude.{◌≡◌, ◌++◌, List};
ghost use Rattle.sb_engines.specs.feeds.base.records.declared.item.Stream.{Stream as AStream};
ghost use Rattle.sb_engines.specs.feeds.base.records.declared.item.Streams.{Streams};
ghost use Rattle.sb_engines.specs.feeds.declared.fed.Fed.{Fed as AValue};
ghost use Rattle.sb_engines.specs.feeds.Ends.{ring_in};
ghost use Rattle.sb_run.specs.Pops.{AreInlets, PopsNext, as_stop as spec_as_stop, files_stop as spec_files_stop};
ghost use Rattle.sb_run.specs.Pops.{files_stop_if, with_stream, other_than, values_of};

use crate::files::inlet::Inlet;
use sb_engines::{FeedStop, Item, Refusal, Stop, Stream};
use std::sync::Wait;
use std::thread;

/// Why the reading of two files stopped.
#[derive(Clone, Copy, Debug, PartialEq, Eq, Drop)]
pub(crate) enum FilesStop {
    /// Both have ended, and each line was accepted.
    End,
    /// A line of a file is refused: of file a, or else of file b.
    Refused { stream: Stream, refusal: Refusal },
}

/// The rings of both files.
#[derive(Drop)]
pub(crate) struct Inlets {
    pub(crate) a: Inlet,
    pub(crate) b: Inlet,
    /// The one that is asked first.
    pub(crate) turn: Stream,
}

// The other of the two streams.
fn other_stream(stream: Stream) -> Stream
    ensures { result ≡ other_than stream }
{
    match stream {
        Stream::A => Stream::B,
        Stream::B => Stream::A,
    }
}

// Why the reading of two files stopped, where each has stopped so.
fn files_stop(a: FeedStop, b: FeedStop) -> FilesStop
    ensures { result ≡ spec_files_stop a b }
{
    match a {
        FeedStop::Refused(refusal) => FilesStop::Refused {
            stream: Stream::A,
            refusal,
        },
        FeedStop::End => match b {
            FeedStop::Refused(refusal) => FilesStop::Refused {
                stream: Stream::B,
                refusal,
            },
            FeedStop::End => FilesStop::End,
        },
    }
}

/// Where the reading of one input would have stopped so.
pub(crate) fn as_stop(stop: FilesStop) -> Stop
    ensures { result ≡ spec_as_stop stop }
{
    match stop {
        FilesStop::End => Stop::End,
        FilesStop::Refused { refusal, .. } => Stop::Refused(refusal),
    }
}

impl Inlets {
    // Takes the next item of the file of a stream, if its ring gives one.
    fn pop_of(&mut self, stream: Stream) -> Option<Item>
        ensures ring_a { ring_in self.new.a.inward ≡ ring_in self.old.a.inward }
        ensures ring_b { ring_in self.new.b.inward ≡ ring_in self.old.b.inward }
        ensures grows { (s : AStream) → (came : List AValue) × (values_of self.new s ≡ values_of self.old s ++ came) }
        ensures pops { (streams : Streams) → AreInlets streams self.old
            → PopsNext streams self.old self.new (with_stream stream result) }
    {
        match stream {
            Stream::A => self.a.pop(),
            Stream::B => self.b.pop(),
        }
    }

    /// Takes the next item of either file, if one of the rings gives one.
    pub(crate) fn pop(&mut self) -> Option<(Stream, Item)>
        ensures ring_a { ring_in self.new.a.inward ≡ ring_in self.old.a.inward }
        ensures ring_b { ring_in self.new.b.inward ≡ ring_in self.old.b.inward }
        ensures grows { (s : AStream) → (came : List AValue) × (values_of self.new s ≡ values_of self.old s ++ came) }
        ensures pops { (streams : Streams) → AreInlets streams self.old → PopsNext streams self.old self.new result }
    {
        let first = self.turn;
        let second = other_stream(first);
        self.turn = second;
        if let Some(item) = self.pop_of(first) {
            return Some((first, item));
        }
        match self.pop_of(second) {
            Some(item) => Some((second, item)),
            None => None,
        }
    }

    /// Why the reading of the files stopped, once both rings have given their stop.
    pub(crate) fn stop(&self) -> Option<FilesStop>
        ensures { result ≡ files_stop_if self.now.a.stop self.now.b.stop }
    {
        match self.a.stop {
            Some(a) => match self.b.stop {
                Some(b) => Some(files_stop(a, b)),
                None => None,
            },
            None => None,
        }
    }

    /// Takes all that the rings still give, up to the stop of each, and drops it: so no thread of a file waits for ever
    /// before a full ring.
    pub(crate) fn empty<W: Wait>(&mut self, rt: &W)
        ensures ring_a { ring_in self.new.a.inward ≡ ring_in self.old.a.inward }
        ensures ring_b { ring_in self.new.b.inward ≡ ring_in self.old.b.inward }
        ensures grows { (s : AStream) → (came : List AValue) × (values_of self.new s ≡ values_of self.old s ++ came) }
    {
        for _ in rt.forever() {
            if self.stop().is_some() {
                return;
            }
            if self.pop().is_none() {
                thread::yield_now();
            }
        }
        unreachable!()
    }
}
