//! A cutter for each stream.

ghost use Rattle.std.specs.Prelude.{◌≡◌, ◌≤◌, ◌<◌, IfOk, OnErr, IfSome};
ghost use Rattle.sb_base.specs.bundle.Bundles.{IsBundleOf};
ghost use Rattle.sb_base.specs.bundle.Cuts.{given_with, after_record, given_at_mark, after_mark};
ghost use Rattle.sb_feed.specs.FedByItems.{cutter_of, new_cutters, with_cutter};

use sb_base::{Bundle, Cutter, MAX_BUNDLE, NoMemory, Record, Stream};
use std::alloc::Global;

/// A cutter for each of the two streams.
#[derive(Drop)]
pub struct Cutters {
    pub a: Cutter,
    pub b: Cutter,
}

impl Cutters {
    /// Cutters before the first record, for bundles of so many records, 1 to [`MAX_BUNDLE`].
    pub fn new(alloc: Global, size: u32) -> Cutters
        requires some { 1 ≤ size }
        requires most { size ≤ MAX_BUNDLE }
        ensures { result ≡ new_cutters size }
    {
        Cutters {
            a: Cutter::new(alloc, size),
            b: Cutter::new(alloc, size),
        }
    }

    /// Takes the next record of a stream, whose time is not below the stream's last watermark, and gives the bundle
    /// that it fills, if it fills one.
    ///
    /// # Errors
    ///
    /// [`NoMemory`]; then the record is not taken.
    #[inline(always)]
    pub fn push(&mut self, stream: Stream, next: Record) -> Result<Option<Bundle>, NoMemory>
        requires { (cutter_of self.old stream).floor ≤ next.time }
        ensures given { IfOk result (λ given. given ≡ given_with next (cutter_of self.old stream)) }
        ensures after { IfOk result (λ _.
            self.new ≡ with_cutter stream (after_record next (cutter_of self.old stream)) self.old) }
        ensures sound { IfOk result (λ given. IfSome given (IsBundleOf (cutter_of self.old stream))) }
        ensures err { OnErr result (self.new ≡ self.old) }
    {
        match stream {
            Stream::A => self.a.push(next),
            Stream::B => self.b.push(next),
        }
    }

    /// Takes the next watermark of a stream, which is not below the last, and gives the last bundle of the epoch that
    /// it ends, if any record was held. It takes no memory.
    pub fn mark(&mut self, stream: Stream, mark: u64) -> Option<Bundle>
        requires rising { (cutter_of self.old stream).floor ≤ mark }
        requires countable { (cutter_of self.old stream).epoch < u64.MAX }
        ensures given { result ≡ given_at_mark (cutter_of self.old stream) }
        ensures after { self.new ≡ with_cutter stream (after_mark mark (cutter_of self.old stream)) self.old }
        ensures sound { IfSome result (IsBundleOf (cutter_of self.old stream)) }
    {
        match stream {
            Stream::A => self.a.mark(mark),
            Stream::B => self.b.mark(mark),
        }
    }
}
