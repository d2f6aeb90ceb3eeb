//! The ring of a file, as the feeder sees it.

ghost use Rattle.std.specs.Prelude.{◌≡◌, ◌++◌, ◌+◌, List, None, true, false, IfSome};
ghost use Rattle.sb_engines.specs.feeds.base.records.declared.item.Stream.{Stream as AStream};
ghost use Rattle.sb_engines.specs.feeds.base.records.declared.item.Streams.{Streams};
ghost use Rattle.sb_engines.specs.feeds.declared.fed.Fed.{Fed as AValue};
ghost use Rattle.sb_engines.specs.feeds.Ends.{values_received, ring_in};
ghost use Rattle.sb_run.specs.Pops.{IsInlet, PopsOne, is_next as spec_is_next, mark_behind as spec_mark_behind};

use crate::files::next::{is_next, mark_behind};
use sb_engines::{Fed, FeedIn, FeedStop, Item, Stream};

/// The receiving end of the ring of a stream's file, and what came out of it so far.
#[derive(Drop)]
pub(crate) struct Inlet {
    pub(crate) inward: FeedIn,
    pub(crate) stream: Stream,
    /// Whether the plan uses the stream.
    pub(crate) used: bool,
    /// The last watermark, 0 before the first.
    pub(crate) mark: u64,
    /// How many items were taken.
    pub(crate) count: usize,
    /// Why the reading of the file stopped, once that is known.
    pub(crate) stop: Option<FeedStop>,
}

impl Inlet {
    // Counts an item that may be taken next. One that may not is left out.
    fn count_in(&mut self, item: Item) -> Option<Item>
        ensures none { result ≡ None → (self.new ≡ self.old)
            × (spec_is_next self.old.stream self.old.used self.old.mark self.old.count item ≡ false) }
        ensures some { IfSome result (λ i. (i ≡ item)
            × (self.new ≡ record self.old { mark = spec_mark_behind self.old.mark item; count = self.old.count + 1 })
            × (spec_is_next self.old.stream self.old.used self.old.mark self.old.count item ≡ true)) }
    {
        if !is_next(self.stream, self.used, self.mark, self.count, &item) {
            return None;
        }
        self.mark = mark_behind(self.mark, &item);
        self.count += 1;
        Some(item)
    }

    /// Takes the next item out of the ring, if it gives one that may be taken. Behind the stop the ring is left alone.
    pub(crate) fn pop(&mut self) -> Option<Item>
        ensures ring { ring_in self.new.inward ≡ ring_in self.old.inward }
        ensures grows { (came : List AValue)
            × (values_received self.new.inward ≡ values_received self.old.inward ++ came) }
        ensures pops { (streams : Streams) (s : AStream) → IsInlet streams s self.old
            → PopsOne streams s self.old self.new result }
    {
        if self.stop.is_some() {
            return None;
        }
        let next = match self.inward.pop() {
            Some(next) => next,
            None => return None,
        };
        match next {
            Fed::Item(item) => self.count_in(item),
            Fed::Stop(stop) => {
                self.stop = Some(stop);
                None
            }
        }
    }
}
