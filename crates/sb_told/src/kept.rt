//! What is kept of the items of an input: no watermark, no comment, and no item beside its record.

ghost use Rattle.std.specs.Prelude.{◌≡◌, OnOk, []};
ghost use Rattle.sb_told.specs.Keeping as spec;

use sb_feed::{Dropped, Item, NoMemory, Record, Sequence, Stream};
use std::alloc::Global;

/// The records of each stream, and the late records that were dropped, in the order of their lines.
#[derive(Drop)]
pub struct Kept {
    pub a: Sequence<Record>,
    pub b: Sequence<Record>,
    pub dropped: Sequence<Dropped>,
}

impl Kept {
    /// What is kept before the first item.
    pub fn nothing(alloc: Global) -> Kept
        ensures { spec.AreKept result [] }
    {
        Kept {
            a: Sequence::new(Vec::new(alloc)),
            b: Sequence::new(Vec::new(alloc)),
            dropped: Sequence::new(Vec::new(alloc)),
        }
    }

    /// Keeps what there is to keep of an item more.
    pub fn keep(&mut self, item: Item) -> Result<(), NoMemory>
        ensures { OnOk result (spec.Keeps self.old self.new item) }
    {
        match item {
            Item::Rec(Stream::A, record) => self.a.items.push(record)?,
            Item::Rec(Stream::B, record) => self.b.items.push(record)?,
            Item::Late { line, time, mark } => {
                self.dropped.items.push(Dropped { line, time, mark })?;
            }
            Item::Mark(_, _) | Item::Skip => {}
        }
        Ok(())
    }
}
