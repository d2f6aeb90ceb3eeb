//! The two ends of the ring that rows go through.

ghost use Rattle.sb_feeds.specs.RowsFed.{IsTimely};

use crate::rows::fed::RowsFed;
use rtrb::{Consumer, Producer, Protocol};
use std::alloc::Global;

/// The rule of the ring: the time of each row is below [`sb_feed::sb_base::END_MARK`]. So the receiving end may write
/// the rows of each value that it takes, while the other thread still sends.
#[derive(Clone, Copy)]
pub(crate) struct RowsFeeding;

impl Protocol<RowsFed> for RowsFeeding {
    ghost allows = { λ _ next. IsTimely next };
}

/// The sending end of a ring of rows. It may go to another thread, and [`crate::RowsSender`] sends rows by it.
#[derive(Drop)]
pub struct RowsOut {
    pub(crate) producer: Producer<RowsFed, Global, RowsFeeding>,
}

/// The receiving end of a ring of rows, and [`crate::print_rows`] writes what comes out of it.
#[derive(Drop)]
pub struct RowsIn {
    pub(crate) consumer: Consumer<RowsFed, Global, RowsFeeding>,
}
