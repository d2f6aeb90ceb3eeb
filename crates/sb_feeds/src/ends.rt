//! The two ends of the ring that a file is fed through.

ghost use Rattle.std.specs.Prelude.{◌≡◌, true, false};
ghost use Rattle.rtrb.specs.Ring.{sent};
ghost use Rattle.sb_feeds.specs.Fed.{ends_with_stop, has_stop};

use crate::fed::Fed;
use rtrb::{Consumer, Producer, Protocol};
use std::alloc::Global;

/// The rule of the ring: nothing follows a stop.
#[derive(Clone, Copy)]
pub(crate) struct Feeding;

impl Protocol<Fed> for Feeding {
    ghost allows = { λ before _. has_stop before ≡ false };
}

/// The sending end of a ring. It may go to another thread, and [`crate::feed`] sends a file by it.
#[derive(Drop)]
pub struct FeedOut {
    pub(crate) producer: Producer<Fed, Global, Feeding>,
}

/// The receiving end of a ring. It may go to another thread.
#[derive(Drop)]
pub struct FeedIn {
    pub(crate) consumer: Consumer<Fed, Global, Feeding>,
}

/// The sending end of a ring that a whole file was sent by. It stands for all that was sent.
#[derive(Drop)]
pub struct FeedDone {
    pub(crate) producer: Producer<Fed, Global, Feeding>,
    ghost whole: { ends_with_stop (sent producer) ≡ true },
}
