//! The two ends of the ring that an input is fed through.

ghost use Rattle.sb_feeds.specs.InputFed.{MayFollow};

use crate::input::fed::InputFed;
use rtrb::{Consumer, Producer, Protocol};
use std::alloc::Global;

/// The rule of the ring: each item is in time behind those before it. So the receiving end knows it of each item that
/// it takes, while the other thread still reads.
#[derive(Clone, Copy)]
pub(crate) struct InputFeeding;

impl Protocol<InputFed> for InputFeeding {
    ghost allows = { λ before next. MayFollow before next };
}

/// The sending end of a ring. It may go to another thread, and [`crate::feed_input`] sends an input by it.
#[derive(Drop)]
pub struct InputOut {
    pub(crate) producer: Producer<InputFed, Global, InputFeeding>,
}

/// The receiving end of a ring. It may go to another thread.
#[derive(Drop)]
pub struct InputIn {
    pub(crate) consumer: Consumer<InputFed, Global, InputFeeding>,
}
