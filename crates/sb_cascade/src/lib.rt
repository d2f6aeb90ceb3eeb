//! The cascade that workers share: one turn for each node, and a shelf of bundles.
//!
//! Between any two atomic steps of any workers the cascade shows a moment of the engine's core that is sound, exact for
//! what the feeder has fed, and tallies with the diaries. Each leaving of a turn with an event is exactly that one
//! event.
#![tactic(auto)]

mod cascade;
mod closings;
mod feeding;
mod life;
mod pass;
mod reasons;
mod shelf;
mod taking;
mod working;

pub use cascade::Cascade;
pub use closings::CloseStop;
pub use pass::CascadePass;
pub use taking::TryTake;

// What the crates above name of the crates below.
pub use sb_hand::{
    ArriveStop, Claim, Closing, DiaryEvent, Did, Down, Dropped, END_MARK, Gate, Hand, Intake, Item,
    Keys, LatePolicy, MAX_BUNDLE, MAX_LINES, MAX_TIME, NoMemory, OpenGate, Output, Plan, Receipt,
    Record, Refusal, Stop, Stream, Streams, process,
};
pub use sb_shared::Reason;
