//! The cascade in one hand.
#![tactic(auto)]

mod bundles;
mod closings;
mod did;
mod events;
mod feeding;
mod hand;
pub mod laws;
mod making;
mod settling;
mod steps;

pub use did::Did;
pub use hand::{Hand, HandParts, MAX_PENDING};

// What the crates above name of the crates below.
pub use sb_shown::{
    ArriveStop, Bundle, Claim, Closing, Diary, DiaryEvent, DiaryLine, Down, Dropped, END_MARK,
    Event, Gate, Intake, Item, Kept, Key, Keys, Lane, LaneClose, LatePolicy, MAX_BUNDLE, MAX_LINES,
    MAX_TIME, Moment, NoMemory, NodeState, NotYet, OpenGate, Output, Part, Plan, Receipt, Record,
    Refusal, Sequence, Stop, Stream, Streams, TextBuf, line_bytes, process, sum_plan,
};
