//! What the states of nodes show of a moment: definitions and lemmas, without code.
//!
//! A hand and a cascade both keep the nodes of a plan in lanes, groupings and diaries. What these stand for in the core
//! is said here once, and what follows for an event on one node.
#![tactic(auto)]

// What the crates above name of the crates below.
pub use sb_node::{
    ArriveStop, Bundle, Claim, Closing, Diary, DiaryEvent, DiaryLine, Down, Dropped, END_MARK,
    Gate, Intake, Item, Kept, Key, Keys, Lane, LaneClose, LatePolicy, MAX_BUNDLE, MAX_LINES,
    MAX_TIME, NoMemory, NodeState, NotYet, OpenGate, Output, Part, Plan, Receipt, Record, Refusal,
    Sequence, Stop, Stream, Streams, TextBuf, line_bytes, process, sum_plan,
};
pub use sb_tally::{Event, Held, Moment};
