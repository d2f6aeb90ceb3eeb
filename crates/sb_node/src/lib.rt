//! The state of a node while the engine runs, and what each event makes of it.
//!
//! A node has its lanes, what it keeps between two closings, how many closings have begun, and its diary. A worker
//! makes a [`Part`] of a bundle outside of any turn; the node takes the part in, and gives rows as watermarks close
//! them. [`Kept`] does both for a node of any kind. An event of the engine changes one lane of one node and adds one
//! line to that node's diary, for which room was reserved. Here is each event as a call on the one [`NodeState`] that it
//! changes; who holds the node, and what all nodes together show, is for the layers above.
#![tactic(auto)]

mod arriving;
mod closing;
mod kept;
mod looking;
mod marks;
mod state;
mod working;

pub use closing::Closing;
pub use kept::Kept;
pub use state::NodeState;

// What the crates above name of the crates below.
pub use sb_diary::{Diary, DiaryEvent, DiaryLine, line_bytes};
pub use sb_lane::{ArriveStop, Lane, LaneClose, NotYet};
pub use sb_work::{
    Bundle, Claim, Down, Dropped, END_MARK, Gate, Intake, Item, Key, Keys, LatePolicy, MAX_BUNDLE,
    MAX_LINES, MAX_TIME, NoMemory, OpenGate, Output, Part, Plan, Receipt, Record, Refusal,
    Sequence, Stop, Stream, Streams, TextBuf, process, sum_plan,
};
