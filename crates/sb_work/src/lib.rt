//! What a worker does with a bundle outside of any turn.
//!
//! A worker holds a bundle as a [`Claim`]. [`process`] takes it and works out what becomes of it: what a transform of
//! single records gives for its records, or the [`Part`] that a node which gathers records takes in. A [`Receipt`] is
//! left, by which the bundle is delivered and finished. Nothing of this needs the state of a node, so workers do it side
//! by side. A [`Gate`] is passed on the way, for tests that want to see who is inside.
#![tactic(auto)]

mod claim;
mod gate;
mod outputs;
mod receipt;

pub use claim::Claim;
pub use gate::{Gate, OpenGate};
pub use outputs::{Output, Part, process};
pub use receipt::Receipt;

// What the crates above name of the crates below.
pub use sb_aggregate::Aggregate;
pub use sb_base::{
    Bundle, Down, Dropped, END_MARK, Grouping, Intake, Item, Key, Keys, Kind, LatePolicy,
    MAX_BUNDLE, MAX_LINES, MAX_TIME, NoMemory, Plan, Record, Refusal, Sequence, Stop, Stream,
    Streams, TextBuf, sum_plan,
};
pub use sb_join::JoinKept;
