//! A worker of the cascade that is shared: the steps that it takes with its pass.
#![tactic(auto)]

mod claiming;
mod closing;
mod helping;
mod settling;
mod step;
mod working;

pub use helping::help;
pub use settling::settle_node;
pub use step::{First, OneStop, one_step};
pub use working::work_off;

// What the crates above name of the crates below.
pub use sb_cascade::{
    ArriveStop, Cascade, CascadePass, Claim, DiaryEvent, Did, Down, Dropped, END_MARK, Gate, Hand,
    Intake, Item, Keys, LatePolicy, MAX_BUNDLE, MAX_LINES, MAX_TIME, NoMemory, OpenGate, Output,
    Plan, Reason, Refusal, Stop, Stream, Streams, TryTake, process,
};
