//! The pure core of the engine: its state between two events, the events that change it, and their laws.
//!
//! A [`Moment`] has, for each transform and for the sink, lanes of containers, one per epoch in progress, and what
//! workers have in hand. An [`Event`] is a single change: a bundle or a watermark comes, a worker takes a bundle,
//! delivers what it gives, finishes it, begins the closing of a container, passes its watermark, or ends it. [`laws`]
//! states what holds of every list of events, in whatever order workers make them: no record is lost and none counts
//! twice. What runs events on a moment is `sb_machine`.
#![tactic(auto)]

mod event;
mod held;
pub mod laws;
mod moment;

pub use event::Event;
pub use held::Held;
pub use moment::{Moment, Node};

// What the crates above name of the crates below.
pub use sb_containers::{Bundle, Cont, CoreLane, NoMemory, Trail};
