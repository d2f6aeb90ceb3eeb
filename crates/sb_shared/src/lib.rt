//! What workers share: what lies under the turn of a node, what a leaving of a turn changes, and the rule that holds
//! between any two atomic steps.
//!
//! Between them the nodes show a moment of the engine's core that is sound, exact for what the feeder has fed, and
//! tallies with the diaries. Each leaving of a turn with an event is exactly that one event.
#![tactic(auto)]

mod keeping;
pub mod laws;
mod shared_node;
mod telling;

pub use keeping::Keeping;
pub use shared_node::{BeginStop, SharedNode, Taken};
pub use telling::{Change, FedBundle, Feed, Hands, Piece, Setting, StreamFeed};

// What the crates above name of the crates below.
pub use sb_turn::{Guard, Pass, Reason, Turns};
