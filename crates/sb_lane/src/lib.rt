//! Lanes: what a node has of one input, in progress.
//!
//! Watermarks cut an input into epochs. A [`Lane`] has one container for each epoch in progress, in order of epoch: its
//! bundles, those that workers have out, and its watermark once it has come. Bundles of all containers may be processed
//! side by side, and arrive while older containers are still in work: any waiting bundle may be taken, and a lane gives
//! the oldest. Only the closing of containers keeps an order: the oldest closes first, once its watermark has come and
//! all of its bundles are finished.
//!
//! Containers stay in places of an arena, so that a container of the lane above can hold the place of the container
//! below that takes its output, and a worker delivers there without a search.
#![tactic(auto)]

mod answers;
mod arena;
mod closing;
mod container;
mod filling;
mod finding;
mod lane;
pub mod laws;
mod links;
mod putting;
mod taking;

pub use answers::{ArriveStop, LaneClose, NoMemoryWith, NotYet};
pub use lane::Lane;
