//! The containers of a lane, and what becomes of them.
//!
//! Watermarks cut what comes to a transform into epochs. A [`CoreLane`] has a container, [`Cont`], for each epoch in
//! progress, in order of epoch. The crate's definitions say what a bundle or a watermark that comes changes there, and
//! what a bundle that is taken or finished, and a closing that begins or ends. Its proofs say that each change keeps
//! the containers in order. They are of one lane alone: how lanes feed each other is for `sb_core`, and how a lane is
//! kept in memory for `sb_lane`.
#![tactic(auto)]

mod container;

pub use container::{Cont, CoreLane};

// What the crates above name of the crates below.
pub use sb_base::{Bundle, KeptRec, NoMemory, Record, Sequence, Stream, Trail};
