//! Turns: the one place in which threads meet.
//!
//! A caller has some states, each under a turn of its own, and a shelf with 64 places for pieces. Threads work with
//! passes. A pass enters a turn ([`Turns::try_enter`], [`Turns::enter`]), has the state in its hand, and leaves by a
//! change ([`Turns::leave`]). It lays pieces on the shelf and claims them ([`Turns::put`], [`Turns::claim`]), each at
//! most once. A state word, which only rises, says whether the work ends ([`Turns::stop`], [`Turns::reason`]).
//!
//! The caller's rule ([`Keep`]) holds between any two steps of any threads. All is done by single steps on atomic
//! words, one word for each turn and each place, so no lock stands round two nodes. Other words count who waits for a
//! turn and say whether help is wanted, and nothing rests on them. Only `enter` waits, and only `new` asks for memory.
//!
//! What is not claimed: that a thread gets on, that turns are given in some order, or anything about speed.
#![tactic(auto)]

mod enter;
mod hints;
mod keep;
pub mod laws;
mod leave;
mod life;
mod passes;
mod plays;
mod reason;
mod shelf;
mod turns;
mod waiting;
mod words;

pub use keep::{Keep, Lesson, MAX_STATE_LINES};
pub use life::MAX_NODES;
pub use reason::Reason;
pub use shelf::PLACES;
pub use turns::{Entry, Guard, Hold, Pass, Ruling, Slot, Turns, View};
