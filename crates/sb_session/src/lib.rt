//! Sessions, grouped part by part: what gathers records into sessions and gives rows as watermarks close them.
//!
//! A [`Session`] keeps the values of the records whose sessions are open, in a map by key and time, and for each record
//! the end that its session has if no later record follows. A closing looks at those of the ends that are due, and asks
//! the map whether the session goes on. So a record costs O(log n) where n are kept, a closing costs as much for each
//! end that is due, and what stays open is not looked at. What sessions are and what they give is defined in
//! `sb_windowed`, on lists alone.
#![tactic(auto)]

mod close;
mod keyed_time;
mod open;
mod session;
mod times;

pub use session::Session;
