//! Runs over an input that is cut in two.
//!
//! A run may be cut behind a first part of its input and go on later. More of the input may follow a first part, so its
//! end is no end of the input: a rest behind the last line feed is no line.

pub(crate) mod cut_end;
mod first_part;
mod gathering;
pub(crate) mod part;
pub(crate) mod rest;
pub(crate) mod saving;
