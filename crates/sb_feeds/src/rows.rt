//! Rows that a feeder gives, which go through a ring to the thread that prints them.

pub(crate) mod ends;
pub(crate) mod fed;
pub(crate) mod printing;
pub(crate) mod ring;
pub(crate) mod sending;
