//! A run over two record files at once. Each file is read in a thread of its own, and the feeder takes what they give
//! out of two rings.

mod ending;
pub(crate) mod executing;
mod feeding;
mod inlet;
mod inlets;
mod next;
mod reading;
