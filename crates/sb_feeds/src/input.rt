//! What any input feeds, which a thread of its own reads, cuts into bundles and sends through a ring.

pub(crate) mod ends;
pub(crate) mod fed;
pub(crate) mod patience;
pub(crate) mod ring;
pub(crate) mod sending;
pub(crate) mod signals;
pub(crate) mod taking;
