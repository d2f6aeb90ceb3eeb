//! A run by workers that share a cascade: one of them feeds it, and the others help.

pub(crate) mod common;
pub(crate) mod feeder;
pub(crate) mod feeding;
pub(crate) mod handing;
pub(crate) mod helping;
pub(crate) mod joining;
pub(crate) mod pace;
pub(crate) mod working;
