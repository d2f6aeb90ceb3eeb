//! Tests of feeding and of giving out rows, through what their crates make public.
//!
//! They stand here and not in those crates, since a crate with tests is proved twice. Here only the tests are proved.
#![tactic(auto)]

#[cfg(test)]
mod feed;
#[cfg(test)]
mod feeds;
