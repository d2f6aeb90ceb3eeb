//! Tests of whole runs, through what their crates make public.
//!
//! They stand here and not in those crates, since a crate with tests is proved twice. Here only the tests are proved.
#![tactic(auto)]

#[cfg(test)]
mod cut;
#[cfg(test)]
mod one_input;
#[cfg(test)]
mod two_files;
#[cfg(test)]
mod two_inside;
