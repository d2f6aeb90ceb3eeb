//! Tests of turns and of their shelf, through what `sb_turn` makes public.
//!
//! They stand here and not in that crate, since a crate with tests is proved twice. Here only the tests are proved.
#![tactic(auto)]

#[cfg(test)]
mod crowd;
#[cfg(test)]
mod numbers;
