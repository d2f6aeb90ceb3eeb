//! The arguments of the command line: the kit's `clap` reads them, and the grammar of `sb_words` decides.
#![tactic(auto)]

mod clapped;
mod matched;
mod reading;

pub use reading::read_words;
