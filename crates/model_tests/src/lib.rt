//! Tests of the model and of its nodes, through what their crates make public.
//!
//! They stand here and not in those crates, since a crate with tests is proved twice. Here only the tests are proved.
#![tactic(auto)]

#[cfg(test)]
mod hand;
#[cfg(test)]
mod kept;
#[cfg(test)]
mod lane;
#[cfg(test)]
mod machine;
#[cfg(test)]
mod node;
#[cfg(test)]
mod plans;
#[cfg(test)]
mod slow;
#[cfg(test)]
mod work;
