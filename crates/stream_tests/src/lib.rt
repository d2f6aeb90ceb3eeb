//! Tests of the crates below the engine: `sb_record`, `sb_outside`, `sb_window`, `sb_bundle`, `sb_pardo`,
//! `sb_windowed`, `sb_aggregate`, `sb_join`, `sb_session` and `sb_pipeline`. They stand apart because the gate proves a
//! crate with tests twice. Nothing stands on this crate.
#![tactic(auto)]

#[cfg(test)]
mod aggregations;
#[cfg(test)]
mod bundles;
#[cfg(test)]
mod joins;
#[cfg(test)]
mod outside;
#[cfg(test)]
mod plans;
#[cfg(test)]
mod records;
#[cfg(test)]
mod sessions;
#[cfg(test)]
mod transforms;
#[cfg(test)]
mod windows;
