//! Tests of what no command shows: public calls of the crates that hold the model and its texts, and of `tfpg_diff`. There is a
//! file for each crate.
//!
//! A crate with tests is proved again together with them. So tests stand apart, and the crates that they call are proved
//! once. Those of the crates of evidence stand in `tfpg_evidence_tests`: the two are proved side by side.
#![tactic(auto)]

#[cfg(test)]
mod base;
#[cfg(test)]
mod diff;
#[cfg(test)]
mod given;
#[cfg(test)]
mod graph;
#[cfg(test)]
mod log;
#[cfg(test)]
mod report;
#[cfg(test)]
mod trace;
