//! Tests of what no command shows: public calls of the crates of evidence, of the simulator, of panels, of fleets, of questions and of
//! least times. There is a file for each crate.
//!
//! A crate with tests is proved again together with them. So tests stand apart, and the crates that they call are proved
//! once. Those of the crates of the model stand in `tfpg_model_tests`: the two are proved side by side.
#![tactic(auto)]

#[cfg(test)]
mod check;
#[cfg(test)]
mod evidence;
#[cfg(test)]
mod fleet;
#[cfg(test)]
mod given;
#[cfg(test)]
mod hyp;
#[cfg(test)]
mod panel;
#[cfg(test)]
mod predict;
#[cfg(test)]
mod sim;
#[cfg(test)]
mod whatif;
