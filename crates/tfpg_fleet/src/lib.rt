//! Many vehicles on one stream: the fleet of a diagnosis.
//!
//! - [`Fleet`] has up to [`MAX_VEHICLES`](tfpg_base::MAX_VEHICLES) vehicles of one graph, each with its own engine. [`Fleet::line`] takes a line of the stream.
//! - [`FleetTold`] is what a line brings: nothing where it is stray, or what it brings to the engine of its vehicle.
//! - [`NameList`] has the names of the vehicles. All vehicles together have at most [`MAX_FLEET_HYPOTHESES`] hypotheses.
//! - [`laws`] says what the definitions come to.
//!
//! ```
//! let mut fleet = Fleet::new(alloc, &graph, &names, 2, 1, 1_000)?;
//! match fleet.line(b"north 30 alarm LowFlow", &mut work)? {
//!     FleetTold::Stray => {} // no vehicle has this name, and nothing has changed
//!     FleetTold::Of { vehicle, line, told } => {} // what `30 alarm LowFlow` brings to the vehicle north
//! }
//! ```
//!
//! # Proved, and by which clause
//!
//! - Each vehicle of a stream is diagnosed by its own lines, as if alone: `Fleet::line`, `brings`, `stray`, `others`,
//!   `represents`.
//! - `Fleet::new`, `too_many`.
//! - Its laws.
//!
//! # Not proved
//!
//! - Time, and that one vehicle can use up the memory of all.
#![tactic(auto)]

mod belonging;
mod fleet;
mod fleet_told;
pub mod laws;
mod limits;
mod vehicle;

pub use fleet::{Fleet, NameList};
pub use fleet_told::FleetTold;
pub use limits::MAX_FLEET_HYPOTHESES;
