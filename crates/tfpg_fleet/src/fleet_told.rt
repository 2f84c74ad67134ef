//! What a line of the stream brings.

use tfpg_engine::Told;

/// What a line of the stream brings.
#[derive(Drop)]
pub enum FleetTold {
    /// The line belongs to no vehicle, and nothing changed.
    Stray,
    /// The line belongs to a vehicle.
    Of {
        /// The number of the vehicle, from 0.
        vehicle: u32,
        /// The number of the line among those of the vehicle, from 1.
        line: u64,
        /// What the vehicle's own line brings.
        told: Told,
    },
}
